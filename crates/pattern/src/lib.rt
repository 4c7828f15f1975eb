// The pattern reader: one pass over the bytes by an automaton with a count of operands still to come, then the nodes from the last to the first.
#![tactic(auto)]

ghost use Rattle.pattern.specs.Reading.{ReadGives};

mod alphabet;
mod automaton;
mod scanner;
mod tree;

use nodes::{NODES, Node, Nodes};
use scanner::scan;
use tree::measure;

// The nodes in preorder, and how many they are; behind them no nodes.
#[derive(Clone, Copy, Debug, PartialEq, Eq)]
pub struct Table {
    pub count: usize,
    pub rows: Nodes,
}

// A pattern's bounds: bytes, and depth; NODES bounds its nodes.
const PATTERN_MAX: usize = 1024;

const DEPTH_MAX: usize = 8;

// Why a text is no pattern: too long, misspelt with the place, crowded, deep.
#[derive(Clone, Copy, Debug, PartialEq, Eq)]
pub enum Refusal {
    Long,
    Misspelt(usize),
    Crowded,
    Deep,
}

// Where a number of a symbol stands: the kind, the number's place, the numbers before it; and how many trees are still to come, the present one counted.
#[derive(Clone, Copy)]
struct Slot {
    pub kind: usize,
    pub field: usize,
    pub first: usize,
    pub second: usize,
    pub need: usize,
}

// What has been read of a symbol, and the number of trees still to come.
#[derive(Clone, Copy)]
enum State {
    // letters: of a row's word, the first so many
    Letters {
        row: usize,
        read: usize,
        need: usize,
    },
    // a word, whole fields, and a comma
    Field(Slot),
    // and digits of a value
    Digits(Slot, usize),
}

// What a byte does to a state that goes on.
#[derive(Clone, Copy)]
enum Step {
    Within(State),
    // the comma after a whole symbol: a node, the size of its subtree not known yet
    Closed(Node, State),
}

// Reads a pattern: the lowest refusal that applies, else the table of the pattern that the text spells.
pub fn read(text: &[u8]) -> Result<Table, Refusal>
    ensures { ReadGives text.now result }
{
    if PATTERN_MAX < text.len() {
        return Err(Refusal::Long);
    }
    let mut table = scan(text)?;
    if NODES < table.count {
        return Err(Refusal::Crowded);
    }
    if DEPTH_MAX < measure(&mut table) {
        return Err(Refusal::Deep);
    }
    Ok(table)
}
