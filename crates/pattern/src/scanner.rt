// The scan of a text: its symbols in preorder, or the place where no pattern goes on.
ghost use Rattle.std.specs.Prelude.{◌≡◌, ◌≤◌, length};
ghost use Rattle.pattern.specs.Automaton.{scan};
ghost use Rattle.pattern.specs.inner.Scanner.{Tells, put};

use super::automaton::{advance, last};
use super::{Refusal, State, Step, Table};
use nodes::{NO_NODE, NODES, Node};

impl Table {
    // A node more; past NODES of them they are counted only.
    fn put(&mut self, node: Node)
        requires { self.old.count ≤ 1024 }
        ensures { self.new ≡ put self.old node }
    {
        if self.count < NODES {
            self.rows[self.count] = node;
        }
        self.count += 1;
    }
}

// The symbols of a text as nodes, the sizes of their subtrees not known yet; or the place where it stops.
pub(crate) fn scan(text: &[u8]) -> Result<Table, Refusal>
    requires { length text.now ≤ 1024 }
    ensures { Tells (scan text.now (State.Letters 0 0 1)) result }
{
    let mut table = Table {
        count: 0,
        rows: [NO_NODE; NODES],
    };
    let mut s = State::Letters {
        row: 0,
        read: 0,
        need: 1,
    };
    // the chart is copied here, once for a text
    let places = digits::chart();
    let mut from = 0;
    for (i, b) in text.iter().enumerate() {
        let end = i + 1;
        match advance(&places, &text[from..end], s, *b).ok_or(Refusal::Misspelt(i))? {
            Step::Within(t) => s = t,
            Step::Closed(node, t) => {
                table.put(node);
                s = t;
            }
        }
        if *b == b',' {
            from = end;
        }
    }
    let node = last(s).ok_or(Refusal::Misspelt(text.len()))?;
    table.put(node);
    Ok(table)
}
