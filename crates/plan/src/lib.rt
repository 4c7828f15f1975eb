// The machine's table of a pattern's table, over rows of marks: each leaf becomes the row of its number among the table's different leaves.
// words as `marking` has them.
#![tactic(auto)]

ghost use Rattle.std.specs.Prelude.{◌≡◌, ◌+◌, ◌≤◌};
ghost use Rattle.plan.specs.Plan.{width_of, plan_node, planned, has_max, sound_words, prepared, prepared_sound};

mod room;

use leaves::{Leaf, Leaves};
use marking::mark;
use marks::{WIDEST, fit};
use nodes::{MARKS, MAX, NO_NODE, NODES, Node, Nodes, is_leaf};
pub use room::with_marks;

// The words of a row in a log of few lines, and of all rows then; and of all rows in any log.
pub const FEW: usize = 128;

pub const FEW_WORDS: usize = 4096;

pub const WORDS: usize = 30720;

// The words of the row of the sound lines with its counts, in a log of few lines and in any.
pub const FEW_SOUND: usize = 256;

pub const SOUND: usize = 1920;

// How many words a row of the log's lines has.
pub fn width(log: &[u8]) -> usize
    ensures { result ≡ width_of log.now }
{
    (lines::line_count(log) + 63) / 64
}

// Whether a node is a `max`.
fn has_max(rows: &Nodes) -> bool
    ensures { result ≡ has_max rows.now }
{
    rows.iter().any(|node| node.kind == MAX)
}

// How many words the row of the sound lines takes with its counts, a row of the log's lines having `width` words. It is kept only where a node is a `max`.
pub fn sound_words(rows: &Nodes, width: usize) -> usize
    ensures { (result ≡ sound_words rows.now width) × (result ≤ width + width) }
{
    if width <= WIDEST && has_max(rows) {
        width + width
    } else {
        0
    }
}

// A leaf becomes the row of its number.
fn plan_node(leaves: &Leaves, width: usize, node: Node) -> Node
    requires { width ≤ 1024 }
    ensures { result ≡ plan_node leaves.now width node }
{
    if !is_leaf(node.kind) {
        return node;
    }
    match leaves.find(Leaf::from(node)) {
        Some(r) => Node {
            kind: MARKS,
            first: r * width,
            second: width,
            ..node
        },
        None => node,
    }
}

// Each leaf becomes the row of its number. In place: a table handed out is a copy more on the stack.
fn plan(rows: &mut Nodes, leaves: &Leaves, width: usize)
    requires { width ≤ 1024 }
    ensures { rows.new ≡ planned leaves.now width rows.old }
{
    for node in rows.iter_mut() {
        *node = plan_node(leaves, width, *node);
    }
}

// Marks the log's lines for the leaves of a pattern's table, and the sound ones in `sound`, and gives the table over these rows: where a row has a bit for each
// line, and `sound` the words that `sound_words` says, each of its nodes has the list that it has in the pattern's table. Where the rows do not fit into the
// words, these and `sound` stay, and the table has no nodes: `prepared`, a public promise, says so, and `Roomy` words have room.
pub fn prepare(
    rows: &Nodes,
    log: &[u8],
    width: usize,
    words: &mut [u64],
    sound: &mut [u64],
) -> Nodes
    ensures value { result ≡ (prepared rows.now log.now width words.old).rows }
    ensures words_after { words.new ≡ (prepared rows.now log.now width words.old).words }
    ensures sound_after { sound.new ≡ prepared_sound rows.now log.now width words.old sound.old }
{
    let mut leaves = Leaves::new();
    leaves.gather(rows);
    let list = leaves.as_slice();
    let n = list.len();
    if !fit(n, width, words.len()) {
        return [NO_NODE; NODES];
    }
    mark(log, list, width, words, sound);
    let mut table = *rows;
    plan(&mut table, &leaves, width);
    folding::fold(&mut table, words, width, n * width);
    table
}
