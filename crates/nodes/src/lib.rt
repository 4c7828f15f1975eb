// The kinds of nodes by number, tables of 32 nodes, and where a node's operands stand in one: the first behind its operator, each next one behind the subtree of the one before.
#![tactic(auto)]

ghost use Rattle.std.specs.Prelude.{◌≡◌, ◌<◌, ◌≤◌};
ghost use Rattle.stretches.specs.Table.{leaf_kind, chain_kind, proof_kind, next_of, stop_of};

mod among;

pub use among::operands_of;
pub use stretches::Node;

// The kinds of nodes: operators, by their numbers;
pub const OR: usize = 1;

pub const AND: usize = 2;

pub const ROW: usize = 3;

pub const THEN: usize = 4;

pub const LESS: usize = 5;

pub const MAX: usize = 6;

pub const IN: usize = 7;

pub const OUT: usize = 8;

pub const HAS: usize = 9;

// leaves of a pattern: lines by code and by frame;
pub const EV: usize = 16;

pub const FR: usize = 17;

// leaves of the search machine: a row of marks, and a lent list.
pub const MARKS: usize = 16;

pub const LIST: usize = 17;

// The nodes that a table has room for, and a table.
pub const NODES: usize = 32;

pub type Nodes = [Node; NODES];

// A place where no node stands.
pub const NO_NODE: Node = Node {
    kind: 0,
    size: 0,
    first: 0,
    second: 0,
    third: 0,
};

// Whether a pattern's leaves have this kind.
pub fn is_leaf(kind: usize) -> bool
    ensures { result ≡ leaf_kind kind }
{
    kind == EV || kind == FR
}

// Whether the operands of this kind follow each other: `row` and `then`.
pub fn is_chain(kind: usize) -> bool
    ensures { result ≡ chain_kind kind }
{
    kind == ROW || kind == THEN
}

// Whether this kind shows of B what proves an answer: `in` and `has`, which keep what one of B is found for.
pub fn is_proof(kind: usize) -> bool
    ensures { result ≡ proof_kind kind }
{
    kind == IN || kind == HAS
}

// The sibling after c: past c, and at most 32; 32 where there is no node c.
pub fn next_of(rows: &Nodes, c: usize) -> usize
    ensures lower_bound { (c < 32 → c < result) × (result ≤ 32) }
    ensures value { result ≡ next_of rows.now c }
{
    if NODES <= c {
        return NODES;
    }
    let n = rows[c].size;
    if n == 0 {
        return c + 1;
    }
    if n <= NODES - c { c + n } else { NODES }
}

// The end of v's operands; 32 where there is no node v.
pub fn stop_of(rows: &Nodes, v: usize) -> usize
    ensures upper_bound { result ≤ 32 }
    ensures value { result ≡ stop_of rows.now v }
{
    if NODES <= v {
        return NODES;
    }
    let n = rows[v].size;
    if n <= NODES - v { v + n } else { NODES }
}

// The operands of a node, in turn: those from `at` on, up to `stop`.
#[derive(Drop)]
pub struct Operands<'a> {
    rows: &'a Nodes,
    at: usize,
    stop: usize,
    ghost in_table: { stop ≤ 32 },
}
