// A table folded over rows of marks: an `or` of rows alone becomes one row, and so does a `max` of a row, node by node from the last to the first.
// rows and words are as `seek` has them. They go from function to function with the width and the free place: in a struct of the two references each method
// would have to promise besides that it keeps both.
#![tactic(auto)]

ghost use Rattle.std.specs.Prelude.{◌≡◌, ◌<◌};
ghost use Rattle.stretches.specs.Table.{operand_numbers};
ghost use Rattle.folding.specs.Fold.{folding, is_row, rows_before, with_leaf, fold_or, max_folded, fold_node, folded};
ghost use Rattle.folding.specs.inner.Uniting.{united_all};

use nodes::{MARKS, MAX, NODES, Node, Nodes, OR, operands_of, stop_of};

// Whether the node is a row of this width that ends at or before place `free`.
fn is_row(node: Node, width: usize, free: usize) -> bool
    ensures { result ≡ is_row width free node }
{
    node.kind == MARKS && node.second == width && width <= free && node.first <= free - width
}

// Whether all of v's operands are.
fn all_rows(rows: &Nodes, width: usize, free: usize, v: usize) -> bool
    requires { v < 32 }
    ensures { result ≡ rows_before rows.now width free (operand_numbers rows.now v) }
{
    for c in operands_of(rows, v) {
        if !is_row(rows[c], width, free) {
            return false;
        }
    }
    true
}

// Unites the row from place `to` on with the rows of v's operands.
fn unite_all(rows: &Nodes, words: &mut [u64], to: usize, width: usize, v: usize)
    requires { v < 32 }
    ensures { words.new ≡ united_all rows.now words.old to width (operand_numbers rows.now v) }
{
    for u in operands_of(rows, v) {
        row_union::unite(words, to, rows[u].first, width);
    }
}

#[tactic(auto, unfolding(crate::specs::Fold::with_leaf))]
fn put_row(rows: &mut Nodes, v: usize, at: usize, width: usize)
    requires { v < 32 }
    ensures { rows.new ≡ with_leaf rows.old v at width }
{
    rows[v] = Node {
        kind: MARKS,
        first: at,
        second: width,
        ..rows[v]
    };
}

// `or`: the place behind the last row in use.
fn fold_or(rows: &mut Nodes, words: &mut [u64], width: usize, free: usize, v: usize) -> usize
    requires { v < 32 }
    ensures { folding rows.new words.new result ≡ fold_or width v (folding rows.old words.old free) }
{
    if !marks::inside(words.len(), free, width) || !all_rows(rows, width, free, v) {
        return free;
    }
    row_union::clear(words, free, width);
    unite_all(rows, words, free, width, v);
    put_row(rows, v, free, width);
    free + width
}

#[tactic(auto, unfolding(crate::specs::Fold::max_folded))]
fn fold_max(rows: &mut Nodes, width: usize, free: usize, v: usize)
    requires { v < 32 }
    ensures { rows.new ≡ max_folded rows.old width free v }
{
    let c = v + 1;
    if c < stop_of(rows, v) && is_row(rows[c], width, free) && 1 <= rows[v].first {
        let at = rows[c].first;
        put_row(rows, v, at, width);
    }
}

// Node v: the place behind the last row in use.
#[tactic(auto, unfolding(crate::specs::Fold::fold_node))]
fn fold_node(rows: &mut Nodes, words: &mut [u64], width: usize, free: usize, v: usize) -> usize
    requires { v < 32 }
    ensures { folding rows.new words.new result ≡ fold_node width v (folding rows.old words.old free) }
{
    match rows[v].kind {
        OR => fold_or(rows, words, width, free, v),
        MAX => {
            fold_max(rows, width, free, v);
            free
        }
        _ => free,
    }
}

// Makes one row of each `or` of rows of `width` words, and of each `max` of one with a bound of at least 1. New rows lie from place `free` on, as far as the
// words have room. Where every row of the table ends at or before `free`, no node's list changes.
pub fn fold(rows: &mut Nodes, words: &mut [u64], width: usize, free: usize)
    ensures rows_after { rows.new ≡ (folded width 32 (folding rows.old words.old free)).rows }
    ensures words_after { words.new ≡ (folded width 32 (folding rows.old words.old free)).words }
{
    let mut place = free;
    for v in (0..NODES).rev() {
        place = fold_node(rows, words, width, place, v);
    }
}
