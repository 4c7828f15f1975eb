// Every stretch with the lines that made it: for one answer of a pattern the nodes that took part, each with its stretch, into lent cells.
// The log is marked once; every shown stretch is the first of its node's list from some line on, or to one, and is sought anew.
#![tactic(auto)]

ghost use Rattle.std.specs.Prelude.{◌≡◌, true, cond, [], ◌∷◌, ◌+◌, ◌≤◌, ◌<◌, length};
ghost use Rattle.stretches.specs.inner.Below.{each_kind};
ghost use Rattle.meaning.specs.Shown.{shows};
ghost use Rattle.seek.specs.Source.{source_of, Good};
ghost use Rattle.seek.specs.First.{Ready};
ghost use Rattle.meaning.specs.Replies.{reply};
ghost use Rattle.witness.specs.Witness.{shown_in, filled_shown, witnessing};
ghost use Rattle.witness.specs.inner.Showing.{Grown, operand_of, ShownAt, AnswerShown, TableShown};

use acceptance::read_both;
use meaning::Refusal;
use nodes::{AND, IN, Nodes, is_chain, is_leaf, is_proof, operands_of};
use plan::with_marks;
use seek::{Searched, State};
use stretches::Stretch;

// ── One answer ──

// Writes node v and its stretch behind n triples, if a whole triple fits: how many there are now.
fn put(cells: &mut [u32], n: usize, v: usize, x: Stretch) -> usize
    requires { v < 32 }
    ensures { Grown (shows v x ∷ []) n cells.old result cells.new }
{
    if cells.len() / 3 <= n {
        return n;
    }
    cells[3 * n] = v as u32;
    cells[3 * n + 1] = x.start;
    cells[3 * n + 2] = x.end;
    n + 1
}

// Whether an operator shows all of its operands, not one alone: `and`, `row` and `then`, `in` and `has`.
fn shows_each(kind: usize) -> bool
    ensures { result ≡ each_kind kind }
{
    kind == AND || is_chain(kind) || is_proof(kind)
}

// The line from which the next operand is sought, after one that ends at line e.
fn after(chain: bool, t: u32, e: u32) -> u32
    requires { e < 65536 }
    ensures { result ≡ cond chain (e + 1) t }
{
    if chain { e + 1 } else { t }
}

// What is shown of operand c for the answer f, none where nothing is: its first stretch from line t on, if it does not end behind f. Enclosing, as B of `in`,
// its first to f's end, if it does not start behind f's start.
fn operand(
    searched: &Searched,
    st: &mut State,
    c: usize,
    t: u32,
    enclosing: bool,
    f: Stretch,
) -> Option<Stretch>
    requires { Good (source_of searched.now) searched.now.rows.now × Ready (source_of searched.now) searched.now.rows.now st.old × (c < 32) }
    ensures value { result ≡ operand_of (source_of searched.now) searched.now.rows.now c t enclosing f }
    ensures ready { Ready (source_of searched.now) searched.now.rows.now st.new }
{
    if enclosing {
        let Some(g) = searched.first_to(st, c, f.end) else {
            return None;
        };
        return if g.start <= f.start { Some(g) } else { None };
    }
    let Some(g) = searched.first(st, c, t) else {
        return None;
    };
    if g.end <= f.end { Some(g) } else { None }
}

// Writes what node v shows of its answer f behind n triples: how many there are now. Of an `or` what is found of an operand is f itself, `and`, `row` and
// `then` have one from each operand, the filters have f, and `in` and `has` one of B behind it. rows is the pattern's table, and table the machine's.
fn show_node(
    rows: &Nodes,
    searched: &Searched,
    st: &mut State,
    cells: &mut [u32],
    v: usize,
    f: Stretch,
    n: usize,
) -> usize
    requires { Good (source_of searched.now) searched.now.rows.now × Ready (source_of searched.now) searched.now.rows.now st.old × (v < 32) }
    ensures shown_at { ShownAt (source_of searched.now) searched.now.rows.now rows.now v f n cells.old result cells.new }
    ensures ready { Ready (source_of searched.now) searched.now.rows.now st.new }
{
    let mut k = put(cells, n, v, f);
    let kind = rows[v].kind;
    if is_leaf(kind) {
        return k;
    }
    let each = shows_each(kind);
    let chain = is_chain(kind);
    let later = kind == IN;
    let mut t = f.start;
    let mut enclosing = false;
    for c in operands_of(rows, v) {
        let found = operand(searched, st, c, t, enclosing, f);
        enclosing = later;
        if let Some(g) = found {
            k = show_node(rows, searched, st, cells, c, g, k);
            if !each {
                return k;
            }
            t = after(chain, t, g.end);
        }
    }
    k
}

// Writes what answer number `number` of the table's first node shows.
fn show_answer(rows: &Nodes, searched: &Searched, number: usize, cells: &mut [u32]) -> usize
    requires { Good (source_of searched.now) searched.now.rows.now }
    ensures { AnswerShown (source_of searched.now) searched.now.rows.now rows.now number cells.old result cells.new }
{
    let mut pair = [0u32; 2];
    let w = walk::fill(searched, &mut pair, 0, number);
    if w.count == 0 {
        return 0;
    }
    let f = Stretch {
        start: pair[0],
        end: pair[1],
    };
    let mut st = State::new();
    show_node(rows, searched, &mut st, cells, 0, f, 0)
}

// ── The call ──

// In any log that is not too long.
fn show_in(rows: &Nodes, log: &[u8], number: usize, cells: &mut [u32]) -> usize
    requires { length log.now ≤ 61440 }
    ensures { TableShown rows.now log.now number cells.old result cells.new }
{
    let shown = with_marks(
        rows,
        log,
        cells,
        |searched, cells|
            requires { Good (source_of searched.now) searched.now.rows.now }
            ensures { AnswerShown (source_of searched.now) searched.now.rows.now rows.entry.now number cells.old result cells.new }
        { show_answer(rows, searched, number, cells) },
    );
    shown.unwrap()
}

// Writes the nodes that took part in answer number `number` (the first is 0) of a pattern in a log, in node order, each as node, start, end, as many as whole
// triples fit. Past the last answer, and refused: nothing is written.
pub fn show(text: &[u8], log: &[u8], number: usize, cells: &mut [u32]) -> Result<usize, Refusal>
    ensures value { reply result ≡ witnessing text.now log.now number cells.old }
    ensures cells_after { cells.new ≡ filled_shown (shown_in text.now log.now number) cells.old }
{
    // By reference: taken out of the Result, the table stands on the stack once more.
    match &read_both(text, log) {
        Ok(rows) => Ok(show_in(rows, log, number, cells)),
        Err(refusal) => Err(*refusal),
    }
}
