// A short list: of a pattern's answers the shortest, then the shortest of those that share no line with it, and so on, into lent cells.
// The log is marked once; each pick is one pass of the machine over the marks, with the picks so far read from the cells.
#![tactic(auto)]

ghost use Rattle.std.specs.Prelude.{◌≡◌, ◌*◌, ◌≤◌, ◌<◌, length, None};
ghost use Rattle.stretches.specs.Stretch.{st};
ghost use Rattle.stretches.specs.Filling.{filled};
ghost use Rattle.meaning.specs.Meaning.{table_in};
ghost use Rattle.meaning.specs.Replies.{reply};
ghost use Rattle.seek.specs.Source.{source_of, list_over, Good};
ghost use Rattle.picks.specs.Picks.{ahead};
ghost use Rattle.picks.specs.Picking.{picks_in, picking};
ghost use Rattle.picks.specs.inner.Remaining.{remaining, shortest_of};
ghost use Rattle.picks.specs.inner.Passes.{held_in, Lying, Upright, nearer, next_of, better, Wrote};

use acceptance::read_both;
use meaning::Refusal;
use nodes::Nodes;
use plan::with_marks;
use seek::{Searched, State};
use stretches::Stretch;

// The most picks that a call may ask for.
const MOST: usize = 16;

// ── A pass ──

// The pick x, or the one that starts before it; a pick that ends before line t does not count.
fn nearer(t: u32, x: Stretch, r: Option<Stretch>) -> Option<Stretch>
    ensures { result ≡ nearer t x r }
{
    if x.end < t {
        return r;
    }
    match r {
        Some(n) if n.start <= x.start => r,
        _ => Some(x),
    }
}

// Of the n picks in the cells that end at line t or later, the one that starts first.
fn next_pick(cells: &[u32], n: usize, t: u32) -> Option<Stretch>
    requires { 2 * n ≤ length cells.now }
    ensures { result ≡ next_of t None (held_in cells.now n) }
{
    let mut r = None;
    for i in 0..n {
        let x = Stretch {
            start: cells[2 * i],
            end: cells[2 * i + 1],
        };
        r = nearer(t, x, r);
    }
    r
}

// Whether f is picked before g: it is shorter, or as long and starts later.
fn is_ahead(f: Stretch, g: Stretch) -> bool
    requires { (f.start ≤ f.end) × (g.start ≤ g.end) }
    ensures { result ≡ ahead f g }
{
    let x = f.end - f.start;
    let y = g.end - g.start;
    x < y || x == y && g.start < f.start
}

// The best so far, none at first, or a further answer that is picked before it.
fn better(best: Option<Stretch>, f: Stretch) -> Option<Stretch>
    requires { (f.start ≤ f.end) × Upright best }
    ensures { result ≡ better best f }
{
    match best {
        None => Some(f),
        Some(b) => { if is_ahead(f, b) { Some(f) } else { best } }
    }
}

// The shortest of node 0's stretches that share no line with the n picks in the cells. One that ends before the next pick starts shares none; where one
// reaches it, that one and the following ones share a line with it as far as they start at or before its end.
fn shortest_left(searched: &Searched, cells: &[u32], n: usize) -> Option<Stretch>
    requires { Good (source_of searched.now) searched.now.rows.now × (2 * n ≤ length cells.now) × Lying (held_in cells.now n) }
    ensures { result ≡ shortest_of (remaining (held_in cells.now n) (list_over (source_of searched.now) searched.now.rows.now 0)) }
{
    let mut st = State::new();
    let mut best = None;
    let mut next = next_pick(cells, n, 0);
    let mut t: u32 = 0;
    while let Some(f) = searched.first(&mut st, 0, t) {
        match next {
            Some(p) if p.start <= f.end => {
                t = p.end + 1;
                next = next_pick(cells, n, t);
            }
            _ => {
                best = better(best, f);
                t = f.start + 1;
            }
        }
    }
    best
}

// Writes up to k picks of node 0's stretches, as many as whole pairs fit.
fn pick_all(searched: &Searched, k: usize, cells: &mut [u32]) -> usize
    requires { Good (source_of searched.now) searched.now.rows.now }
    ensures { Wrote k (list_over (source_of searched.now) searched.now.rows.now 0) cells.old result cells.new }
{
    let most = k.min(cells.len() / 2);
    for n in 0..most {
        let Some(f) = shortest_left(searched, cells, n) else {
            return n;
        };
        cells[2 * n] = f.start;
        cells[2 * n + 1] = f.end;
    }
    most
}

// ── The call ──

// In any log that is not too long.
fn pick_in(rows: &Nodes, log: &[u8], k: usize, cells: &mut [u32]) -> usize
    requires { length log.now ≤ 61440 }
    ensures { Wrote k (table_in rows.now log.now) cells.old result cells.new }
{
    let picked = with_marks(
        rows,
        log,
        cells,
        |searched, cells|
            requires { Good (source_of searched.now) searched.now.rows.now }
            ensures { Wrote k (list_over (source_of searched.now) searched.now.rows.now 0) cells.old result cells.new }
        { pick_all(searched, k, cells) },
    );
    picked.unwrap()
}

// Writes up to k picks of a pattern's answers in a log, in picking order, start then end, as many as whole pairs fit. Refused: nothing is written.
pub fn pick(text: &[u8], log: &[u8], k: usize, cells: &mut [u32]) -> Result<usize, Refusal>
    ensures value { reply result ≡ picking text.now log.now k cells.old }
    ensures cells_after { cells.new ≡ filled (picks_in text.now log.now k) 0 cells.old }
{
    // By reference: taken out of the Result, the table stands on the stack once more.
    let read = read_both(text, log);
    let rows = match &read {
        Ok(rows) => rows,
        Err(refusal) => return Err(*refusal),
    };
    if k < 1 || MOST < k {
        return Err(Refusal::BadCount);
    }
    Ok(pick_in(rows, log, k, cells))
}
