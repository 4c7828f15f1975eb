// Leaves: a row of marks, or a lent list.
ghost use Rattle.std.specs.Prelude.{◌≡◌, ◌<◌, ◌≤◌, length};
ghost use Rattle.stretches.specs.Table.{first_at, second_at};
ghost use Rattle.stretches.specs.Stretch.{st};
ghost use Rattle.seek.specs.inner.Leaves.{Resumed, Ran, ListFound, RowFound};

use crate::fronts::GONE;
use crate::{Searched, State};
use basics::wide;
use stretches::Stretch;

// The front of one line; none from line 65,536 on.
fn at_line(line: usize) -> Stretch
    ensures { line < 65536 → result ≡ st line line }
{
    if 65535 < line {
        return GONE;
    }
    Stretch {
        start: line as u32,
        end: line as u32,
    }
}

fn hint_of(x: usize) -> u32 {
    if x < 4294967296 { x as u32 } else { 0 }
}

// The place c if it is one of the list from lo to hi, and the stretch before it starts before t; else lo.
fn resume(items: &[u32], lo: usize, hi: usize, c: usize, t: u32) -> usize
    requires { (lo ≤ hi) × (hi ≤ length items.now) }
    ensures { Resumed items.now lo hi t result }
{
    if c < lo || c - lo < 2 || hi < c || (c - lo) % 2 != 0 || t <= items[c - 2] {
        return lo;
    }
    c
}

// From place p on, the first stretch that starts at or after t; the last place if there is none.
fn run(items: &[u32], p: usize, hi: usize, t: u32) -> usize
    requires { (p ≤ hi) × (hi ≤ length items.now) }
    ensures { Ran items.now p hi t result }
{
    let mut i = p;
    while i + 1 < hi {
        if t <= items[i] {
            return i;
        }
        i += 2;
    }
    i
}

impl<'a> Searched<'a> {
    // The first marked line from t on of the row that the leaf's numbers name.
    pub(crate) fn seek_row(&self, v: usize, t: u32) -> Stretch
        requires { v < 32 }
        ensures { RowFound self.now.words.now (first_at self.now.rows.now v) (second_at self.now.rows.now v) t result }
    {
        let row = &self.rows[v];
        match row_search::next(self.words, row.first, row.second, t as usize) {
            Some(line) => at_line(line),
            None => GONE,
        }
    }

    // The first stretch from t on of the list that lies between the leaf's two places; none where it lies outside the items.
    pub(crate) fn seek_list(&self, st: &mut State, v: usize, t: u32) -> Stretch
        requires { v < 32 }
        ensures { ListFound self.now.items.now (first_at self.now.rows.now v) (second_at self.now.rows.now v) t st.old result st.new }
    {
        let items = self.items;
        let lo = self.rows[v].first;
        let hi = self.rows[v].second;
        if hi < lo || items.len() < hi {
            return GONE;
        }
        let c = wide(st.kept[v].hint);
        let p = resume(items, lo, hi, c, t);
        let r = run(items, p, hi, t);
        st.kept[v].hint = hint_of(r);
        if hi <= r + 1 {
            return GONE;
        }
        Stretch {
            start: items[r],
            end: items[r + 1],
        }
    }
}
