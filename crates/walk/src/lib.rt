// The walk over all answers of a table's first node: some are passed over, the others written into cells.
#![tactic(auto)]

ghost use Rattle.seek.specs.Source.{source_of};
ghost use Rattle.walk.specs.inner.Walks.{PassedOver, Put};
ghost use Rattle.walk.specs.Filling.{FillAll, Within};

use seek::{Searched, State};

// How many stretches were written, and whether a further answer exists.
#[derive(Clone, Copy)]
pub struct Walked {
    pub count: usize,
    pub more: bool,
}

// Passes over n answers from line t0 on: the line from which the next is sought.
fn pass_over(searched: &Searched, st: &mut State, t0: u32, n: usize) -> u32
    ensures { PassedOver (source_of searched.now) searched.now.rows.now st.old t0 n result st.new }
{
    let mut t = t0;
    for _k in 0..n {
        match searched.first(st, 0, t) {
            None => {
                return t;
            }
            Some(f) => {
                t = f.start + 1;
            }
        }
    }
    t
}

// Writes the answers from line t0 on into the cells, as many as whole pairs fit.
fn put_all(searched: &Searched, st: &mut State, t0: u32, cells: &mut [u32]) -> Walked
    ensures put { Put (source_of searched.now) searched.now.rows.now st.old t0 cells.old result cells.new }
    ensures within { Within cells.old result cells.new }
{
    let mut t = t0;
    for n in 0..cells.len() / 2 {
        match searched.first(st, 0, t) {
            None => {
                return Walked {
                    count: n,
                    more: false,
                };
            }
            Some(a) => {
                cells[2 * n] = a.start;
                cells[2 * n + 1] = a.end;
                t = a.start + 1;
            }
        }
    }
    Walked {
        count: cells.len() / 2,
        more: searched.first(st, 0, t).is_some(),
    }
}

// Writes the answers of node 0 that start at or after `line`, from number `from` of them on, into the cells, start then end, as many as whole pairs
// fit; later cells keep their contents. With a list that is not fine some stretches are written, no more than fit.
pub fn fill(searched: &Searched, cells: &mut [u32], line: u32, from: usize) -> Walked
    ensures fill_all { FillAll (source_of searched.now) searched.now.rows.now line from cells.old result cells.new }
    ensures within { Within cells.old result cells.new }
{
    let mut st = State::new();
    let t = pass_over(searched, &mut st, line, from);
    put_all(searched, &mut st, t, cells)
}
