// The search machine: over a table of nodes and what its leaves read, the first stretch of a node's list from a line on, or to a line.
//
// Kinds of nodes: 1 or, 2 and, 3 row, 4 then, 5 less, 6 max with its bound as first number, 7 in, 8 out, 9 has, 16 a row of marks with its first word and
// width, 17 a lent list with its places from and to.
#![tactic(auto)]

mod fronts;
mod leaves;
mod machine;
mod state;

ghost use Rattle.seek.specs.Source.{source_of};
ghost use Rattle.seek.specs.First.{FirstOf, ReachOf, Ahead};

use nodes::{NODES, Nodes};
pub use state::{Kept, Passed, State};
use stretches::Stretch;

// The line that stands for none, one past every line.
const NONE: u32 = 65536;

// What is searched: a table, and what its leaves read.
// words, items: rows of marks, and starts and ends in turn.
// sound: what `max` measures by, the row of the sound lines with its counts, as `ranks` has it; empty where lines are counted, as over lists.
#[derive(Clone, Copy)]
pub struct Searched<'a> {
    pub rows: &'a Nodes,
    pub words: &'a [u64],
    pub items: &'a [u32],
    pub sound: &'a [u64],
}

impl<'a> Searched<'a> {
    // The first stretch of node v that starts at or after t, and none where there is none or no node v. The state serves the next call over the same
    // table and source. With a state that no such call left, or a list that is not fine, the stretch is free, but for its start.
    pub fn first(&self, st: &mut State, v: usize, t: u32) -> Option<Stretch>
        ensures first_of { FirstOf (source_of self.now) self.now.rows.now st.old v t result st.new }
        ensures ahead { Ahead t result }
    {
        if NODES <= v {
            return None;
        }
        let f = self.seek(st, v, t);
        if NONE <= f.start || f.start < t {
            return None;
        }
        Some(f)
    }

    // The first stretch of node v that ends at or after line e, and none where there is none or no node v. The state is as for `first`; with a state that no
    // such call left, or a list that is not fine, the stretch is free.
    pub fn first_to(&self, st: &mut State, v: usize, e: u32) -> Option<Stretch>
        ensures { ReachOf (source_of self.now) self.now.rows.now st.old v e result st.new }
    {
        if NODES <= v {
            return None;
        }
        let f = self.reach(st, v, e);
        if NONE <= f.start {
            return None;
        }
        Some(f)
    }
}
