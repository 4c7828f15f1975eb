// What is kept of each node.
ghost use Rattle.std.specs.Prelude.{◌≡◌, true, ◌<◌};
ghost use Rattle.seek.specs.First.{no_state, held_of};
ghost use Rattle.seek.specs.inner.Fronts.{Serves, put_at, pass_at, resume_at};

use crate::fronts::past;
use nodes::NODES;
use stretches::Stretch;

// Of a node: one past the start of what was found last (0: nothing), its end, and the line asked from; and over lists a place in the items, only a hint.
#[derive(Clone, Copy)]
pub struct Kept {
    pub past: u32,
    pub end: u32,
    pub asked: u32,
    pub hint: u32,
}

// How far a node was passed over by end: what of it starts before line `to` ends before line `end`.
#[derive(Clone, Copy)]
pub struct Passed {
    pub to: u32,
    pub end: u32,
}

// What is kept of all nodes. As six columns of numbers it took 1 to 3 in 100 fewer instructions of a search, and the places in the columns by hand.
#[derive(Clone, Copy)]
pub struct State {
    pub kept: [Kept; NODES],
    pub passed: [Passed; NODES],
}

impl Kept {
    // Whether what is kept serves a seek to t. By branches, as `better`.
    pub(crate) fn serves(self, t: u32) -> bool
        ensures { result ≡ true → Serves self t }
    {
        if self.past <= t {
            return false;
        }
        if t < self.asked {
            return false;
        }
        true
    }

    // What was found, if anything was.
    pub(crate) fn front(self) -> Stretch
        requires { 0 < self.past }
        ensures { result ≡ held_of self }
    {
        Stretch {
            start: self.past - 1,
            end: self.end,
        }
    }
}

impl State {
    // Nothing is kept.
    pub fn new() -> State
        ensures { result ≡ no_state }
    {
        let none = Kept {
            past: 0,
            end: 0,
            asked: 0,
            hint: 0,
        };
        State {
            kept: [none; NODES],
            passed: [Passed { to: 0, end: 0 }; NODES],
        }
    }

    // Keeps that a seek of v to t found f.
    pub(crate) fn put_front(&mut self, v: usize, f: Stretch, t: u32)
        requires { v < 32 }
        ensures { self.new ≡ put_at self.old v f t }
    {
        self.kept[v] = Kept {
            past: past(f.start),
            end: f.end,
            asked: t,
            ..self.kept[v]
        };
    }

    // Keeps that all of v before line t ends before line e.
    pub(crate) fn put_passed(&mut self, v: usize, t: u32, e: u32)
        requires { v < 32 }
        ensures { self.new ≡ pass_at self.old v t e }
    {
        self.passed[v] = Passed { to: t, end: e };
    }

    // The line from which v is sought for what ends at or after e.
    pub(crate) fn resume(&self, v: usize, e: u32) -> u32
        requires { v < 32 }
        ensures { result ≡ resume_at self.now v e }
    {
        let p = self.passed[v];
        if p.end <= e { p.to } else { 0 }
    }
}
