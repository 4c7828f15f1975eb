// The finder: opens on a pattern and a log, gives the next stretch at each step, or fills all of them into lent cells.
#![tactic(auto)]

ghost use Rattle.std.specs.Prelude.{◌≡◌, ◌-◌, ◌*◌, ◌≤◌, ◌<◌, length, get_or};
ghost use Rattle.stretches.specs.Front.{onward};
ghost use Rattle.stretches.specs.Filling.{filled};
ghost use Rattle.meaning.specs.Finding.{list_of, filling};
ghost use Rattle.meaning.specs.Replies.{fill_reply};
ghost use Rattle.seek.specs.Source.{source_of};
ghost use Rattle.walk.specs.Filling.{Filling, FillAll};
ghost use Rattle.finder.specs.Promises.{fresh, open_reply, opened, list_in, waits, handed, line_after, refilled, stepped};

use acceptance::read_both;
use meaning::{Filled, Refusal};
use nodes::{NO_NODE, NODES, Nodes};
use plan::with_marks;
use stretches::Stretch;
use walk::Walked;

// The answers that a finder keeps, and their cells.
const KEPT: usize = 64;

const FOUND: usize = 128;

// What a step keeps: the pattern's table, the next answers found, how many they are and how many of them were given, and the line from which the following
// ones are sought, none where none follow. The answers are cells, start then end, as `walk::fill` writes them: as stretches they would be copied once more.
#[derive(Clone, Copy)]
pub struct Finder {
    pub rows: Nodes,
    pub found: [u32; FOUND],
    pub count: usize,
    pub given: usize,
    pub from: Option<u32>,
}

// Whether the opening is refused, and the finder.
#[derive(Clone, Copy)]
pub struct Opened {
    pub outcome: Result<(), Refusal>,
    pub finder: Finder,
}

// The next stretch or none, and the finder for the next step.
#[derive(Clone, Copy)]
pub struct Stepped {
    pub answer: Option<Stretch>,
    pub finder: Finder,
}

// ── The search ──

// Writes the table's answers in the log that start at or after `line`, from number `from` of them on; a log that is too long has none.
fn fill_from(rows: &Nodes, log: &[u8], cells: &mut [u32], line: u32, from: usize) -> Walked
    ensures { Filling (onward (list_in rows.now log.now) line) from cells.old result cells.new }
{
    let walked = with_marks(
        rows,
        log,
        cells,
        |searched, cells|
            ensures { FillAll (source_of searched.now) searched.now.rows.now line from cells.old result cells.new }
        { walk::fill(searched, cells, line, from) },
    );
    match walked {
        Some(walked) => walked,
        None => Walked {
            count: 0,
            more: false,
        },
    }
}

// Writes the answers from number `from` into the cells, start then end, as many as whole pairs fit. Refused: nothing is written.
pub fn fill(text: &[u8], log: &[u8], cells: &mut [u32], from: usize) -> Result<Filled, Refusal>
    ensures value { fill_reply result ≡ filling text.now log.now from cells.old }
    ensures cells_after { cells.new ≡ filled (list_of text.now log.now) from cells.old }
{
    // By reference: taken out of the Result, the table stands on the stack once more.
    match &read_both(text, log) {
        Ok(rows) => {
            let w = fill_from(rows, log, cells, 0, from);
            Ok(Filled {
                count: w.count,
                more: w.more,
            })
        }
        Err(refusal) => Err(*refusal),
    }
}

// ── Opening and stepping ──

// Opens on a pattern and a log. Refused: a finder that only says none.
pub fn open(text: &[u8], log: &[u8]) -> Opened
    ensures { open_reply result ≡ opened text.now log.now }
{
    match read_both(text, log) {
        Ok(rows) => Opened {
            outcome: Ok(()),
            finder: Finder::new(rows, Some(0)),
        },
        Err(refusal) => Opened {
            outcome: Err(refusal),
            finder: Finder::new([NO_NODE; NODES], None),
        },
    }
}

// The line after the start of the last of n found answers.
fn line_after(line: u32, found: &[u32; FOUND], n: usize) -> u32
    requires { (n ≤ 64) × (0 < n → get_or found.now (2 * (n - 1)) 0 < 65536) }
    ensures { result ≡ line_after line found.now n }
{
    if n == 0 { line } else { found[2 * (n - 1)] + 1 }
}

impl Finder {
    // Nothing is found yet.
    fn new(rows: Nodes, from: Option<u32>) -> Finder
        ensures { result ≡ fresh rows from }
    {
        Finder {
            rows,
            found: [0; FOUND],
            count: 0,
            given: 0,
            from,
        }
    }

    // Whether a found answer is still to be given.
    fn waiting(&self) -> bool
        ensures { result ≡ waits self.now }
    {
        self.given < self.count && self.given < KEPT
    }

    // The next found answer.
    fn hand(self) -> Stepped
        requires { self.given < 64 }
        ensures { result ≡ handed self }
    {
        let i = 2 * self.given;
        Stepped {
            answer: Some(Stretch {
                start: self.found[i],
                end: self.found[i + 1],
            }),
            finder: Finder {
                given: self.given + 1,
                ..self
            },
        }
    }

    // Finds the next answers, from the line on.
    fn refill(mut self, line: u32, log: &[u8]) -> Finder
        ensures { result ≡ refilled (list_in self.rows log.now) line self }
    {
        let w = fill_from(&self.rows, log, &mut self.found, line, 0);
        let next = line_after(line, &self.found, w.count);
        Finder {
            count: w.count,
            given: 0,
            from: if w.more { Some(next) } else { None },
            ..self
        }
    }

    // The next stretch or none, and the finder for the next step: over the log of the opening, the list's next stretch.
    #[tactic(auto, unfolding(crate::specs::Promises::step_over))]
    pub fn step(mut self, log: &[u8]) -> Stepped
        ensures { result ≡ stepped self log.now }
    {
        if !self.waiting() {
            if let Some(line) = self.from {
                self = self.refill(line, log);
            }
        }
        if self.waiting() {
            self.hand()
        } else {
            Stepped {
                answer: None,
                finder: self,
            }
        }
    }
}
