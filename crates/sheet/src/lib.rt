// The printed sheet of a pattern and a log, written into a lent buffer.
#![tactic(auto)]

ghost use Rattle.std.specs.Prelude.{◌≡◌};
ghost use Rattle.meaning.specs.Replies.{fill_reply};
ghost use Rattle.print.specs.Print.{Writes};
ghost use Rattle.sheet.specs.Sheet.{reply_of, sheet_of, printed};

use meaning::{Filled, Refusal};
use print::{write_found, write_refused};

// What a filling call replies, in numbers: its refusal, 0 where it is accepted, and the place; how many stretches it wrote, and whether a further answer exists.
// It stays a struct of numbers, since `write_sheet` promises the sheet of any of them, also of those that no call replies.
#[derive(Clone, Copy, Debug, PartialEq, Eq)]
pub struct FillReply {
    pub number: usize,
    pub place: usize,
    pub count: usize,
    pub more: bool,
}

impl From<Result<Filled, Refusal>> for FillReply {
    fn from(f: Result<Filled, Refusal>) -> FillReply
        ensures { reply_of result ≡ fill_reply f }
    {
        match f {
            Ok(f) => FillReply {
                number: 0,
                place: 0,
                count: f.count,
                more: f.more,
            },
            Err(e) => FillReply {
                number: e.number(),
                place: e.place(),
                count: 0,
                more: false,
            },
        }
    }
}

// Writes the sheet of what a filling call from number 0 replied and left in the cells, and gives its length. Where the
// sheet does not fit, nothing is written and 0 comes back.
pub fn write_sheet(f: FillReply, log: &[u8], cells: &[u32], out: &mut [u8]) -> usize
    ensures { Writes (sheet_of (reply_of f) log.now cells.now) out.old result out.new }
{
    if f.number != 0 {
        return write_refused(f.number, f.place, out);
    }
    let c = marking::count(log);
    write_found(c.lines, c.damaged, cells, f.count, out)
}

// Two cells for each answer that there can be.
const CELLS: usize = 122880;

// Searches a log for a pattern and writes the sheet, and gives its length. Two cells for each answer that there can be. Where
// the sheet does not fit, nothing is written and 0 comes back.
pub fn print_sheet(pattern: &[u8], log: &[u8], out: &mut [u8]) -> usize
    ensures { Writes (printed pattern.now log.now) out.old result out.new }
{
    let mut cells = [0u32; CELLS];
    let f = finder::fill(pattern, log, &mut cells, 0);
    write_sheet(FillReply::from(f), log, &cells, out)
}
