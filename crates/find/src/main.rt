// The finder as a program: reads a pattern, a line feed and a log from standard input, and prints the sheet.
#![tactic(auto)]

ghost use Rattle.std.specs.Prelude.{◌≡◌, length, take};
ghost use Rattle.find.specs.Reading.{Turned, Gathered, Held, Prints};

use basics::first;
use input::Intake;
use std::fmt::InlineText;
use std::io;
use std::io::{ErrorKind, Read};

// Reads once, and takes in what came; none at the end of the input.
fn read_piece<R: Read>(
    from: &mut R,
    t: Intake,
    pattern: &mut [u8],
    log: &mut [u8],
) -> io::Result<Option<Intake>>
    ensures { Turned t pattern.old log.old result pattern.new log.new }
{
    let mut piece = [0u8; 65536];
    match from.read(&mut piece)? {
        0 => Ok(None),
        n => Ok(Some(input::take_piece(&piece[..n], t, pattern, log))),
    }
}

// Reads an input to its end. The turns are more than any run uses up.
fn read_all<R: Read>(from: &mut R, pattern: &mut [u8], log: &mut [u8]) -> io::Result<Intake>
    ensures { Gathered result pattern.new log.new }
{
    let mut t = Intake {
        ended: false,
        pattern: 0,
        log: 0,
    };
    for _ in 0..u64::MAX {
        match read_piece(from, t, pattern, log)? {
            Some(next) => t = next,
            None => return Ok(t),
        }
    }
    Err(io::Error::from(ErrorKind::FileTooLarge))
}

// Room for every sheet: a log of 61,440 bytes has at most as many lines, a search no more answers than lines, and a printed
// line of an answer at most 12 bytes.
fn sheet_buffer() -> [u8; 800000]
    ensures { 800000 ≡ length result }
{
    [0; 800000]
}

// Says in a line what failed and why, without the number that a system's error ends in; where even that fails, there is no one to tell.
fn fail(rt: &HostRuntime, what: &str, error: io::Error) -> io::Result<()> {
    let said = InlineText::<128>::of(error);
    let text = said.as_str();
    let words = text
        .split_once(" (os error ")
        .map_or(text, |(words, _)| words);
    eprintln!(rt; "{what}: {words}")
}

// Writes a sheet to standard output, or says why it cannot. The buffers only say whose sheet it is: that of the input that was read.
fn put(rt: &HostRuntime, t: Intake, pattern: &[u8], log: &[u8], bytes: &[u8])
    requires { Prints t pattern.now log.now bytes.now }
{
    if let Err(error) = rt.write_all(bytes) {
        let _ = fail(rt, "standard output", error);
    }
}

// Prints the sheet of what was read.
fn print(rt: &HostRuntime, t: Intake, pattern: &[u8], log: &[u8])
    requires { Held t pattern.now log.now }
{
    let mut out = sheet_buffer();
    let n = sheet::print_sheet(first(pattern, t.pattern), first(log, t.log), &mut out);
    put(rt, t, pattern, log, first(&out, n));
}

// The bytes kept of pattern and log: one more than are accepted.
const PATTERN_KEPT: usize = 1025;

const LOG_KEPT: usize = 61441;

// Keeps one byte more of pattern and log than are accepted, so that longer ones are refused as if they were whole.
fn main(rt: HostRuntime) {
    let mut pattern = [0u8; PATTERN_KEPT];
    let mut log = [0u8; LOG_KEPT];
    match read_all(&mut rt.stdin(), &mut pattern, &mut log) {
        Ok(t) => print(&rt, t, &pattern, &log),
        Err(error) => {
            let _ = fail(&rt, "standard input", error);
        }
    }
}
