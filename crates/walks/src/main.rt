// Reads a log from standard input and goes through it one by one: by the finder's steps for several patterns, and line by line for several leaves. Writes
// how much came, and whether it is what the filling call wrote.
#![tactic(auto)]

ghost use Rattle.std.specs.Prelude.{◌≡◌};
ghost use Rattle.lines.specs.Lines.{line_end};
ghost use Rattle.event_log.specs.Reading.{read_at};

use basics::{first, wide};
use event_log::Reading;
use input::read_whole;
use meaning::{Filled, Refusal};
use reading_mark::{Mark, line_after, read_from};
use records::Record;
use std::io;

// How many came one by one, as an error where they are not what was filled.
type Walked = Result<usize, usize>;

fn verdict(rt: &impl Print, w: Walked) -> io::Result<()> {
    match w {
        Ok(count) => println!(rt; "{count} as filled"),
        Err(count) => println!(rt; "{count} NOT AS FILLED"),
    }
}

// How many stretches a filling call wrote: of a refused one none.
fn written(r: Result<Filled, Refusal>) -> usize {
    match r {
        Ok(filled) => filled.count,
        Err(_) => 0,
    }
}

// ── By steps ──

// Steps through the stretches of a pattern, those that were filled, and once more.
fn step_through(pattern: &[u8], log: &[u8], filled: &[[u32; 2]]) -> Walked {
    let mut f = finder::open(pattern, log).finder;
    for (k, stretch) in filled.iter().enumerate() {
        let s = f.step(log);
        f = s.finder;
        match s.answer {
            Some(x) if [x.start, x.end] == *stretch => {}
            _ => {
                return Err(k);
            }
        }
    }
    match f.step(log).answer {
        None => Ok(filled.len()),
        Some(_) => Err(filled.len()),
    }
}

fn steps(rt: &impl Print, pattern: &[u8], log: &[u8]) -> io::Result<()> {
    let mut cells = [0u32; 1024];
    let n = written(finder::fill(pattern, log, &mut cells, 0));
    let filled = first(cells.as_chunks().0, n);
    rt.write_all(pattern)?;
    print!(rt; ": ")?;
    verdict(rt, step_through(pattern, log, filled))
}

// ── Line by line ──

// Reads the line after the one at a place, by a mark.
fn below(log: &[u8], at: usize) -> Reading
    ensures { result ≡ read_at log.now (line_end log.now at) }
{
    Mark::new(log).moved(at).passed().read()
}

// A line: its number, the place where it starts, and that of the line before it.
#[derive(Clone, Copy)]
struct Line {
    number: usize,
    at: usize,
    before: Option<usize>,
}

// A leaf asks for a code or a frame on a lane, 0 being any lane.
#[derive(Clone, Copy)]
enum Leaf {
    Code(u16, u16),
    Frame(u16, u16),
}

fn matches(leaf: Leaf, r: Record) -> bool {
    let (holds, lane) = match leaf {
        Leaf::Code(code, lane) => (r.code == code, lane),
        Leaf::Frame(frame, lane) => (r.frame == frame, lane),
    };
    holds && (lane == 0 || r.lane == lane)
}

// Goes through the lines as they are read, and once more; the first n of those filled are those that the leaf matches.
fn read_through<F: Fn(Line) -> Reading>(
    lines: usize,
    leaf: Leaf,
    filled: &[[u32; 2]],
    n: usize,
    read: F,
) -> Walked
    requires { F.IsAlwaysCallable read }
{
    let mut k = 0;
    let mut line = Line {
        number: 0,
        at: 0,
        before: None,
    };
    for number in 0..lines {
        let (hit, next) = match read(line) {
            Reading::NoLine => return Err(k),
            Reading::Damaged { next } => (false, next),
            Reading::Sound { record, next } => (matches(leaf, record), next),
        };
        if hit {
            let Some([start, end]) = filled.get(k) else {
                return Err(k);
            };
            if wide(*start) != number || wide(*end) != number {
                return Err(k);
            }
            k += 1;
        }
        line = Line {
            number: number + 1,
            at: next,
            before: Some(line.at),
        };
    }
    match read(line) {
        Reading::NoLine if k == n => Ok(k),
        _ => Err(k),
    }
}

fn by(rt: &impl Print, pattern: &[u8], how: &str, w: Walked) -> io::Result<()> {
    rt.write_all(pattern)?;
    print!(rt; " by {how}: ")?;
    verdict(rt, w)
}

// A line by its number, by the place where it starts, and by a mark at the place where the line before it starts.
fn lines_of(rt: &impl Print, pattern: &[u8], leaf: Leaf, log: &[u8]) -> io::Result<()> {
    let mut cells = [0u32; 1024];
    let n = written(finder::fill(pattern, log, &mut cells, 0));
    let filled = cells.as_chunks().0;
    let lines = lines::line_count(log);
    let number = read_through(lines, leaf, filled, n, |l| line_after(log, l.number));
    by(rt, pattern, "number", number)?;
    let place = read_through(lines, leaf, filled, n, |l| read_from(log, l.at));
    by(rt, pattern, "place", place)?;
    let mark = read_through(lines, leaf, filled, n, |l| match l.before {
        None => read_from(log, l.at),
        Some(before) => below(log, before),
    });
    by(rt, pattern, "mark", mark)
}

// ── All of it ──

fn patterns(rt: &impl Print, log: &[u8]) -> io::Result<()> {
    steps(rt, b"ev,2,0", log)?;
    steps(rt, b"or,2,ev,7,0,ev,12,0", log)?;
    steps(rt, b"then,2,ev,7,5,ev,9,5", log)?;
    steps(rt, b"max,20,then,2,ev,7,0,ev,9,0", log)?;
    steps(rt, b"less,then,2,ev,1,0,ev,7,0,ev,3,0", log)?;
    steps(rt, b"and,2,ev,7,5,ev,7,8", log)?;
    steps(rt, b"row,2,ev,3,0,ev,2,0", log)?;
    steps(rt, b"max,1,and,2,ev,2,0,fr,3,0", log)?;
    steps(
        rt,
        b"less,max,90,and,2,then,2,or,2,ev,7,0,ev,12,0,ev,9,0,row,2,ev,2,0,ev,2,0,ev,15,0",
        log,
    )?;
    steps(rt, b"ev,256,0", log)
}

fn leaves(rt: &impl Print, log: &[u8]) -> io::Result<()> {
    lines_of(rt, b"ev,2,0", Leaf::Code(2, 0), log)?;
    lines_of(rt, b"ev,7,5", Leaf::Code(7, 5), log)?;
    lines_of(rt, b"fr,3,0", Leaf::Frame(3, 0), log)?;
    lines_of(rt, b"fr,0,4", Leaf::Frame(0, 4), log)?;
    lines_of(rt, b"ev,254,0", Leaf::Code(254, 0), log)
}

fn main(rt: HostRuntime) -> io::Result<()> {
    let mut input = [0u8; 65536];
    let n = read_whole(&mut rt.stdin(), &mut input)?;
    let log = &input[..n];
    patterns(&rt, log)?;
    leaves(&rt, log)
}
