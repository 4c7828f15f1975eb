// Runs outside examples and writes a printed sheet for each: the cases of docs/FORMATS.md, "Worked cases", that programs run, the example of its "The printed sheet",
// and the query of Figure 1 of Boldi and Vigna, "Efficient Optimally Lazy Algorithms for Minimal-Interval Semantics",
// over a log and over lists. What it must write was derived from the rules there, not by this program.
#![tactic(auto)]

use basics::first;
use sheet::FillReply;
use std::io;

// Prints the sheet of a pattern and a log.
fn show(rt: &impl Print, pattern: &[u8], log: &[u8]) -> io::Result<()> {
    let mut out = [0u8; 512];
    let n = sheet::print_sheet(pattern, log, &mut out);
    rt.write_all(first(&out, n))
}

// Prints the sheet of an operator over lent lists.
fn show_lists(rt: &impl Print, op: u32, items: &[u32], ends: &[u32]) -> io::Result<()> {
    let mut cells = [0u32; 64];
    let mut out = [0u8; 512];
    let r = lists::fill(op, 0, items, ends, &mut cells, 0);
    let n = sheet::write_sheet(FillReply::from(r), b"", &cells, &mut out);
    rt.write_all(first(&out, n))
}

// The cases of docs/FORMATS.md, "Worked cases", that programs run.
fn cases(rt: &impl Print) -> io::Result<()> {
    show(rt, b"fr,10,0", b"2,4,12,10,3,0\n")?;
    show(rt, b"fr,3,0", b"2,4,12,10,3,0\n")?;
    show(rt, b"or,1,ev,1,0", b"")?;
    show(rt, b"ev,256,0", b"")?;
    show(rt, b"", b"")?;
    show(rt, b"max,9,max,9,max,9,max,9,max,9,max,9,max,9,ev,1,0", b"")?;
    show(
        rt,
        b"max,9,max,9,max,9,max,9,max,9,max,9,max,9,max,9,ev,1,0",
        b"",
    )
}

// 31 leaves are accepted, and one more node is one too many.
fn nodes(rt: &impl Print) -> io::Result<()> {
    show(
        rt,
        b"or,31,ev,1,0,ev,1,0,ev,1,0,ev,1,0,ev,1,0,ev,1,0,ev,1,0,ev,1,0,ev,1,0,ev,1,0,ev,1,0,ev,1,0,ev,1,0,ev,1,0,ev,1,0,ev,1,0,ev,1,0,ev,1,0,ev,1,0,ev,1,0,ev,1,0,ev,1,0,ev,1,0,ev,1,0,ev,1,0,ev,1,0,ev,1,0,ev,1,0,ev,1,0,ev,1,0,ev,1,0",
        b"1,1,1,0,0\n",
    )?;
    show(
        rt,
        b"or,31,ev,1,0,ev,1,0,ev,1,0,ev,1,0,ev,1,0,ev,1,0,ev,1,0,ev,1,0,ev,1,0,ev,1,0,ev,1,0,ev,1,0,ev,1,0,ev,1,0,ev,1,0,ev,1,0,ev,1,0,ev,1,0,ev,1,0,ev,1,0,ev,1,0,ev,1,0,ev,1,0,ev,1,0,ev,1,0,ev,1,0,ev,1,0,ev,1,0,ev,1,0,ev,1,0,max,9,ev,1,0",
        b"1,1,1,0,0\n",
    )
}

// 61,440 bytes of log are accepted, one more is not.
fn lengths(rt: &impl Print) -> io::Result<()> {
    let log = [10u8; 61441];
    show(rt, b"ev,1,0", &log[..61440])?;
    show(rt, b"ev,1,0", &log)
}

// The printed sheet's example.
fn printed(rt: &impl Print) -> io::Result<()> {
    show(
        rt,
        b"then,2,ev,7,0,ev,9,0",
        b"1,4,7,3,6\n2,4,12,20,3,0\noops\n1,4,9,0,0\n1,5,9,0,0\n",
    )
}

// Figure 1, "(hot OR cold) AND porridge AND pease": a word a line, hot, porridge, pease and cold as codes 1 to 4; then over lists.
fn figure(rt: &impl Print) -> io::Result<()> {
    show(
        rt,
        b"and,3,or,2,ev,1,0,ev,4,0,ev,2,0,ev,3,0",
        b"1,1,3,0,0\n1,1,2,0,0\n1,1,1,0,0\n1,1,3,0,0\n1,1,2,0,0\n1,1,4,0,0\n1,1,3,0,0\n1,1,2,0,0\n\n\n\n\n\n\n\n\n\n1,1,1,0,0\n\n\n\n1,1,4,0,0\n\n\n\n\n\n\n\n\n\n1,1,3,0,0\n1,1,2,0,0\n1,1,1,0,0\n1,1,3,0,0\n1,1,2,0,0\n1,1,4,0,0\n",
    )?;
    let items = [
        2u32, 2, 5, 5, 17, 17, 21, 21, 33, 33, 36, 36, 1, 1, 4, 4, 7, 7, 32, 32, 35, 35, 0, 0, 3,
        3, 6, 6, 31, 31, 34, 34,
    ];
    let ends = [12u32, 22, 32];
    show_lists(rt, 2, &items, &ends)
}

fn main(rt: HostRuntime) -> io::Result<()> {
    cases(&rt)?;
    nodes(&rt)?;
    lengths(&rt)?;
    printed(&rt)?;
    figure(&rt)
}
