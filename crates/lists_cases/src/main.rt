// Reads calls over lists from standard input, those of docs/FORMATS.md, "Worked cases", and the query of Figure 1 of
// Boldi and Vigna, "Efficient Optimally Lazy Algorithms for Minimal-Interval Semantics" among them, and writes a line for each. A filling
// call: F, number, place, count, 1 for "more"; then every lent cell. A taking call: T, number, 1 for an answer, start, end; then every count cell. Each lent
// cell holds 7 before the call. What it must write was derived from the rules there, not by this program.
//
// A call stands on a line, in decimal numbers with a comma between: 0 for a filling call or 1 for a taking call, the operator, k (0 for a taking call), how
// many cells are lent (at most 32), the number of the first answer or of the one taken, how many numbers the items are (at most 64), how many lists there
// are (at most 32); then these items, and for each list where in the items it ends.
#![tactic(auto)]

use input::read_whole;
use std::io;

// A number with one more digit, the greatest where that is too great.
fn longer(n: usize, digit: u8) -> usize {
    if 1844674407370955160 < n {
        return usize::MAX;
    }
    n * 10 + usize::from(digit % 10)
}

// The number at the start of the input, which goes on behind the byte after the number.
fn next(input: &mut &[u8]) -> usize {
    let end = input.iter().position(|b| *b < b'0').unwrap_or(input.len());
    let digits = &input[..end];
    *input = input.get(end + 1..).unwrap_or(&[]);
    let mut n = 0;
    for b in digits {
        n = longer(n, b.saturating_sub(b'0'));
    }
    n
}

fn small(n: usize) -> u32 {
    (n % 4294967296) as u32
}

// Makes the call at the start of the input. One that lends more cells than there are is not made.
fn call(rt: &impl Print, input: &mut &[u8]) -> io::Result<()> {
    let mut head = [0usize; 7];
    for n in &mut head {
        *n = next(input);
    }
    let [taking, op, k, room, number, items, lists] = head;
    let (op, k) = (small(op), small(k));
    let (items, lists) = (items % 65, lists % 33);
    let mut list = [0u32; 96];
    let used = &mut list[..items + lists];
    for n in used.iter_mut() {
        *n = small(next(input));
    }
    let (items, ends) = used.split_at(items);
    let mut cells = [7u32; 32];
    let Some(lent) = cells.get_mut(..room) else {
        return Ok(());
    };
    if taking == 0 {
        match lists::fill(op, k, items, ends, lent, number) {
            Ok(filled) => {
                let (count, more) = (filled.count, u8::from(filled.more));
                print!(rt; "F,0,0,{count},{more}")?;
            }
            Err(refusal) => {
                let (number, place) = (refusal.number(), refusal.place());
                print!(rt; "F,{number},{place},0,0")?;
            }
        }
    } else {
        match taking::take(op, items, ends, lent, number) {
            Ok(Some(x)) => {
                let (start, end) = (x.start, x.end);
                print!(rt; "T,0,1,{start},{end}")?;
            }
            Ok(None) => print!(rt; "T,0,0,0,0")?,
            Err(refusal) => {
                let number = refusal.number();
                print!(rt; "T,{number},0,0,0")?;
            }
        }
    }
    for cell in lent.iter() {
        print!(rt; ",{cell}")?;
    }
    println!(rt)
}

// Every call: as many as there are bytes at most.
fn calls(rt: &impl Print, input: &[u8]) -> io::Result<()> {
    let mut left = input;
    for _ in 0..input.len() {
        if left.is_empty() {
            return Ok(());
        }
        call(rt, &mut left)?;
    }
    Ok(())
}

fn main(rt: HostRuntime) -> io::Result<()> {
    let mut input = [0u8; 65536];
    let n = read_whole(&mut rt.stdin(), &mut input)?;
    calls(&rt, &input[..n])
}
