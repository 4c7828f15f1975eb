// Reads patterns and writes a line for each: `A,0,nodes` where it is accepted, else `R,number,place`; of the last pattern instead the entries of its
// table, a line for each of 13 nodes and one past them. What it must write was derived from the rules of docs/FORMATS.md, not by this program.
//
// The patterns stand in standard input, each with a semicolon and a line feed behind it; a line feed before the semicolon is the pattern's own.
#![tactic(auto)]

use input::read_whole;
use nodes::{NODES, NO_NODE};
use pattern::Refusal;
use std::io;

fn answer(rt: &impl Print, text: &[u8]) -> io::Result<()> {
    match pattern::read(text) {
        Ok(table) => {
            let count = table.count;
            println!(rt; "A,0,{count:05}")
        }
        Err(Refusal::Long) => println!(rt; "R,2,00000"),
        Err(Refusal::Misspelt(place)) => println!(rt; "R,3,{place:05}"),
        Err(Refusal::Crowded) => println!(rt; "R,4,00000"),
        Err(Refusal::Deep) => println!(rt; "R,5,00000"),
    }
}

// A table: of each node, and of the entry past them, the kind, size, first and second number. A refused text has no nodes.
fn entries(rt: &impl Print, text: &[u8]) -> io::Result<()> {
    let rows = match pattern::read(text) {
        Ok(table) => table.rows,
        Err(_) => [NO_NODE; NODES],
    };
    for node in &rows[..14] {
        let (kind, size, first, second) = (node.kind, node.size, node.first, node.second);
        println!(rt; "{kind:05},{size:05},{first:05},{second:05}")?;
    }
    Ok(())
}

// Every pattern, of the last one the table: the last is that behind whose semicolon at most one byte stands, or that has none.
fn patterns(rt: &impl Print, input: &[u8]) -> io::Result<()> {
    let mut left = if input.len() < 2 { &[] } else { input };
    while !left.is_empty() {
        let to = left.iter().position(|b| *b == b';').unwrap_or(left.len());
        let text = &left[..to];
        left = left.get(to + 2..).unwrap_or(&[]);
        if left.is_empty() {
            entries(rt, text)?;
        } else {
            answer(rt, text)?;
        }
    }
    Ok(())
}

fn main(rt: HostRuntime) -> io::Result<()> {
    let mut input = [0u8; 65536];
    let n = read_whole(&mut rt.stdin(), &mut input)?;
    patterns(&rt, &input[..n])
}
