// The calls from C: numbers and slices in, one packed number out. include/finder.h declares them.
#![tactic(auto)]

ghost use Rattle.std.specs.Prelude.{◌≡◌, ◌≤◌};
ghost use Rattle.stretches.specs.Filling.{filled};
ghost use Rattle.meaning.specs.Finding.{list_of, filling};
ghost use Rattle.meaning.specs.Replies.{fill_reply, reply};
ghost use Rattle.picks.specs.Picking.{picks_in, picking};
ghost use Rattle.witness.specs.Witness.{shown_in, filled_shown, witnessing};
ghost use Rattle.lists.specs.Filling.{fill_result, fill_cells};
ghost use Rattle.taking.specs.Taking.{take_reply, take_result, take_cells};
ghost use Rattle.finder_c.specs.Packing.{packed_fill, packed_reply, packed_taken, packed_count, packed_lines};

use lines::LOG_MAX;
use meaning::{Filled, Refusal};
use stretches::Stretch;

// The result of a filling call in one number.
fn packed(r: Result<Filled, Refusal>) -> u64
    requires { ((fill_reply r).number ≤ 8) × ((fill_reply r).place ≤ 1024) × ((fill_reply r).count ≤ 65536) }
    ensures { result ≡ packed_fill (fill_reply r) }
{
    match r {
        Ok(f) => 256 * u64::from(f.more) + 4294967296 * (f.count as u64),
        Err(e) => e.number() as u64 + 65536 * (e.place() as u64),
    }
}

// The result of a picking or a witness call in one number.
fn packed_reply(r: Result<usize, Refusal>) -> u64
    requires { ((reply r).number ≤ 10) × ((reply r).place ≤ 1024) × ((reply r).count ≤ 65536) }
    ensures { result ≡ packed_reply (reply r) }
{
    match r {
        Ok(count) => 4294967296 * (count as u64),
        Err(refusal) => refusal.number() as u64 + 65536 * (refusal.place() as u64),
    }
}

// The result of a taking call in one number.
fn packed_taken(r: Result<Option<Stretch>, Refusal>) -> u64
    requires { ((take_reply r).number ≤ 8) × ((take_reply r).start ≤ 65535) × ((take_reply r).end ≤ 65535) }
    ensures { result ≡ packed_taken (take_reply r) }
{
    match r {
        Ok(Some(x)) => 256 + 65536 * (x.start as u64) + 4294967296 * (x.end as u64),
        Ok(None) => 0,
        Err(e) => e.number() as u64,
    }
}

// The stretches of a pattern in a log, from number `from` on, into the cells.
#[unsafe(no_mangle)]
pub extern "C" fn finder_fill(pattern: &[u8], log: &[u8], cells: &mut [u32], from: u64) -> u64
    ensures value { result ≡ packed_fill (filling pattern.now log.now from cells.old) }
    ensures cells_after { cells.new ≡ filled (list_of pattern.now log.now) from cells.old }
{
    let r = finder::fill(pattern, log, cells, from as usize);
    packed(r)
}

// Up to k picks of a pattern's stretches in a log, into the cells.
#[unsafe(no_mangle)]
pub extern "C" fn finder_pick(pattern: &[u8], log: &[u8], k: u32, cells: &mut [u32]) -> u64
    ensures value { result ≡ packed_reply (picking pattern.now log.now k cells.old) }
    ensures cells_after { cells.new ≡ filled (picks_in pattern.now log.now k) 0 cells.old }
{
    let r = picks::pick(pattern, log, k as usize, cells);
    packed_reply(r)
}

// The nodes that took part in answer number `number` of a pattern in a log, each as node, start, end, into the cells.
#[unsafe(no_mangle)]
pub extern "C" fn finder_witness(pattern: &[u8], log: &[u8], number: u64, cells: &mut [u32]) -> u64
    ensures value { result ≡ packed_reply (witnessing pattern.now log.now number cells.old) }
    ensures cells_after { cells.new ≡ filled_shown (shown_in pattern.now log.now number) cells.old }
{
    let r = witness::show(pattern, log, number as usize, cells);
    packed_reply(r)
}

// The stretches of an operator over lent lists, from number `from` on, into the cells.
#[unsafe(no_mangle)]
pub extern "C" fn finder_lists_fill(
    op: u32,
    k: u32,
    items: &[u32],
    ends: &[u32],
    cells: &mut [u32],
    from: u64,
) -> u64
    ensures value { result ≡ packed_fill (fill_result op k items.now ends.now cells.old from) }
    ensures cells_after { cells.new ≡ fill_cells op k items.now ends.now cells.old from }
{
    let r = lists::fill(op, k, items, ends, cells, from as usize);
    packed(r)
}

// Answer number `number` of or or and over lent lists, and the items taken of each list into the counts.
#[unsafe(no_mangle)]
pub extern "C" fn finder_lists_take(
    op: u32,
    items: &[u32],
    ends: &[u32],
    counts: &mut [u32],
    number: u64,
) -> u64
    ensures value { result ≡ packed_taken (take_result op items.now ends.now counts.old number) }
    ensures counts_after { counts.new ≡ take_cells op items.now ends.now counts.old number }
{
    let r = taking::take(op, items, ends, counts, number as usize);
    packed_taken(r)
}

// The lines of a log, and the damaged ones among them.
#[unsafe(no_mangle)]
pub extern "C" fn finder_count(log: &[u8]) -> u64
    ensures { result ≡ packed_count log.now }
{
    if LOG_MAX < log.len() {
        return 1;
    }
    let c = marking::count(log);
    65536 * (c.damaged as u64) + 4294967296 * (c.lines as u64)
}

// Where the lines from first to last start in a log, and their length in bytes.
#[unsafe(no_mangle)]
pub extern "C" fn finder_lines(log: &[u8], first: u32, last: u32) -> u64
    ensures { result ≡ packed_lines log.now first last }
{
    let part = lines::stretch_lines(log, first as usize, last as usize);
    let length = part.len();
    if length == 0 {
        return 0;
    }
    let start = lines::place_after(log, first as usize);
    start as u64 + 4294967296 * (length as u64)
}
