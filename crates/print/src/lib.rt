// The printed lines: the sheet of an accepted search and that of a refusal, digit by digit, written into a lent buffer.
#![tactic(auto)]

ghost use Rattle.std.specs.Prelude.{◌≡◌, ◌+◌, ◌-◌, ◌≤◌, ◌↔◌, length, set, SomeIff, IsTrue};
ghost use Rattle.std.proofs.lemmas.List.Edits.{sets};
ghost use Rattle.basics.specs.Decimal.{decimal};
ghost use Rattle.print.specs.Print.{field, rows, found_sheet, refused_sheet, shown, Writes};
ghost use Rattle.print.specs.inner.Cells.{stretches_of};

use basics::{first, wide};
use itoa::Buffer;

// The number of digits of n.
fn digits(n: usize) -> usize
    ensures { (result ≡ length (decimal n)) × (result ≤ 20) }
{
    Buffer::new().format(n).len()
}

// Writes the digits of n from a place on, and gives the place after them.
fn put_number(out: &mut [u8], at: usize, n: usize) -> usize
    requires { at + length (decimal n) ≤ length out.old }
    ensures { (result ≡ at + length (decimal n)) × (out.new ≡ sets out.old at (decimal n)) }
{
    let mut buffer = Buffer::new();
    let number = buffer.format(n).as_bytes();
    let end = at + number.len();
    out[at..end].copy_from_slice(number);
    end
}

// Writes a number and the byte that ends it, and gives the place after them.
fn put_field(out: &mut [u8], at: usize, n: usize, mark: u8) -> usize
    requires { at + length (field n mark) ≤ length out.old }
    ensures { (result ≡ at + length (field n mark)) × (out.new ≡ sets out.old at (field n mark)) }
{
    let end = put_number(out, at, n);
    out[end] = mark;
    end + 1
}

// Writes the letter that a sheet begins with, and its comma.
fn put_letter(out: &mut [u8], letter: u8)
    requires { 2 ≤ length out.old }
    ensures { out.new ≡ set (set out.old 0 letter) 1 44 }
{
    out[0] = letter;
    out[1] = b',';
}

// The room that the stretches, as printed lines, leave of so much; none where they do not fit.
fn rows_leave(cells: &[[u32; 2]], room: usize) -> Option<usize>
    ensures { SomeIff result (length (rows (stretches_of cells.now)) ≤ room) (room - length (rows (stretches_of cells.now))) }
{
    let mut left = room;
    for &[start, end] in cells {
        left = left.checked_sub(digits(wide(start)) + digits(wide(end)) + 2)?;
    }
    Some(left)
}

// Writes the stretches as printed lines from a place on, and gives the place after them.
fn put_rows(out: &mut [u8], at: usize, cells: &[[u32; 2]]) -> usize
    requires { at + length (rows (stretches_of cells.now)) ≤ length out.old }
    ensures { (result ≡ at + length (rows (stretches_of cells.now))) × (out.new ≡ sets out.old at (rows (stretches_of cells.now))) }
{
    let mut place = at;
    for &[start, end] in cells {
        let half = put_field(out, place, wide(start), b',');
        place = put_field(out, half, wide(end), b'\n');
    }
    place
}

// Whether the sheet of these numbers and stretches fits into so much room.
fn found_fits(lines: usize, damaged: usize, cells: &[[u32; 2]], room: usize) -> bool
    ensures { IsTrue result ↔ (length (found_sheet lines damaged (stretches_of cells.now)) ≤ room) }
{
    let head = digits(lines) + digits(damaged) + digits(cells.len()) + 5;
    match room.checked_sub(head) {
        None => false,
        Some(left) => rows_leave(cells, left).is_some(),
    }
}

// Writes the sheet of an accepted search, whose first `count` answers stand in the cells, start then end, and gives its
// length. Where the sheet does not fit, nothing is written and 0 comes back.
pub fn write_found(
    lines: usize,
    damaged: usize,
    cells: &[u32],
    count: usize,
    out: &mut [u8],
) -> usize
    ensures { Writes (found_sheet lines damaged (shown count cells.now)) out.old result out.new }
{
    let (held, _) = cells.as_chunks();
    let answers = first(held, count);
    if !found_fits(lines, damaged, answers, out.len()) {
        return 0;
    }
    put_letter(out, b'F');
    let second = put_field(out, 2, lines, b',');
    let third = put_field(out, second, damaged, b',');
    let first_row = put_field(out, third, answers.len(), b'\n');
    put_rows(out, first_row, answers)
}

// Writes the sheet of a refusal and gives its length. Where the sheet does not fit, nothing is written and 0 comes back.
pub fn write_refused(number: usize, place: usize, out: &mut [u8]) -> usize
    ensures { Writes (refused_sheet number place) out.old result out.new }
{
    let need = digits(number) + digits(place) + 4;
    if out.len() < need {
        return 0;
    }
    put_letter(out, b'R');
    let second = put_field(out, 2, number, b',');
    put_field(out, second, place, b'\n')
}
