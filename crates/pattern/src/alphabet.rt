// The kinds of symbols: their words in the list's order, and what follows each word.
ghost use Rattle.std.specs.Prelude.{◌≡◌, ℕ, ◌≤◌, ◌<◌, ◌↔◌, IsTrue, length};
ghost use Rattle.pattern.specs.Kinds.{kinds, kind_in, field_count, low, high, arity};
ghost use Rattle.pattern.specs.Automaton.{letter_at, next, live};
ghost use Rattle.pattern.specs.inner.Scanner.{row_found};

use nodes::{AND, EV, FR, HAS, IN, LESS, MAX, OR, OUT, ROW, THEN};

// The number of kinds.
const KINDS: usize = 11;

// The kinds in the list's order: the number of each, and its word, filled up with commas.
const ROWS: [(usize, [u8; 4]); KINDS] = [
    (EV, *b"ev,,"),
    (FR, *b"fr,,"),
    (OR, *b"or,,"),
    (AND, *b"and,"),
    (ROW, *b"row,"),
    (THEN, *b"then"),
    (LESS, *b"less"),
    (MAX, *b"max,"),
    (IN, *b"in,,"),
    (OUT, *b"out,"),
    (HAS, *b"has,"),
];

// The byte at a place of a row's word, commas past its letters.
fn letter(row: usize, place: usize) -> u8
    requires { row < length kinds }
    ensures { result ≡ letter_at (kind_in row).word place }
{
    if place < 4 { ROWS[row].1[place] } else { b',' }
}

// The words of two rows agree in their first letters.
fn alike(row: usize, other: usize, read: usize) -> bool
    requires { (row < length kinds) × (other < length kinds) }
    ensures { IsTrue result ↔ ((i : ℕ) → i < read → letter_at (kind_in row).word i ≡ letter_at (kind_in other).word i) }
{
    (0..read).all(|i| letter(row, i) == letter(other, i))
}

// The first row whose word has the row's first letters and then b, a comma for the word's end.
pub(crate) fn next(row: usize, read: usize, b: u8) -> Option<usize>
    requires { row < length kinds }
    ensures { result ≡ row_found (next row read b) }
{
    for j in 0..KINDS {
        if alike(row, j, read) && letter(j, read) == b {
            return Some(j);
        }
    }
    None
}

// The number of the kind in a row.
pub(crate) fn kind_in(row: usize) -> usize
    requires { row < length kinds }
    ensures { result ≡ (kind_in row).number }
{
    ROWS[row].0
}

// How many numbers follow the word of a kind; none where no kind has the number.
#[tactic(auto, unfolding(crate::specs::Kinds::kind_by, crate::specs::Kinds::kind_in, crate::specs::Kinds::row_of))]
pub(crate) fn field_count(kind: usize) -> usize
    ensures { result ≡ field_count kind }
{
    match kind {
        EV | FR => 2,
        OR | AND | ROW | THEN | MAX => 1,
        _ => 0,
    }
}

// The least and the greatest number at a place after the word.
#[tactic(auto, unfolding(crate::specs::Kinds::kind_by, crate::specs::Kinds::kind_in, crate::specs::Kinds::row_of))]
fn range(kind: usize, field: usize) -> (usize, usize)
    requires { field ≤ 2 }
    ensures { (result.0 ≡ low kind field) × (result.1 ≡ high kind field) }
{
    match (kind, field) {
        (EV, 0) => (1, 255),
        (FR, 0) => (0, 10),
        (EV | FR, 1) => (0, 99),
        (OR | AND | ROW | THEN, 0) => (2, 31),
        (MAX, 0) => (1, 65535),
        _ => (0, 0),
    }
}

// The least number at a place after the word.
pub(crate) fn low(kind: usize, field: usize) -> usize
    requires { field ≤ 2 }
    ensures { result ≡ low kind field }
{
    range(kind, field).0
}

// The number of operands.
#[tactic(auto, unfolding(crate::specs::Kinds::kind_by, crate::specs::Kinds::kind_in, crate::specs::Kinds::row_of))]
pub(crate) fn arity(kind: usize, first: usize) -> usize
    ensures { result ≡ arity kind first }
{
    match kind {
        OR | AND | ROW | THEN => first,
        LESS | IN | OUT | HAS => 2,
        MAX => 1,
        _ => 0,
    }
}

// Digits of value v are the start of a number of the field.
pub(crate) fn live(kind: usize, field: usize, v: usize) -> bool
    requires { (v ≤ 1000000) × (field ≤ 2) }
    ensures { result ≡ live (low kind field) (high kind field) v }
{
    let (least, most) = range(kind, field);
    v <= most && (least <= v || 1 <= v && 10 * v <= most)
}
