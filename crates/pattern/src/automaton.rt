// The automaton: what a byte, and the end of the text, do to a state; none where no pattern goes on so.
ghost use Rattle.std.specs.Prelude.{◌≡◌, ◌≤◌, ◌<◌, length};
ghost use Rattle.digits.specs.Chart.{chart};
ghost use Rattle.pattern.specs.Kinds.{kinds};
ghost use Rattle.pattern.specs.Automaton.{next, number, shut, word_end, letter, first_field, with_value, number_end, step};
ghost use Rattle.pattern.specs.inner.Scanner.{Bounded, Piece, final, end_of};

use super::alphabet::{arity, field_count, kind_in, live, low, next};
use super::{Slot, State, Step};
use digits::Chart;
use nodes::{NO_NODE, Node};

// Digits of a number, if they start one of the field. Inlined, since a call for each digit is a quarter of a text's reading.
#[inline]
fn number(slot: Slot, value: usize) -> Option<Step>
    requires { (value ≤ 1000000) × (slot.field ≤ 2) }
    ensures { result ≡ number slot value }
{
    live(slot.kind, slot.field, value).then_some(Step::Within(State::Digits(slot, value)))
}

// A comma after a whole symbol.
fn shut(node: Node, need: usize) -> Option<Step>
    requires { (1 ≤ need) × ((need ≤ 1000000) × (node.first ≤ 1000000)) }
    ensures { result ≡ shut node need }
{
    let n = need + arity(node.kind, node.first);
    if n == 1 {
        return None;
    }
    Some(Step::Closed(
        node,
        State::Letters {
            row: 0,
            read: 0,
            need: n - 1,
        },
    ))
}

// A comma after a word, by the kind of symbol that it is.
fn word_end(kind: usize, need: usize) -> Option<Step>
    requires { (1 ≤ need) × (need ≤ 1000000) }
    ensures { result ≡ word_end kind need }
{
    if field_count(kind) == 0 {
        return shut(Node { kind, ..NO_NODE }, need);
    }
    Some(Step::Within(State::Field(Slot {
        kind,
        field: 0,
        first: 0,
        second: 0,
        need,
    })))
}

// A letter, or a comma, after the first letters of a row's word.
fn letter(row: usize, read: usize, b: u8, need: usize) -> Option<Step>
    requires { (row < length kinds) × ((1 ≤ need) × ((need ≤ 1000000) × (read ≤ 1000000))) }
    ensures { result ≡ letter (next row read b) read b need }
{
    let row = next(row, read, b)?;
    if b == b',' {
        return word_end(kind_in(row), need);
    }
    Some(Step::Within(State::Letters {
        row,
        read: read + 1,
        need,
    }))
}

// A symbol's numbers through the one at the place.
fn with_value(slot: Slot, value: usize) -> Node
    ensures { result ≡ with_value slot value }
{
    let kind = slot.kind;
    let first = slot.first;
    let second = slot.second;
    match slot.field {
        0 => Node {
            kind,
            first: value,
            ..NO_NODE
        },
        1 => Node {
            kind,
            first,
            second: value,
            ..NO_NODE
        },
        _ => Node {
            kind,
            first,
            second,
            third: value,
            ..NO_NODE
        },
    }
}

// A comma after a number.
fn number_end(slot: Slot, value: usize) -> Option<Step>
    requires { (1 ≤ slot.need) × ((slot.need ≤ 1000000) × ((first_field slot.field slot.first value ≤ 1000000) × (slot.field ≤ 2))) }
    ensures { result ≡ number_end slot value }
{
    if value < low(slot.kind, slot.field) {
        return None;
    }
    let node = with_value(slot, value);
    let field = slot.field + 1;
    if field < field_count(slot.kind) {
        return Some(Step::Within(State::Field(Slot {
            field,
            first: node.first,
            second: node.second,
            ..slot
        })));
    }
    shut(node, slot.need)
}

// What a byte does to a state. The piece is the text from the start of the present word or number through the byte; the value of digits is the sum of
// their entries.
pub(crate) fn advance(places: &Chart, piece: &[u8], s: State, b: u8) -> Option<Step>
    requires { (places.now ≡ chart) × Bounded 1000000 s × Piece s b piece.now }
    ensures { result ≡ step s b }
{
    match s {
        State::Letters { row, read, need } => letter(row, read, b, need),
        State::Field(slot) => {
            if !b.is_ascii_digit() {
                return None;
            }
            number(slot, digits::sum(places, piece))
        }
        State::Digits(slot, value) => {
            if b == b',' {
                return number_end(slot, value);
            }
            // no number has a sixth digit, nor the chart an entry for it
            if !b.is_ascii_digit() || value == 0 || 5 < piece.len() {
                return None;
            }
            number(slot, digits::sum(places, piece))
        }
    }
}

// A symbol that ends the text.
fn whole(node: Node, need: usize) -> Option<Node>
    requires { (need ≤ 1000000) × (node.first ≤ 1000000) }
    ensures { result ≡ final node need }
{
    (need + arity(node.kind, node.first) == 1).then_some(node)
}

// What the end of the text makes of a state.
pub(crate) fn last(s: State) -> Option<Node>
    requires { Bounded 1000000 s }
    ensures { result ≡ end_of s }
{
    let State::Digits(slot, value) = s else {
        return None;
    };
    if value < low(slot.kind, slot.field) || slot.field + 1 < field_count(slot.kind) {
        return None;
    }
    whole(with_value(slot, value), slot.need)
}
