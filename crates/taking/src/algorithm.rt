// Algorithms 2 and 3 over lent lists: the counts are kept in the lent cells, one for each list.
ghost use Rattle.std.specs.Prelude.{suc, ◌≡◌, false, length, Some};
ghost use Rattle.stretches.specs.Taking.{fronts, total, skip, is_top, shrink, next, taking};
ghost use Rattle.meaning.specs.Refusals.{disordered};
ghost use Rattle.taking.specs.inner.Queue.{order_of, view_of, op_of, handed};

use crate::queue::{Operator, advance, contains, inside, span_of, top};
use lent::Lists;
use stretches::Stretch;

// What the algorithm looks at: the top of the queue for or, its span for and.
fn view(op: Operator, lists: &Lists, counts: &[u32]) -> Option<Stretch>
    requires { length counts.now ≡ length lists.now }
    ensures { result ≡ view_of op (fronts lists.now counts.now) }
{
    match op {
        Operator::Or => top(op, lists, counts),
        Operator::And => span_of(lists, counts),
    }
}

// Lines 2 to 4: while the view contains c, advance.
fn skip(op: Operator, lists: &Lists, counts: &mut [u32], c: Option<Stretch>)
    requires { length counts.old ≡ length lists.now }
    ensures { counts.new ≡ skip (suc (total lists.now)) (order_of op) (view_of op) lists.now c counts.old }
{
    for _turn in 0..=lists.total() {
        if !contains(view(op, lists, counts), c) {
            return;
        }
        advance(op, lists, counts);
    }
}

// Line 8 of Algorithm 3: whether c is the top x itself.
fn is_top(x: Option<Stretch>, c: Stretch) -> bool
    ensures { result ≡ is_top x c }
{
    x == Some(c)
}

// Lines 6 to 11 of Algorithm 3, from the span c.
fn shrink(lists: &Lists, counts: &mut [u32], mut c: Stretch) -> Stretch
    requires { length counts.old ≡ length lists.now }
    ensures { handed (Some result) counts.new ≡ shrink (suc (total lists.now)) lists.now c counts.old }
{
    for _turn in 0..=lists.total() {
        if is_top(top(Operator::And, lists, counts), c) {
            return c;
        }
        advance(Operator::And, lists, counts);
        match span_of(lists, counts) {
            Some(s) if inside(s, c) => c = s,
            _ => return c,
        }
    }
    c
}

// One call of the algorithm's next, c being the answer before.
fn next(op: Operator, lists: &Lists, counts: &mut [u32], c: Option<Stretch>) -> Option<Stretch>
    requires { length counts.old ≡ length lists.now }
    ensures { handed result counts.new ≡ next (op_of op) lists.now (handed c counts.old) }
{
    skip(op, lists, counts, c);
    let v = view(op, lists, counts)?;
    match op {
        Operator::Or => Some(v),
        Operator::And => Some(shrink(lists, counts, v)),
    }
}

// Answer number `number`, or none: at first each list's first item is taken.
pub(crate) fn run(op: Operator, lists: &Lists, counts: &mut [u32], number: usize) -> Option<Stretch>
    requires room { length counts.old ≡ length lists.now }
    requires order { disordered lists.now ≡ false }
    ensures { handed result counts.new ≡ taking (op_of op) lists.now number }
{
    counts.fill(1);
    let mut c = next(op, lists, counts, None)?;
    for _p in 0..number {
        c = next(op, lists, counts, Some(c))?;
    }
    Some(c)
}
