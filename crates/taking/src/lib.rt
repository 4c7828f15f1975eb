// The taking call: answer number p of or or and over lent lists, and the items taken of each list, as Algorithms 2 and 3 of
// Boldi and Vigna, "Efficient Optimally Lazy Algorithms for Minimal-Interval Semantics" take them.
#![tactic(auto)]

mod algorithm;
mod queue;

ghost use Rattle.std.specs.Prelude.{◌≡◌};
ghost use Rattle.taking.specs.Taking.{take_reply, take_result, take_cells};
ghost use Rattle.taking.specs.inner.Queue.{operator_at};

use algorithm::run;
use meaning::Refusal;
use queue::Operator;
use stretches::Stretch;

// The algorithm of operator 1, or, or 2, and.
fn operator(op: u32) -> Operator
    ensures { result ≡ operator_at op }
{
    if op == 1 { Operator::Or } else { Operator::And }
}

// Answer number `number` of or (op 1) or and (op 2) over the lists, or none; into counts, one for each list, the items taken.
pub fn take(
    op: u32,
    items: &[u32],
    ends: &[u32],
    counts: &mut [u32],
    number: usize,
) -> Result<Option<Stretch>, Refusal>
    ensures value { take_reply result ≡ take_result op items.now ends.now counts.old number }
    ensures counts_after { counts.new ≡ take_cells op items.now ends.now counts.old number }
{
    let lists = lent::taking_refusal(op, items, ends, counts)?;
    let n = lists.len();
    Ok(run(operator(op), &lists, &mut counts[..n], number))
}
