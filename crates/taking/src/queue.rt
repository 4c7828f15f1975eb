// The queue of Algorithms 1 to 3 over lent lists, of each of which only the number of items taken is kept.
// The lists and their counts stay two arguments, as many of one as of the other: a struct of both would hold the lent cells as a &mut, and its model does not
// say what they hold once it is gone, which `take` promises.
ghost use Rattle.std.specs.Prelude.{◌≡◌, ◌<◌, ◌≤◌, length, get_or, IfSome};
ghost use Rattle.stretches.specs.Stretch.{inside};
ghost use Rattle.stretches.specs.Taking.{fronts, top, span, contains, advance};
ghost use Rattle.taking.specs.inner.Queue.{order_of, better_of, Topped};

use lent::Lists;
use stretches::Stretch;

// Algorithm 2 or Algorithm 3.
#[derive(Clone, Copy)]
pub(crate) enum Operator {
    Or,
    And,
}

impl Operator {
    // Whether x goes before y: by their ends for or, by their starts for and.
    fn goes_first(self, x: Stretch, y: Stretch) -> bool
        ensures { result ≡ order_of self x y }
    {
        match self {
            Operator::Or => (x.end, y.start) <= (y.end, x.start),
            Operator::And => (x.start, y.end) <= (y.start, x.end),
        }
    }
}

// The better of the item x of list i and the top t of the later lists.
fn better(
    op: Operator,
    x: Option<Stretch>,
    i: usize,
    t: Option<(Stretch, usize)>,
) -> Option<(Stretch, usize)>
    ensures { result ≡ better_of (order_of op) x i t }
{
    match (x, t) {
        (None, _) => t,
        (Some(x), Some((y, _))) if !op.goes_first(x, y) => t,
        (Some(x), _) => Some((x, i)),
    }
}

// The top of the queue, and the number of its list.
fn top_of(op: Operator, lists: &Lists, counts: &[u32]) -> Option<(Stretch, usize)>
    requires { length counts.now ≡ length lists.now }
    ensures top { Topped (order_of op) (fronts lists.now counts.now) 0 result }
    ensures open { IfSome result (λ t. (t.1 < length counts.now) × (get_or counts.now t.1 0 ≤ 65536)) }
{
    let mut t = None;
    for i in (0..lists.len()).rev() {
        t = better(op, lists.taken(i, counts[i]), i, t);
    }
    t
}

// The top of the queue.
pub(crate) fn top(op: Operator, lists: &Lists, counts: &[u32]) -> Option<Stretch>
    requires { length counts.now ≡ length lists.now }
    ensures { result ≡ top (order_of op) (fronts lists.now counts.now) }
{
    Some(top_of(op, lists, counts)?.0)
}

// The span of the queue, where it is full. Start and end go on apart: as one stretch they are packed and parted at each list, and an answer of `and` over
// 31 lists took a tenth more time.
pub(crate) fn span_of(lists: &Lists, counts: &[u32]) -> Option<Stretch>
    requires { length counts.now ≡ length lists.now }
    ensures { result ≡ span (fronts lists.now counts.now) }
{
    let last = counts.len().checked_sub(1)?;
    let Stretch { mut start, mut end } = lists.taken(last, counts[last])?;
    for i in (0..last).rev() {
        let x = lists.taken(i, counts[i])?;
        start = x.start.min(start);
        end = x.end.max(end);
    }
    Some(Stretch { start, end })
}

// Whether x lies inside y.
pub(crate) fn inside(x: Stretch, y: Stretch) -> bool
    ensures { result ≡ inside x y }
{
    y.start <= x.start && x.end <= y.end
}

// Whether c lies in x.
pub(crate) fn contains(x: Option<Stretch>, c: Option<Stretch>) -> bool
    ensures { result ≡ contains x c }
{
    x.zip(c).is_some_and(|(x, c)| inside(c, x))
}

// Takes one more item of the list with the top item.
pub(crate) fn advance(op: Operator, lists: &Lists, counts: &mut [u32])
    requires { length counts.old ≡ length lists.now }
    ensures { counts.new ≡ advance (order_of op) lists.now counts.old }
{
    if let Some((_, i)) = top_of(op, lists, counts) {
        counts[i] += 1;
    }
}
