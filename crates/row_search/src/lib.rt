// The marks of a row found and counted. Rows are as `marks` has them: in one that does not lie inside the words nothing is found or counted.
//
// A word is opened at a line by a shift right, and cut after the last line by a shift left: no mask is made, and neither shift reaches 64.
#![tactic(auto)]

ghost use Rattle.std.specs.Prelude.{◌≡◌, ◌+◌, ◌*◌, ◌^◌, ◌≤◌, ◌<◌, length, take, drop, suc, [], sum_by, MatchOption};
ghost use Rattle.stretches.specs.Stretch.{marks};
ghost use Rattle.stretches.specs.Front.{first_from, head_of};
ghost use Rattle.marks.specs.Row.{bits, flags, row, trues, mark_count};
ghost use Rattle.row_search.specs.Line.{line_of};
ghost use Rattle.row_search.specs.inner.Opened.{Opened};

// What the row's word with line t has from that line on, and the words after it; none where the row has no line t.
fn opened(words: &[u64], at: usize, width: usize, t: usize) -> Option<(u64, &[u64])>
    ensures { MatchOption result (drop t (row words.now at width) ≡ []) (λ r. Opened (drop t (row words.now at width)) t r.0 r.1.now) }
{
    let (first, later) = marks::row(words, at, width)?.get(t / 64..)?.split_first()?;
    Some((*first >> (t % 64), later))
}

// The first marked line of the words, which begin with a line.
fn first_of(words: &[u64], line: usize) -> Option<usize>
    requires { line + 64 * length words.now < 2 ^ 64 }
    ensures { result ≡ line_of (head_of (marks line (flags words.now))) }
{
    for (k, w) in words.iter().enumerate() {
        if *w != 0 {
            return Some(line + 64 * k + w.trailing_zeros() as usize);
        }
    }
    None
}

// The first marked line of the row from line t on; none where the row has no line from t on.
pub fn next(words: &[u64], at: usize, width: usize, t: usize) -> Option<usize>
    ensures { result ≡ line_of (first_from (marks 0 (row words.now at width)) t) }
{
    let (w, later) = opened(words, at, width, t)?;
    if w != 0 {
        return Some(t + w.trailing_zeros() as usize);
    }
    first_of(later, 64 * (t / 64 + 1))
}

// How many bits of a word are set.
pub fn marks_in(w: u64) -> usize
    ensures { (result ≡ trues (bits 64 w)) × (result ≤ 64) }
{
    w.count_ones() as usize
}

// How many bits of the words are.
fn marks_of(words: &[u64]) -> usize
    requires { sum_by (λ w. trues (bits 64 w)) words.now < 2 ^ 64 }
    ensures { result ≡ sum_by (λ w. trues (bits 64 w)) words.now }
{
    words.iter().map(|w| marks_in(*w)).sum()
}

// How many of the words' lines up to line e, line e included, are marked.
fn marks_through(words: &[u64], e: usize) -> usize
    requires { 64 * length words.now < 2 ^ 64 }
    ensures { result ≡ trues (take (suc e) (flags words.now)) }
{
    match words.get(e / 64) {
        Some(w) => marks_of(&words[..e / 64]) + marks_in(*w << (63 - e % 64)),
        None => marks_of(words),
    }
}

// How many lines of the row from s through e are marked. Lines that the row does not have are not; where e is below s, none is.
pub fn count(words: &[u64], at: usize, width: usize, s: usize, e: usize) -> usize
    ensures { result ≡ mark_count (row words.now at width) s e }
{
    let (Some((w, later)), Some(left)) = (opened(words, at, width, s), e.checked_sub(s)) else {
        return 0;
    };
    let room = 64 - s % 64;
    if left < room {
        marks_in(w << (63 - left))
    } else {
        marks_in(w) + marks_through(later, left - room)
    }
}
