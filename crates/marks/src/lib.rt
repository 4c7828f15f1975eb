// Rows of marks: a row lies in the words from place `at` on and is `width` words long; its line p is bit p mod 64, the lowest being bit 0, of
// its word p div 64. A row that does not lie inside the words, or has 2^64 lines or more, has no line.
#![tactic(auto)]

ghost use Rattle.std.specs.Prelude.{◌≡◌, false, length, MatchOption};
ghost use Rattle.marks.specs.Row.{lies, fit, changed, RowIs};

// Whether a row lies inside so many words, and a usize holds the number of its lines.
pub fn inside(len: usize, at: usize, width: usize) -> bool
    ensures { result ≡ lies len at width }
{
    at <= len && width <= len - at && width < 0x400_0000_0000_0000
}

// The words of the row; none where it does not lie inside.
pub fn row(words: &[u64], at: usize, width: usize) -> Option<&[u64]>
    ensures { MatchOption result (lies (length words.now) at width ≡ false) (λ r. RowIs words.now at width r.now) }
{
    if inside(words.len(), at, width) {
        Some(&words[at..at + width])
    } else {
        None
    }
}

// The words that a row of a log's lines may have.
pub const WIDEST: usize = 1024;

// Whether n rows of `width` words each, at most 1,024, fit into so many words.
pub fn fit(n: usize, width: usize, len: usize) -> bool
    ensures { result ≡ fit n width len }
{
    width <= WIDEST && (width == 0 || n <= len / width)
}

// Marks line p of the row, or takes its mark away; every other bit stays. Where the row has no line p, all stay.
#[inline]
pub fn put(words: &mut [u64], at: usize, width: usize, p: usize, marked: bool)
    ensures { words.new ≡ changed marked words.old at width p }
{
    if inside(words.len(), at, width) && p / 64 < width {
        let bit = 1u64 << (p % 64);
        let word = &mut words[at + p / 64];
        *word = if marked { *word | bit } else { *word & !bit };
    }
}
