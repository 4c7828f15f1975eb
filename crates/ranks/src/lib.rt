// Rows of marks with, behind them, the number of marks before each word (rank): how many lines from one through another are marked, in the same time
// however many they are. The row is the first half of the words, its counts the second. Rows are as `marks` has them.
#![tactic(auto)]

ghost use Rattle.std.specs.Prelude.{◌≡◌, ◌+◌, ◌≤◌, ◌<◌};
ghost use Rattle.ranks.specs.Rank.{half, indexed, through, marks_by};

use marks::WIDEST;
use row_search::marks_in;

// How many words the row has that lies with its counts in so many words: half of them, and none where that is more than 1,024.
pub fn half(len: usize) -> usize
    ensures value { result ≡ half len }
    ensures upper_bound { (result ≤ 1024) × (result + result ≤ len) }
{
    let h = len / 2;
    if h <= WIDEST { h } else { 0 }
}

// Writes the counts of the row in front behind it; later words stay.
pub fn index(words: &mut [u64])
    ensures { words.new ≡ indexed words.old }
{
    let h = half(words.len());
    let (row, counts) = words.split_at_mut(h);
    let mut n = 0;
    for (k, w) in row.iter().enumerate() {
        counts[k] = n;
        n += marks_in(*w) as u64;
    }
}

// How many lines up to line p, p included, are marked; none where the row has no line p.
fn through(words: &[u64], p: usize) -> usize
    ensures { result ≡ through words.now p }
{
    let h = half(words.len());
    let k = p / 64;
    if k < h {
        (words[h + k] % 65536) as usize + marks_in(words[k] << (63 - p % 64))
    } else {
        0
    }
}

// How many lines of the row from s through e are marked, by its counts. Where the row has no line e, or the counts are not the row's and fall, none.
pub fn count(words: &[u64], s: usize, e: usize) -> usize
    ensures { result ≡ marks_by words.now s e }
{
    let before = if s == 0 { 0 } else { through(words, s - 1) };
    through(words, e).saturating_sub(before)
}
