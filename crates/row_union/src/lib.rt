// Whole rows changed: cleared, and united. Rows are as `marks` has them.
#![tactic(auto)]

ghost use Rattle.std.specs.Prelude.{◌≡◌, ◌&&◌};
ghost use Rattle.marks.specs.Row.{lies, apart, cleared, united};

use marks::inside;

// Clears the row; all other words stay. Where it does not lie inside the words, all stay.
pub fn clear(words: &mut [u64], at: usize, width: usize)
    ensures { words.new ≡ cleared words.old at width }
{
    if inside(words.len(), at, width) {
        words[at..at + width].fill(0);
    }
}

// Whether two rows of width words lie inside so many words and share none.
fn separate(len: usize, to: usize, at: usize, width: usize) -> bool
    ensures { result ≡ ((lies len to width && lies len at width) && apart to at width) }
{
    inside(len, to, width) && inside(len, at, width) && width <= to.abs_diff(at)
}

// Marks the row from place `to` on also where the row from place `at` on is marked; all other words stay. Where one does not lie inside the words, or they
// share one, all stay.
pub fn unite(words: &mut [u64], to: usize, at: usize, width: usize)
    ensures { words.new ≡ united words.old to at width }
{
    if separate(words.len(), to, at, width) {
        for k in 0..width {
            words[to + k] |= words[at + k];
        }
    }
}
