// Fronts: a stretch, or none, which is one past every line. They are compared, stepped past and measured.
// With `Option<Stretch>`, which is what `first` answers, the machine took 8 to 15 in 100 more instructions of long searches.
ghost use Rattle.std.specs.Prelude.{◌≡◌, true, not, ◌&&◌, ◌<◌, eqb};
ghost use Rattle.stretches.specs.Stretch.{st};
ghost use Rattle.seek.specs.Source.{measured_by};
ghost use Rattle.seek.specs.inner.Fronts.{past_of, better_of};

use crate::NONE;
use basics::wide;
use stretches::Stretch;

// None.
pub(crate) const GONE: Stretch = Stretch {
    start: NONE,
    end: NONE,
};

// The line after n; 65,537 where there is none.
pub(crate) fn past(n: u32) -> u32
    ensures { result ≡ past_of n }
{
    if n < NONE { n + 1 } else { 65537 }
}

// Of two fronts the one with the least end, of equal ends the one with the greatest start. By branches: as one condition the compiler chooses without any,
// and a wide `or` took 1.3 times as long.
pub(crate) fn better(a: Stretch, b: Stretch) -> Stretch
    ensures { result ≡ better_of a b }
{
    if b.end < a.end {
        return b;
    }
    if a.end < b.end {
        return a;
    }
    if a.start < b.start { b } else { a }
}

// Whether a front that does not start at line `to` breaks the chain.
pub(crate) fn breaks(tight: bool, start: u32, to: u32) -> bool
    ensures { result ≡ (tight && not (eqb start to)) }
{
    tight && start != to
}

// What `max` measures of a front: its sound lines, where their row is there, and else its lines.
pub(crate) fn measure(sound: &[u64], a: Stretch) -> usize
    ensures { result ≡ measured_by sound.now (st a.start a.end) }
{
    if sound.len() != 0 {
        return ranks::count(sound, wide(a.start), wide(a.end));
    }
    if a.end < a.start {
        return 0;
    }
    wide(a.end - a.start) + 1
}
