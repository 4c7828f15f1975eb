// The log marked into words on the stack, few or many by its lines, for what is to run over the marks.
#![tactic(auto)]

ghost use Rattle.std.specs.Prelude.{◌≡◌, ◌≤◌, ◌<◌, length, replicate, MatchOption};
ghost use Rattle.plan.specs.Marks.{Marks};
ghost use Rattle.plan.specs.inner.Room.{Roomy};

use crate::{FEW, FEW_SOUND, FEW_WORDS, SOUND, WORDS, prepare, sound_words, width};
use lines::LOG_MAX;
use nodes::Nodes;
use seek::Searched;

// With this many words for the rows, and for the row of the sound lines with its counts.
fn run_in<const WORDS: usize, const SOUND: usize, R, F: FnOnce(&Searched, &mut [u32]) -> R>(
    rows: &Nodes,
    log: &[u8],
    width: usize,
    cells: &mut [u32],
    run: F,
) -> R
    requires sized { (WORDS ≤ 30720) × (SOUND ≤ 1920) }
    requires room { Roomy rows.now log.now width (replicate WORDS 0) (replicate SOUND 0) }
    requires runs { (s : _) (c : _) → Marks rows.now log.now s.now → F.pre run s c }
    ensures { (s : _) × (c : _) × (d : _) × Marks rows.now log.now s.now × (c.now ≡ cells.old) × F.post run s c result d × (d.now ≡ cells.new) }
{
    let mut words = [0u64; WORDS];
    let mut sound = [0u64; SOUND];
    let n = sound_words(rows, width);
    let table = prepare(rows, log, width, &mut words, &mut sound[..n]);
    let searched = Searched {
        rows: &table,
        words: &words,
        items: &[],
        sound: &sound[..n],
    };
    run(&searched, cells)
}

// Marks the log's lines, and runs over the marks: in a log of few lines 32 KiB of words, and in one of any number 240 KiB. In a log that is too long
// nothing is run.
pub fn with_marks<R, F: FnOnce(&Searched, &mut [u32]) -> R>(
    rows: &Nodes,
    log: &[u8],
    cells: &mut [u32],
    run: F,
) -> Option<R>
    requires { (s : _) (c : _) → Marks rows.now log.now s.now → F.pre run s c }
    ensures { MatchOption result ((61440 < length log.now) × (cells.new ≡ cells.old)) (λ r. (length log.now ≤ 61440) × (s : _) × (c : _) × (d : _) × Marks rows.now log.now s.now × (c.now ≡ cells.old) × F.post run s c r d × (d.now ≡ cells.new)) }
{
    if LOG_MAX < log.len() {
        return None;
    }
    let width = width(log);
    if width <= FEW {
        Some(run_in::<FEW_WORDS, FEW_SOUND, R, F>(rows, log, width, cells, run))
    } else {
        Some(run_in::<WORDS, SOUND, R, F>(rows, log, width, cells, run))
    }
}
