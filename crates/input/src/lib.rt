// An input read whole; and one taken in piece by piece: the pattern up to the first line feed, then the log.
#![tactic(auto)]

ghost use Rattle.std.specs.Prelude.{◌≡◌, ℕ, ◌<◌, min, length, take, IfOk, IfErr, MatchOption, position, ◌==◌, ◌||◌, []};
ghost use Rattle.std.specs.Option.{is_some};
ghost use Rattle.std.specs.Io.{ReadsAtMost};
ghost use Rattle.std.specs.Io.KnownBytes.{Consumes, IsAtEnd};
ghost use Rattle.input.specs.Input.{pattern_part, log_part, feed_in, Kept, TakenIn};

use std::io;
use std::io::Read;

// What has been taken in: whether the pattern's line feed has come, and how many bytes of pattern and log are kept.
#[derive(Clone, Copy)]
pub struct Intake {
    pub ended: bool,
    pub pattern: usize,
    pub log: usize,
}

// Copies bytes into a buffer behind those used, as many as fit, and gives the number used then.
fn keep(buffer: &mut [u8], used: usize, bytes: &[u8]) -> usize
    ensures { Kept buffer.old used bytes.now result buffer.new }
{
    let from = used.min(buffer.len());
    let fit = bytes.len().min(buffer.len() - from);
    buffer[from..from + fit].copy_from_slice(&bytes[..fit]);
    from + fit
}

// The place of the first line feed.
fn feed_at(piece: &[u8]) -> Option<usize>
    ensures { result ≡ position (λ b. b == 10) piece.now }
{
    piece.iter().position(|b| *b == b'\n')
}

// The pattern's bytes of a piece and, once the line feed has come, the log's; given whether it had come before the piece.
fn parts(piece: &[u8], ended: bool) -> (&[u8], Option<&[u8]>)
    ensures front { result.0.now ≡ pattern_part ended piece.now }
    ensures ended { is_some result.1 ≡ ended || feed_in piece.now }
    ensures back { MatchOption result.1 (log_part ended piece.now ≡ []) (λ s. s.now ≡ log_part ended piece.now) }
{
    if ended {
        return (&[], Some(piece));
    }
    match feed_at(piece) {
        None => (piece, None),
        Some(feed) => (&piece[..feed], Some(&piece[feed + 1..])),
    }
}

// Takes in the next piece of the input: its bytes go into the pattern's and the log's buffers, as many as fit.
pub fn take_piece(piece: &[u8], t: Intake, pattern: &mut [u8], log: &mut [u8]) -> Intake
    ensures { TakenIn piece.now t pattern.old log.old result pattern.new log.new }
{
    let (front, back) = parts(piece, t.ended);
    let kept_pattern = keep(pattern, t.pattern, front);
    let kept_log = keep(log, t.log, back.unwrap_or(&[]));
    Intake {
        ended: back.is_some(),
        pattern: kept_pattern,
        log: kept_log,
    }
}

// Reads until the buffer is full or the input ends, and gives the number of bytes read: they stand first in the buffer. Where a read fails, those that came
// before it stand there.
pub fn read_whole<R: Read>(from: &mut R, buffer: &mut [u8]) -> io::Result<usize>
    ensures in_bounds { ReadsAtMost result buffer.new }
    ensures bytes { IfOk result (λ n. Consumes (R.remaining from.old) (R.remaining from.new) (take n buffer.new)) }
    ensures end { IfOk result (λ n. n < length buffer.new → IsAtEnd (R.remaining from.new)) }
    ensures none_lost { IfErr result (λ e. (n : ℕ) × Consumes (R.remaining from.old) (R.remaining from.new) (take n buffer.new)) }
{
    let mut used = 0;
    while used < buffer.len() {
        match from.read(&mut buffer[used..])? {
            0 => break,
            n => used += n,
        }
    }
    Ok(used)
}
