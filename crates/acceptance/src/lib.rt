// A pattern read and a log measured: the refusal that both get, or the pattern's table.
#![tactic(auto)]

ghost use Rattle.std.specs.Prelude.{◌≡◌, IfOk};
ghost use Rattle.meaning.specs.Refusals.{refusal};
ghost use Rattle.meaning.specs.Replies.{signal};
ghost use Rattle.acceptance.specs.Readied.{rows_in};

use lines::LOG_MAX;
use meaning::Refusal;
use nodes::Nodes;

// Measures the log, then reads the pattern.
pub fn read_both(text: &[u8], log: &[u8]) -> Result<Nodes, Refusal>
    ensures signal { signal result ≡ refusal text.now log.now }
    ensures rows { IfOk result (λ rows. rows ≡ rows_in text.now log.now) }
{
    if LOG_MAX < log.len() {
        return Err(Refusal::LongLog);
    }
    let table = pattern::read(text)?;
    Ok(table.rows)
}
