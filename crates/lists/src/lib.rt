// The filling call over lent lists.
// items holds start and end in turn, list after list; ends has the place in items where each list ends.
#![tactic(auto)]

mod table;

ghost use Rattle.std.specs.Prelude.{◌≡◌};
ghost use Rattle.meaning.specs.Replies.{fill_reply};
ghost use Rattle.lists.specs.Filling.{fill_result, fill_cells};

use basics::wide;
use meaning::{Filled, Refusal};
use seek::Searched;
use table::table;

// Writes the operator's answers from number `from` into the cells, start then end, as many as whole pairs fit. A refused call writes nothing.
pub fn fill(
    op: u32,
    k: u32,
    items: &[u32],
    ends: &[u32],
    cells: &mut [u32],
    from: usize,
) -> Result<Filled, Refusal>
    ensures value { fill_reply result ≡ fill_result op k items.now ends.now cells.old from }
    ensures cells_after { cells.new ≡ fill_cells op k items.now ends.now cells.old from }
{
    lent::refusal(op, k, items, ends)?;
    let rows = table(wide(op), wide(k), ends);
    let searched = Searched {
        rows: &rows,
        words: &[],
        items,
        sound: &[],
    };
    let w = walk::fill(&searched, cells, 0, from);
    Ok(Filled {
        count: w.count,
        more: w.more,
    })
}
