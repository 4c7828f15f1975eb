// The operands of a node, one after another.
ghost use Rattle.std.specs.Prelude.{◌≡◌, ◌≤◌, ◌<◌, ◌+◌, ◌-◌};
ghost use Rattle.std.specs.Iterator.{at_most};
ghost use Rattle.nodes.specs.Among.{Among, Gives};

use crate::{Nodes, Operands, next_of, stop_of};

impl<'a> Iterator for Operands<'a> {
    type Item = usize;

    ghost next_gives = { Gives };

    ghost remaining = { λ s. at_most (32 - s.at) };

    fn next(&mut self) -> Option<usize> {
        if self.stop <= self.at {
            return None;
        }
        let c = self.at;
        self.at = next_of(self.rows, c);
        Some(c)
    }
}

// The operands of node v; none where there is no node v.
pub fn operands_of<'a>(rows: &'a Nodes, v: usize) -> Operands<'a>
    ensures operands { v < 32 → Among rows.now v result × (result.at ≡ v + 1) }
    ensures none { 32 ≤ v → result.stop ≤ result.at }
{
    Operands {
        rows,
        at: v.saturating_add(1),
        stop: stop_of(rows, v),
    }
}
