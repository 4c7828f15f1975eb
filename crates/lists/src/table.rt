// The table of one operator over lent lists, for the machine.
ghost use Rattle.std.specs.Prelude.{◌≤◌, length};
ghost use Rattle.lists.specs.inner.Table.{Laid};

use basics::wide;
use nodes::{LIST, NO_NODE, NODES, Node, Nodes};

// The operator at node 0, and list i, by its places in the items, at node i + 1.
pub(crate) fn table(op: usize, k: usize, ends: &[u32]) -> Nodes
    requires { length ends.now ≤ 31 }
    ensures { Laid op k (length ends.now) ends.now (length ends.now) result }
{
    let mut rows = [NO_NODE; NODES];
    rows[0] = Node {
        kind: op,
        size: ends.len() + 1,
        first: k,
        ..NO_NODE
    };
    let mut from = 0;
    for (i, end) in ends.iter().enumerate() {
        let to = wide(*end);
        rows[i + 1] = Node {
            kind: LIST,
            size: 1,
            first: from,
            second: to,
            ..NO_NODE
        };
        from = to;
    }
    rows
}
