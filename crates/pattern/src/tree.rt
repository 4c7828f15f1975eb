// The nodes of a whole text: the sizes of their subtrees, and the depth.
ghost use Rattle.pattern.specs.inner.Nodes.{Encodes, Measured};

use super::Table;
use super::alphabet::arity;
use nodes::{NODES, Node};

// Sets the sizes of the subtrees, from the last node to the first: a node's operands have theirs by then. The depth of the whole.
pub(crate) fn measure(table: &mut Table) -> usize
    requires { Encodes table.old }
    ensures { (e : Encodes table.old) → Measured e.tree table.new result }
{
    let mut depth = [0usize; NODES];
    for w in (0..table.count).rev() {
        let node = table.rows[w];
        let mut c = w + 1;
        let mut d = 0;
        for _seen in 0..arity(node.kind, node.first) {
            d = d.max(depth[c]);
            c += table.rows[c].size;
        }
        table.rows[w] = Node {
            size: c - w,
            ..node
        };
        depth[w] = d + 1;
    }
    depth[0]
}
