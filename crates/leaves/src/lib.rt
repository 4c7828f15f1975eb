// The different leaves of tables, numbered in the order in which they first come: `ev` with code and lane, and `fr` with frame and lane.
#![tactic(auto)]

ghost use Rattle.std.specs.Prelude.{◌≡◌, ◌≤◌, ◌<◌, [], ◌∷◌, ◌++◌, length, take};
ghost use Rattle.std.specs.List.{position};
ghost use Rattle.leaves.specs.Leaves.{leaf_of, same_leaf, added, gathered};

use basics::first;
use nodes::{Node, Nodes, is_leaf};
use std::marker::Model;

// The leaves that there is room for.
pub const LEAVES: usize = 64;

// A leaf: the kind and the two numbers of its node.
#[derive(Clone, Copy, Debug, PartialEq, Eq)]
pub struct Leaf {
    pub kind: usize,
    pub first: usize,
    pub second: usize,
}

impl From<Node> for Leaf {
    fn from(node: Node) -> Leaf
        ensures { result ≡ leaf_of node }
    {
        Leaf {
            kind: node.kind,
            first: node.first,
            second: node.second,
        }
    }
}

// Different leaves.
#[derive(Drop)]
pub struct Leaves {
    list: [Leaf; LEAVES],
    count: usize,
}

impl Model for Leaves {
    ghost use Rattle.std.specs.Prelude.{List, ◌≤◌, take};
    ghost use Rattle.leaves.specs.declared.Leaf.{Leaf};

    ghost Value = { List Leaf };

    ghost view = { λ s. take s.count s.list };

    ghost invariant = { λ s. s.count ≤ 64 };
}

impl Leaves {
    // None.
    pub fn new() -> Leaves
        ensures { result ≡ [] }
    {
        let none = Leaf {
            kind: 0,
            first: 0,
            second: 0,
        };
        Leaves {
            list: [none; LEAVES],
            count: 0,
        }
    }

    // The leaves that a caller has, of more than 64 the first 64.
    pub fn of(known: &[Leaf]) -> Leaves
        ensures { result ≡ take 64 known.now }
    {
        let mut leaves = Leaves::new();
        for leaf in first(known, LEAVES) {
            leaves.push(*leaf);
        }
        leaves
    }

    // The leaves by their numbers.
    pub fn as_slice(&self) -> &[Leaf]
        ensures { (result.now ≡ self.now) × (length self.now ≤ 64) }
    {
        &self.list[..self.count]
    }

    // The number of the leaf; none where it is not among them.
    pub fn find(&self, leaf: Leaf) -> Option<usize>
        ensures number { result ≡ position (λ x. same_leaf x leaf) self.now }
        ensures few { length self.now ≤ 64 }
    {
        self.as_slice().iter().position(|x| *x == leaf)
    }

    fn push(&mut self, leaf: Leaf)
        requires { length self.old < 64 }
        ensures { self.new ≡ self.old ++ leaf ∷ [] }
    {
        self.list[self.count] = leaf;
        self.count += 1;
    }

    // Adds the leaf if it is not among them and there is room.
    fn add(&mut self, leaf: Leaf)
        ensures { self.new ≡ added self.old leaf }
    {
        if self.find(leaf).is_none() && self.count < LEAVES {
            self.push(leaf);
        }
    }

    // Adds those of the table's nodes that are not among them, in the nodes' order.
    #[tactic(auto, unfolding(crate::specs::Leaves::gathered_to))]
    pub fn gather(&mut self, rows: &Nodes)
        ensures { self.new ≡ gathered rows.now self.old }
    {
        for node in rows {
            if is_leaf(node.kind) {
                self.add(Leaf::from(*node));
            }
        }
    }
}
