//! The nodes that one call has combined so far.

ghost use Rattle.std.specs.Prelude.{◌≡◌, List, Some, IfSome, OnOk};
ghost use Rattle.np_bdd.specs.declared.views.View.{View};
ghost use Rattle.np_bdd.specs.declared.combining.Operation.{Operation};
ghost use Rattle.np_bdd.specs.Memo.{answer, IsMemo, Learns};

use crate::views::Node;
use std::alloc::{AllocError, Global};
use std::collections::HashMap;

// The memo keeps nothing of so many first pairs, so that an operation of few pairs does without a map.
const FEW: usize = 256;

/// What pairs of nodes were combined to.
#[derive(Drop)]
pub(crate) struct Memo {
    // how many pairs it was told of, up to the few that it doesn't keep
    told: usize,
    pairs: HashMap<(Node, Node), Node>,
}

impl Memo {
    /// The memo that was told of no pair yet.
    pub(crate) fn new(alloc: Global) -> Memo
        ensures { (operation : Operation) (views : List View) → IsMemo operation views result }
    {
        Memo {
            told: 0,
            pairs: HashMap::new(alloc),
        }
    }

    /// What the pair was combined to, if it is kept.
    pub(crate) fn found(&self, x: Node, y: Node) -> Option<Node>
        ensures { IfSome result (λ z. answer self.now x y ≡ Some z) }
    {
        // an empty map is not worth a hash
        if self.told < FEW {
            return None;
        }
        self.pairs.get(&(x, y)).copied()
    }

    /// The pair was combined to this node.
    pub(crate) fn learn(&mut self, x: Node, y: Node, z: Node) -> Result<(), AllocError>
        ensures { OnOk result (Learns self.old self.new x y z) }
    {
        if self.told < FEW {
            self.told += 1;
            return Ok(());
        }
        self.pairs.insert((x, y), z)?;
        Ok(())
    }
}
