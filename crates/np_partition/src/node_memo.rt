//! The places that were made for nodes of a region's diagram.

ghost use Rattle.std.specs.Prelude.{◌≡◌, List, Some, IfSome, OnOk};
ghost use Rattle.np_bdd.specs.declared.views.View.{View};
ghost use Rattle.np_partition.specs.declared.shows.Show.{Show};
ghost use Rattle.np_partition.specs.NodePlaces.{place_for_node, IsNodeMemo, LearnsNode};

use np_bdd::Node;
use std::alloc::{AllocError, Global};
use std::collections::HashMap;

/// For nodes the place that was made for them.
#[derive(Drop)]
pub(crate) struct NodeMemo {
    places: HashMap<usize, usize>,
}

impl NodeMemo {
    /// The memo that was told of no node yet.
    pub(crate) fn new(alloc: Global) -> NodeMemo
        ensures { (views : List View) (shows : List Show) → IsNodeMemo views shows result }
    {
        NodeMemo {
            places: HashMap::new(alloc),
        }
    }

    /// The place that was made for the node, if it was told of one.
    pub(crate) fn found(&self, x: Node) -> Option<usize>
        ensures { IfSome result (λ at. place_for_node self.now x.at ≡ Some at) }
    {
        self.places.get(&x.at).copied()
    }

    /// This place was made for the node.
    pub(crate) fn learn(&mut self, x: Node, at: usize) -> Result<(), AllocError>
        ensures { OnOk result (LearnsNode self.old self.new x.at at) }
    {
        self.places.insert(x.at, at)?;
        Ok(())
    }
}
