//! The partition of one region.

ghost use Rattle.std.specs.Prelude.{◌≡◌, ◌<◌, [], ◌∷◌, true, false, length, IfOk, OnOk};
ghost use Rattle.np_bdd.specs.Diagram.{IsRegion};
ghost use Rattle.np_bdd.specs.Views.{node_has};
ghost use Rattle.np_partition.specs.NodePlaces.{IsPlaceOfNode, IsNodeMemo, LearnsNode};
ghost use Rattle.np_partition.specs.Partition.{IsPartition};
ghost use Rattle.np_partition.specs.Places.{KeepsPlaces, IsPlaceOfClass};

use crate::node_memo::NodeMemo;
use crate::partition::Partition;
use crate::places::Places;
use np_atomset::AtomSet;
use np_bdd::{Diagrams, Node, View};
use sqlite_items::Items;
use std::alloc::{AllocError, Global};

/// The class of the headers that a region hasn't.
const OUTSIDE: usize = 0;

/// The class of those that it has.
const INSIDE: usize = 1;

impl Places {
    // The place of a class, for a node that tests nothing.
    fn end(&mut self, memo: &mut NodeMemo, x: Node, n: usize) -> Result<usize, AllocError>
        ensures kept { OnOk result (KeepsPlaces self.old self.new) }
        ensures place { IfOk result (λ at. IsPlaceOfClass self.new n at) }
        ensures memo { IfOk result (λ at. LearnsNode memo.old memo.new x.at at) }
    {
        let at = self.class(n)?;
        memo.learn(x, at)?;
        Ok(at)
    }

    // The place for a node of the store, from which bits lead inside where they lead from the node to `Yes`.
    fn node(&mut self, memo: &mut NodeMemo, store: &Diagrams, x: Node) -> Result<usize, AllocError>
        requires there { x.at < length store.now }
        requires memo { IsNodeMemo store.now self.old memo.old }
        ensures kept { OnOk result (KeepsPlaces self.old self.new) }
        ensures place { IfOk result (λ at. IsPlaceOfNode store.now x.at self.new at) }
        ensures memo { OnOk result (IsNodeMemo store.now self.new memo.new) }
    {
        if let Some(at) = memo.found(x) {
            return Ok(at);
        }
        match store.view(&x) {
            View::No => Ok(self.end(memo, x, OUTSIDE)?),
            View::Yes => Ok(self.end(memo, x, INSIDE)?),
            View::Test { bit, low, high } => {
                let low = self.node(memo, store, low)?;
                let high = self.node(memo, store, high)?;
                let at = self.test(bit, low, high)?;
                memo.learn(x, at)?;
                Ok(at)
            }
        }
    }
}

// The one set of a region's partition: the class inside.
fn inside(alloc: Global) -> Result<Items<AtomSet>, AllocError>
    ensures { IfOk result (λ sets. sets ≡ (false ∷ true ∷ []) ∷ []) }
{
    let mut set = AtomSet::new(alloc, 2)?;
    set.insert(INSIDE);
    let mut sets = Items::new(alloc);
    sets.push(set)?;
    Ok(sets)
}

impl Partition {
    /// The headers that the region hasn't, class 0, and those that it has, class 1. Fails only for want of memory. It makes a
    /// place for each node of the region.
    pub fn of_region(alloc: Global, store: &Diagrams, x: Node) -> Result<Partition, AllocError>
        requires { IsRegion store.now x }
        ensures { IfOk result (IsPartition (node_has store.now x ∷ [])) }
    {
        let mut places = Places::new(alloc);
        let root = {
            let mut memo = NodeMemo::new(alloc);
            places.node(&mut memo, store, x)?
        };
        let sets = inside(alloc)?;
        Ok(Partition {
            shows: places.finish(),
            root,
            classes: 2,
            sets,
        })
    }

    /// One class of all headers. Fails only for want of memory.
    pub fn whole(alloc: Global) -> Result<Partition, AllocError>
        ensures { IfOk result (IsPartition []) }
    {
        let mut places = Places::new(alloc);
        let root = places.class(0)?;
        Ok(Partition {
            shows: places.finish(),
            root,
            classes: 1,
            sets: Items::new(alloc),
        })
    }
}
