//! The partition of several regions.

ghost use Rattle.std.specs.Prelude.{◌≡◌, ◌<◌, [], IfOk, length, map, slice_index_or};
ghost use Rattle.std.specs.List.{All};
ghost use Rattle.np_region.specs.Keeping.{EachFits, tests_of};
ghost use Rattle.np_bdd.specs.Diagram.{IsRegion};
ghost use Rattle.np_bdd.specs.Views.{node_has};
ghost use Rattle.np_partition.specs.Listed.{with_sets_at};
ghost use Rattle.np_partition.specs.Partition.{IsPartition};

use crate::listing::list_regions;
use crate::partition::Partition;
use np_atomset::AtomSet;
use np_bdd::{Diagrams, Node};
use sqlite_items::Items;
use std::alloc::{AllocError, Global};

// The sets at these places.
fn sets_of(alloc: Global, sets: &[AtomSet], places: &[usize]) -> Result<Items<AtomSet>, AllocError>
    requires { All (λ n. n < length sets.now) places.now }
    ensures { IfOk result (λ all. all ≡ map (λ n. slice_index_or sets.now n []) places.now) }
{
    let mut all = Items::new(alloc);
    for place in places {
        all.push(sets[*place].copy(alloc)?)?;
    }
    Ok(all)
}

impl Partition {
    // The classes that the regions tell apart, each of which is taken in.
    fn of_all(alloc: Global, store: &Diagrams, xs: &[Node]) -> Result<Partition, AllocError>
        requires { EachFits IsRegion store.now xs.now }
        ensures { IfOk result (IsPartition (tests_of node_has store.now xs.now)) }
    {
        if let [x] = xs {
            return Ok(Partition::of_region(alloc, store, *x)?);
        }
        if xs.is_empty() {
            return Ok(Partition::whole(alloc)?);
        }
        let (before, after) = xs.split_at(xs.len() / 2);
        let first = Partition::of_all(alloc, store, before)?;
        let second = Partition::of_all(alloc, store, after)?;
        let product = Partition::with(alloc, &first, &second)?;
        Ok(product)
    }

    // The same classes, with the sets at these places.
    fn with_sets_at(self, alloc: Global, places: &[usize]) -> Result<Partition, AllocError>
        requires { All (λ n. n < length self.sets) places.now }
        ensures { IfOk result (λ p. p ≡ with_sets_at self places.now) }
    {
        let Partition {
            shows,
            root,
            classes,
            sets,
        } = self;
        let sets = sets_of(alloc, sets.as_slice(), places)?;
        Ok(Partition {
            shows,
            root,
            classes,
            sets,
        })
    }

    /// The classes that the regions tell apart, with a set for each region, in their order. Without regions it is one class, of
    /// all headers. Fails only for want of memory. A region that comes again is taken in once. The regions are taken by halves,
    /// so that each partition is made one with another of about as many regions.
    #[tactic(auto, using(crate::proofs::ListedLaws::listed_fit))]
    pub fn of_regions(alloc: Global, store: &Diagrams, xs: &[Node]) -> Result<Partition, AllocError>
        requires { EachFits IsRegion store.now xs.now }
        ensures { IfOk result (IsPartition (tests_of node_has store.now xs.now)) }
    {
        let listed = list_regions(alloc, xs)?;
        let all = Partition::of_all(alloc, store, listed.nodes.as_slice())?;
        Ok(all.with_sets_at(alloc, listed.places.as_slice())?)
    }
}
