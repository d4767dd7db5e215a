//! A diagram while it is made of two others: its classes are the pairs of their classes that bits lead to.

ghost use Rattle.std.specs.Prelude.{◌≡◌, [], IfOk, OnOk};
ghost use Rattle.np_partition.specs.Pairing.{KeepsPairing, IsPlaceOfPair, AddsAtMost};

use crate::places::Places;
use indexmap::IndexSet;
use std::alloc::{AllocError, Global};

/// The places of the diagram, and for each of its classes the pair of a class of the first diagram and one of the second.
#[derive(Drop)]
pub(crate) struct Pairing {
    pub places: Places,
    pub pairs: IndexSet<(usize, usize)>,
}

impl Pairing {
    /// The diagram that has no place yet, and no class.
    pub(crate) fn new(alloc: Global) -> Pairing
        ensures { result.pairs.keys ≡ [] }
    {
        Pairing {
            places: Places::new(alloc),
            pairs: IndexSet::new(alloc),
        }
    }

    /// A place for the pair of classes, whose own class is new unless the pair had one.
    pub(crate) fn class(&mut self, pair: (usize, usize)) -> Result<usize, AllocError>
        ensures kept { OnOk result (KeepsPairing self.old self.new) }
        ensures place { IfOk result (λ at. IsPlaceOfPair self.new pair at) }
        ensures only { OnOk result (AddsAtMost pair self.old self.new) }
    {
        let (n, _) = self.pairs.insert_full(pair)?;
        self.places.class(n)
    }
}
