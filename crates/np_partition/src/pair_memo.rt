//! The places that were made for pairs of places of two diagrams.

ghost use Rattle.std.specs.Prelude.{◌≡◌, List, Some, IfSome, OnOk};
ghost use Rattle.np_partition.specs.declared.shows.Show.{Show};
ghost use Rattle.np_partition.specs.declared.pairing.Pairing.{Pairing};
ghost use Rattle.np_partition.specs.Pairing.{place_for, IsPairMemo, Learns};

use std::alloc::{AllocError, Global};
use std::collections::HashMap;

/// For pairs of places the place that was made for them.
#[derive(Drop)]
pub(crate) struct PairMemo {
    places: HashMap<(usize, usize), usize>,
}

impl PairMemo {
    /// The memo that was told of no pair yet.
    pub(crate) fn new(alloc: Global) -> PairMemo
        ensures { (first second : List Show) (pairing : Pairing) → IsPairMemo first second pairing result }
    {
        PairMemo {
            places: HashMap::new(alloc),
        }
    }

    /// The place that was made for the pair, if it was told of one.
    pub(crate) fn found(&self, x: usize, y: usize) -> Option<usize>
        ensures { IfSome result (λ z. place_for self.now x y ≡ Some z) }
    {
        self.places.get(&(x, y)).copied()
    }

    /// This place was made for the pair.
    pub(crate) fn learn(&mut self, x: usize, y: usize, z: usize) -> Result<(), AllocError>
        ensures { OnOk result (Learns self.old self.new x y z) }
    {
        self.places.insert((x, y), z)?;
        Ok(())
    }
}
