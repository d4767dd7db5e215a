//! The places of a diagram while it is built.

ghost use Rattle.std.specs.Prelude.{◌≡◌, ◌<◌, ◌+◌, [], length, IfOk, OnOk};

use crate::shows::Show;
use sqlite_items::Items;
use std::alloc::{AllocError, Global};
use std::marker::Model;

/// A diagram to which places may be added behind the others, seen as the list of what its places show.
#[derive(Drop)]
pub(crate) struct Places {
    shows: Items<Show>,
}

impl Model for Places {
    ghost use Rattle.std.specs.Prelude.{List};
    ghost use Rattle.np_partition.specs.declared.shows.Show.{Show as Shown};
    ghost use Rattle.np_partition.specs.Diagram.{IsDiagram};

    ghost Value = { List Shown };

    ghost view = { λ s. s.shows };

    ghost invariant = { λ s. IsDiagram s.shows };
}

impl Places {
    ghost use Rattle.np_partition.specs.Diagram.{IsDiagram};
    ghost use Rattle.np_partition.specs.Places.{KeepsPlaces, StartsAt, IsPlaceOfClass, Chooses};

    /// The diagram that has no place yet.
    pub(crate) fn new(alloc: Global) -> Places
        ensures { result ≡ [] }
    {
        Places {
            shows: Items::new(alloc),
        }
    }

    /// A new place, which shows a class.
    pub(crate) fn class(&mut self, n: usize) -> Result<usize, AllocError>
        ensures kept { OnOk result (KeepsPlaces self.old self.new) }
        ensures place { IfOk result (λ at. IsPlaceOfClass self.new n at) }
    {
        let at = self.shows.len();
        self.shows.push(Show::Class(n))?;
        Ok(at)
    }

    /// The place that decides by the bit between two places, both of which test later bits alone.
    pub(crate) fn test(&mut self, bit: u8, low: usize, high: usize) -> Result<usize, AllocError>
        requires bit { bit < 111 }
        requires low { StartsAt self.old (1 + bit) low }
        requires high { StartsAt self.old (1 + bit) high }
        ensures kept { OnOk result (KeepsPlaces self.old self.new) }
        ensures starts { IfOk result (λ at. StartsAt self.new bit at) }
        ensures chooses { IfOk result (λ at. Chooses self.new bit low high at) }
    {
        if low == high {
            return Ok(low);
        }
        let at = self.shows.len();
        self.shows.push(Show::Test { bit, low, high })?;
        Ok(at)
    }

    /// What the places show, once none is to be added any more.
    pub(crate) fn finish(self) -> Items<Show>
        ensures same { result ≡ self }
        ensures diagram { IsDiagram result }
    {
        self.shows
    }
}
