//! Where access lists are applied.

ghost use Rattle.std.specs.Prelude.{◌≡◌, length, OnOk, OnErr};
ghost use Rattle.std.specs.List.{IsDistinct};
ghost use Rattle.std.specs.Map.{keys_of, lookup};
ghost use Rattle.std.specs.Option.{option_copied};
ghost use Rattle.std.specs.Str.{bytes_eq};
ghost use Rattle.np_acl_read.specs.Groups.{applied, no_groups, with_group};

use indexmap::IndexMap;
use np_acl::Way;
use np_text::Name;
use std::alloc::{AllocError, Global};
use std::marker::Model;

/// The access lists that are applied at interfaces, by the names of both: at most one at an
/// interface in each way.
#[derive(Drop)]
pub struct Groups {
    inward: IndexMap<Name, Name>,
    outward: IndexMap<Name, Name>,
}

impl Model for Groups {
    ghost use Rattle.np_acl_read.specs.Applied.{Applied};
    ghost use Rattle.std.specs.List.{IsDistinct};
    ghost use Rattle.std.specs.Map.{keys_of};
    ghost use Rattle.std.specs.Str.{bytes_eq};

    ghost Value = { Applied };

    ghost view = { λ groups. record { inward = groups.inward.entries; outward = groups.outward.entries } };

    ghost invariant = { λ groups. IsDistinct bytes_eq (keys_of groups.inward.entries) × IsDistinct bytes_eq (keys_of groups.outward.entries) };
}

impl Groups {
    /// No groups.
    pub fn new(alloc: Global) -> Groups
        ensures { result ≡ no_groups }
    {
        Groups {
            inward: IndexMap::new(alloc),
            outward: IndexMap::new(alloc),
        }
    }

    /// The name of the list that is applied at an interface in this way, if there is one. No
    /// interface stands twice among those of a way.
    pub fn list_at(&self, interface: &Name, way: Way) -> Option<&Name>
        ensures list { option_copied result ≡ lookup (bytes_eq interface.now) (applied self.now way) }
    {
        match way {
            Way::Inward => self.inward.get(interface),
            Way::Outward => self.outward.get(interface),
        }
    }

    /// How many lists are applied in this way. No interface stands twice among them.
    pub fn count(&self, way: Way) -> usize
        ensures count { result ≡ length (applied self.now way) }
        ensures once { IsDistinct bytes_eq (keys_of (applied self.now way)) }
    {
        match way {
            Way::Inward => self.inward.len(),
            Way::Outward => self.outward.len(),
        }
    }

    /// Applies a list, in the place of one that is applied there before. Where memory runs out, the
    /// groups stay as they were.
    pub fn apply(&mut self, interface: Name, way: Way, list: Name) -> Result<(), AllocError>
        ensures err { OnErr result (self.new ≡ self.old) }
        ensures ok { OnOk result (self.new ≡ with_group self.old way interface list) }
    {
        match way {
            Way::Inward => {
                self.inward.insert(interface, list)?;
            }
            Way::Outward => {
                self.outward.insert(interface, list)?;
            }
        }
        Ok(())
    }
}
