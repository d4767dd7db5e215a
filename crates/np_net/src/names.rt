//! Names that are looked up by a hash.

ghost use Rattle.std.specs.Prelude.{◌≡◌, ◌<◌, ◌++◌, ◌∷◌, [], ℕ, List, false, length, IfOk, IfSome, OnErr, OnOk};
ghost use Rattle.std.specs.List.{list_any};
ghost use Rattle.std.specs.Str.{bytes_eq};
ghost use Rattle.np_net.specs.Distinct.{same_place};
ghost use Rattle.np_net.specs.Naming.{id_named, interface_id_named};

use crate::network::DevId;
use indexmap::IndexSet;
use np_text::Name;
use std::alloc::{AllocError, Global};
use std::marker::Model;

/// Names without repeats, in the order in which they were added. Contracts see the list of them.
#[derive(Drop)]
pub struct Names {
    names: IndexSet<Name>,
}

impl Model for Names {
    ghost use Rattle.std.specs.Prelude.{ℕ, List};

    ghost Value = { List (List ℕ) };

    ghost view = { λ names. names.names.keys };
}

impl Names {
    /// No names.
    pub fn new(alloc: Global) -> Names
        ensures { result ≡ [] }
    {
        Names {
            names: IndexSet::new(alloc),
        }
    }

    /// The place of a name, counted from 0; `Ok(None)` exactly where it isn't there. The error says
    /// that memory ran out.
    pub fn place(&self, alloc: Global, name: &[u8]) -> Result<Option<usize>, AllocError>
        ensures place { IfOk result (λ place. place ≡ id_named self.now name.now) }
        ensures within { IfOk result (λ place. IfSome place (λ n. n < length self.now)) }
    {
        let name = Name::of(alloc, name)?;
        Ok(self.names.get_index_of(&name))
    }

    /// Whether a name is there.
    pub fn has(&self, alloc: Global, name: &[u8]) -> Result<bool, AllocError>
        ensures { IfOk result (λ found. found ≡ list_any (bytes_eq name.now) self.now) }
    {
        let name = Name::of(alloc, name)?;
        Ok(self.names.contains(&name))
    }

    /// Adds a name that isn't there. Where memory runs out, the names stay as they were.
    pub fn add(&mut self, alloc: Global, name: &[u8]) -> Result<(), AllocError>
        requires { list_any (bytes_eq name.now) self.old ≡ false }
        ensures ok { OnOk result (self.new ≡ self.old ++ name.now ∷ []) }
        ensures err { OnErr result (self.new ≡ self.old) }
    {
        let name = Name::of(alloc, name)?;
        self.names.insert(name)?;
        Ok(())
    }
}

/// Interfaces without repeats, each by its device and its name, in the order in which they were
/// added. Contracts see the list of them.
#[derive(Drop)]
pub struct Places {
    places: IndexSet<(u16, Name)>,
}

impl Model for Places {
    ghost use Rattle.std.specs.Prelude.{ℕ, List};

    ghost Value = { List (ℕ × List ℕ) };

    ghost view = { λ places. places.places.keys };
}

impl Places {
    /// No interfaces.
    pub fn new(alloc: Global) -> Places
        ensures { result ≡ [] }
    {
        Places {
            places: IndexSet::new(alloc),
        }
    }

    /// The place of an interface, counted from 0; `Ok(None)` exactly where it isn't there. The error
    /// says that memory ran out.
    pub fn place(
        &self,
        alloc: Global,
        device: DevId,
        name: &[u8],
    ) -> Result<Option<usize>, AllocError>
        ensures place { IfOk result (λ place. place ≡ interface_id_named self.now device name.now) }
        ensures within { IfOk result (λ place. IfSome place (λ n. n < length self.now)) }
    {
        let name = Name::of(alloc, name)?;
        Ok(self.places.get_index_of(&(device, name)))
    }

    /// Whether an interface is there.
    pub fn has(&self, alloc: Global, device: DevId, name: &[u8]) -> Result<bool, AllocError>
        ensures { IfOk result (λ found. found ≡ list_any (same_place (device, name.now)) self.now) }
    {
        let name = Name::of(alloc, name)?;
        Ok(self.places.contains(&(device, name)))
    }

    /// Adds an interface that isn't there. Where memory runs out, they stay as they were.
    pub fn add(&mut self, alloc: Global, device: DevId, name: &[u8]) -> Result<(), AllocError>
        requires { list_any (same_place (device, name.now)) self.old ≡ false }
        ensures ok { OnOk result (self.new ≡ self.old ++ (device, name.now) ∷ []) }
        ensures err { OnErr result (self.new ≡ self.old) }
    {
        let name = Name::of(alloc, name)?;
        self.places.insert((device, name))?;
        Ok(())
    }
}
