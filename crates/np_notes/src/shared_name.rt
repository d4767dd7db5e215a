//! Names that lines share.

ghost use Rattle.std.specs.Prelude.{◌≡◌, [], not, nat_eq, IfOk, OnOk};
ghost use Rattle.std.proofs.Common.{rules};
ghost use Rattle.std.specs.Cmp.{partial_equiv_from_equiv};
ghost use Rattle.std.specs.Cmp.Lexicographic.{pointwise, nat_list_eq_equiv};
ghost use Rattle.std.specs.Cmp.Rules.{hashing};
ghost use Rattle.std.specs.Hash as fed;
ghost use Rattle.std.specs.List.{list_any};
ghost use Rattle.std.specs.Str.{bytes_eq};
ghost use Rattle.np_acl_read.specs.Declaring.{with_name};

use indexmap::IndexSet;
use np_text::Name;
use std::alloc::{AllocError, Global};
use std::hash::{Hash, Hasher};
use std::marker::Model;
use std::sync::Arc;

/// The name of an interface. The lines of a section have a share of the same name, so that no line
/// has a copy of its own.
#[derive(Drop)]
pub struct SharedName {
    name: Arc<Name>,
}

impl Model for SharedName {
    ghost use Rattle.std.specs.Prelude.{ℕ, List};

    ghost Value = { List ℕ };

    ghost view = { λ shared. shared.name.value };
}

impl SharedName {
    /// A copy of this name. An error comes only where memory runs out.
    pub fn of(alloc: Global, name: &Name) -> Result<SharedName, AllocError>
        ensures { IfOk result (λ shared. shared ≡ name.now) }
    {
        let name = Arc::new(alloc, name.copy(alloc)?)?;
        Ok(SharedName { name })
    }

    /// A share of the same name. Fails only where there are 2^63 shares.
    pub fn share(&self) -> Result<SharedName, AllocError>
        ensures { IfOk result (λ shared. shared ≡ self.now) }
    {
        let name = self.name.clone()?;
        Ok(SharedName { name })
    }

    /// The name.
    pub fn name(&self) -> &Name
        ensures { result.now ≡ self.now }
    {
        &self.name
    }

    /// This other name: a share where it is the same, and else a copy. An error comes only where
    /// memory runs out, or where there are 2^63 shares.
    pub fn share_if_same(&self, alloc: Global, other: &Name) -> Result<SharedName, AllocError>
        ensures { IfOk result (λ shared. shared ≡ other.now) }
    {
        if self.name() == other {
            self.share()
        } else {
            SharedName::of(alloc, other)
        }
    }
}

impl PartialEq for SharedName {
    ghost eq = { pointwise nat_eq };

    ghost laws = { partial_equiv_from_equiv nat_list_eq_equiv };

    fn eq(&self, other: &SharedName) -> bool {
        self.name() == other.name()
    }
}

impl Eq for SharedName {
    ghost laws = { nat_list_eq_equiv };
}

impl Hash for SharedName {
    ghost hash_input = { fed.slice fed.u8 };

    ghost respects_eq = { Prim.search (hashing, rules) };

    fn hash<H: Hasher>(&self, state: &mut H) {
        self.name().hash(state);
    }
}

/// Shared names without repeats, in the order in which they were added. Contracts see the list of
/// them.
#[derive(Drop)]
pub struct SharedSet {
    names: IndexSet<SharedName>,
}

impl Model for SharedSet {
    ghost use Rattle.std.specs.Prelude.{ℕ, List};

    ghost Value = { List (List ℕ) };

    ghost view = { λ set. set.names.keys };
}

impl SharedSet {
    /// No names.
    pub fn new(alloc: Global) -> SharedSet
        ensures { result ≡ [] }
    {
        SharedSet {
            names: IndexSet::new(alloc),
        }
    }

    /// Adds a name, where it isn't there, and says whether it wasn't. It keeps a share of it, and no
    /// copy. An error comes only where memory runs out, or where there are 2^63 shares.
    pub fn add(&mut self, name: &SharedName) -> Result<bool, AllocError>
        ensures fresh { IfOk result (λ fresh. fresh ≡ not (list_any (bytes_eq name.now) self.old)) }
        ensures added { OnOk result (self.new ≡ with_name self.old name.now) }
    {
        Ok(self.names.insert(name.share()?)?)
    }
}
