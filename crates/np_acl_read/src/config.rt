//! A device's configuration: its access lists, and where they are applied.

ghost use Rattle.std.specs.Prelude.{◌≡◌, ℕ, [], ◌∷◌, ◌++◌, List as ListOf, length, slice_get, option_map, None, IsSorted, IfOk, OnOk, OnErr};
ghost use Rattle.std.specs.Map.Iter.{deref_pair};
ghost use Rattle.std.specs.Cmp.Lexicographic.{slice_cmp};
ghost use Rattle.std.specs.List.{IsDistinct};
ghost use Rattle.std.specs.Map.{keys_of, lookup};
ghost use Rattle.std.specs.Ordering.{nat_cmp};
ghost use Rattle.np_acl_read.specs.Groups.{no_groups};
ghost use Rattle.std.specs.Option.{option_copied};
ghost use Rattle.std.specs.Str.{bytes_eq};

use crate::groups::Groups;
use indexmap::IndexMap;
use np_acl::List;
use np_text::Name;
use std::alloc::{AllocError, Global};
use std::marker::Model;
use std::sync::Arc;

/// Access lists by their names, each name once, in the order in which the names first appear in the
/// text.
#[derive(Drop)]
pub struct Lists {
    lists: IndexMap<Name, List>,
}

impl Model for Lists {
    ghost use Rattle.std.specs.Prelude.{ℕ, List as ListOf};
    ghost use Rattle.np_acl.specs.declared.entries.Entry.{Entry};
    ghost use Rattle.std.specs.List.{IsDistinct};
    ghost use Rattle.std.specs.Map.{keys_of};
    ghost use Rattle.std.specs.Str.{bytes_eq};

    ghost Value = { ListOf (ListOf ℕ × ListOf Entry) };

    ghost view = { λ lists. lists.lists.entries };

    ghost invariant = { λ lists. IsDistinct bytes_eq (keys_of lists.lists.entries) };
}

impl Lists {
    /// No lists.
    pub fn new(alloc: Global) -> Lists
        ensures { result ≡ [] }
    {
        Lists {
            lists: IndexMap::new(alloc),
        }
    }

    /// The list of this name, if there is one.
    pub fn named(&self, name: &Name) -> Option<&List>
        ensures { option_copied result ≡ lookup (bytes_eq name.now) self.now }
    {
        self.lists.get(name)
    }

    /// How many lists there are. No two have the same name.
    pub fn count(&self) -> usize
        ensures count { result ≡ length self.now }
        ensures once { IsDistinct bytes_eq (keys_of self.now) }
    {
        self.lists.len()
    }

    /// The name of the list at this place, from 0 on, and the list. `None` past the last one.
    pub fn at(&self, place: usize) -> Option<(&Name, &List)>
        ensures { option_map deref_pair result ≡ slice_get self.now place }
    {
        self.lists.get_index(place)
    }

    /// Puts the lists into the byte order of their names. Where memory runs out, they stay as they
    /// were.
    pub fn sort_by_name(&mut self) -> Result<(), AllocError>
        ensures sorted { OnOk result (IsSorted (slice_cmp nat_cmp) (keys_of self.new)) }
        ensures same { (name : ListOf ℕ) → lookup (bytes_eq name) self.new ≡ lookup (bytes_eq name) self.old }
        ensures err { OnErr result (self.new ≡ self.old) }
    {
        self.lists.sort_keys()
    }

    /// Adds a list after the others. Where memory runs out, they stay as they were.
    pub fn add(&mut self, name: Name, list: List) -> Result<(), AllocError>
        requires { lookup (bytes_eq name) self.old ≡ None }
        ensures ok { OnOk result (self.new ≡ self.old ++ (name, list) ∷ []) }
        ensures err { OnErr result (self.new ≡ self.old) }
    {
        self.lists.insert(name, list)?;
        Ok(())
    }
}

/// A configuration.
#[derive(Drop)]
pub struct Config {
    pub lists: Lists,
    pub groups: Groups,
}

/// A configuration of which several devices may have a share, so that none is copied.
#[derive(Drop)]
pub struct SharedConfig {
    config: Arc<Config>,
}

impl Model for SharedConfig {
    ghost use Rattle.np_acl_read.specs.declared.config.Config.{Config};

    ghost Value = { Config };

    ghost view = { λ shared. shared.config.value };
}

impl SharedConfig {
    /// This configuration. Fails only for want of memory.
    pub fn of(alloc: Global, config: Config) -> Result<SharedConfig, AllocError>
        ensures { IfOk result (λ shared. shared ≡ config) }
    {
        let config = Arc::new(alloc, config)?;
        Ok(SharedConfig { config })
    }

    /// A share of the same configuration. Fails only where there are 2^63 shares.
    pub fn share(&self) -> Result<SharedConfig, AllocError>
        ensures { IfOk result (λ shared. shared ≡ self.now) }
    {
        let config = self.config.clone()?;
        Ok(SharedConfig { config })
    }

    /// The configuration.
    pub fn get(&self) -> &Config
        ensures { result.now ≡ self.now }
    {
        &self.config
    }
}

/// The configuration of a device without one: no lists and no groups.
pub fn empty_config(alloc: Global) -> Config
    ensures lists { result.lists ≡ [] }
    ensures groups { result.groups ≡ no_groups }
{
    Config {
        lists: Lists::new(alloc),
        groups: Groups::new(alloc),
    }
}
