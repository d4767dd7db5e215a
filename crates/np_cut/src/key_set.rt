//! Lists of devices, each by its device and its name, without repeats.

ghost use Rattle.std.specs.Prelude.{◌≡◌, ◌<◌, [], length, position, IfOk, IfSome, OnOk};
ghost use Rattle.np_net.specs.Distinct.{same_place};
ghost use Rattle.np_cut.specs.Applying.{with_key, with_slot_key, names_of_keys, place_in};

use indexmap::IndexSet;
use np_net::DevId;
use np_text::Name;
use std::alloc::{AllocError, Global};
use std::marker::Model;

/// The same device and the same name.
pub fn copy_key(alloc: Global, key: &(DevId, Name)) -> Result<(DevId, Name), AllocError>
    ensures { IfOk result (λ copy. copy ≡ key.now) }
{
    let name = key.1.copy(alloc)?;
    Ok((key.0, name))
}

/// Devices' lists by device and name, in the order in which they were added.
#[derive(Drop)]
pub struct KeySet {
    keys: IndexSet<(DevId, Name)>,
}

impl Model for KeySet {
    ghost use Rattle.std.specs.Prelude.{ℕ, List};

    ghost Value = { List (ℕ × List ℕ) };

    ghost view = { λ keys. keys.keys.keys };
}

impl KeySet {
    fn new(alloc: Global) -> KeySet
        ensures { result ≡ [] }
    {
        KeySet {
            keys: IndexSet::new(alloc),
        }
    }

    // Adds a key after the others, where it isn't there.
    fn add(&mut self, key: (DevId, Name)) -> Result<(), AllocError>
        ensures { OnOk result (self.new ≡ with_key self.old key) }
    {
        self.keys.insert(key)?;
        Ok(())
    }

    // Adds a slot's key, if it has one.
    fn add_some(&mut self, alloc: Global, key: &Option<(DevId, Name)>) -> Result<(), AllocError>
        ensures { OnOk result (self.new ≡ with_slot_key self.old key.now) }
    {
        match key {
            Some(key) => self.add(copy_key(alloc, key)?),
            None => Ok(()),
        }
    }

    /// The keys in their order.
    pub fn as_slice(&self) -> &[(DevId, Name)]
        ensures { result.now ≡ self.now }
    {
        self.keys.as_slice()
    }

    fn place_of(&self, key: &(DevId, Name)) -> Option<usize>
        ensures place { result ≡ position (same_place key.now) self.now }
        ensures within { IfSome result (λ n. n < length self.now) }
    {
        self.keys.get_index_of(key)
    }

    /// The place of a slot's key.
    pub fn place(&self, key: &Option<(DevId, Name)>) -> Option<usize>
        ensures place { result ≡ place_in self.now key.now }
        ensures within { IfSome result (λ n. n < length self.now) }
    {
        match key {
            Some(key) => self.place_of(key),
            None => None,
        }
    }
}

/// The keys of slots, each once.
pub fn set_of_keys(alloc: Global, keys: &[Option<(DevId, Name)>]) -> Result<KeySet, AllocError>
    ensures { IfOk result (λ set. set ≡ names_of_keys keys.now) }
{
    let mut set = KeySet::new(alloc);
    for key in keys {
        set.add_some(alloc, key)?;
    }
    Ok(set)
}
