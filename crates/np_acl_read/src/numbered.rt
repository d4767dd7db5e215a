//! Access lists while they are read: entries in the order of their sequence numbers.

ghost use Rattle.std.specs.Prelude.{◌≡◌, [], nat_eq, length, max, unwrap_or, fold, map, IfOk, OnOk};
ghost use Rattle.std.specs.List.{list_any};
ghost use Rattle.std.specs.Map.{lookup};
ghost use Rattle.std.specs.Option.{option_copied};
ghost use Rattle.std.specs.Str.{bytes_eq};
ghost use Rattle.np_acl_read.specs.Declaring as declaring;
ghost use Rattle.indexmap.specs.IndexMap.{insert_entry as put};
ghost use Rattle.np_acl_read.specs.Adding.{entries_named, with_list, with_entry_at};

use crate::config::Lists;
use indexmap::IndexMap;
use np_acl::{Entry, List};
use np_text::Name;
use std::alloc::{AllocError, Global};
use std::collections::BTreeMap;
use std::marker::Model;

/// Entries in the order of their numbers.
#[derive(Drop)]
pub struct NumberedEntries {
    entries: BTreeMap<u32, Entry>,
}

impl Model for NumberedEntries {
    ghost use Rattle.std.specs.Prelude.{ℕ, List as ListOf};
    ghost use Rattle.np_acl.specs.declared.entries.Entry.{Entry};

    ghost Value = { ListOf (ℕ × Entry) };

    ghost view = { λ entries. entries.entries.entries };
}

impl NumberedEntries {
    /// No entries.
    pub fn new(alloc: Global) -> NumberedEntries
        ensures { result ≡ [] }
    {
        NumberedEntries {
            entries: BTreeMap::new(alloc),
        }
    }

    /// Whether an entry has this number.
    #[tactic(auto, using(crate::proofs::NumberedLaws::found_is_any))]
    pub fn has(&self, number: u32) -> bool
        ensures { result ≡ list_any (nat_eq number) (map (λ entry. entry.0) self.now) }
    {
        self.entries.contains_key(&number)
    }

    /// How many entries there are.
    pub fn count(&self) -> usize
        ensures { result ≡ length self.now }
    {
        self.entries.len()
    }

    /// The greatest number; 0 where there is no entry.
    #[tactic(auto, using(crate::proofs::NumberedLaws::greatest_is))]
    pub fn greatest(&self) -> u32
        ensures { result ≡ fold max 0 (map (λ entry. entry.0) self.now) }
    {
        match self.entries.last_key_value() {
            Some((greatest, _)) => *greatest,
            None => 0,
        }
    }

    /// Adds an entry at the place of its number.
    pub(crate) fn add(&mut self, number: u32, entry: Entry) -> Result<(), AllocError>
        ensures { OnOk result (self.new ≡ declaring.with_entry self.old (number, entry)) }
    {
        self.entries.insert(number, entry)?;
        Ok(())
    }

    /// The entries without their numbers.
    fn into_list(self, alloc: Global) -> Result<List, AllocError>
        ensures { IfOk result (λ list. list ≡ map (λ entry. entry.1) self) }
    {
        let mut list = List::new(alloc);
        for entry in self.entries.into_values() {
            list.push(entry)?;
        }
        Ok(list)
    }
}

/// The entries, if there are any.
fn entries_or_none(alloc: Global, entries: Option<NumberedEntries>) -> NumberedEntries
    ensures { result ≡ unwrap_or entries [] }
{
    match entries {
        Some(entries) => entries,
        None => NumberedEntries::new(alloc),
    }
}

/// Lists by their names, in the order in which the names first appear.
#[derive(Drop)]
pub struct NumberedLists {
    lists: IndexMap<Name, NumberedEntries>,
}

impl Model for NumberedLists {
    ghost use Rattle.std.specs.Prelude.{ℕ, List as ListOf};
    ghost use Rattle.np_acl.specs.declared.entries.Entry.{Entry};

    ghost Value = { ListOf (ListOf ℕ × ListOf (ℕ × Entry)) };

    ghost view = { λ lists. lists.lists.entries };
}

impl NumberedLists {
    /// No lists.
    pub fn new(alloc: Global) -> NumberedLists
        ensures { result ≡ [] }
    {
        NumberedLists {
            lists: IndexMap::new(alloc),
        }
    }

    /// The entries of a list, if it is there.
    pub fn entries(&self, name: &Name) -> Option<&NumberedEntries>
        ensures { option_copied result ≡ lookup (bytes_eq name.now) self.now }
    {
        self.lists.get(name)
    }

    /// Gives a list these entries; a list that isn't there goes behind the others.
    fn put(&mut self, name: Name, entries: NumberedEntries) -> Result<(), AllocError>
        ensures { OnOk result (self.new ≡ put bytes_eq self.old name entries) }
    {
        self.lists.insert(name, entries)?;
        Ok(())
    }

    /// Takes the entries of a list out of it.
    fn take(&mut self, alloc: Global, name: &Name) -> Result<NumberedEntries, AllocError>
        ensures taken { IfOk result (λ entries. entries ≡ entries_named self.old name.now) }
        ensures left { OnOk result (self.new ≡ put bytes_eq self.old name.now []) }
    {
        let none = NumberedEntries::new(alloc);
        let taken = self.lists.insert(name.copy(alloc)?, none)?;
        Ok(entries_or_none(alloc, taken))
    }

    /// Makes a list, where it isn't there.
    #[tactic(auto, using(crate::proofs::NumberedLaws::open_there, crate::proofs::NumberedLaws::open_new))]
    pub(crate) fn open(&mut self, alloc: Global, name: &Name) -> Result<(), AllocError>
        ensures { OnOk result (self.new ≡ with_list self.old name.now) }
    {
        if self.lists.contains_key(name) {
            return Ok(());
        }
        self.put(name.copy(alloc)?, NumberedEntries::new(alloc))
    }

    /// Adds an entry to a list, which is made where it isn't there.
    #[tactic(auto, using(crate::proofs::NumberedLaws::put_twice))]
    pub(crate) fn add(
        &mut self,
        alloc: Global,
        name: Name,
        number: u32,
        entry: Entry,
    ) -> Result<(), AllocError>
        ensures { OnOk result (self.new ≡ with_entry_at self.old name (number, entry)) }
    {
        let mut entries = self.take(alloc, &name)?;
        entries.add(number, entry)?;
        self.put(name, entries)
    }

    /// The lists of entries without their numbers.
    #[tactic(auto, using(crate::proofs::NumberedLaws::next_is_new))]
    pub fn into_lists(self, alloc: Global) -> Result<Lists, AllocError>
        ensures { IfOk result (λ lists. lists ≡ declaring.plain_lists self) }
    {
        let mut lists = Lists::new(alloc);
        for (name, entries) in self.lists {
            lists.add(name, entries.into_list(alloc)?)?;
        }
        Ok(lists)
    }
}
