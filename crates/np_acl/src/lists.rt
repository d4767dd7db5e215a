//! Access lists.

ghost use Rattle.std.specs.Prelude.{◌≡◌, ◌↔◌, [], ◌∷◌, ◌++◌, IsTrue, IfOk, OnOk, OnErr};
ghost use Rattle.std.specs.List.{find};
ghost use Rattle.std.specs.Option.{option_copied};
ghost use Rattle.np_acl.specs.Entries.{entry_matches};

use crate::entries::Entry;
use np_space::Header;
use std::alloc::{AllocError, Global};
use std::marker::Model;

/// An access list: its entries, in the order in which they are tried.
#[derive(Drop)]
pub struct List {
    entries: Vec<Entry>,
}

impl Model for List {
    ghost use Rattle.std.specs.Prelude.{List as ListOf};
    ghost use Rattle.np_acl.specs.declared.entries.Entry.{Entry};

    ghost Value = { ListOf Entry };

    ghost view = { λ l. l.entries.items };
}

// The first entry that matches the header.
fn first_match<'a>(entries: &'a [Entry], h: &Header) -> Option<&'a Entry>
    ensures { option_copied result ≡ find (λ e. entry_matches e h.now) entries.now }
{
    entries.iter().find(|entry| entry.matches(h))
}

impl List {
    ghost use Rattle.np_acl.specs.Entries.{list_permits};

    /// A list without entries.
    pub fn new(alloc: Global) -> List
        ensures { result ≡ [] }
    {
        List {
            entries: Vec::new(alloc),
        }
    }

    /// The list of these entries.
    pub fn from_vec(entries: Vec<Entry>) -> List
        ensures { result ≡ entries.items }
    {
        List { entries }
    }

    /// Adds an entry, which is tried after those that the list has.
    pub fn push(&mut self, entry: Entry) -> Result<(), AllocError>
        ensures ok { OnOk result (self.new ≡ self.old ++ entry ∷ []) }
        ensures err { OnErr result (self.new ≡ self.old) }
    {
        self.entries.push(entry)?;
        Ok(())
    }

    /// The entries in their order.
    pub fn as_slice(&self) -> &[Entry]
        ensures { result.now ≡ self.now }
    {
        self.entries.as_slice()
    }

    /// The entries as a `Vec`, in their order.
    pub fn into_vec(self) -> Vec<Entry>
        ensures { result.items ≡ self }
    {
        self.entries
    }

    /// A list with the same entries.
    pub fn copy(&self, alloc: Global) -> Result<List, AllocError>
        ensures { IfOk result (λ copy. copy ≡ self.now) }
    {
        let mut copy = List::new(alloc);
        for entry in self.as_slice() {
            copy.push(entry.copy(alloc)?)?;
        }
        Ok(copy)
    }

    /// Whether the list has the entries of `other`, in the same order. It compares the lengths first,
    /// and takes no memory.
    pub fn same_as(&self, other: &List) -> bool
        ensures { IsTrue result ↔ (self.now ≡ other.now) }
    {
        self.as_slice() == other.as_slice()
    }

    /// Whether the list permits the header: what the first entry that matches says, and false where
    /// none does. A list without entries permits every header.
    pub fn permits(&self, h: &Header) -> bool
        ensures { result ≡ list_permits self.now h.now }
    {
        let entries = self.entries.as_slice();
        match first_match(entries, h) {
            Some(entry) => entry.permit,
            None => entries.is_empty(),
        }
    }
}
