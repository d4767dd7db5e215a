//! What the lines of a configuration declare.

ghost use Rattle.std.specs.Prelude.{◌≡◌, ◌<◌, [], length, option_map, OnErr, OnOk};
ghost use Rattle.std.specs.Map.{lookup};
ghost use Rattle.std.specs.Str.{bytes_eq};
ghost use Rattle.np_acl_read.specs.Adding.{Fits, added, entry_limit, with_numbered};
ghost use Rattle.np_acl_read.specs.Declaring.{closed_list, declared_by_config};

use crate::groups::Groups;
use crate::numbered::NumberedLists;
use crate::statement::{NumberedEntry, Statement};
use np_acl::ListKind;
use np_text::Name;
use std::alloc::{AllocError, Global};

/// The section that is open at a line.
#[derive(Drop)]
pub enum Section {
    Closed,
    Interface(Name),
    List { name: Name, kind: ListKind },
}

/// What lines declare.
#[derive(Drop)]
pub struct Declared {
    pub section: Section,
    pub lists: NumberedLists,
    pub groups: Groups,
    /// How many entries the lists have together.
    pub entries: usize,
}

impl Declared {
    /// Before any line is read.
    #[tactic(auto, using(crate::proofs::DeclarationLaws::declared_first))]
    pub fn new(alloc: Global) -> Declared
        ensures { result ≡ declared_by_config [] }
    {
        Declared {
            section: Section::Closed,
            lists: NumberedLists::new(alloc),
            groups: Groups::new(alloc),
            entries: 0,
        }
    }

    /// Adds an entry to its list.
    fn add_entry(&mut self, alloc: Global, entry: NumberedEntry) -> Result<(), AllocError>
        requires { self.old.entries < entry_limit }
        ensures { OnOk result (self.new ≡ with_numbered self.old entry) }
    {
        self.lists
            .add(alloc, entry.list, entry.number, entry.entry)?;
        self.entries += 1;
        Ok(())
    }

    /// Closes the section of a list, which is all that the statement `Other` does. It takes no memory.
    pub fn close_list(&mut self)
        ensures { self.new ≡ record self.old { section = closed_list self.old.section } }
    {
        if let Section::List { .. } = self.section {
            self.section = Section::Closed;
        }
    }

    /// How many entries the list of this name has. `None` where there is no such list.
    pub fn entry_count(&self, list: &Name) -> Option<usize>
        ensures { result ≡ option_map length (lookup (bytes_eq list.now) self.now.lists) }
    {
        let entries = self.lists.entries(list)?;
        Some(entries.count())
    }

    /// Forgets what is declared, as before any line is read.
    fn clear(&mut self, alloc: Global)
        ensures { self.new ≡ declared_by_config [] }
    {
        *self = Declared::new(alloc);
    }

    /// Adds what a statement declares. Where memory runs out nothing is declared any more, as before
    /// any line is read.
    pub fn extend(&mut self, alloc: Global, statement: Statement) -> Result<(), AllocError>
        requires { Fits self.old statement }
        ensures added { OnOk result (self.new ≡ added self.old statement) }
        ensures cleared { OnErr result (self.new ≡ declared_by_config []) }
    {
        match self.add(alloc, statement) {
            Ok(()) => Ok(()),
            Err(error) => {
                self.clear(alloc);
                Err(error)
            }
        }
    }

    /// Adds what a statement declares.
    pub(crate) fn add(&mut self, alloc: Global, statement: Statement) -> Result<(), AllocError>
        requires { Fits self.old statement }
        ensures { OnOk result (self.new ≡ added self.old statement) }
    {
        match statement {
            Statement::Interface(name) => self.section = Section::Interface(name),
            Statement::Section { list, kind } => {
                self.lists.open(alloc, &list)?;
                self.section = Section::List { name: list, kind };
            }
            Statement::Remark(list) => {
                self.lists.open(alloc, &list)?;
                self.section = Section::Closed;
            }
            Statement::ListEntry(entry) => {
                self.add_entry(alloc, entry)?;
                self.section = Section::Closed;
            }
            Statement::SectionEntry(entry) => self.add_entry(alloc, entry)?,
            Statement::Group {
                interface,
                way,
                list,
            } => self.groups.apply(interface, way, list)?,
            Statement::Other => self.close_list(),
        }
        Ok(())
    }
}
