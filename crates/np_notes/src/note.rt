//! Notes on a configuration.

ghost use Rattle.std.specs.Prelude.{◌≡◌, ◌++◌, OnOk};
ghost use Rattle.std.specs.Option.{option_to_list};

use np_text::Name;
use std::alloc::AllocError;

/// What the reading of a configuration passed over and may matter. Lines are numbered from 1.
#[derive(Debug, Drop)]
pub enum Note {
    /// A line looks like an entry, and is an entry of no list.
    StrayEntry { line: u64 },
    /// An indented line closes the section of a list.
    Closes { line: u64, list: Name },
    /// A line changes lists, interfaces or packets in a way that isn't modelled.
    NotModelled { line: u64 },
    /// A line applies a list at an interface, and a line at the margin stands between it and the one
    /// that opened the interface's section.
    StrayGroup { line: u64, interface: Name },
    /// The network has an interface that the configuration hasn't.
    NoInterface { interface: Name },
    /// A list is applied at an interface that the network hasn't.
    UnknownInterface { line: u64, interface: Name },
    /// A list is applied that isn't there.
    Undefined { line: u64, list: Name },
    /// A list is applied that has no entries.
    Empty { line: u64, list: Name },
}

/// Adds a note, where there is one.
pub fn add_note(notes: &mut Vec<Note>, note: Option<Note>) -> Result<(), AllocError>
    ensures { OnOk result (notes.new.items ≡ notes.old.items ++ option_to_list note) }
{
    if let Some(note) = note {
        notes.push(note)?;
    }
    Ok(())
}
