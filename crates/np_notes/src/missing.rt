//! The notes of interfaces that a configuration hasn't.

ghost use Rattle.std.specs.Prelude.{◌≡◌, ◌++◌, IfOk, OnOk};
ghost use Rattle.std.specs.List.{filter_map};
ghost use Rattle.std.specs.Option.{option_to_list};
ghost use Rattle.np_notes.specs.NameNotes as names;

use crate::name_set::NameSet;
use crate::note::Note;
use np_net::{DevId, Interface};
use std::alloc::{AllocError, Global};

/// Adds the note of an interface, where it is the device's and none of these names is its.
fn add_if_missing(
    alloc: Global,
    notes: &mut Vec<Note>,
    named: &NameSet,
    device: DevId,
    interface: &Interface,
) -> Result<(), AllocError>
    ensures { OnOk result (notes.new.items ≡ notes.old.items ++ names.missing_notes (option_to_list (names.name_at_device device interface.now)) named.now) }
{
    if interface.device != device || named.has(&interface.name) {
        return Ok(());
    }
    notes.push(Note::NoInterface {
        interface: interface.name.copy(alloc)?,
    })?;
    Ok(())
}

/// Adds the notes of those of these interfaces that are the device's and that none of these names
/// is. An error comes only where memory runs out.
#[tactic(auto, using(crate::proofs::NameLaws::missing_left))]
pub fn add_missing(
    alloc: Global,
    notes: &mut Vec<Note>,
    named: &NameSet,
    device: DevId,
    interfaces: &[Interface],
) -> Result<(), AllocError>
    ensures { OnOk result (notes.new.items ≡ notes.old.items ++ names.missing_notes (filter_map (names.name_at_device device) interfaces.now) named.now) }
{
    for interface in interfaces {
        add_if_missing(alloc, notes, named, device, interface)?;
    }
    Ok(())
}
