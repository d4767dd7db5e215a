//! The notes of lists that are applied.

ghost use Rattle.std.specs.Prelude.{◌≡◌, ◌++◌, ◌∷◌, [], not, reverse, length, option_map, if◌then◌else◌, IfOk, OnOk};
ghost use Rattle.std.specs.List.{filter_map};
ghost use Rattle.std.specs.Map.{lookup};
ghost use Rattle.std.specs.Str.{bytes_eq};
ghost use Rattle.np_notes.specs.NameNotes as names;
ghost use Rattle.np_notes.specs.Places as places;

use crate::group_line::GroupLine;
use crate::name_set::NameSet;
use crate::note::{Note, add_note};
use crate::shared_name::SharedSet;
use np_acl::Way;
use np_acl_read::Declared;
use std::alloc::{AllocError, Global};

/// Interfaces and ways.
#[derive(Drop)]
pub struct Places {
    pub inward: SharedSet,
    pub outward: SharedSet,
}

impl Places {
    /// None.
    fn new(alloc: Global) -> Places
        ensures inward { result.inward ≡ [] }
        ensures outward { result.outward ≡ [] }
    {
        Places {
            inward: SharedSet::new(alloc),
            outward: SharedSet::new(alloc),
        }
    }

    /// Adds the place of a line, and says whether it wasn't there.
    fn add(&mut self, group: &GroupLine) -> Result<bool, AllocError>
        ensures fresh { IfOk result (λ fresh. fresh ≡ not (places.has_place self.old group.now)) }
        ensures added { OnOk result (self.new ≡ places.with_place self.old group.now) }
    {
        match group.way {
            Way::Inward => self.inward.add(&group.interface),
            Way::Outward => self.outward.add(&group.interface),
        }
    }
}

/// Keeps a line whose place wasn't there before.
fn keep_if_new(
    seen: &mut Places,
    kept: &mut Vec<GroupLine>,
    group: GroupLine,
) -> Result<(), AllocError>
    ensures seen { OnOk result (seen.new ≡ places.with_place seen.old group) }
    ensures kept { OnOk result (kept.new.items ≡ kept.old.items ++ (if places.has_place seen.old group then [] else group ∷ [])) }
{
    if seen.add(&group)? {
        kept.push(group)?;
    }
    Ok(())
}

/// The last line for each interface and way, the last one of them first.
#[tactic(auto, using(crate::proofs::PlaceLaws::last_one, crate::proofs::PlaceLaws::last_start))]
fn last_groups_backwards(
    alloc: Global,
    mut groups: Vec<GroupLine>,
) -> Result<Vec<GroupLine>, AllocError>
    ensures { IfOk result (λ kept. reverse kept.items ≡ names.last_groups groups.items) }
{
    let mut seen = Places::new(alloc);
    let mut kept = Vec::new(alloc);
    while let Some(group) = groups.pop() {
        keep_if_new(&mut seen, &mut kept, group)?;
    }
    Ok(kept)
}

/// The last line for each interface and way, in the order of the lines. An error comes only where
/// memory runs out.
pub fn last_groups(alloc: Global, groups: Vec<GroupLine>) -> Result<Vec<GroupLine>, AllocError>
    ensures { IfOk result (λ kept. kept.items ≡ names.last_groups groups.items) }
{
    let mut kept = last_groups_backwards(alloc, groups)?;
    kept.as_mut_slice().reverse();
    Ok(kept)
}

/// The note of a list that a line applies, by its number of entries, if it is there.
#[tactic(auto, using(crate::proofs::NameLaws::list_note_by_count))]
fn list_note(
    alloc: Global,
    declared: &Declared,
    group: &GroupLine,
) -> Result<Option<Note>, AllocError>
    ensures { IfOk result (λ note. note ≡ names.list_note group.now (lookup (bytes_eq group.now.list) declared.now.lists)) }
{
    match declared.entry_count(&group.list) {
        None => Ok(Some(Note::Undefined {
            line: group.line,
            list: group.list.copy(alloc)?,
        })),
        Some(0) => Ok(Some(Note::Empty {
            line: group.line,
            list: group.list.copy(alloc)?,
        })),
        Some(_) => Ok(None),
    }
}

/// The note of a line that applies a list.
fn group_note(
    alloc: Global,
    known: &NameSet,
    declared: &Declared,
    group: &GroupLine,
) -> Result<Option<Note>, AllocError>
    ensures { IfOk result (λ note. note ≡ names.group_note known.now declared.now.lists group.now) }
{
    if known.has(group.interface.name()) {
        list_note(alloc, declared, group)
    } else {
        Ok(Some(Note::UnknownInterface {
            line: group.line,
            interface: group.interface.name().copy(alloc)?,
        }))
    }
}

/// Adds the notes of lines that apply lists, each the last one for its interface and way, for a
/// device with these interfaces. An error comes only where memory runs out.
pub fn add_group_notes(
    alloc: Global,
    notes: &mut Vec<Note>,
    known: &NameSet,
    declared: &Declared,
    groups: &[GroupLine],
) -> Result<(), AllocError>
    ensures { OnOk result (notes.new.items ≡ notes.old.items ++ filter_map (names.group_note known.now declared.now.lists) groups.now) }
{
    for group in groups {
        add_note(notes, group_note(alloc, known, declared, group)?)?;
    }
    Ok(())
}
