//! The note of a line.

ghost use Rattle.std.specs.Prelude.{◌≡◌, IfOk};
ghost use Rattle.std.specs.Option.{option_copied};
ghost use Rattle.np_notes.specs.Kinds as kinds;
ghost use Rattle.np_notes.specs.LineNotes as rule;
ghost use Rattle.np_notes.specs.Shaping.{shape_in};

use crate::context::{Context, goes_on, is_other};
use crate::kinds::Kind;
use crate::line_shape::LineShape;
use crate::note::Note;
use crate::shape::{changes_others, changes_packets, looks_like_entry};
use np_acl_read::Section;
use np_text::Name;
use std::alloc::{AllocError, Global};

/// Whether a line looks like an entry, and is an entry of no list.
fn is_stray_entry(line: &LineShape<'_>, foreign: bool) -> bool
    ensures { result ≡ rule.is_stray_entry (shape_in line.now) foreign }
{
    is_other(line.kind) && looks_like_entry(&line.words) && !(goes_on(line) && foreign)
}

fn closes_list(line: &LineShape<'_>) -> bool
    ensures { result ≡ rule.closes_list (shape_in line.now) }
{
    is_other(line.kind) && line.indented && !line.exit
}

fn open_list_name(section: &Section) -> Option<&Name>
    ensures { option_copied result ≡ rule.open_list_name section.now }
{
    match section {
        Section::List { name, .. } => Some(name),
        Section::Closed => None,
        Section::Interface(_) => None,
    }
}

fn open_interface(section: &Section) -> Option<&Name>
    ensures { option_copied result ≡ rule.open_interface section.now }
{
    match section {
        Section::Interface(name) => Some(name),
        Section::Closed => None,
        Section::List { .. } => None,
    }
}

fn is_at_interface(section: &Section) -> bool
    ensures { result ≡ rule.is_at_interface section.now }
{
    match section {
        Section::Interface(_) => true,
        Section::Closed => false,
        Section::List { .. } => false,
    }
}

fn is_group(kind: Kind) -> bool
    ensures { result ≡ kinds.is_group_kind kind }
{
    match kind {
        Kind::Group => true,
        _ => false,
    }
}

/// The list whose section a line closes, though it isn't meant to.
fn closed_list_name<'a>(line: &LineShape<'_>, section: &'a Section) -> Option<&'a Name>
    ensures { option_copied result ≡ rule.closed_list_name (shape_in line.now) section.now }
{
    if closes_list(line) {
        open_list_name(section)
    } else {
        None
    }
}

/// Whether a line changes lists, interfaces or packets in a way that isn't modelled.
fn is_not_modelled(line: &LineShape<'_>, section: &Section) -> bool
    ensures { result ≡ rule.is_not_modelled (shape_in line.now) section.now }
{
    is_other(line.kind)
        && (changes_others(&line.words)
            || (line.indented && is_at_interface(section) && changes_packets(&line.words)))
}

/// The interface at which a line applies a list after a line at the margin.
fn strayed_from<'a>(line: &LineShape<'_>, section: &'a Section, strayed: bool) -> Option<&'a Name>
    ensures { option_copied result ≡ rule.strayed_from (shape_in line.now) section.now strayed }
{
    if is_group(line.kind) && strayed {
        open_interface(section)
    } else {
        None
    }
}

/// The note of a line, by the section that is open at it, and its context. An error comes only where
/// memory runs out.
pub fn line_note(
    alloc: Global,
    line: &LineShape<'_>,
    section: &Section,
    context: &Context,
) -> Result<Option<Note>, AllocError>
    ensures { IfOk result (λ note. note ≡ rule.note_of_shape (shape_in line.now) section.now context.now.foreign context.now.strayed) }
{
    if is_stray_entry(line, context.foreign) {
        return Ok(Some(Note::StrayEntry { line: line.number }));
    }
    if let Some(list) = closed_list_name(line, section) {
        return Ok(Some(Note::Closes {
            line: line.number,
            list: list.copy(alloc)?,
        }));
    }
    if is_not_modelled(line, section) {
        return Ok(Some(Note::NotModelled { line: line.number }));
    }
    match strayed_from(line, section, context.strayed) {
        Some(interface) => Ok(Some(Note::StrayGroup {
            line: line.number,
            interface: interface.copy(alloc)?,
        })),
        None => Ok(None),
    }
}
