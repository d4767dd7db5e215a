//! What the reading of a configuration passed over.

ghost use Rattle.std.specs.Prelude.{◌≡◌, ◌++◌, List, IfErr, IfOk, IsOk, OnOk};
ghost use Rattle.std.specs.List.{filter_map};
ghost use Rattle.np_lines.specs.Answers.{IsFaultOf};
ghost use Rattle.np_acl_read.specs.Reading.{config_of};
ghost use Rattle.np_notes.specs.LineNotes.{line_notes};
ghost use Rattle.np_notes.specs.NameNotes as names;
ghost use Rattle.np_notes.specs.Notes.{name_notes};
ghost use Rattle.np_notes.specs.ReadLines.{ReadLine, read_lines};
ghost use Rattle.np_notes.specs.Walked.{HasPassed, HasWalked};

use crate::group_line::GroupLine;
use crate::group_notes::{add_group_notes, last_groups};
use crate::missing::add_missing;
use crate::name_set::NameSet;
use crate::names::interface_names;
use crate::note::Note;
use crate::walk::{Findings, Walk, walk_lines};
use np_acl_read::{ConfigError, Declared};
use np_net::{DevId, Network};
use std::alloc::{AllocError, Global};

/// What the reading of a configuration passed over, and what has to be known of the configuration to
/// ask a device for what may matter of it.
#[derive(Drop)]
pub struct Passed {
    /// The notes of its lines.
    notes: Vec<Note>,
    /// The interfaces whose sections its lines open.
    named: NameSet,
    declared: Declared,
    /// The last line that applies a list, for each interface and way.
    groups: Vec<GroupLine>,
}

/// What was passed over, by what is known after all lines.
#[tactic(auto, using(crate::proofs::WalkLaws::passed_is))]
fn passed_over(alloc: Global, walk: Walk) -> Result<Passed, AllocError>
    ensures { IfOk result (λ passed. (lines : List ReadLine) → HasWalked walk lines → HasPassed passed lines) }
{
    let Walk { declared, found } = walk;
    let Findings {
        notes,
        named,
        groups,
        ..
    } = found;
    let groups = last_groups(alloc, groups)?;
    Ok(Passed {
        notes,
        named,
        declared,
        groups,
    })
}

/// Reads a configuration, each line once, for what is passed over.
///
/// The lines are those of a running configuration of Cisco IOS. A text that [`read_config`] doesn't
/// accept is refused with the same fault, the first faulty line. Want of memory may come at any time.
///
/// [`read_config`]: np_acl_read::read_config
pub fn read_passed(alloc: Global, text: &[u8]) -> Result<Passed, ConfigError>
    ensures accepted { IfOk result (λ _. IsOk (config_of text.now)) }
    ensures passed { IfOk result (λ passed. HasPassed passed (read_lines text.now)) }
    ensures fault { IfErr result (λ error. IsFaultOf (config_of text.now) error) }
{
    let walk = walk_lines(alloc, text)?;
    Ok(passed_over(alloc, walk)?)
}

/// Adds the notes of lines that apply lists, for a device of the network.
#[tactic(auto, using(crate::proofs::NameLaws::groups_once))]
fn add_applied(
    alloc: Global,
    net: &Network,
    device: DevId,
    notes: &mut Vec<Note>,
    declared: &Declared,
    groups: &[GroupLine],
) -> Result<(), AllocError>
    ensures { OnOk result (notes.new.items ≡ notes.old.items ++ filter_map (names.group_note (names.interfaces_of net.now device) declared.now.lists) groups.now) }
{
    let known = interface_names(alloc, net, device)?;
    add_group_notes(alloc, notes, &known, declared, groups)
}

impl Passed {
    /// The notes of the lines, in their order. It takes no memory.
    pub fn line_notes(&self) -> &[Note]
        ensures { (lines : List ReadLine) → HasPassed self.now lines → result.now ≡ line_notes lines }
    {
        self.notes.as_slice()
    }

    /// The notes of interfaces and lists that are there on one side alone, where a device of the
    /// network has this configuration. Where the network has no device of this number, no interface is
    /// its. An error comes only where memory runs out.
    #[tactic(auto, using(crate::proofs::NameLaws::names_noted))]
    pub fn name_notes(
        &self,
        alloc: Global,
        net: &Network,
        device: DevId,
    ) -> Result<Vec<Note>, AllocError>
        ensures { IfOk result (λ notes. (lines : List ReadLine) → HasPassed self.now lines → notes.items ≡ name_notes (names.interfaces_of net.now device) lines) }
    {
        let mut notes = Vec::new(alloc);
        let interfaces = net.interfaces.as_slice();
        add_missing(alloc, &mut notes, &self.named, device, interfaces)?;
        let groups = self.groups.as_slice();
        add_applied(alloc, net, device, &mut notes, &self.declared, groups)?;
        Ok(notes)
    }
}
