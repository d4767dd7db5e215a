//! A configuration's lines, one after another.

ghost use Rattle.std.specs.Prelude.{◌≡◌, ◌∷◌, ◌++◌, [], ℕ, List, None, Some, Ok, IfErr, IfOk, IsOk, OnOk};
ghost use Rattle.std.specs.Option.{option_to_list};
ghost use Rattle.np_lines.specs.Answers.{IsFaultOf};
ghost use Rattle.np_lines.specs.Declaring.{after_line};
ghost use Rattle.np_acl_read.specs.declared.declared.Section.{Section as SectionAt};
ghost use Rattle.np_acl_read.specs.Adding.{Fits, added};
ghost use Rattle.np_acl_read.specs.Judging.{line_says};
ghost use Rattle.np_acl_read.specs.Reading.{config_of};
ghost use Rattle.np_notes.specs.NameNotes as names;
ghost use Rattle.np_notes.specs.ReadLines.{ReadLine, read_after, read_lines};
ghost use Rattle.np_notes.specs.Walked.{HasFound, HasWalked, LeavesOf};
ghost use Rattle.np_notes.specs.Naming.{with_each};

use crate::context::Context;
use crate::group_line::GroupLine;
use crate::line_notes::line_note;
use crate::line_shape::line_shape;
use crate::name_set::NameSet;
use crate::note::{Note, add_note};
use crate::shared_name::SharedName;
use np_acl_read::{ConfigError, ConfigFault, Declared, Section, Statement, line_statement};
use np_lines::LineError;
use np_text::{Name, lines};
use std::alloc::{AllocError, Global};

/// What lines of a configuration have that notes speak of.
#[derive(Drop)]
pub struct Findings {
    pub context: Context,
    /// The notes of the lines.
    pub notes: Vec<Note>,
    /// The interfaces whose sections the lines open.
    pub named: NameSet,
    /// The lines that apply lists.
    pub groups: Vec<GroupLine>,
}

/// What is known after some lines of a configuration.
#[derive(Drop)]
pub struct Walk {
    pub declared: Declared,
    pub found: Findings,
}

/// Nothing, before any line.
#[tactic(auto, using(crate::proofs::WalkLaws::found_none))]
fn no_findings(alloc: Global) -> Findings
    ensures { HasFound result [] }
{
    Findings {
        context: Context::new(),
        notes: Vec::new(alloc),
        named: NameSet::new(alloc),
        groups: Vec::new(alloc),
    }
}

/// What is known before any line.
fn start(alloc: Global) -> Walk
    ensures { HasWalked result [] }
{
    Walk {
        declared: Declared::new(alloc),
        found: no_findings(alloc),
    }
}

/// The name of the interface of a line that applies a list, after these lines. The last of them
/// shares its name where it is the same, so lines of one section keep it once, however long it is.
fn shared_interface(
    alloc: Global,
    earlier: &[GroupLine],
    interface: &Name,
) -> Result<SharedName, AllocError>
    ensures { IfOk result (λ shared. shared ≡ interface.now) }
{
    match earlier.last() {
        Some(last) => last.interface.share_if_same(alloc, interface),
        None => SharedName::of(alloc, interface),
    }
}

/// The line of this number that applies a list after these lines, where it does.
fn group_line(
    alloc: Global,
    earlier: &[GroupLine],
    number: u64,
    said: &Statement,
) -> Result<Option<GroupLine>, AllocError>
    ensures { IfOk result (λ group. group ≡ names.group_in number (Some said.now)) }
{
    match said {
        Statement::Group {
            interface,
            way,
            list,
        } => Ok(Some(GroupLine {
            line: number,
            interface: shared_interface(alloc, earlier, interface)?,
            way: *way,
            list: list.copy(alloc)?,
        })),
        _ => Ok(None),
    }
}

/// Adds a line that applies a list, where it is one.
fn add_group(
    alloc: Global,
    groups: &mut Vec<GroupLine>,
    number: u64,
    said: &Statement,
) -> Result<(), AllocError>
    ensures { OnOk result (groups.new.items ≡ groups.old.items ++ option_to_list (names.group_in number (Some said.now))) }
{
    if let Some(group) = group_line(alloc, groups.as_slice(), number, said)? {
        groups.push(group)?;
    }
    Ok(())
}

/// Adds the interface whose section a line opens, where it opens one.
fn add_interface(alloc: Global, named: &mut NameSet, said: &Statement) -> Result<(), AllocError>
    ensures { OnOk result (named.new ≡ with_each named.old (option_to_list (names.interface_in (Some said.now)))) }
{
    match said {
        Statement::Interface(name) => named.add(alloc, name),
        _ => Ok(()),
    }
}

impl Findings {
    /// Adds what a line has that declares nothing of its own: no note, and nothing that notes of
    /// later lines look at, but where a list of another kind is open.
    #[tactic(auto, using(crate::proofs::WalkLaws::found_silence))]
    fn add_silence(&mut self, line: &[u8])
        ensures { (before : List ReadLine) (number : ℕ) (section : SectionAt) → HasFound self.old before → HasFound self.new (before ++ record { number = number; bytes = line.now; section = section; said = None } ∷ []) }
    {
        self.context = self.context.after_silence(line);
    }

    /// Adds what a line has that declares this, by its number and the section in which it stands.
    #[tactic(auto, using(crate::proofs::WalkLaws::found_more))]
    fn add_declaring(
        &mut self,
        alloc: Global,
        number: u64,
        line: &[u8],
        section: &Section,
        said: &Statement,
    ) -> Result<(), AllocError>
        ensures { OnOk result ((before : List ReadLine) → HasFound self.old before → HasFound self.new (before ++ record { number = number; bytes = line.now; section = section.now; said = Some said.now } ∷ [])) }
    {
        let shape = line_shape(number, line, said);
        add_note(
            &mut self.notes,
            line_note(alloc, &shape, section, &self.context)?,
        )?;
        add_interface(alloc, &mut self.named, said)?;
        add_group(alloc, &mut self.groups, number, said)?;
        self.context = self.context.after(&shape);
        Ok(())
    }
}

/// Adds what a statement declares. Most lines say `Other`, for which no statement is handed on.
fn add_statement(
    alloc: Global,
    declared: &mut Declared,
    statement: Statement,
) -> Result<(), AllocError>
    requires { Fits declared.old statement }
    ensures { OnOk result (declared.new ≡ added declared.old statement) }
{
    match statement {
        Statement::Other => {
            declared.close_list();
            Ok(())
        }
        statement => declared.extend(alloc, statement),
    }
}

impl Walk {
    /// Adds one more line, which says nothing, as a comment does.
    #[tactic(auto, using(crate::proofs::WalkLaws::walked_silence))]
    fn add_silence(&mut self, line: &[u8])
        ensures declared { self.new.declared ≡ self.old.declared }
        ensures walked { (before : List ReadLine) (number : ℕ) → HasWalked self.old before → HasWalked self.new (before ++ read_after self.old.declared number line.now None ∷ []) }
    {
        self.found.add_silence(line);
    }

    /// Adds one more line, which has this number and says this.
    #[tactic(auto, using(crate::proofs::WalkLaws::walked_more))]
    fn add_line(
        &mut self,
        alloc: Global,
        number: u64,
        line: &[u8],
        said: Statement,
    ) -> Result<(), AllocError>
        requires { Fits self.old.declared said }
        ensures declared { OnOk result (self.new.declared ≡ added self.old.declared said) }
        ensures walked { OnOk result ((before : List ReadLine) → HasWalked self.old before → HasWalked self.new (before ++ read_after self.old.declared number line.now (Some said) ∷ [])) }
    {
        let Walk { declared, found } = self;
        found.add_declaring(alloc, number, line, &declared.section, &said)?;
        add_statement(alloc, declared, said)?;
        Ok(())
    }

    /// Reads one more line, which has this number. An error is the line's fault, or want of memory.
    #[tactic(auto, using(crate::proofs::WalkLaws::leaves_said, crate::proofs::WalkLaws::leaves_silence))]
    fn read_line(&mut self, alloc: Global, number: u64, line: &[u8]) -> Result<(), ConfigError>
        ensures after { OnOk result (after_line line_says added self.old.declared number line.now ≡ Ok self.new.declared) }
        ensures leaves { OnOk result ((left : List (ℕ × List ℕ)) (all : List ReadLine) → LeavesOf self.old ((number, line.now) ∷ left) all → LeavesOf self.new left all) }
        ensures fault { IfErr result (λ error. IsFaultOf (after_line line_says added self.old.declared number line.now) error) }
    {
        match line_statement(alloc, &self.declared, line) {
            Ok(None) => {
                self.add_silence(line);
                Ok(())
            }
            Ok(Some(said)) => Ok(self.add_line(alloc, number, line, said)?),
            Err(LineError::Faulty(why)) => {
                Err(ConfigError::Fault(ConfigFault { line: number, why }))
            }
            Err(LineError::Memory(error)) => Err(ConfigError::Memory(error)),
        }
    }
}

/// What is known after all lines of a configuration. An error is the first faulty line, or want of
/// memory.
#[tactic(auto, using(crate::proofs::WalkLaws::config_begins, crate::proofs::WalkLaws::leaves_all, crate::proofs::WalkLaws::leaves_none))]
pub fn walk_lines(alloc: Global, text: &[u8]) -> Result<Walk, ConfigError>
    ensures accepted { IfOk result (λ _. IsOk (config_of text.now)) }
    ensures walked { IfOk result (λ walk. HasWalked walk (read_lines text.now)) }
    ensures fault { IfErr result (λ error. IsFaultOf (config_of text.now) error) }
{
    let mut walk = start(alloc);
    for line in lines(text) {
        walk.read_line(alloc, line.number, line.bytes)?;
    }
    Ok(walk)
}
