//! A script from its text.

ghost use Rattle.std.specs.Prelude.{◌≡◌, ◌+◌, length, Ok, IfOk, IfErr};
ghost use Rattle.np_text.specs.Lines.{lines_of};
ghost use Rattle.np_lines.specs.Answers.{IsFaultOf};
ghost use Rattle.np_script.specs.Fitting.{Fits};
ghost use Rattle.np_script.specs.Reading.{lines_say, script_from, script_of};
ghost use Rattle.np_script.specs.Reading as reading;

use crate::draft::Draft;
use crate::fault::{ScriptError, ScriptFault, ScriptWhy};
use crate::lines::read_line;
use crate::script::Script;
use np_net::{NetNames, Network};
use np_text::lines;
use std::alloc::Global;

/// The number of the line that would follow a text.
fn line_after(bytes: &[u8]) -> u64
    ensures { result ≡ length (lines_of bytes.now) + 1 }
{
    lines(bytes).count() as u64 + 1
}

/// The script of what all lines of a text say.
fn script(bytes: &[u8], draft: Draft) -> Result<Script, ScriptError>
    ensures script { IfOk result (λ script. script_from (length (lines_of bytes.now) + 1) draft ≡ Ok script) }
    ensures fault { IfErr result (λ error. IsFaultOf (script_from (length (lines_of bytes.now) + 1) draft) error) }
{
    match draft.start {
        Some(start) => Ok(Script {
            place: start.place,
            plain: start.plain,
            moves: draft.moves,
        }),
        None => Err(ScriptError::Fault(ScriptFault {
            line: line_after(bytes),
            why: ScriptWhy::NoStart,
        })),
    }
}

/// What all lines of a text say.
#[tactic(auto, using(crate::proofs::LineReading::text_begins))]
fn draft(alloc: Global, names: &NetNames, bytes: &[u8]) -> Result<Draft, ScriptError>
    ensures draft { IfOk result (λ draft. lines_say names.now bytes.now ≡ Ok draft) }
    ensures fault { IfErr result (λ error. IsFaultOf (lines_say names.now bytes.now) error) }
{
    let mut draft = Draft::new(alloc);
    for line in lines(bytes) {
        read_line(alloc, names, &mut draft, line.number, line.bytes)?;
    }
    Ok(draft)
}

/// The script that a text says with these names.
fn script_by(alloc: Global, names: &NetNames, bytes: &[u8]) -> Result<Script, ScriptError>
    ensures script { IfOk result (λ script. reading.script_by names.now bytes.now ≡ Ok script) }
    ensures fault { IfErr result (λ error. IsFaultOf (reading.script_by names.now bytes.now) error) }
{
    let draft = draft(alloc, names, bytes)?;
    script(bytes, draft)
}

/// The script that a text says: where a packet starts in the network, with which header, and its
/// moves (Guttman and Herzog, Rigorous automated network security management, 2005). Whether the
/// header is valid and the moves are steps isn't judged.
///
/// `Fault` comes where a line is faulty: the number of the first such line, counted from 1, and its
/// first fault in the order of its words. `Memory` may come at any time.
pub fn read_script(alloc: Global, net: &Network, bytes: &[u8]) -> Result<Script, ScriptError>
    ensures script { IfOk result (λ script. script_of net.now bytes.now ≡ Ok script) }
    ensures fits { IfOk result (λ script. Fits net.now script) }
    ensures fault { IfErr result (λ error. IsFaultOf (script_of net.now bytes.now) error) }
{
    let names = NetNames::of(alloc, net)?;
    script_by(alloc, &names, bytes)
}
