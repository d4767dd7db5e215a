//! What is written of a file that is refused.

ghost use Rattle.std.specs.Prelude.{◌≡◌, ◌++◌, OnOk, OnErr, IfOk};
ghost use Rattle.np_text.specs.Appending.{AppendsFront};
ghost use Rattle.np_net_text.specs.CanonicalText.{spaced};
ghost use Rattle.np_report.specs.Refusals as refusals;
ghost use Rattle.np_report.specs.Refusals.{refusal_text};

use crate::words::put_number_word;
use np_acl_read::{ConfigFault, ConfigWhy};
use np_net_read::{NetFault, NetWhy};
use np_net_text::put_word;
use np_script::{ScriptFault, ScriptWhy};
use np_text::put_bytes;
use std::alloc::{AllocError, Global};

/// Why a file is refused.
#[derive(Clone, Copy, Debug)]
pub enum Refusal {
    /// It has more bytes than a file may have.
    TooLong,
    /// It is a network's text, and a line is faulty.
    Net(NetFault),
    /// It is a configuration, and a line is faulty.
    Config(ConfigFault),
    /// It is a script, and a line is faulty.
    Script(ScriptFault),
}

fn net_word(why: NetWhy) -> &'static [u8]
    ensures { result.now ≡ refusals.net_word why }
{
    match why {
        NetWhy::NotText => b"NotText",
        NetWhy::UnknownStatement => b"UnknownStatement",
        NetWhy::BadShape => b"BadShape",
        NetWhy::BadName => b"BadName",
        NetWhy::BadNumber => b"BadNumber",
        NetWhy::Duplicate => b"Duplicate",
        NetWhy::UnknownName => b"UnknownName",
        NetWhy::TooMany => b"TooMany",
        NetWhy::BadPred => b"BadPred",
        NetWhy::TooDeep => b"TooDeep",
        NetWhy::SameArea => b"SameArea",
        NetWhy::WrongEnd => b"WrongEnd",
    }
}

fn config_word(why: ConfigWhy) -> &'static [u8]
    ensures { result.now ≡ refusals.config_word why }
{
    match why {
        ConfigWhy::BadEntry => b"BadEntry",
        ConfigWhy::Unsupported => b"Unsupported",
        ConfigWhy::UnknownName => b"UnknownName",
        ConfigWhy::BadNumber => b"BadNumber",
        ConfigWhy::BadRange => b"BadRange",
        ConfigWhy::DuplicateSequence => b"DuplicateSequence",
        ConfigWhy::Negated => b"Negated",
        ConfigWhy::TooManyEntries => b"TooManyEntries",
    }
}

fn script_word(why: ScriptWhy) -> &'static [u8]
    ensures { result.now ≡ refusals.script_word why }
{
    match why {
        ScriptWhy::NotText => b"NotText",
        ScriptWhy::NoStart => b"NoStart",
        ScriptWhy::BadMove => b"BadMove",
        ScriptWhy::UnknownName => b"UnknownName",
        ScriptWhy::BadNumber => b"BadNumber",
    }
}

// Appends the words of a faulty line, each after a space.
fn put_line_words(text: &mut Vec<u8>, number: u64, why: &[u8]) -> Result<(), AllocError>
    ensures { OnOk result (text.new.items ≡ text.old.items ++ spaced (refusals.line_words number why.now)) }
{
    put_word(text, b"line")?;
    put_number_word(text, number)?;
    put_word(text, why)
}

// Appends the words of a reason, each after a space.
fn put_reason(text: &mut Vec<u8>, why: &Refusal) -> Result<(), AllocError>
    ensures { OnOk result (text.new.items ≡ text.old.items ++ spaced (refusals.refusal_words why.now)) }
{
    match why {
        Refusal::TooLong => put_word(text, b"too-long"),
        Refusal::Net(fault) => put_line_words(text, fault.line, net_word(fault.why)),
        Refusal::Config(fault) => put_line_words(text, fault.line, config_word(fault.why)),
        Refusal::Script(fault) => put_line_words(text, fault.line, script_word(fault.why)),
    }
}

// The line of a file that is refused.
#[tactic(auto, using(crate::proofs::TextLaws::one_line))]
fn refusal_line(alloc: Global, file: &[u8], why: &Refusal) -> Result<Vec<u8>, AllocError>
    ensures { IfOk result (λ text. text.items ≡ refusal_text file.now why.now) }
{
    let mut text = Vec::new(alloc);
    text.extend_from_slice(b"refused")?;
    put_word(&mut text, file)?;
    put_reason(&mut text, why)?;
    text.push(b'\n')?;
    Ok(text)
}

/// Appends the line of a file that is refused: the name by which it was begun, and why.
///
/// Where memory runs out, which alone is an error, a prefix of it may have been appended.
pub fn put_refusal(
    alloc: Global,
    out: &mut Vec<u8>,
    file: &[u8],
    why: &Refusal,
) -> Result<(), AllocError>
    ensures ok { OnOk result (out.new.items ≡ out.old.items ++ refusal_text file.now why.now) }
    ensures err { OnErr result (AppendsFront out.old.items out.new.items (refusal_text file.now why.now)) }
{
    // The text is whole before any of it is appended.
    let text = refusal_line(alloc, file, why)?;
    put_bytes(out, text.as_slice())
}
