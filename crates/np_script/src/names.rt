//! Names of a network's items, as the words of a script.

ghost use Rattle.np_lines.specs.Answers.{Gives, Reads, texts};
ghost use Rattle.np_script.specs.Judging as judging;

use crate::fault::ScriptWhy;
use np_lines::{LineError, next_word};
use np_net::{AreaId, DevId, IfId, NetNames, SaId};
use np_text::Word;
use std::alloc::Global;

fn device_named(alloc: Global, names: &NetNames, word: &[u8]) -> Result<DevId, LineError<ScriptWhy>>
    ensures { Gives result (judging.device_named names.now word.now) }
{
    match names.device(alloc, word)? {
        Some(device) => Ok(device),
        None => Err(LineError::Faulty(ScriptWhy::UnknownName)),
    }
}

/// The interface of a device with this name.
fn interface_named(
    alloc: Global,
    names: &NetNames,
    device: DevId,
    word: &[u8],
) -> Result<IfId, LineError<ScriptWhy>>
    ensures { Gives result (judging.interface_named names.now device word.now) }
{
    match names.interface(alloc, device, word)? {
        Some(interface) => Ok(interface),
        None => Err(LineError::Faulty(ScriptWhy::UnknownName)),
    }
}

fn area_named(alloc: Global, names: &NetNames, word: &[u8]) -> Result<AreaId, LineError<ScriptWhy>>
    ensures { Gives result (judging.area_named names.now word.now) }
{
    match names.area(alloc, word)? {
        Some(area) => Ok(area),
        None => Err(LineError::Faulty(ScriptWhy::UnknownName)),
    }
}

fn sa_named(alloc: Global, names: &NetNames, word: &[u8]) -> Result<SaId, LineError<ScriptWhy>>
    ensures { Gives result (judging.sa_named names.now word.now) }
{
    match names.association(alloc, word)? {
        Some(sa) => Ok(sa),
        None => Err(LineError::Faulty(ScriptWhy::UnknownName)),
    }
}

/// `NAME`, an area
#[tactic(auto, unfolding(crate::specs::Judging::area_in))]
pub fn area<'a>(
    alloc: Global,
    names: &NetNames,
    words: &'a [Word<'a>],
) -> Result<(AreaId, &'a [Word<'a>]), LineError<ScriptWhy>>
    ensures { Reads result (judging.area_in names.now (texts words.now)) }
{
    let (name, words) = next_word(words, ScriptWhy::BadMove)?;
    let area = area_named(alloc, names, name)?;
    Ok((area, words))
}

/// `SA`, a security association
#[tactic(auto, unfolding(crate::specs::Judging::sa_in))]
pub fn association<'a>(
    alloc: Global,
    names: &NetNames,
    words: &'a [Word<'a>],
) -> Result<(SaId, &'a [Word<'a>]), LineError<ScriptWhy>>
    ensures { Reads result (judging.sa_in names.now (texts words.now)) }
{
    let (name, words) = next_word(words, ScriptWhy::BadMove)?;
    let sa = sa_named(alloc, names, name)?;
    Ok((sa, words))
}

/// `DEV IF`, an interface
#[tactic(auto, unfolding(crate::specs::Judging::interface_in))]
pub fn interface<'a>(
    alloc: Global,
    names: &NetNames,
    words: &'a [Word<'a>],
) -> Result<(IfId, &'a [Word<'a>]), LineError<ScriptWhy>>
    ensures { Reads result (judging.interface_in names.now (texts words.now)) }
{
    let (device, words) = next_word(words, ScriptWhy::BadMove)?;
    let device = device_named(alloc, names, device)?;
    let (name, words) = next_word(words, ScriptWhy::BadMove)?;
    let interface = interface_named(alloc, names, device, name)?;
    Ok((interface, words))
}
