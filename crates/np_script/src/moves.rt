//! The statements of a script, each without its first word.

ghost use Rattle.np_lines.specs.Answers.{Gives, texts};
ghost use Rattle.np_script.specs.Judging as judging;

use crate::fault::ScriptWhy;
use crate::headers::header;
use crate::names::{association, interface};
use crate::places::place;
use crate::statement::Start;
use np_ipsec::Motion;
use np_lines::{LineError, ended};
use np_net::NetNames;
use np_text::Word;
use std::alloc::Global;

/// `start PLACE HEADER`
#[tactic(auto, unfolding(crate::specs::Judging::start_says))]
pub fn start(
    alloc: Global,
    names: &NetNames,
    words: &[Word<'_>],
) -> Result<Start, LineError<ScriptWhy>>
    ensures { Gives result (judging.start_says names.now (texts words.now)) }
{
    let (place, words) = place(alloc, names, words)?;
    let plain = header(words)?;
    Ok(Start { place, plain })
}

/// `enter DEV IF`
#[tactic(auto, unfolding(crate::specs::Judging::enter_says))]
fn enter(
    alloc: Global,
    names: &NetNames,
    words: &[Word<'_>],
) -> Result<Motion, LineError<ScriptWhy>>
    ensures { Gives result (judging.enter_says names.now (texts words.now)) }
{
    let (interface, words) = interface(alloc, names, words)?;
    ended(words, Motion::Enter(interface), ScriptWhy::BadMove)
}

/// `cross DEV IF`
#[tactic(auto, unfolding(crate::specs::Judging::cross_says))]
fn cross(
    alloc: Global,
    names: &NetNames,
    words: &[Word<'_>],
) -> Result<Motion, LineError<ScriptWhy>>
    ensures { Gives result (judging.cross_says names.now (texts words.now)) }
{
    let (interface, words) = interface(alloc, names, words)?;
    ended(words, Motion::Cross(interface), ScriptWhy::BadMove)
}

/// `push SA`
#[tactic(auto, unfolding(crate::specs::Judging::push_says))]
fn push(alloc: Global, names: &NetNames, words: &[Word<'_>]) -> Result<Motion, LineError<ScriptWhy>>
    ensures { Gives result (judging.push_says names.now (texts words.now)) }
{
    let (sa, words) = association(alloc, names, words)?;
    ended(words, Motion::Push(sa), ScriptWhy::BadMove)
}

/// A move, by its first word and the others.
pub fn motion(
    alloc: Global,
    names: &NetNames,
    word: &[u8],
    words: &[Word<'_>],
) -> Result<Motion, LineError<ScriptWhy>>
    ensures { Gives result (judging.move_says names.now word.now (texts words.now)) }
{
    if word == b"enter".as_slice() {
        return enter(alloc, names, words);
    }
    if word == b"pop".as_slice() {
        return ended(words, Motion::Pop, ScriptWhy::BadMove);
    }
    if word == b"cross".as_slice() {
        return cross(alloc, names, words);
    }
    if word == b"push".as_slice() {
        return push(alloc, names, words);
    }
    if word == b"leave".as_slice() {
        return ended(words, Motion::Leave, ScriptWhy::BadMove);
    }
    Err(LineError::Faulty(ScriptWhy::BadMove))
}
