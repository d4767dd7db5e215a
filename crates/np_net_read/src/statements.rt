//! The statements of a network's text, each without its first word.

ghost use Rattle.std.specs.Prelude.{◌≡◌, IfOk};
ghost use Rattle.np_lines.specs.Answers.{Gives, texts};
ghost use Rattle.np_net_read.specs.Drafting.{IsDraft};
ghost use Rattle.np_net_read.specs.Fitting.{Fits};
ghost use Rattle.np_net_read.specs.Judging as judging;
ghost use Rattle.np_net_read.specs.Words.{ArePlainWords};

use crate::draft::Draft;
use crate::endings::{options, predicate, trusted};
use crate::fault::NetWhy;
use crate::statement::Statement;
use crate::tokens;
use crate::tokens::{is_only, slot, sources};
use np_lines::{LineError, ended, next_word, within};
use np_net::{Area, DECLARATION_LIMIT, Device, Goal, INTERFACE_LIMIT, Interface};
use np_text::Word;
use std::alloc::Global;

/// `depth D`
#[tactic(auto, unfolding(crate::specs::Judging::depth_says))]
pub fn depth(draft: &Draft, words: &[Word<'_>]) -> Result<Statement, LineError<NetWhy>>
    ensures says { Gives result (judging.depth_says draft.now.declared (texts words.now)) }
    ensures fits { IfOk result (λ s. Fits draft.now.declared s) }
{
    if draft.declared.depth.is_some() {
        return Err(LineError::Faulty(NetWhy::Duplicate));
    }
    let (word, words) = next_word(words, NetWhy::BadShape)?;
    let depth = tokens::depth(word)?;
    ended(words, Statement::Depth(depth), NetWhy::BadShape)
}

/// `area NAME ADDRS [trusted]`
#[tactic(auto, unfolding(crate::specs::Judging::area_says))]
pub fn area(
    alloc: Global,
    draft: &Draft,
    words: &[Word<'_>],
) -> Result<Statement, LineError<NetWhy>>
    requires { IsDraft draft.now }
    ensures says { Gives result (judging.area_says draft.now.declared (texts words.now)) }
    ensures fits { IfOk result (λ s. Fits draft.now.declared s) }
{
    let (name, words) = next_word(words, NetWhy::BadShape)?;
    let name = draft.new_area(alloc, name)?;
    let (addresses, words) = next_word(words, NetWhy::BadShape)?;
    let sources = sources(alloc, addresses)?;
    let trusted = trusted(words)?;
    let area = Area {
        name,
        sources,
        trusted,
    };
    within(
        DECLARATION_LIMIT,
        draft.declared.areas.len(),
        Statement::Area(area),
        NetWhy::TooMany,
    )
}

/// `device NAME [config FILE] [trusted]`
#[tactic(auto, unfolding(crate::specs::Judging::device_says))]
pub fn device(
    alloc: Global,
    draft: &Draft,
    words: &[Word<'_>],
) -> Result<Statement, LineError<NetWhy>>
    requires draft { IsDraft draft.now }
    requires words { ArePlainWords (texts words.now) }
    ensures says { Gives result (judging.device_says draft.now.declared (texts words.now)) }
    ensures fits { IfOk result (λ s. Fits draft.now.declared s) }
{
    let (name, words) = next_word(words, NetWhy::BadShape)?;
    let name = draft.new_device(alloc, name)?;
    let (config, trusted) = options(alloc, words)?;
    let device = Device {
        name,
        config,
        trusted,
    };
    within(
        DECLARATION_LIMIT,
        draft.declared.devices.len(),
        Statement::Device(device),
        NetWhy::TooMany,
    )
}

/// `interface DEV IF AREA`
#[tactic(auto, unfolding(crate::specs::Judging::interface_says))]
pub fn interface(
    alloc: Global,
    draft: &Draft,
    words: &[Word<'_>],
) -> Result<Statement, LineError<NetWhy>>
    requires { IsDraft draft.now }
    ensures says { Gives result (judging.interface_says draft.now.declared (texts words.now)) }
    ensures fits { IfOk result (λ s. Fits draft.now.declared s) }
{
    let (device, words) = next_word(words, NetWhy::BadShape)?;
    let device = draft.device(alloc, device)?;
    let (name, words) = next_word(words, NetWhy::BadShape)?;
    let name = draft.new_interface(alloc, device, name)?;
    let (area, words) = next_word(words, NetWhy::BadShape)?;
    let area = draft.area(alloc, area)?;
    let area = ended(words, area, NetWhy::BadShape)?;
    let interface = Interface { name, device, area };
    within(
        INTERFACE_LIMIT,
        draft.declared.interfaces.len(),
        Statement::Interface(interface),
        NetWhy::TooMany,
    )
}

/// `free DEV IF in` or `free DEV IF out`
#[tactic(auto, unfolding(crate::specs::Judging::free_says))]
pub fn free(
    alloc: Global,
    draft: &Draft,
    words: &[Word<'_>],
) -> Result<Statement, LineError<NetWhy>>
    requires { IsDraft draft.now }
    ensures says { Gives result (judging.free_says draft.now.declared (texts words.now)) }
    ensures fits { IfOk result (λ s. Fits draft.now.declared s) }
{
    let (device, words) = next_word(words, NetWhy::BadShape)?;
    let device = draft.device(alloc, device)?;
    let (name, words) = next_word(words, NetWhy::BadShape)?;
    let interface = draft.interface(alloc, device, name)?;
    let (way, words) = next_word(words, NetWhy::BadShape)?;
    let slot = slot(interface, way)?;
    let slot = draft.new_slot(slot)?;
    ended(words, Statement::Free(slot), NetWhy::BadShape)
}

/// `goal AREA AREA never PRED` or `goal AREA AREA only PRED`
#[tactic(auto, unfolding(crate::specs::Judging::goal_says))]
pub fn goal(
    alloc: Global,
    draft: &Draft,
    words: &[Word<'_>],
) -> Result<Statement, LineError<NetWhy>>
    requires { IsDraft draft.now }
    ensures says { Gives result (judging.goal_says draft.now.declared (texts words.now)) }
    ensures fits { IfOk result (λ s. Fits draft.now.declared s) }
{
    let (from, words) = next_word(words, NetWhy::BadShape)?;
    let from = draft.area(alloc, from)?;
    let (to, words) = next_word(words, NetWhy::BadShape)?;
    let to = draft.area(alloc, to)?;
    if from == to {
        return Err(LineError::Faulty(NetWhy::SameArea));
    }
    let (keyword, words) = next_word(words, NetWhy::BadShape)?;
    let only = is_only(keyword)?;
    let pred = predicate(alloc, draft, words)?;
    let goal = Goal {
        from,
        to,
        only,
        pred,
    };
    within(
        DECLARATION_LIMIT,
        draft.declared.goals.len(),
        Statement::Goal(goal),
        NetWhy::TooMany,
    )
}
