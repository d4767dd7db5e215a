//! What single words say.

ghost use Rattle.std.specs.Prelude.{◌≡◌, ◌∷◌, ◌*◌, ◌+◌, ◌<◌, ◌≤◌, ◌==◌, false, map, IfOk, IfErr, IfSome, IsTrue, OnOk, Ok, length, nat_lt};
ghost use Rattle.std.specs.List.{list_all, list_any};
ghost use Rattle.std.specs.Str.{bytes_eq};
ghost use Rattle.np_pred.specs.Patterns.{are_prefixes};
ghost use Rattle.np_net.specs.Names as form;
ghost use Rattle.np_net.specs.Distinct.{same_place};
ghost use Rattle.np_lines.specs.Answers.{Gives};
ghost use Rattle.np_net_read.specs.Judging as judging;

use crate::fault::NetWhy;
use np_lines::LineError;
use np_net::{DEPTH_LIMIT, Names, Places, is_interface_name, is_name};
use np_pred::addresses;
use np_space::Ternary;
use np_text::{Name, number};
use sqlite_items::Items;
use std::alloc::Global;

/// A name that is new among these.
pub fn new_name(alloc: Global, names: &Names, word: &[u8]) -> Result<Name, LineError<NetWhy>>
    ensures says { Gives result (judging.new_name names.now word.now) }
    ensures formed { IfOk result (λ name. IsTrue (form.is_name name)) }
    ensures new { IfOk result (λ name. list_any (bytes_eq name) names.now ≡ false) }
{
    if !is_name(word) {
        return Err(LineError::Faulty(NetWhy::BadName));
    }
    if names.has(alloc, word)? {
        return Err(LineError::Faulty(NetWhy::Duplicate));
    }
    Ok(Name::of(alloc, word)?)
}

/// The name of an interface of a device that is new among these.
pub fn new_interface_name(
    alloc: Global,
    places: &Places,
    device: u16,
    word: &[u8],
) -> Result<Name, LineError<NetWhy>>
    ensures says { Gives result (judging.new_interface_name places.now device word.now) }
    ensures formed { IfOk result (λ name. IsTrue (form.is_interface_name name)) }
    ensures new { IfOk result (λ name. list_any (same_place (device, name)) places.now ≡ false) }
{
    if !is_interface_name(word) {
        return Err(LineError::Faulty(NetWhy::BadName));
    }
    if places.has(alloc, device, word)? {
        return Err(LineError::Faulty(NetWhy::Duplicate));
    }
    Ok(Name::of(alloc, word)?)
}

/// The number of a name among these, which are few enough for it.
pub fn named(alloc: Global, names: &Names, word: &[u8]) -> Result<u16, LineError<NetWhy>>
    requires few { length names.now ≤ 65535 }
    ensures says { Gives result (judging.named names.now word.now) }
    ensures within { IfOk result (λ n. n < length names.now) }
{
    match names.place(alloc, word)? {
        Some(place) => Ok(place as u16),
        None => Err(LineError::Faulty(NetWhy::UnknownName)),
    }
}

/// The number of an interface of a device among these, which are few enough for it.
pub fn interface_named(
    alloc: Global,
    places: &Places,
    device: u16,
    word: &[u8],
) -> Result<u16, LineError<NetWhy>>
    requires few { length places.now ≤ 65535 }
    ensures says { Gives result (judging.interface_named places.now device word.now) }
    ensures within { IfOk result (λ n. n < length places.now) }
{
    match places.place(alloc, device, word)? {
        Some(place) => Ok(place as u16),
        None => Err(LineError::Faulty(NetWhy::UnknownName)),
    }
}

/// The prefixes of an area.
pub fn sources(alloc: Global, word: &[u8]) -> Result<Items<Ternary>, LineError<NetWhy>>
    ensures says { Gives result (judging.sources_of word.now) }
    ensures prefixes { IfOk result (λ patterns. IsTrue (are_prefixes patterns)) }
{
    match addresses(alloc, word)? {
        Some(patterns) => Ok(patterns),
        None => Err(LineError::Faulty(NetWhy::BadNumber)),
    }
}

/// A depth of 1 to 16.
pub fn depth(word: &[u8]) -> Result<u8, LineError<NetWhy>>
    ensures says { Gives result (judging.depth_of word.now) }
    ensures shallow { IfOk result (λ depth. 1 ≤ depth) }
    ensures deep { IfOk result (λ depth. depth ≤ 16) }
{
    match number(word, u64::from(DEPTH_LIMIT)) {
        Some(value) if value > 0 => Ok(value as u8),
        _ => Err(LineError::Faulty(NetWhy::BadNumber)),
    }
}

/// The slot of an interface in a way, `in` or `out`.
pub fn slot(interface: u16, word: &[u8]) -> Result<u16, LineError<NetWhy>>
    requires few { interface < 1024 }
    ensures says { Gives result (judging.slot_of interface word.now) }
    ensures within { IfOk result (λ slot. slot < 2 * interface + 2) }
{
    if word == b"in".as_slice() {
        return Ok(2 * interface);
    }
    if word == b"out".as_slice() {
        return Ok(2 * interface + 1);
    }
    Err(LineError::Faulty(NetWhy::BadShape))
}

/// Whether a goal says `only`, and not `never`.
pub fn is_only(word: &[u8]) -> Result<bool, LineError<NetWhy>>
    ensures { Gives result (judging.only_of word.now) }
{
    if word == b"never".as_slice() {
        return Ok(false);
    }
    if word == b"only".as_slice() {
        return Ok(true);
    }
    Err(LineError::Faulty(NetWhy::BadShape))
}
