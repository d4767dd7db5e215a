//! What the words of the IPsec part's statements say.

ghost use Rattle.std.specs.Prelude.{◌≡◌, ◌<◌, IfOk, false, length, nat_eq};
ghost use Rattle.std.specs.List.{list_any};
ghost use Rattle.np_lines.specs.Answers.{Gives, Reads, texts};
ghost use Rattle.np_net.specs.Network.{IsFrom, IsMark, IsMatch, IsOutAction, IsTo, sa_at};
ghost use Rattle.np_net.specs.Path.{device_of};
ghost use Rattle.np_net_read.specs.Drafting.{IsDraft};
ghost use Rattle.np_net_read.specs.Judging as judging;
ghost use Rattle.np_net_read.specs.Tables.{table_at};

use crate::draft::Draft;
use crate::endings::predicate;
use crate::fault::NetWhy;
use np_lines::{LineError, ended, next_word};
use np_net::{
    AreaId, DevId, IfId, InAction, Interface, Kind, MarkTest, Match, OutAction, Sa, SaId, Table,
};
use np_text::Word;
use std::alloc::Global;

/// The kind of an association.
pub fn kind(word: &[u8]) -> Result<Kind, LineError<NetWhy>>
    ensures { Gives result (judging.kind_of word.now) }
{
    if word == b"esp".as_slice() {
        return Ok(Kind::Esp);
    }
    if word == b"esp-enc".as_slice() {
        return Ok(Kind::EspEnc);
    }
    if word == b"esp-null".as_slice() {
        return Ok(Kind::EspNull);
    }
    if word == b"ah".as_slice() {
        return Ok(Kind::Ah);
    }
    Err(LineError::Faulty(NetWhy::BadShape))
}

/// The action of an inward rule.
pub fn in_action(word: &[u8]) -> Result<InAction, LineError<NetWhy>>
    ensures { Gives result (judging.in_action_of word.now) }
{
    if word == b"bypass".as_slice() {
        return Ok(InAction::Bypass);
    }
    if word == b"discard".as_slice() {
        return Ok(InAction::Discard);
    }
    Err(LineError::Faulty(NetWhy::BadShape))
}

fn device_of(interfaces: &[Interface], interface: IfId) -> DevId
    requires { interface < length interfaces.now }
    ensures { result ≡ device_of interfaces.now interface }
{
    interfaces[interface as usize].device
}

fn first_end(sas: &[Sa], sa: SaId) -> DevId
    requires { sa < length sas.now }
    ensures { result ≡ (sa_at sas.now sa).from }
{
    sas[sa as usize].from
}

fn second_end(sas: &[Sa], sa: SaId) -> DevId
    requires { sa < length sas.now }
    ensures { result ≡ (sa_at sas.now sa).to }
{
    sas[sa as usize].to
}

/// This association, where the device of an interface removes its header.
fn ending_at(draft: &Draft, interface: IfId, sa: SaId) -> Result<SaId, LineError<NetWhy>>
    requires interface { interface < length draft.now.declared.interfaces }
    requires sa { sa < length draft.now.declared.sas }
    ensures says { Gives result (judging.ending_at draft.now.declared interface sa) }
    ensures ends { IfOk result (λ n. IsTo draft.now.declared.sas (device_of draft.now.declared.interfaces interface) n) }
{
    let device = device_of(draft.declared.interfaces.as_slice(), interface);
    if second_end(draft.declared.sas.as_slice(), sa) != device {
        return Err(LineError::Faulty(NetWhy::WrongEnd));
    }
    Ok(sa)
}

/// This association, where the device of an interface puts its header around packets.
fn beginning_at(draft: &Draft, interface: IfId, sa: SaId) -> Result<SaId, LineError<NetWhy>>
    requires interface { interface < length draft.now.declared.interfaces }
    requires sa { sa < length draft.now.declared.sas }
    ensures says { Gives result (judging.beginning_at draft.now.declared interface sa) }
    ensures begins { IfOk result (λ n. IsFrom draft.now.declared.sas (device_of draft.now.declared.interfaces interface) n) }
{
    let device = device_of(draft.declared.interfaces.as_slice(), interface);
    if first_end(draft.declared.sas.as_slice(), sa) != device {
        return Err(LineError::Faulty(NetWhy::WrongEnd));
    }
    Ok(sa)
}

/// Whether an interface has a pop rule of this association.
fn has_pop(tables: &[Table], interface: IfId, sa: SaId) -> bool
    requires { interface < length tables.now }
    ensures { result ≡ list_any (nat_eq sa) (table_at tables.now interface).pops }
{
    tables[interface as usize].pops.as_slice().contains(&sa)
}

/// This association, where an interface has no pop rule of it.
pub fn new_pop(draft: &Draft, interface: IfId, sa: SaId) -> Result<SaId, LineError<NetWhy>>
    requires draft { IsDraft draft.now }
    requires interface { interface < length draft.now.declared.interfaces }
    ensures says { Gives result (judging.new_pop draft.now.declared interface sa) }
    ensures same { IfOk result (λ n. n ≡ sa) }
    ensures new { IfOk result (λ n. list_any (nat_eq n) (table_at draft.now.declared.tables interface).pops ≡ false) }
{
    if has_pop(draft.declared.tables.as_slice(), interface, sa) {
        return Err(LineError::Faulty(NetWhy::Duplicate));
    }
    Ok(sa)
}

/// The area that the next word names, and the words after it.
pub fn next_area<'a>(
    alloc: Global,
    draft: &Draft,
    words: &'a [Word<'a>],
) -> Result<(AreaId, &'a [Word<'a>]), LineError<NetWhy>>
    requires { IsDraft draft.now }
    ensures says { Reads result (judging.area_next draft.now.declared (texts words.now)) }
    ensures within { IfOk result (λ next. next.0 < length draft.now.declared.areas) }
{
    let (word, words) = next_word(words, NetWhy::BadShape)?;
    let area = draft.area(alloc, word)?;
    Ok((area, words))
}

/// The device that the next word names, and the words after it.
pub fn next_device<'a>(
    alloc: Global,
    draft: &Draft,
    words: &'a [Word<'a>],
) -> Result<(DevId, &'a [Word<'a>]), LineError<NetWhy>>
    requires { IsDraft draft.now }
    ensures says { Reads result (judging.device_next draft.now.declared (texts words.now)) }
    ensures within { IfOk result (λ next. next.0 < length draft.now.declared.devices) }
{
    let (word, words) = next_word(words, NetWhy::BadShape)?;
    let device = draft.device(alloc, word)?;
    Ok((device, words))
}

/// The interface that the next two words name, and the words after them.
#[tactic(auto, unfolding(crate::specs::Judging::interface_next))]
pub fn next_interface<'a>(
    alloc: Global,
    draft: &Draft,
    words: &'a [Word<'a>],
) -> Result<(IfId, &'a [Word<'a>]), LineError<NetWhy>>
    requires { IsDraft draft.now }
    ensures says { Reads result (judging.interface_next draft.now.declared (texts words.now)) }
    ensures within { IfOk result (λ next. next.0 < length draft.now.declared.interfaces) }
{
    let (device, words) = next_device(alloc, draft, words)?;
    let (name, words) = next_word(words, NetWhy::BadShape)?;
    let interface = draft.interface(alloc, device, name)?;
    Ok((interface, words))
}

/// The association that the next word names, and the words after it.
fn next_sa<'a>(
    alloc: Global,
    draft: &Draft,
    words: &'a [Word<'a>],
) -> Result<(SaId, &'a [Word<'a>]), LineError<NetWhy>>
    requires { IsDraft draft.now }
    ensures says { Reads result (judging.sa_next draft.now.declared (texts words.now)) }
    ensures within { IfOk result (λ next. next.0 < length draft.now.declared.sas) }
{
    let (word, words) = next_word(words, NetWhy::BadShape)?;
    let sa = draft.sa(alloc, word)?;
    Ok((sa, words))
}

/// The association that the next word names, where the device of an interface removes its header,
/// and the words after it.
pub fn next_ending<'a>(
    alloc: Global,
    draft: &Draft,
    interface: IfId,
    words: &'a [Word<'a>],
) -> Result<(SaId, &'a [Word<'a>]), LineError<NetWhy>>
    requires draft { IsDraft draft.now }
    requires interface { interface < length draft.now.declared.interfaces }
    ensures says { Reads result (judging.ending_next draft.now.declared interface (texts words.now)) }
    ensures ends { IfOk result (λ next. IsTo draft.now.declared.sas (device_of draft.now.declared.interfaces interface) next.0) }
{
    let (sa, words) = next_sa(alloc, draft, words)?;
    let sa = ending_at(draft, interface, sa)?;
    Ok((sa, words))
}

/// The association that the next word names, where the device of an interface puts its header
/// around packets, and the words after it.
fn next_beginning<'a>(
    alloc: Global,
    draft: &Draft,
    interface: IfId,
    words: &'a [Word<'a>],
) -> Result<(SaId, &'a [Word<'a>]), LineError<NetWhy>>
    requires draft { IsDraft draft.now }
    requires interface { interface < length draft.now.declared.interfaces }
    ensures says { Reads result (judging.beginning_next draft.now.declared interface (texts words.now)) }
    ensures begins { IfOk result (λ next. IsFrom draft.now.declared.sas (device_of draft.now.declared.interfaces interface) next.0) }
{
    let (sa, words) = next_sa(alloc, draft, words)?;
    let sa = beginning_at(draft, interface, sa)?;
    Ok((sa, words))
}

fn mark_from<'a>(
    alloc: Global,
    draft: &Draft,
    interface: IfId,
    word: &[u8],
    words: &'a [Word<'a>],
) -> Result<(MarkTest, &'a [Word<'a>]), LineError<NetWhy>>
    requires draft { IsDraft draft.now }
    requires interface { interface < length draft.now.declared.interfaces }
    ensures says { Reads result (judging.mark_from draft.now.declared interface word.now (texts words.now)) }
    ensures formed { IfOk result (λ next. IsMark draft.now.declared.sas (device_of draft.now.declared.interfaces interface) next.0) }
{
    if word == b"unmarked".as_slice() {
        return Ok((MarkTest::Unmarked, words));
    }
    if word == b"anymark".as_slice() {
        return Ok((MarkTest::AnyMark, words));
    }
    if word != b"popped".as_slice() {
        return Err(LineError::Faulty(NetWhy::BadShape));
    }
    let (sa, words) = next_ending(alloc, draft, interface, words)?;
    Ok((MarkTest::Popped(sa), words))
}

/// What the next words ask of the association that was removed last, at an interface, and the words
/// after them.
pub fn next_mark<'a>(
    alloc: Global,
    draft: &Draft,
    interface: IfId,
    words: &'a [Word<'a>],
) -> Result<(MarkTest, &'a [Word<'a>]), LineError<NetWhy>>
    requires draft { IsDraft draft.now }
    requires interface { interface < length draft.now.declared.interfaces }
    ensures says { Reads result (judging.mark_next draft.now.declared interface (texts words.now)) }
    ensures formed { IfOk result (λ next. IsMark draft.now.declared.sas (device_of draft.now.declared.interfaces interface) next.0) }
{
    let (word, words) = next_word(words, NetWhy::BadShape)?;
    mark_from(alloc, draft, interface, word, words)
}

fn out_action_from<'a>(
    alloc: Global,
    draft: &Draft,
    interface: IfId,
    word: &[u8],
    words: &'a [Word<'a>],
) -> Result<(OutAction, &'a [Word<'a>]), LineError<NetWhy>>
    requires draft { IsDraft draft.now }
    requires interface { interface < length draft.now.declared.interfaces }
    ensures says { Reads result (judging.out_action_from draft.now.declared interface word.now (texts words.now)) }
    ensures formed { IfOk result (λ next. IsOutAction draft.now.declared.sas (device_of draft.now.declared.interfaces interface) next.0) }
{
    if word == b"bypass".as_slice() {
        return Ok((OutAction::Bypass, words));
    }
    if word == b"discard".as_slice() {
        return Ok((OutAction::Discard, words));
    }
    if word != b"protect".as_slice() {
        return Err(LineError::Faulty(NetWhy::BadShape));
    }
    let (sa, words) = next_beginning(alloc, draft, interface, words)?;
    Ok((OutAction::Protect(sa), words))
}

/// The action of an outward rule at an interface, and the words after it.
pub fn next_out_action<'a>(
    alloc: Global,
    draft: &Draft,
    interface: IfId,
    words: &'a [Word<'a>],
) -> Result<(OutAction, &'a [Word<'a>]), LineError<NetWhy>>
    requires draft { IsDraft draft.now }
    requires interface { interface < length draft.now.declared.interfaces }
    ensures says { Reads result (judging.out_action_next draft.now.declared interface (texts words.now)) }
    ensures formed { IfOk result (λ next. IsOutAction draft.now.declared.sas (device_of draft.now.declared.interfaces interface) next.0) }
{
    let (word, words) = next_word(words, NetWhy::BadShape)?;
    out_action_from(alloc, draft, interface, word, words)
}

fn under(alloc: Global, draft: &Draft, words: &[Word<'_>]) -> Result<Match, LineError<NetWhy>>
    requires { IsDraft draft.now }
    ensures says { Gives result (judging.under_in draft.now.declared (texts words.now)) }
    ensures formed { IfOk result (λ test. IsMatch draft.now.declared.sas test) }
{
    let (sa, words) = next_sa(alloc, draft, words)?;
    ended(words, Match::Under(sa), NetWhy::BadShape)
}

fn match_from(
    alloc: Global,
    draft: &Draft,
    word: &[u8],
    words: &[Word<'_>],
) -> Result<Match, LineError<NetWhy>>
    requires { IsDraft draft.now }
    ensures says { Gives result (judging.match_from draft.now.declared word.now (texts words.now)) }
    ensures formed { IfOk result (λ test. IsMatch draft.now.declared.sas test) }
{
    if word == b"plain".as_slice() {
        let pred = predicate(alloc, draft, words)?;
        return Ok(Match::Plain(pred));
    }
    if word == b"under".as_slice() {
        return under(alloc, draft, words);
    }
    if word == b"every".as_slice() {
        return ended(words, Match::Every, NetWhy::BadShape);
    }
    Err(LineError::Faulty(NetWhy::BadShape))
}

/// What the words at a rule's end ask of a packet's outermost header.
pub fn top(alloc: Global, draft: &Draft, words: &[Word<'_>]) -> Result<Match, LineError<NetWhy>>
    requires { IsDraft draft.now }
    ensures says { Gives result (judging.match_in draft.now.declared (texts words.now)) }
    ensures formed { IfOk result (λ test. IsMatch draft.now.declared.sas test) }
{
    let (word, words) = next_word(words, NetWhy::BadShape)?;
    match_from(alloc, draft, word, words)
}
