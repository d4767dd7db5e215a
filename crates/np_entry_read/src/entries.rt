//! Entries of access lists from the words after `permit` or `deny`.

ghost use Rattle.std.specs.Prelude.{◌≡◌};
ghost use Rattle.np_lines.specs.Answers.{Gives, Reads, texts};
ghost use Rattle.np_entry_read.specs.Entries as judging;

use crate::addresses::{addresses, source};
use crate::fault::ConfigWhy;
use crate::messages::message_tests;
use crate::options::{OptionKind, options};
use crate::ports::port_tests;
use crate::spans::flag;
use crate::words::{entry_word, too_great_or};
use np_acl::{Entry, ListKind, PortNames, Ports, protocol_of};
use np_lines::LineError;
use np_space::Span;
use np_text::Word;
use std::alloc::Global;

/// The protocols of a word.
fn protocol(word: &[u8]) -> Result<Span, LineError<ConfigWhy>>
    ensures { Gives result (judging.protocol_of word.now) }
{
    match protocol_of(word) {
        Some(proto) => Ok(proto),
        None => Err(LineError::Faulty(too_great_or(word, ConfigWhy::UnknownName))),
    }
}

/// Whether the protocols are this one alone.
fn is_protocol(number: u16, proto: Span) -> bool
    ensures { result ≡ judging.is_protocol number proto }
{
    proto.low == number && proto.high == number
}

/// Whose ports may be named. `None` for protocols without ports.
fn port_names(proto: Span) -> Option<PortNames>
    ensures { result ≡ judging.port_names proto }
{
    if is_protocol(6, proto) {
        return Some(PortNames::Tcp);
    }
    if is_protocol(17, proto) {
        return Some(PortNames::Udp);
    }
    None
}

/// The options that an entry may have.
fn options_for(proto: Span) -> OptionKind
    ensures { result ≡ judging.options_for proto }
{
    if is_protocol(6, proto) {
        OptionKind::Tcp
    } else {
        OptionKind::Extended
    }
}

/// The ports, or the types and codes, after the destination of an entry, where these ports stand
/// after its source.
fn numbers_after<'a>(
    alloc: Global,
    proto: Span,
    sources: Ports,
    words: &'a [Word<'a>],
) -> Result<((Ports, Ports), &'a [Word<'a>]), LineError<ConfigWhy>>
    ensures { Reads result (judging.numbers_after proto sources (texts words.now)) }
{
    if is_protocol(1, proto) {
        return message_tests(alloc, words);
    }
    let (ports, words) = port_tests(alloc, port_names(proto), words)?;
    Ok(((sources, ports), words))
}

/// An extended entry: `PROTO SRC [PORT] DST [PORT] [ICMP] options`.
#[tactic(auto, unfolding(crate::specs::Entries::extended_entry))]
fn extended_entry(
    alloc: Global,
    permit: bool,
    words: &[Word<'_>],
) -> Result<Entry, LineError<ConfigWhy>>
    ensures { Gives result (judging.extended_entry permit (texts words.now)) }
{
    let (word, words) = entry_word(words)?;
    let proto = protocol(word)?;
    let (src, words) = addresses(words)?;
    let (sources, words) = port_tests(alloc, port_names(proto), words)?;
    let (dst, words) = addresses(words)?;
    let ((a, b), words) = numbers_after(alloc, proto, sources, words)?;
    let asked = options(options_for(proto), words)?;
    let mut entry = Entry::any(alloc, permit)?;
    entry.proto = proto;
    entry.src = src;
    entry.dst = dst;
    entry.a = a;
    entry.b = b;
    entry.est = flag(asked.established);
    if let Some(dscp) = asked.dscp {
        entry.dscp = dscp;
    }
    Ok(entry)
}

/// A standard entry: its source, and options.
#[tactic(auto, unfolding(crate::specs::Entries::standard_entry))]
fn standard_entry(
    alloc: Global,
    permit: bool,
    words: &[Word<'_>],
) -> Result<Entry, LineError<ConfigWhy>>
    ensures { Gives result (judging.standard_entry permit (texts words.now)) }
{
    let (addresses, words) = source(words)?;
    options(OptionKind::Standard, words)?;
    let mut entry = Entry::any(alloc, permit)?;
    entry.src = addresses;
    Ok(entry)
}

/// The entry of a list by the words after `permit` or `deny` (Cisco IOS Security Command Reference,
/// `access-list (IP extended)`, `access-list (IP standard)`, `permit (IP)`, `deny (IP)`; the ICMP
/// types and codes of RFC 792, the code points of RFC 2474).
///
/// The first fault in the order of the words is an error: `BadEntry` where a word is missing or isn't
/// what its place needs, `Unsupported` at a word that asks for something without an answer here,
/// `UnknownName` at a word that is no name of its table, `BadNumber` at a number past its range (255
/// for a protocol, a type and a code, 65535 for a port, 63 for a code point, 7 for a precedence), and
/// `BadRange` at a range whose first port is greater than the last. `eq` and `neq` take ten ports at
/// most. Want of memory may come at any time.
pub fn entry(
    alloc: Global,
    kind: ListKind,
    permit: bool,
    words: &[Word<'_>],
) -> Result<Entry, LineError<ConfigWhy>>
    ensures { Gives result (judging.entry_of kind permit (texts words.now)) }
{
    match kind {
        ListKind::Extended => extended_entry(alloc, permit, words),
        ListKind::Standard => standard_entry(alloc, permit, words),
    }
}
