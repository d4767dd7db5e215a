//! The ports of an entry.

ghost use Rattle.std.specs.Prelude.{◌≡◌, IfOk, IfErr, Ok};
ghost use Rattle.np_lines.specs.Answers.{Gives, Reads, StopsAs, texts};
ghost use Rattle.np_entry_read.specs.Entries as judging;

use crate::fault::ConfigWhy;
use crate::spans::{above, all_but, below, each, from_to};
use crate::words::{entry_word, too_great_or};
use np_acl::{PortNames, Ports, port_of};
use np_lines::LineError;
use np_text::{Word, is_numeral};
use std::alloc::Global;

/// A port may have so many others beside it, with itself.
const PORT_LIMIT: usize = 10;

/// A port, by its number or its name.
fn port_named(names: PortNames, word: &[u8]) -> Result<u16, LineError<ConfigWhy>>
    ensures { Gives result (judging.port_of names word.now) }
{
    match port_of(word, names) {
        Some(port) => Ok(port),
        None => Err(LineError::Faulty(too_great_or(word, ConfigWhy::UnknownName))),
    }
}

/// The port that has to stand here.
#[tactic(auto, unfolding(crate::specs::Entries::port_in))]
fn port<'a>(
    names: PortNames,
    words: &'a [Word<'a>],
) -> Result<(u16, &'a [Word<'a>]), LineError<ConfigWhy>>
    ensures { Reads result (judging.port_in names (texts words.now)) }
{
    let (word, words) = entry_word(words)?;
    Ok((port_named(names, word)?, words))
}

/// Whether a word is a number or the name of a port.
fn is_port(names: PortNames, word: &[u8]) -> bool
    ensures { result ≡ judging.is_port names word.now }
{
    is_numeral(word) || port_of(word, names).is_some()
}

/// One more port where there are so many.
fn one_more(names: PortNames, count: usize, word: &[u8]) -> Result<u16, LineError<ConfigWhy>>
    ensures { Gives result (judging.one_more names count word.now) }
{
    if count == PORT_LIMIT {
        return Err(LineError::Faulty(ConfigWhy::BadEntry));
    }
    port_named(names, word)
}

/// One port to ten.
fn ports<'a>(
    alloc: Global,
    names: PortNames,
    words: &'a [Word<'a>],
) -> Result<(Vec<u16>, &'a [Word<'a>]), LineError<ConfigWhy>>
    ensures ok { IfOk result (λ read. judging.ports_in names (texts words.now) ≡ Ok (read.0.items, texts read.1.now)) }
    ensures err { IfErr result (λ e. StopsAs e (judging.ports_in names (texts words.now))) }
{
    let (first, mut left) = port(names, words)?;
    let mut ports = Vec::new(alloc);
    ports.push(first)?;
    while let [word, rest @ ..] = left {
        if !is_port(names, word.bytes) {
            return Ok((ports, left));
        }
        ports.push(one_more(names, ports.len(), word.bytes)?)?;
        left = rest;
    }
    Ok((ports, left))
}

/// The ports of `eq`.
fn equal<'a>(
    alloc: Global,
    names: PortNames,
    words: &'a [Word<'a>],
) -> Result<(Ports, &'a [Word<'a>]), LineError<ConfigWhy>>
    ensures { Reads result (judging.equal_in names (texts words.now)) }
{
    let (ports, words) = ports(alloc, names, words)?;
    Ok((each(alloc, ports.as_slice())?, words))
}

/// The ports of `neq`.
fn unequal<'a>(
    alloc: Global,
    names: PortNames,
    words: &'a [Word<'a>],
) -> Result<(Ports, &'a [Word<'a>]), LineError<ConfigWhy>>
    ensures { Reads result (judging.unequal_in names (texts words.now)) }
{
    let (ports, words) = ports(alloc, names, words)?;
    Ok((all_but(alloc, ports.as_slice())?, words))
}

/// The ports of `lt`.
fn less<'a>(
    alloc: Global,
    names: PortNames,
    words: &'a [Word<'a>],
) -> Result<(Ports, &'a [Word<'a>]), LineError<ConfigWhy>>
    ensures { Reads result (judging.less_in names (texts words.now)) }
{
    let (port, words) = port(names, words)?;
    Ok((below(alloc, port)?, words))
}

/// The ports of `gt`.
fn greater<'a>(
    alloc: Global,
    names: PortNames,
    words: &'a [Word<'a>],
) -> Result<(Ports, &'a [Word<'a>]), LineError<ConfigWhy>>
    ensures { Reads result (judging.greater_in names (texts words.now)) }
{
    let (port, words) = port(names, words)?;
    Ok((above(alloc, port)?, words))
}

/// The ports of `range`.
#[tactic(auto, unfolding(crate::specs::Entries::range_in))]
fn range<'a>(
    alloc: Global,
    names: PortNames,
    words: &'a [Word<'a>],
) -> Result<(Ports, &'a [Word<'a>]), LineError<ConfigWhy>>
    ensures { Reads result (judging.range_in names (texts words.now)) }
{
    let (low, words) = port(names, words)?;
    let (high, words) = port(names, words)?;
    if low > high {
        return Err(LineError::Faulty(ConfigWhy::BadRange));
    }
    Ok((from_to(alloc, low, high)?, words))
}

/// The ports that stand here, and every port where none do.
fn tests<'a>(
    alloc: Global,
    names: PortNames,
    words: &'a [Word<'a>],
) -> Result<(Ports, &'a [Word<'a>]), LineError<ConfigWhy>>
    ensures { Reads result (judging.tests_in names (texts words.now)) }
{
    let [word, rest @ ..] = words else {
        return Ok((Ports::any(alloc)?, words));
    };
    if word.bytes == b"eq".as_slice() {
        return equal(alloc, names, rest);
    }
    if word.bytes == b"neq".as_slice() {
        return unequal(alloc, names, rest);
    }
    if word.bytes == b"lt".as_slice() {
        return less(alloc, names, rest);
    }
    if word.bytes == b"gt".as_slice() {
        return greater(alloc, names, rest);
    }
    if word.bytes == b"range".as_slice() {
        return range(alloc, names, rest);
    }
    Ok((Ports::any(alloc)?, words))
}

/// The ports that stand here, where the protocol has ports: by these names.
#[tactic(auto, unfolding(crate::specs::Entries::port_tests))]
pub fn port_tests<'a>(
    alloc: Global,
    names: Option<PortNames>,
    words: &'a [Word<'a>],
) -> Result<(Ports, &'a [Word<'a>]), LineError<ConfigWhy>>
    ensures { Reads result (judging.port_tests names (texts words.now)) }
{
    match names {
        Some(names) => tests(alloc, names, words),
        None => Ok((Ports::any(alloc)?, words)),
    }
}
