//! The addresses of an entry.

ghost use Rattle.std.specs.Prelude.{◌≡◌};
ghost use Rattle.np_lines.specs.Answers.{Gives, Reads, texts};
ghost use Rattle.np_entry_read.specs.Entries as judging;

use crate::fault::ConfigWhy;
use crate::words::entry_word;
use np_lines::LineError;
use np_space::Ternary;
use np_text::{Word, address};

/// An address.
fn address_in(word: &[u8]) -> Result<u32, LineError<ConfigWhy>>
    ensures { Gives result (judging.address_in word.now) }
{
    match address(word) {
        Some(address) => Ok(address),
        None => Err(LineError::Faulty(ConfigWhy::BadEntry)),
    }
}

/// The pattern of an address and the wildcard after it.
fn wildcard_after<'a>(
    address: u32,
    words: &'a [Word<'a>],
) -> Result<(Ternary, &'a [Word<'a>]), LineError<ConfigWhy>>
    ensures { Reads result (judging.wildcard_after address (texts words.now)) }
{
    let (word, words) = entry_word(words)?;
    let wild = address_in(word)?;
    Ok((Ternary::of(address, wild), words))
}

/// The one address after `host`.
fn host_in<'a>(words: &'a [Word<'a>]) -> Result<(Ternary, &'a [Word<'a>]), LineError<ConfigWhy>>
    ensures { Reads result (judging.host_in (texts words.now)) }
{
    let (word, words) = entry_word(words)?;
    let address = address_in(word)?;
    Ok((Ternary::host(address), words))
}

/// The addresses that begin with this word.
fn addresses_from<'a>(
    word: &[u8],
    words: &'a [Word<'a>],
) -> Result<(Ternary, &'a [Word<'a>]), LineError<ConfigWhy>>
    ensures { Reads result (judging.addresses_from word.now (texts words.now)) }
{
    if word == b"any".as_slice() {
        return Ok((Ternary::any(), words));
    }
    if word == b"host".as_slice() {
        return host_in(words);
    }
    let address = address_in(word)?;
    wildcard_after(address, words)
}

/// `any`, `host` and an address, or an address and a wildcard.
#[tactic(auto, unfolding(crate::specs::Entries::addresses_in))]
pub fn addresses<'a>(
    words: &'a [Word<'a>],
) -> Result<(Ternary, &'a [Word<'a>]), LineError<ConfigWhy>>
    ensures { Reads result (judging.addresses_in (texts words.now)) }
{
    let (word, words) = entry_word(words)?;
    addresses_from(word, words)
}

/// The addresses of a standard entry that begin with this one: with the wildcard after it, if
/// there is one.
fn host_or_wildcard<'a>(first: u32, words: &'a [Word<'a>]) -> (Ternary, &'a [Word<'a>])
    ensures { (result.0, texts result.1.now) ≡ judging.host_or_wildcard first (texts words.now) }
{
    let [word, rest @ ..] = words else {
        return (Ternary::host(first), words);
    };
    match address(word.bytes) {
        Some(wild) => (Ternary::of(first, wild), rest),
        None => (Ternary::host(first), words),
    }
}

/// The source of a standard entry that begins with this word.
fn source_from<'a>(
    word: &[u8],
    words: &'a [Word<'a>],
) -> Result<(Ternary, &'a [Word<'a>]), LineError<ConfigWhy>>
    ensures { Reads result (judging.source_from word.now (texts words.now)) }
{
    if word == b"any".as_slice() {
        return Ok((Ternary::any(), words));
    }
    if word == b"host".as_slice() {
        return host_in(words);
    }
    let address = address_in(word)?;
    Ok(host_or_wildcard(address, words))
}

/// The source of a standard entry.
#[tactic(auto, unfolding(crate::specs::Entries::source_in))]
pub fn source<'a>(words: &'a [Word<'a>]) -> Result<(Ternary, &'a [Word<'a>]), LineError<ConfigWhy>>
    ensures { Reads result (judging.source_in (texts words.now)) }
{
    let (word, words) = entry_word(words)?;
    source_from(word, words)
}
