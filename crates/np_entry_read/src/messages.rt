//! The ICMP types and codes of an entry.

ghost use Rattle.std.specs.Prelude.{◌≡◌, ◌∷◌, IfOk};
ghost use Rattle.np_acl.specs.Tables as tables;
ghost use Rattle.np_lines.specs.Answers.{Gives, Reads, texts};
ghost use Rattle.np_entry_read.specs.Entries as judging;

use crate::fault::ConfigWhy;
use crate::options::is_message_option;
use crate::spans::one_number;
use crate::words::is_unsupported;
use np_acl::{Ports, icmp_of};
use np_lines::LineError;
use np_text::{Word, is_numeral, number};
use std::alloc::{AllocError, Global};

/// A type or a code.
fn octet(word: &[u8]) -> Result<u16, LineError<ConfigWhy>>
    ensures { Gives result (judging.octet_of word.now) }
{
    match number(word, 255) {
        Some(value) => Ok(value as u16),
        None => Err(LineError::Faulty(ConfigWhy::BadNumber)),
    }
}

/// The code that may follow a type, and every code where none does.
#[tactic(auto, unfolding(crate::specs::Entries::code_in))]
fn code_in<'a>(
    alloc: Global,
    words: &'a [Word<'a>],
) -> Result<(Ports, &'a [Word<'a>]), LineError<ConfigWhy>>
    ensures { Reads result (judging.code_in (texts words.now)) }
{
    let [word, rest @ ..] = words else {
        return Ok((Ports::any(alloc)?, words));
    };
    if !is_numeral(word.bytes) {
        return Ok((Ports::any(alloc)?, words));
    }
    let code = octet(word.bytes)?;
    Ok((one_number(alloc, code)?, rest))
}

/// The type by its number, and the code after it.
fn message_numbers<'a>(
    alloc: Global,
    word: &[u8],
    words: &'a [Word<'a>],
) -> Result<((Ports, Ports), &'a [Word<'a>]), LineError<ConfigWhy>>
    ensures { Reads result (judging.message_numbers word.now (texts words.now)) }
{
    let number = octet(word)?;
    let (codes, words) = code_in(alloc, words)?;
    Ok(((one_number(alloc, number)?, codes), words))
}

/// The code that a message's name gives.
fn named_code(alloc: Global, code: Option<u8>) -> Result<Ports, AllocError>
    ensures { IfOk result (λ ports. ports ≡ judging.named_code code) }
{
    match code {
        Some(code) => one_number(alloc, u16::from(code)),
        None => Ports::any(alloc),
    }
}

/// The type and the code of a message by its name; where the word is none, it has to be an option.
fn message_or_option<'a>(
    alloc: Global,
    word: &[u8],
    rest: &'a [Word<'a>],
    words: &'a [Word<'a>],
) -> Result<((Ports, Ports), &'a [Word<'a>]), LineError<ConfigWhy>>
    requires { texts words.now ≡ word.now ∷ texts rest.now }
    ensures { Reads result (judging.message_or_option word.now (tables.icmp_of word.now) (texts rest.now)) }
{
    if let Some((number, code)) = icmp_of(word) {
        let numbers = one_number(alloc, u16::from(number))?;
        return Ok(((numbers, named_code(alloc, code)?), rest));
    }
    if !is_message_option(word) && !is_unsupported(word) {
        return Err(LineError::Faulty(ConfigWhy::UnknownName));
    }
    Ok(((Ports::any(alloc)?, Ports::any(alloc)?), words))
}

/// The types and codes that stand here, and all of them where none do.
#[tactic(auto, unfolding(crate::specs::Entries::message_tests))]
pub fn message_tests<'a>(
    alloc: Global,
    words: &'a [Word<'a>],
) -> Result<((Ports, Ports), &'a [Word<'a>]), LineError<ConfigWhy>>
    ensures { Reads result (judging.message_tests (texts words.now)) }
{
    let [word, rest @ ..] = words else {
        return Ok(((Ports::any(alloc)?, Ports::any(alloc)?), words));
    };
    if is_numeral(word.bytes) {
        message_numbers(alloc, word.bytes, rest)
    } else {
        message_or_option(alloc, word.bytes, rest, words)
    }
}
