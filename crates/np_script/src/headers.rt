//! The words of a header.

ghost use Rattle.std.specs.Prelude.{◌≤◌, IfOk};
ghost use Rattle.np_lines.specs.Answers.{Gives, Reads, texts};
ghost use Rattle.np_script.specs.Judging as judging;

use crate::fault::ScriptWhy;
use np_lines::{LineError, ended, next_word};
use np_space::Header;
use np_text::{Word, address, number};

/// A number of at most this.
fn number_to(max: u64, word: &[u8]) -> Result<u64, LineError<ScriptWhy>>
    ensures says { Gives result (judging.number_to max word.now) }
    ensures within { IfOk result (λ n. n ≤ max) }
{
    match number(word, max) {
        Some(value) => Ok(value),
        None => Err(LineError::Faulty(ScriptWhy::BadNumber)),
    }
}

/// An address, and the words after it.
fn address_in<'a>(words: &'a [Word<'a>]) -> Result<(u32, &'a [Word<'a>]), LineError<ScriptWhy>>
    ensures { Reads result (judging.address_in (texts words.now)) }
{
    let (word, words) = next_word(words, ScriptWhy::BadMove)?;
    match address(word) {
        Some(address) => Ok((address, words)),
        None => Err(LineError::Faulty(ScriptWhy::BadNumber)),
    }
}

/// A number of at most this, and the words after it.
fn number_in<'a>(
    max: u64,
    words: &'a [Word<'a>],
) -> Result<(u64, &'a [Word<'a>]), LineError<ScriptWhy>>
    ensures says { Reads result (judging.number_in max (texts words.now)) }
    ensures within { IfOk result (λ read. read.0 ≤ max) }
{
    let (word, words) = next_word(words, ScriptWhy::BadMove)?;
    let value = number_to(max, word)?;
    Ok((value, words))
}

/// `dscp=N`
fn code_point(word: &[u8]) -> Result<u8, LineError<ScriptWhy>>
    ensures { Gives result (judging.code_point_of word.now) }
{
    match word.split_at_checked(5) {
        Some((key, value)) if key == b"dscp=".as_slice() => Ok(number_to(63, value)? as u8),
        _ => Err(LineError::Faulty(ScriptWhy::BadMove)),
    }
}

/// `dscp=N` at a statement's end, or nothing.
fn code_point_or_none(words: &[Word<'_>]) -> Result<u8, LineError<ScriptWhy>>
    ensures { Gives result (judging.code_point_or_none (texts words.now)) }
{
    match words {
        [] => Ok(0),
        [word, more @ ..] => ended(more, code_point(word.bytes)?, ScriptWhy::BadMove),
    }
}

/// The header of the words at a statement's end: source, destination, protocol, `a`, `b` and `est`,
/// and the code point of differentiated services, if it is given.
#[tactic(auto, unfolding(crate::specs::Judging::header_says))]
pub fn header(words: &[Word<'_>]) -> Result<Header, LineError<ScriptWhy>>
    ensures { Gives result (judging.header_says (texts words.now)) }
{
    let (src, words) = address_in(words)?;
    let (dst, words) = address_in(words)?;
    let (proto, words) = number_in(255, words)?;
    let (a, words) = number_in(65535, words)?;
    let (b, words) = number_in(65535, words)?;
    let (est, words) = number_in(1, words)?;
    let dscp = code_point_or_none(words)?;
    Ok(Header {
        src,
        dst,
        proto: proto as u8,
        a: a as u16,
        b: b as u16,
        est: est == 1,
        dscp,
    })
}
