//! Single words of an entry.

ghost use Rattle.std.specs.Prelude.{◌≡◌, IfOk, IfErr, Ok};
ghost use Rattle.std.specs.List.{list_any};
ghost use Rattle.std.specs.Str.{bytes_eq};
ghost use Rattle.np_lines.specs.Answers.{StopsAs, texts};
ghost use Rattle.np_entry_read.specs.Words as judging;

use crate::fault::ConfigWhy;
use np_lines::{LineError, next_word};
use np_text::{Word, is_numeral};

/// What the lists of a configuration could say that this program has no answer to.
const UNSUPPORTED: [&[u8]; 18] = [
    b"ack",
    b"addrgroup",
    b"dynamic",
    b"evaluate",
    b"fin",
    b"fragments",
    b"match-all",
    b"match-any",
    b"object-group",
    b"option",
    b"psh",
    b"reflect",
    b"rst",
    b"syn",
    b"time-range",
    b"tos",
    b"ttl",
    b"urg",
];

/// Whether a word is one of these.
fn is_among(words: &[&[u8]], word: &[u8]) -> bool
    ensures { result ≡ list_any (λ one. bytes_eq word.now one.now) words.now }
{
    words.iter().any(|one| word == *one)
}

/// Whether a word asks for something that isn't supported.
#[tactic(auto, unfolding(crate::specs::Words::unsupported_words))]
pub fn is_unsupported(word: &[u8]) -> bool
    ensures { result ≡ judging.is_unsupported word.now }
{
    is_among(&UNSUPPORTED, word)
}

/// The fault of a word at which an entry can't go on, where its place has this fault.
pub fn fault_at(word: &[u8], fault: ConfigWhy) -> ConfigWhy
    ensures { result ≡ judging.fault_at word.now fault }
{
    if is_unsupported(word) {
        ConfigWhy::Unsupported
    } else {
        fault
    }
}

/// A word that is supported.
fn supported(word: &[u8]) -> Result<&[u8], LineError<ConfigWhy>>
    ensures ok { IfOk result (λ same. judging.supported word.now ≡ Ok same.now) }
    ensures err { IfErr result (λ e. StopsAs e (judging.supported word.now)) }
{
    if is_unsupported(word) {
        Err(LineError::Faulty(ConfigWhy::Unsupported))
    } else {
        Ok(word)
    }
}

/// The first word, which has to stand there, and the words after it.
pub fn entry_word<'a>(
    words: &'a [Word<'a>],
) -> Result<(&'a [u8], &'a [Word<'a>]), LineError<ConfigWhy>>
    ensures ok { IfOk result (λ next. judging.entry_word (texts words.now) ≡ Ok (next.0.now, texts next.1.now)) }
    ensures err { IfErr result (λ e. StopsAs e (judging.entry_word (texts words.now))) }
{
    let (word, words) = next_word(words, ConfigWhy::BadEntry)?;
    Ok((supported(word)?, words))
}

/// The fault of a word that is no number in the range of its place, and no name.
pub fn too_great_or(word: &[u8], fault: ConfigWhy) -> ConfigWhy
    ensures { result ≡ judging.too_great_or word.now fault }
{
    if is_numeral(word) {
        ConfigWhy::BadNumber
    } else {
        fault
    }
}
