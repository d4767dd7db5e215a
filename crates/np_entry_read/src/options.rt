//! The options at the end of an entry.

ghost use Rattle.std.specs.Prelude.{◌≡◌};
ghost use Rattle.np_lines.specs.Answers.{Gives, texts};
ghost use Rattle.np_entry_read.specs.Entries as judging;

use crate::fault::ConfigWhy;
use crate::spans::precedence_span;
use crate::words::{fault_at, is_unsupported, too_great_or};
use np_acl::{dscp_of, precedence_of};
use np_lines::LineError;
use np_space::Span;
use np_text::Word;

/// Which options an entry may have.
#[derive(Clone, Copy)]
pub enum OptionKind {
    /// Those of a standard entry: `log` and `log-input`.
    Standard,
    /// Those of every extended entry: code points too.
    Extended,
    /// Those of an extended entry for TCP: `established` too.
    Tcp,
}

/// An option that asks for code points.
#[derive(Clone, Copy)]
pub enum Mark {
    Dscp,
    Precedence,
}

/// What the options of an entry ask for.
#[derive(Clone, Copy)]
pub struct Asked {
    /// Whether for an established connection.
    pub established: bool,
    /// For which code points, where they ask for some.
    pub dscp: Option<Span>,
    /// The option whose value is the next word.
    pub waiting: Option<Mark>,
}

/// Whether a word is `log` or `log-input`.
fn is_log(word: &[u8]) -> bool
    ensures { result ≡ judging.is_log word.now }
{
    word == b"log".as_slice() || word == b"log-input".as_slice()
}

/// The option that asks for code points, by its keyword.
fn mark_of(word: &[u8]) -> Option<Mark>
    ensures { result ≡ judging.mark_of word.now }
{
    if word == b"dscp".as_slice() {
        return Some(Mark::Dscp);
    }
    if word == b"precedence".as_slice() {
        return Some(Mark::Precedence);
    }
    None
}

/// Whether a word begins an option of an entry for ICMP.
pub fn is_message_option(word: &[u8]) -> bool
    ensures { result ≡ judging.is_message_option word.now }
{
    is_log(word) || mark_of(word).is_some()
}

/// The code points that an option asks for, by the word after its keyword.
fn marked(mark: Mark, word: &[u8]) -> Option<Span>
    ensures { result ≡ judging.marked mark word.now }
{
    match mark {
        Mark::Dscp => Some(Span::only(u16::from(dscp_of(word)?))),
        Mark::Precedence => Some(precedence_span(precedence_of(word)?)),
    }
}

/// The same, or the fault of the word.
fn value(mark: Mark, word: &[u8]) -> Result<Span, LineError<ConfigWhy>>
    ensures { Gives result (judging.value_of mark word.now) }
{
    if is_unsupported(word) {
        return Err(LineError::Faulty(ConfigWhy::Unsupported));
    }
    match marked(mark, word) {
        Some(span) => Ok(span),
        None => Err(LineError::Faulty(too_great_or(word, ConfigWhy::UnknownName))),
    }
}

fn may_be_established(kind: OptionKind) -> bool
    ensures { result ≡ judging.may_be_established kind }
{
    match kind {
        OptionKind::Standard | OptionKind::Extended => false,
        OptionKind::Tcp => true,
    }
}

fn may_be_marked(kind: OptionKind) -> bool
    ensures { result ≡ judging.may_be_marked kind }
{
    match kind {
        OptionKind::Standard => false,
        OptionKind::Extended | OptionKind::Tcp => true,
    }
}

/// `dscp` or `precedence`, where code points may be asked for and aren't yet.
fn mark_in(kind: OptionKind, asked: Asked, word: &[u8]) -> Result<Asked, LineError<ConfigWhy>>
    ensures { Gives result (judging.mark_in kind asked word.now (judging.mark_of word.now)) }
{
    let Some(mark) = mark_of(word) else {
        return Err(LineError::Faulty(fault_at(word, ConfigWhy::BadEntry)));
    };
    if may_be_marked(kind) && asked.dscp.is_none() {
        return Ok(Asked {
            waiting: Some(mark),
            ..asked
        });
    }
    Err(LineError::Faulty(ConfigWhy::BadEntry))
}

/// What is asked for with one more option, by its keyword.
fn option(kind: OptionKind, asked: Asked, word: &[u8]) -> Result<Asked, LineError<ConfigWhy>>
    ensures { Gives result (judging.option_of kind asked word.now) }
{
    if is_log(word) {
        return Ok(asked);
    }
    if may_be_established(kind) && word == b"established".as_slice() {
        return Ok(Asked {
            established: true,
            ..asked
        });
    }
    mark_in(kind, asked, word)
}

/// What is asked for with one more word: the value that the last option waits for, or an option.
fn with_word(kind: OptionKind, asked: Asked, word: &[u8]) -> Result<Asked, LineError<ConfigWhy>>
    ensures { Gives result (judging.word_of_options kind asked asked.waiting word.now) }
{
    let Some(mark) = asked.waiting else {
        return option(kind, asked, word);
    };
    let span = value(mark, word)?;
    Ok(Asked {
        established: asked.established,
        dscp: Some(span),
        waiting: None,
    })
}

/// At the end no option waits for its value.
fn ended(asked: Asked) -> Result<Asked, LineError<ConfigWhy>>
    ensures { Gives result (judging.options_ended asked asked.waiting) }
{
    match asked.waiting {
        None => Ok(asked),
        Some(_) => Err(LineError::Faulty(ConfigWhy::BadEntry)),
    }
}

/// What the options at the end of an entry ask for.
#[tactic(auto, unfolding(crate::specs::Entries::options_of))]
pub fn options(kind: OptionKind, words: &[Word<'_>]) -> Result<Asked, LineError<ConfigWhy>>
    ensures { Gives result (judging.options_of kind (texts words.now)) }
{
    let mut asked = Asked {
        established: false,
        dscp: None,
        waiting: None,
    };
    let mut left = words;
    while let [word, rest @ ..] = left {
        asked = with_word(kind, asked, word.bytes)?;
        left = rest;
    }
    ended(asked)
}
