//! What a line of a configuration declares.

ghost use Rattle.std.specs.Prelude.{◌≡◌, ◌<◌, ◌∷◌, IfOk, IfErr, IfSome, OnOk, Ok};
ghost use Rattle.std.specs.Option.{option_copied};
ghost use Rattle.std.specs.Fmt.{decimal};
ghost use Rattle.np_acl_read.specs.Adding.{Fits, NeedsNoRoom, added, entry_limit};
ghost use Rattle.np_lines.specs.Answers.{Gives, IsFaultOf, texts};
ghost use Rattle.np_lines.specs.Declaring.{after_line};
ghost use Rattle.np_acl_read.specs.Answers.{GivesIf};
ghost use Rattle.np_acl_read.specs.Judging as judging;
ghost use Rattle.np_acl_read.specs.Judging.{line_says};

use crate::declared::{Declared, Section};
use crate::fault::{ConfigError, ConfigFault};
use crate::list_entries::entry_or_remark;
use crate::statement::{NumberedEntry, Statement};
use crate::words::{action, kind_of_number, way};
use np_acl::ListKind;
use np_entry_read::ConfigWhy;
use np_lines::{LineError, ended, first_word};
use np_text::{Name, Word, is_numeral, number, put_number, word_list};
use std::alloc::{AllocError, Global};

/// The number of an access list, and its kind.
fn list_number(word: &[u8]) -> Option<(u64, ListKind)>
    ensures { result ≡ judging.list_number word.now }
{
    let value = number(word, 2699)?;
    let kind = kind_of_number(value)?;
    Some((value, kind))
}

/// A number in its shortest form, as a name.
fn decimal_name(alloc: Global, value: u64) -> Result<Name, AllocError>
    ensures { IfOk result (λ name. name ≡ decimal value) }
{
    let mut text = Vec::new(alloc);
    put_number(&mut text, value)?;
    Name::of(alloc, text.as_slice())
}

/// `access-list N ..`, without its first word. Where N is no list's number it is another line.
#[tactic(auto, unfolding(crate::specs::Judging::list_line))]
fn list_line(
    alloc: Global,
    declared: &Declared,
    words: &[Word<'_>],
) -> Result<Statement, LineError<ConfigWhy>>
    ensures says { Gives result (judging.list_line declared.now (texts words.now)) }
    ensures fits { IfOk result (λ s. Fits declared.now s) }
{
    let [word, words @ ..] = words else {
        return Ok(Statement::Other);
    };
    let Some((value, kind)) = list_number(word.bytes) else {
        return Ok(Statement::Other);
    };
    let list = decimal_name(alloc, value)?;
    match entry_or_remark(alloc, declared, &list, kind, None, words)? {
        Some(entry) => Ok(Statement::ListEntry(entry)),
        None => Ok(Statement::Remark(list)),
    }
}

/// `ip access-list ..`, by the words after the list's kind.
#[tactic(auto, unfolding(crate::specs::Judging::open_list))]
fn open_list(
    alloc: Global,
    kind: ListKind,
    words: &[Word<'_>],
) -> Result<Statement, LineError<ConfigWhy>>
    ensures says { Gives result (judging.open_list kind (texts words.now)) }
    ensures free { IfOk result NeedsNoRoom }
{
    match words {
        [name] => Ok(Statement::Section {
            list: Name::of(alloc, name.bytes)?,
            kind,
        }),
        _ => Err(LineError::Faulty(ConfigWhy::BadEntry)),
    }
}

/// `ip access-list ..`, by its third word and the others.
#[tactic(auto, unfolding(crate::specs::Judging::access_list))]
fn access_list(alloc: Global, words: &[Word<'_>]) -> Result<Statement, LineError<ConfigWhy>>
    ensures says { Gives result (judging.access_list (texts words.now)) }
    ensures free { IfOk result NeedsNoRoom }
{
    let [word, words @ ..] = words else {
        return Ok(Statement::Other);
    };
    if word.bytes == b"extended".as_slice() {
        return open_list(alloc, ListKind::Extended, words);
    }
    if word.bytes == b"standard".as_slice() {
        return open_list(alloc, ListKind::Standard, words);
    }
    Ok(Statement::Other)
}

/// `ip access-group ..` in the section of an interface, by the words after these two.
#[tactic(auto, unfolding(crate::specs::Judging::group_at))]
fn group_at(
    alloc: Global,
    interface: &Name,
    words: &[Word<'_>],
) -> Result<Statement, LineError<ConfigWhy>>
    ensures says { Gives result (judging.group_at interface.now (texts words.now)) }
    ensures free { IfOk result NeedsNoRoom }
{
    let [list, word, more @ ..] = words else {
        return Err(LineError::Faulty(ConfigWhy::BadEntry));
    };
    let way = way(word.bytes)?;
    let group = Statement::Group {
        interface: interface.copy(alloc)?,
        way,
        list: Name::of(alloc, list.bytes)?,
    };
    ended(more, group, ConfigWhy::Unsupported)
}

/// `ip access-group ..`, by the words after these two.
fn group_line(
    alloc: Global,
    section: &Section,
    words: &[Word<'_>],
) -> Result<Statement, LineError<ConfigWhy>>
    ensures says { Gives result (judging.group_line section.now (texts words.now)) }
    ensures free { IfOk result NeedsNoRoom }
{
    match section {
        Section::Interface(name) => group_at(alloc, name, words),
        Section::Closed => Err(LineError::Faulty(ConfigWhy::BadEntry)),
        Section::List { .. } => Err(LineError::Faulty(ConfigWhy::BadEntry)),
    }
}

/// A line whose first word is `ip`, by the others.
#[tactic(auto, using(crate::proofs::RoomLaws::fits_anywhere), unfolding(crate::specs::Judging::ip_line))]
fn ip_line(
    alloc: Global,
    declared: &Declared,
    words: &[Word<'_>],
) -> Result<Statement, LineError<ConfigWhy>>
    ensures says { Gives result (judging.ip_line declared.now (texts words.now)) }
    ensures fits { IfOk result (λ s. Fits declared.now s) }
{
    let [word, words @ ..] = words else {
        return Ok(Statement::Other);
    };
    if word.bytes == b"access-list".as_slice() {
        return access_list(alloc, words);
    }
    if word.bytes == b"access-group".as_slice() {
        return group_line(alloc, &declared.section, words);
    }
    Ok(Statement::Other)
}

/// Whether words begin with the kind of a named list.
fn is_kind(words: &[Word<'_>]) -> bool
    ensures { result ≡ judging.is_kind (texts words.now) }
{
    match words {
        [kind, ..] => {
            kind.bytes == b"extended".as_slice() || kind.bytes == b"standard".as_slice()
        }
        [] => false,
    }
}

/// Whether words after `no ip` take away a list or a group.
fn is_ip_negated(words: &[Word<'_>]) -> bool
    ensures { result ≡ judging.is_ip_negated (texts words.now) }
{
    match words {
        [word, words @ ..] => {
            word.bytes == b"access-group".as_slice()
                || (word.bytes == b"access-list".as_slice() && is_kind(words))
        }
        [] => false,
    }
}

/// Whether words after `no access-list` take away a list.
fn is_list_negated(words: &[Word<'_>]) -> bool
    ensures { result ≡ judging.is_list_negated (texts words.now) }
{
    match words {
        [word, ..] => list_number(word.bytes).is_some(),
        [] => false,
    }
}

fn in_list(section: &Section) -> bool
    ensures { result ≡ judging.in_list section.now }
{
    match section {
        Section::List { .. } => true,
        Section::Closed => false,
        Section::Interface(_) => false,
    }
}

/// Whether a word after `no` takes away a line of the list whose section is open.
fn is_line_negated(section: &Section, word: &[u8]) -> bool
    ensures { result ≡ judging.is_line_negated section.now word.now }
{
    in_list(section) && (is_numeral(word) || action(word).is_some() || word == b"remark".as_slice())
}

/// Whether a word after `no` and those after it take away a list or a group.
fn takes_away(word: &[u8], words: &[Word<'_>]) -> bool
    ensures { result ≡ judging.takes_away word.now (texts words.now) }
{
    (word == b"access-list".as_slice() && is_list_negated(words))
        || (word == b"ip".as_slice() && is_ip_negated(words))
}

/// Whether words after `no` take away what a list or a group says.
fn is_negated(section: &Section, words: &[Word<'_>]) -> bool
    ensures { result ≡ judging.is_negated section.now (texts words.now) }
{
    match words {
        [word, words @ ..] => {
            takes_away(word.bytes, words) || is_line_negated(section, word.bytes)
        }
        [] => false,
    }
}

/// A line whose first word is `no`, by the others.
fn no_line(declared: &Declared, words: &[Word<'_>]) -> Result<Statement, LineError<ConfigWhy>>
    ensures says { Gives result (judging.no_line declared.now (texts words.now)) }
    ensures fits { IfOk result (λ s. Fits declared.now s) }
{
    if is_negated(&declared.section, words) {
        Err(LineError::Faulty(ConfigWhy::Negated))
    } else {
        Ok(Statement::Other)
    }
}

/// Whether a word begins a line of the list whose section is open.
fn begins_list_line(word: &[u8]) -> bool
    ensures { result ≡ judging.begins_list_line word.now }
{
    is_numeral(word)
        || action(word).is_some()
        || word == b"remark".as_slice()
        || word == b"dynamic".as_slice()
        || word == b"evaluate".as_slice()
}

/// The entry of a line of a list: with a number before it or without one. `None` for a remark.
#[tactic(auto, unfolding(crate::specs::Judging::section_entry))]
fn section_entry(
    alloc: Global,
    declared: &Declared,
    list: &Name,
    kind: ListKind,
    words: &[Word<'_>],
) -> Result<Option<NumberedEntry>, LineError<ConfigWhy>>
    ensures says { Gives result (judging.section_entry declared.now list.now kind (texts words.now)) }
    ensures room { IfOk result (λ entry. IfSome entry (λ _. declared.now.entries < entry_limit)) }
{
    match words {
        [number, words @ ..] if is_numeral(number.bytes) => {
            entry_or_remark(alloc, declared, list, kind, Some(number.bytes), words)
        }
        _ => entry_or_remark(alloc, declared, list, kind, None, words),
    }
}

/// The statement of an entry in the section of its list.
fn section_statement(entry: Option<NumberedEntry>) -> Option<Statement>
    ensures { result ≡ judging.section_statement entry }
{
    match entry {
        Some(entry) => Some(Statement::SectionEntry(entry)),
        None => None,
    }
}

/// A line that begins with no keyword of its own, by its first word and all of its words.
fn other_line(
    alloc: Global,
    declared: &Declared,
    word: &[u8],
    words: &[Word<'_>],
) -> Result<Option<Statement>, LineError<ConfigWhy>>
    ensures says { Gives result (judging.other_line declared.now declared.now.section word.now (texts words.now)) }
    ensures fits { IfOk result (λ said. IfSome said (λ s. Fits declared.now s)) }
{
    match &declared.section {
        Section::List { name, kind } if begins_list_line(word) => {
            let entry = section_entry(alloc, declared, name, *kind, words)?;
            Ok(section_statement(entry))
        }
        _ => Ok(Some(Statement::Other)),
    }
}

/// `interface NAME ..`, by the words after its first.
fn interface_line(alloc: Global, words: &[Word<'_>]) -> Result<Statement, LineError<ConfigWhy>>
    ensures says { Gives result (judging.interface_line (texts words.now)) }
    ensures free { IfOk result NeedsNoRoom }
{
    match words {
        [name, ..] => Ok(Statement::Interface(Name::of(alloc, name.bytes)?)),
        [] => Err(LineError::Faulty(ConfigWhy::BadEntry)),
    }
}

/// What a line says whose first word is a keyword, by that word and the others.
#[tactic(auto, using(crate::proofs::RoomLaws::fits_anywhere))]
fn keyword_line(
    alloc: Global,
    declared: &Declared,
    word: &[u8],
    words: &[Word<'_>],
) -> Option<Result<Statement, LineError<ConfigWhy>>>
    ensures says { GivesIf result (judging.keyword_says declared.now word.now (texts words.now)) }
    ensures fits { IfSome result (λ r. IfOk r (λ s. Fits declared.now s)) }
{
    if word == b"interface".as_slice() {
        return Some(interface_line(alloc, words));
    }
    if word == b"access-list".as_slice() {
        return Some(list_line(alloc, declared, words));
    }
    if word == b"ip".as_slice() {
        return Some(ip_line(alloc, declared, words));
    }
    if word == b"no".as_slice() {
        return Some(no_line(declared, words));
    }
    None
}

/// Whether a word begins a line of its own kind.
fn is_keyword(word: &[u8]) -> bool
    ensures { result ≡ judging.is_keyword word.now }
{
    word == b"interface".as_slice()
        || word == b"access-list".as_slice()
        || word == b"ip".as_slice()
        || word == b"no".as_slice()
}

/// Whether a word begins another line in this section.
fn begins_other(section: &Section, word: &[u8]) -> bool
    ensures { result ≡ judging.begins_other section.now word.now }
{
    !is_keyword(word) && !(in_list(section) && begins_list_line(word))
}

/// What a line declares that begins no other line, by its first word, the others and all of them.
#[tactic(auto, using(crate::proofs::SayingLaws::keyword_said, crate::proofs::SayingLaws::keyword_faulty))]
fn said_with(
    alloc: Global,
    declared: &Declared,
    word: &[u8],
    rest: &[Word<'_>],
    words: &[Word<'_>],
) -> Result<Option<Statement>, LineError<ConfigWhy>>
    requires { texts words.now ≡ word.now ∷ texts rest.now }
    ensures says { Gives result (judging.said_or_other declared.now (judging.keyword_says declared.now word.now (texts rest.now)) word.now (word.now ∷ texts rest.now)) }
    ensures fits { IfOk result (λ said. IfSome said (λ s. Fits declared.now s)) }
{
    match keyword_line(alloc, declared, word, rest) {
        Some(Ok(statement)) => Ok(Some(statement)),
        Some(Err(error)) => Err(error),
        None => other_line(alloc, declared, word, words),
    }
}

/// The same by all of its words.
fn said(
    alloc: Global,
    declared: &Declared,
    words: &[Word<'_>],
) -> Result<Option<Statement>, LineError<ConfigWhy>>
    ensures says { Gives result (judging.said_by declared.now (texts words.now)) }
    ensures fits { IfOk result (λ said. IfSome said (λ s. Fits declared.now s)) }
{
    match words {
        [word, rest @ ..] => said_with(alloc, declared, word.bytes, rest, words),
        [] => Ok(None),
    }
}

/// What a line declares after the lines that declare this: nothing where it is skipped or is a
/// remark in the section of its list. Its words are gathered only where its first word doesn't begin
/// another line.
///
/// `Faulty` is the line's first fault in the order of its words, as in [`read_config`]; `Memory` may
/// come at any time.
///
/// [`read_config`]: crate::read_config
#[tactic(auto, using(crate::proofs::SayingLaws::says_nothing, crate::proofs::SayingLaws::says_other, crate::proofs::SayingLaws::says_by_words))]
pub fn line_statement(
    alloc: Global,
    declared: &Declared,
    line: &[u8],
) -> Result<Option<Statement>, LineError<ConfigWhy>>
    ensures says { Gives result (line_says declared.now line.now) }
    ensures fits { IfOk result (λ said. IfSome said (λ s. Fits declared.now s)) }
{
    let Some(word) = first_word(line, b'!') else {
        return Ok(None);
    };
    if begins_other(&declared.section, word) {
        return Ok(Some(Statement::Other));
    }
    let words = word_list(alloc, line)?;
    said(alloc, declared, words.as_slice())
}

/// Reads the line of this number: adds what it declares.
pub fn read_line(
    alloc: Global,
    declared: &mut Declared,
    number: u64,
    line: &[u8],
) -> Result<(), ConfigError>
    ensures after { OnOk result (after_line line_says added declared.old number line.now ≡ Ok declared.new) }
    ensures fault { IfErr result (λ error. IsFaultOf (after_line line_says added declared.old number line.now) error) }
{
    match line_statement(alloc, declared, line) {
        Ok(Some(statement)) => declared.add(alloc, statement)?,
        Ok(None) => {}
        Err(LineError::Faulty(why)) => {
            return Err(ConfigError::Fault(ConfigFault { line: number, why }));
        }
        Err(LineError::Memory(error)) => return Err(ConfigError::Memory(error)),
    }
    Ok(())
}
