//! The entries of lists, with their sequence numbers.

ghost use Rattle.std.specs.Prelude.{◌≡◌, ◌<◌, IfOk, IfSome, OnOk, nat_eq, max, fold};
ghost use Rattle.std.specs.List.{list_any};
ghost use Rattle.std.specs.Option.{option_copied};
ghost use Rattle.np_acl_read.specs.Adding.{entry_limit};
ghost use Rattle.np_lines.specs.Answers.{Gives, texts};
ghost use Rattle.np_acl_read.specs.Judging as judging;

use crate::declared::Declared;
use crate::limits::ENTRY_LIMIT;
use crate::numbered::NumberedLists;
use crate::statement::NumberedEntry;
use crate::words::action;
use np_acl::ListKind;
use np_entry_read::{ConfigWhy, entry};
use np_lines::{LineError, within};
use np_text::{Name, Word, number};
use std::alloc::Global;

/// The greatest sequence number.
const NUMBER_LIMIT: u32 = 2_147_483_647;

/// Whether an entry of a list has this number.
fn is_used(lists: &NumberedLists, list: &Name, number: u32) -> bool
    ensures { result ≡ list_any (nat_eq number) (judging.numbers_in lists.now list.now) }
{
    match lists.entries(list) {
        Some(entries) => entries.has(number),
        None => false,
    }
}

/// The greatest number of a list's entries; 0 where there is none.
fn greatest(lists: &NumberedLists, list: &Name) -> u32
    ensures { result ≡ fold max 0 (judging.numbers_in lists.now list.now) }
{
    match lists.entries(list) {
        Some(entries) => entries.greatest(),
        None => 0,
    }
}

/// The number of a word that an entry of a list may have.
fn sequence_number(
    lists: &NumberedLists,
    list: &Name,
    word: &[u8],
) -> Result<u32, LineError<ConfigWhy>>
    ensures { Gives result (judging.sequence_number (judging.numbers_in lists.now list.now) word.now) }
{
    match number(word, u64::from(NUMBER_LIMIT)) {
        Some(value) if value > 0 => {
            let value = value as u32;
            if is_used(lists, list, value) {
                Err(LineError::Faulty(ConfigWhy::DuplicateSequence))
            } else {
                Ok(value)
            }
        }
        _ => Err(LineError::Faulty(ConfigWhy::BadNumber)),
    }
}

/// The number of an entry without one: 10 more than the greatest of its list.
fn next_number(lists: &NumberedLists, list: &Name) -> Result<u32, LineError<ConfigWhy>>
    ensures { Gives result (judging.next_number (judging.numbers_in lists.now list.now)) }
{
    let greatest = greatest(lists, list);
    if greatest <= NUMBER_LIMIT - 10 {
        Ok(greatest + 10)
    } else {
        Err(LineError::Faulty(ConfigWhy::BadNumber))
    }
}

/// An entry of a list without a number, by the words after `permit` or `deny`.
fn unnumbered(
    alloc: Global,
    declared: &Declared,
    list: &Name,
    kind: ListKind,
    permit: bool,
    words: &[Word<'_>],
) -> Result<NumberedEntry, LineError<ConfigWhy>>
    ensures says { Gives result (judging.unnumbered declared.now list.now kind permit (texts words.now)) }
    ensures room { OnOk result (declared.now.entries < entry_limit) }
{
    let entry = entry(alloc, kind, permit, words)?;
    let number = next_number(&declared.lists, list)?;
    let list = list.copy(alloc)?;
    let entry = NumberedEntry {
        list,
        number,
        entry,
    };
    within(
        ENTRY_LIMIT,
        declared.entries,
        entry,
        ConfigWhy::TooManyEntries,
    )
}

/// The same with the number of a word, which is judged before the entry's words.
fn numbered(
    alloc: Global,
    declared: &Declared,
    list: &Name,
    kind: ListKind,
    word: &[u8],
    permit: bool,
    words: &[Word<'_>],
) -> Result<NumberedEntry, LineError<ConfigWhy>>
    ensures says { Gives result (judging.numbered declared.now list.now kind word.now permit (texts words.now)) }
    ensures room { OnOk result (declared.now.entries < entry_limit) }
{
    let number = sequence_number(&declared.lists, list, word)?;
    let entry = entry(alloc, kind, permit, words)?;
    let list = list.copy(alloc)?;
    let entry = NumberedEntry {
        list,
        number,
        entry,
    };
    within(
        ENTRY_LIMIT,
        declared.entries,
        entry,
        ConfigWhy::TooManyEntries,
    )
}

/// An entry of a list, with the number of a word or without one.
fn list_entry(
    alloc: Global,
    declared: &Declared,
    list: &Name,
    kind: ListKind,
    number: Option<&[u8]>,
    permit: bool,
    words: &[Word<'_>],
) -> Result<NumberedEntry, LineError<ConfigWhy>>
    ensures says { Gives result (judging.list_entry declared.now list.now kind (option_copied number.entry) permit (texts words.now)) }
    ensures room { OnOk result (declared.now.entries < entry_limit) }
{
    match number {
        Some(word) => numbered(alloc, declared, list, kind, word, permit, words),
        None => unnumbered(alloc, declared, list, kind, permit, words),
    }
}

/// The fault of a word where `permit` or `deny` has to stand.
fn no_action(word: &[u8]) -> ConfigWhy
    ensures { result ≡ judging.no_action word.now }
{
    if word == b"dynamic".as_slice() || word == b"evaluate".as_slice() {
        ConfigWhy::Unsupported
    } else {
        ConfigWhy::BadEntry
    }
}

/// An entry of a list, or nothing for `remark`.
#[tactic(auto, unfolding(crate::specs::Judging::entry_or_remark))]
pub fn entry_or_remark(
    alloc: Global,
    declared: &Declared,
    list: &Name,
    kind: ListKind,
    number: Option<&[u8]>,
    words: &[Word<'_>],
) -> Result<Option<NumberedEntry>, LineError<ConfigWhy>>
    ensures says { Gives result (judging.entry_or_remark declared.now list.now kind (option_copied number.entry) (texts words.now)) }
    ensures room { IfOk result (λ entry. IfSome entry (λ _. declared.now.entries < entry_limit)) }
{
    let [word, words @ ..] = words else {
        return Err(LineError::Faulty(ConfigWhy::BadEntry));
    };
    if word.bytes == b"remark".as_slice() {
        return Ok(None);
    }
    match action(word.bytes) {
        Some(permit) => {
            let entry = list_entry(alloc, declared, list, kind, number, permit, words)?;
            Ok(Some(entry))
        }
        None => Err(LineError::Faulty(no_action(word.bytes))),
    }
}
