//! What a line looks like: its indentation and its first words.

ghost use Rattle.std.specs.Prelude.{◌≡◌, ◌==◌, ◌&&◌, [], codes, not, drop, map};
ghost use Rattle.std.specs.List.{find, list_any};
ghost use Rattle.std.specs.Option.{option_copied};
ghost use Rattle.np_text.specs.Words.{words_of};
ghost use Rattle.np_notes.specs.Shape as shape;
ghost use Rattle.np_notes.specs.Shape.{word_at};

use np_text::{WordIter, is_numeral, words};

fn is_space_or_tab(byte: u8) -> bool
    ensures { result ≡ shape.is_space_or_tab byte }
{
    byte == b' ' || byte == b'\t'
}

/// The first byte of a line that isn't 0x0D.
fn first_byte(line: &[u8]) -> Option<&u8>
    ensures { option_copied result ≡ find (λ b. not (b == 13)) line.now }
{
    line.iter().find(|byte| **byte != b'\r')
}

/// Whether the first byte of a line, those of 0x0D at its front apart, is a space or a tab.
pub fn is_indented(line: &[u8]) -> bool
    ensures { result ≡ shape.is_indented line.now }
{
    match first_byte(line) {
        Some(first) => is_space_or_tab(*first),
        None => false,
    }
}

/// The first three words of a line. One that isn't there has no bytes.
#[derive(Clone, Copy, Debug)]
pub struct FirstWords<'a> {
    pub first: &'a [u8],
    pub second: &'a [u8],
    pub third: &'a [u8],
}

/// The next word of a line; no bytes where none is left.
fn next_word<'a>(words: &mut WordIter<'a>) -> &'a [u8]
    ensures word { result.now ≡ word_at (map (λ word. word.1) words.old) 0 }
    ensures rest { map (λ word. word.1) words.new ≡ drop 1 (map (λ word. word.1) words.old) }
{
    match words.next() {
        Some(word) => word.bytes,
        None => &[],
    }
}

/// The first three words of a line. It takes no memory.
#[tactic(auto, using(crate::proofs::WordLaws::first_word_is))]
pub fn first_words(line: &[u8]) -> FirstWords<'_>
    ensures first { result.first.now ≡ word_at (words_of line.now) 0 }
    ensures second { result.second.now ≡ word_at (words_of line.now) 1 }
    ensures third { result.third.now ≡ word_at (words_of line.now) 2 }
{
    let mut words = words(line);
    let first = next_word(&mut words);
    let second = next_word(&mut words);
    let third = next_word(&mut words);
    FirstWords {
        first,
        second,
        third,
    }
}

fn is_action(word: &[u8]) -> bool
    ensures { result ≡ shape.is_action word.now }
{
    word == b"permit".as_slice() || word == b"deny".as_slice()
}

fn begins_entry(word: &[u8]) -> bool
    ensures { result ≡ shape.begins_entry word.now }
{
    is_action(word) || word == b"dynamic".as_slice() || word == b"evaluate".as_slice()
}

/// Whether a line looks like an entry: its first word begins one, or its second word does and the
/// first is all digits.
pub fn looks_like_entry(words: &FirstWords<'_>) -> bool
    ensures { result ≡ shape.looks_like_entry words.now.first.now words.now.second.now }
{
    begins_entry(words.first) || (is_numeral(words.first) && begins_entry(words.second))
}

/// Whether some word of a line is `permit` or `deny`.
#[tactic(auto, using(crate::proofs::WordLaws::all_words_are))]
fn has_action(line: &[u8]) -> bool
    ensures { result ≡ list_any shape.is_action (words_of line.now) }
{
    for word in words(line) {
        if is_action(word.bytes) {
            return true;
        }
    }
    false
}

fn are_two(words: &FirstWords<'_>, first: &[u8], second: &[u8]) -> bool
    ensures { result ≡ shape.are_two words.now.first.now words.now.second.now first.now second.now }
{
    words.first == first && words.second == second
}

/// Whether a line is the one word `exit`: it is the first word, and the second has no bytes.
pub fn is_exit(words: &FirstWords<'_>) -> bool
    ensures { result ≡ shape.are_two words.now.first.now words.now.second.now (codes "exit") [] }
{
    are_two(words, b"exit", b"")
}

/// Whether a line's first words are those of a list of another kind than those that are read.
fn names_other_list(words: &FirstWords<'_>) -> bool
    ensures { result ≡ shape.names_other_list words.now.first.now words.now.second.now words.now.third.now }
{
    are_two(words, b"ipv6", b"access-list")
        || are_two(words, b"mac", b"access-list")
        || are_two(words, b"arp", b"access-list")
        || (are_two(words, b"ip", b"access-list")
            && (words.third == b"fqdn".as_slice() || words.third == b"role-based".as_slice()))
        || are_two(words, b"ip", b"community-list")
        || are_two(words, b"ip", b"extcommunity-list")
}

/// Whether the words of a line, of which these are the first, begin a list of another kind.
pub fn is_heading(line: &[u8], words: &FirstWords<'_>) -> bool
    requires first { words.now.first.now ≡ word_at (words_of line.now) 0 }
    requires second { words.now.second.now ≡ word_at (words_of line.now) 1 }
    requires third { words.now.third.now ≡ word_at (words_of line.now) 2 }
    ensures { result ≡ shape.are_heading (words_of line.now) }
{
    names_other_list(words) && !has_action(line)
}

/// Whether a line's first words are those of one that changes what lists or interfaces say.
pub fn changes_others(words: &FirstWords<'_>) -> bool
    ensures { result ≡ shape.changes_others words.now.first.now words.now.second.now words.now.third.now }
{
    (are_two(words, b"ip", b"access-list") && words.third == b"resequence".as_slice())
        || are_two(words, b"default", b"interface")
}

/// Whether a line's first words are those of one at an interface that changes or drops packets.
pub fn changes_packets(words: &FirstWords<'_>) -> bool
    ensures { result ≡ shape.changes_packets words.now.first.now words.now.second.now }
{
    are_two(words, b"ip", b"nat")
        || are_two(words, b"ip", b"inspect")
        || are_two(words, b"crypto", b"map")
}
