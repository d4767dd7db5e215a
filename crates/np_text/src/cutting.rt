ghost use Rattle.std.specs.Prelude.{ℕ, ◌≡◌, ◌+◌, ◌<◌, ◌≤◌, ◌^◌, ◌∷◌, ◌==◌, length, map, IfOk, IfNone, IfSome, OnSome};
ghost use Rattle.np_text.specs.Lines.{lines_of, numbered_lines};
ghost use Rattle.np_text.specs.Views.{word_view};
ghost use Rattle.np_text.specs.Words.{is_blank, placed_words, words_of};
ghost use Rattle.std.specs.List.{position_or_len, before_first, after_first, prefix_len};

use std::alloc::{AllocError, Global};
use std::marker::Model;

/// A line of a text.
#[derive(Clone, Copy, Debug, PartialEq, Eq)]
pub struct Line<'a> {
    /// Its number; the first line has number 1.
    pub number: u64,
    /// Its bytes, without the line end.
    pub bytes: &'a [u8],
}

/// The lines of a text that are left, in order. [`lines`] makes one.
#[derive(Debug, Drop)]
pub struct LineIter<'a> {
    rest: &'a [u8],
    number: u64,
}

impl<'a> Model for LineIter<'a> {
    ghost use Rattle.std.specs.Prelude.{ℕ, List, ◌+◌, ◌^◌, ◌<◌, length};
    ghost use Rattle.std.specs.List.{enumerate_from};
    ghost use Rattle.np_text.specs.Lines.{lines_of};

    ghost Value = { List (ℕ × List ℕ) };

    ghost view = { λ it. enumerate_from it.number (lines_of it.rest.now) };

    ghost invariant = { λ it. it.number + length it.rest.now < 2 ^ 64 };
}

/// The lines of a text: what stands between its bytes 0x0A, in order, with numbers from 1. A last
/// piece that is empty is no line. It takes no memory.
#[tactic(auto, using(crate::proofs::LineLaws::numbered_lines_few))]
pub fn lines(bytes: &[u8]) -> LineIter<'_>
    ensures all { result ≡ numbered_lines bytes.now }
    ensures few { length result ≤ length bytes.now }
{
    LineIter {
        rest: bytes,
        number: 1,
    }
}

/// What stands before the first `byte`, and what stands after it. `None` where there is none.
pub fn split_once(bytes: &[u8], byte: u8) -> Option<(&[u8], &[u8])>
    ensures none { IfNone result (position_or_len (λ b. b == byte) bytes.now ≡ length bytes.now) }
    ensures found { OnSome result (position_or_len (λ b. b == byte) bytes.now < length bytes.now) }
    ensures before { IfSome result (λ parts. parts.0.now ≡ before_first (λ b. b == byte) bytes.now) }
    ensures after { IfSome result (λ parts. parts.1.now ≡ after_first (λ b. b == byte) bytes.now) }
    ensures shorter { IfSome result (λ parts. length parts.1.now < length bytes.now) }
{
    let at = bytes.iter().position(|b| *b == byte)?;
    Some((&bytes[..at], &bytes[at + 1..]))
}

/// The first line of a text, and what stands below it.
fn split_line(text: &[u8]) -> (&[u8], &[u8])
    requires { 0 < length text.now }
    ensures lines { lines_of text.now ≡ result.0.now ∷ lines_of result.1.now }
    ensures shorter { length result.1.now < length text.now }
{
    match split_once(text, b'\n') {
        Some(parts) => parts,
        None => (text, &[]),
    }
}

impl<'a> Iterator for LineIter<'a> {
    ghost use Rattle.std.specs.Iterator.{YieldsFirstBy, item_count};
    ghost use Rattle.np_text.specs.Views.{line_view};

    type Item = Line<'a>;

    ghost next_gives = { YieldsFirstBy line_view (λ left. left) };

    ghost remaining = { item_count (λ left. left) };

    fn next(&mut self) -> Option<Line<'a>> {
        if self.rest.is_empty() {
            return None;
        }
        let (bytes, rest) = split_line(self.rest);
        let number = self.number;
        self.number = number + 1;
        self.rest = rest;
        Some(Line { number, bytes })
    }
}

/// A word of a line.
#[derive(Clone, Copy, Debug, PartialEq, Eq)]
pub struct Word<'a> {
    /// The place in the line where it begins.
    pub at: usize,
    /// Its bytes, at least one.
    pub bytes: &'a [u8],
}

/// The words of a line that are left, in order. [`words`] makes one.
#[derive(Debug, Drop)]
pub struct WordIter<'a> {
    rest: &'a [u8],
    at: usize,
}

impl<'a> Model for WordIter<'a> {
    ghost use Rattle.std.specs.Prelude.{ℕ, List, ◌+◌, ◌^◌, ◌<◌, length};
    ghost use Rattle.np_text.specs.Words.{placed_words};

    ghost Value = { List (ℕ × List ℕ) };

    ghost view = { λ it. placed_words it.at it.rest.now };

    ghost invariant = { λ it. it.at + length it.rest.now < 2 ^ 64 };
}

/// The words of a line: its maximal runs of bytes other than space, tab and carriage return, in
/// order, each with the place where it begins. It takes no memory.
#[tactic(auto, using(crate::proofs::WordLaws::placed_words_few))]
pub fn words(line: &[u8]) -> WordIter<'_>
    ensures all { result ≡ placed_words 0 line.now }
    ensures few { length result ≤ length line.now }
{
    WordIter { rest: line, at: 0 }
}

fn is_blank(byte: u8) -> bool
    ensures { result ≡ is_blank byte }
{
    byte == b' ' || byte == b'\t' || byte == b'\r'
}

/// The place and the bytes after the blank bytes at the beginning.
fn skip_blanks(at: usize, bytes: &[u8]) -> (usize, &[u8])
    requires { at + length bytes.now < 2 ^ 64 }
    ensures words { placed_words at bytes.now ≡ placed_words result.0 result.1.now }
    ensures place { result.0 + length result.1.now ≡ at + length bytes.now }
    ensures stops { prefix_len is_blank result.1.now ≡ 0 }
{
    match bytes.iter().position(|b| !is_blank(*b)) {
        Some(blanks) => (at + blanks, &bytes[blanks..]),
        None => (at + bytes.len(), &[]),
    }
}

/// The word that these bytes begin with, and what follows it.
fn split_word(bytes: &[u8]) -> (&[u8], &[u8])
    requires some { 0 < length bytes.now }
    requires word { prefix_len is_blank bytes.now ≡ 0 }
    ensures first { (at : ℕ) → placed_words at bytes.now ≡ (at, result.0.now) ∷ placed_words (at + length result.0.now) result.1.now }
    ensures length { length result.0.now + length result.1.now ≡ length bytes.now }
{
    match bytes.iter().position(|b| is_blank(*b)) {
        Some(end) => (&bytes[..end], &bytes[end..]),
        None => (bytes, &[]),
    }
}

impl<'a> Iterator for WordIter<'a> {
    ghost use Rattle.std.specs.Iterator.{YieldsFirstBy, item_count};
    ghost use Rattle.np_text.specs.Views.{word_view};

    type Item = Word<'a>;

    ghost next_gives = { YieldsFirstBy word_view (λ left. left) };

    ghost remaining = { item_count (λ left. left) };

    fn next(&mut self) -> Option<Word<'a>> {
        let (at, bytes) = skip_blanks(self.at, self.rest);
        if bytes.is_empty() {
            return None;
        }
        let (word, rest) = split_word(bytes);
        self.at = at + word.len();
        self.rest = rest;
        Some(Word { at, bytes: word })
    }
}

/// The words of a line, in order. An error comes only where memory runs out.
pub fn word_list(alloc: Global, line: &[u8]) -> Result<Vec<Word<'_>>, AllocError>
    ensures placed { IfOk result (λ list. map word_view list.items ≡ placed_words 0 line.now) }
    ensures words { IfOk result (λ list. map (λ word. word.bytes.now) list.items ≡ words_of line.now) }
    ensures few { IfOk result (λ list. length list.items ≤ length line.now) }
{
    let mut list = Vec::new(alloc);
    for word in words(line) {
        list.push(word)?;
    }
    Ok(list)
}
