ghost use Rattle.std.specs.Prelude.{◌≡◌, ◌∷◌, true, false, drop, map, IfOk, IfNone, IfSome, OnSome};
ghost use Rattle.std.specs.List.{list_all};
ghost use Rattle.np_text.specs.Views.{word_view};
ghost use Rattle.np_text.specs.Words.{placed_words, words_of};
ghost use Rattle.np_lines.specs.Answers.{texts};
ghost use Rattle.np_lines.specs.Skipping as rule;

use np_text::{Word, word_list, words};
use std::alloc::{AllocError, Global};

fn is_text_byte(byte: u8) -> bool
    ensures { result ≡ rule.is_text_byte byte }
{
    (32 <= byte && byte <= 126) || byte == b'\t' || byte == b'\r'
}

/// Whether each byte of a line is one of a plain text: a printable character of ASCII (0x20 to
/// 0x7E), a tab or a carriage return.
pub fn is_text(line: &[u8]) -> bool
    ensures { result ≡ list_all rule.is_text_byte line.now }
{
    line.iter().all(|byte| is_text_byte(*byte))
}

fn begins_with(mark: u8, word: &[u8]) -> bool
    ensures { result ≡ rule.begins_with mark word.now }
{
    match word {
        [first, ..] => *first == mark,
        [] => false,
    }
}

/// The first word of a line that isn't skipped. `None` where it is: where it has no words, or its
/// first word begins with `mark`, the byte of a comment. It takes no memory.
pub fn first_word(line: &[u8], mark: u8) -> Option<&[u8]>
    ensures skipped { IfNone result (rule.is_skipped mark (words_of line.now) ≡ true) }
    ensures unmarked { IfSome result (λ word. rule.begins_with mark word.now ≡ false) }
    ensures first { IfSome result (λ word. words_of line.now ≡ word.now ∷ drop 1 (words_of line.now)) }
{
    let first = words(line).next()?;
    if begins_with(mark, first.bytes) {
        return None;
    }
    Some(first.bytes)
}

/// The words of a line that isn't skipped. `None` where it is: where it has no words, or its first
/// word begins with `mark`, the byte of a comment; such a line takes no memory. An error comes only
/// where memory runs out.
pub fn statement_words(
    alloc: Global,
    line: &[u8],
    mark: u8,
) -> Result<Option<Vec<Word<'_>>>, AllocError>
    ensures skipped { IfOk result (λ found. IfNone found (rule.is_skipped mark (words_of line.now) ≡ true)) }
    ensures judged { IfOk result (λ found. OnSome found (rule.is_skipped mark (words_of line.now) ≡ false)) }
    ensures words { IfOk result (λ found. IfSome found (λ list. texts list.items ≡ words_of line.now)) }
    ensures placed { IfOk result (λ found. IfSome found (λ list. map word_view list.items ≡ placed_words 0 line.now)) }
{
    match first_word(line, mark) {
        Some(_) => Ok(Some(word_list(alloc, line)?)),
        None => Ok(None),
    }
}
