//! The words of a predicate that are left to read.

ghost use Rattle.std.specs.Prelude.{◌+◌, ◌<◌, ◌^◌, length};

use crate::pred_error::{PredError, PredFault};
use np_text::Word;

/// The words that are left, and the position of the first of them.
#[derive(Drop)]
pub struct Left<'a> {
    pub at: usize,
    pub words: &'a [Word<'a>],
    ghost room: { at + length words.now < 2 ^ 64 },
}

impl<'a> Left<'a> {
    ghost use Rattle.std.specs.Prelude.{◌≡◌, Ok, IfOk, IfErr};
    ghost use Rattle.np_lines.specs.Answers.{texts};
    ghost use Rattle.np_pred.specs.Reading.{rest_of, rest_from, word_at, FailsAs};

    /// All words, before any is read.
    pub fn all(words: &'a [Word<'a>]) -> Left<'a>
        ensures { rest_of result ≡ rest_from 0 (texts words.now) }
    {
        Left { at: 0, words }
    }

    /// Takes the first word.
    pub fn next_word(&mut self) -> Result<&'a [u8], PredError>
        ensures word { IfOk result (λ word. word_at (rest_of self.old) ≡ Ok (word.now, rest_of self.new)) }
        ensures fault { IfErr result (λ e. FailsAs e (word_at (rest_of self.old))) }
    {
        let [first, rest @ ..] = self.words else {
            return Err(PredError::Fault(PredFault::Unfinished));
        };
        let at = self.at + 1;
        *self = Left { at, words: rest };
        Ok(first.bytes)
    }
}
