ghost use Rattle.std.specs.Prelude.{◌≡◌, ◌<◌, ◌∷◌, IfOk, IfErr, OnOk, Ok};
ghost use Rattle.np_lines.specs.Answers.{Gives, StopsAs, texts};
ghost use Rattle.np_lines.specs.Judging as judging;

use crate::line_error::LineError;
use np_text::Word;

/// The first word, and the words after it. Where there is none, this cause is the fault; memory
/// never runs out.
pub fn next_word<'a, W: Copy>(
    words: &'a [Word<'a>],
    missing: W,
) -> Result<(&'a [u8], &'a [Word<'a>]), LineError<W>>
    ensures ok { IfOk result (λ next. judging.word_in missing (texts words.now) ≡ Ok (next.0.now, texts next.1.now)) }
    ensures split { IfOk result (λ next. texts words.now ≡ next.0.now ∷ texts next.1.now) }
    ensures err { IfErr result (λ e. StopsAs e (judging.word_in missing (texts words.now))) }
{
    let [first, rest @ ..] = words else {
        return Err(LineError::Faulty(missing));
    };
    Ok((first.bytes, rest))
}

/// This value, where no word is left. Where there is one, this cause is the fault; memory never
/// runs out.
pub fn ended<W: Copy, T: Drop>(words: &[Word<'_>], value: T, more: W) -> Result<T, LineError<W>>
    ensures says { Gives result (judging.ended more (texts words.now) value) }
    ensures same { IfOk result (λ r. r ≡ value) }
{
    if words.is_empty() {
        Ok(value)
    } else {
        Err(LineError::Faulty(more))
    }
}

/// This item, where there are `count` and may be `limit`. Where there is no room for it, this cause
/// is the fault; memory never runs out.
pub fn within<W: Copy, T: Drop>(
    limit: usize,
    count: usize,
    item: T,
    many: W,
) -> Result<T, LineError<W>>
    ensures says { Gives result (judging.within many limit count item) }
    ensures same { IfOk result (λ r. r ≡ item) }
    ensures room { OnOk result (count < limit) }
{
    if count < limit {
        Ok(item)
    } else {
        Err(LineError::Faulty(many))
    }
}
