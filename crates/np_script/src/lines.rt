//! What a line of a script's text says.

ghost use Rattle.std.specs.Prelude.{◌≡◌, false, IfErr, OnOk, Ok};
ghost use Rattle.np_lines.specs.Answers.{Gives, IsFaultOf, texts};
ghost use Rattle.np_lines.specs.Declaring.{after_line};
ghost use Rattle.np_lines.specs.Skipping.{is_skipped};
ghost use Rattle.np_script.specs.Judging as judging;
ghost use Rattle.np_script.specs.Saying.{added};

use crate::draft::Draft;
use crate::fault::{ScriptError, ScriptFault, ScriptWhy};
use crate::moves::{motion, start};
use crate::statement::Statement;
use np_lines::{LineError, is_text, statement_words};
use np_net::NetNames;
use np_text::Word;
use std::alloc::Global;

/// The first statement, by its first word and the others.
fn first_statement(
    alloc: Global,
    names: &NetNames,
    word: &[u8],
    words: &[Word<'_>],
) -> Result<Statement, LineError<ScriptWhy>>
    ensures { Gives result (judging.first_says names.now word.now (texts words.now)) }
{
    if word != b"start".as_slice() {
        return Err(LineError::Faulty(ScriptWhy::NoStart));
    }
    Ok(Statement::Begin(start(alloc, names, words)?))
}

/// A later statement, by its first word and the others.
fn later_statement(
    alloc: Global,
    names: &NetNames,
    word: &[u8],
    words: &[Word<'_>],
) -> Result<Statement, LineError<ScriptWhy>>
    ensures { Gives result (judging.later_says names.now word.now (texts words.now)) }
{
    Ok(Statement::Move(motion(alloc, names, word, words)?))
}

/// A statement, by its first word and the others.
fn statement(
    alloc: Global,
    names: &NetNames,
    draft: &Draft,
    word: &[u8],
    words: &[Word<'_>],
) -> Result<Statement, LineError<ScriptWhy>>
    ensures { Gives result (judging.statement_says names.now draft.now.start word.now (texts words.now)) }
{
    match draft.start {
        None => first_statement(alloc, names, word, words),
        Some(_) => later_statement(alloc, names, word, words),
    }
}

/// The statement of the words of a line that isn't skipped.
fn said(
    alloc: Global,
    names: &NetNames,
    draft: &Draft,
    words: &[Word<'_>],
) -> Result<Option<Statement>, LineError<ScriptWhy>>
    requires { is_skipped 35 (texts words.now) ≡ false }
    ensures { Gives result (judging.words_say names.now draft.now.start (texts words.now)) }
{
    let [word, words @ ..] = words else {
        return Ok(None);
    };
    Ok(Some(statement(alloc, names, draft, word.bytes, words)?))
}

/// The statement of a line. A line without words and a comment have none.
#[tactic(auto, unfolding(crate::specs::Judging::line_says))]
fn line_says(
    alloc: Global,
    names: &NetNames,
    draft: &Draft,
    line: &[u8],
) -> Result<Option<Statement>, LineError<ScriptWhy>>
    ensures { Gives result (judging.line_says names.now draft.now line.now) }
{
    if !is_text(line) {
        return Err(LineError::Faulty(ScriptWhy::NotText));
    }
    match statement_words(alloc, line, b'#')? {
        Some(words) => said(alloc, names, draft, words.as_slice()),
        None => Ok(None),
    }
}

/// Reads the line of this number: adds what it says.
pub fn read_line(
    alloc: Global,
    names: &NetNames,
    draft: &mut Draft,
    number: u64,
    line: &[u8],
) -> Result<(), ScriptError>
    ensures after { OnOk result (after_line (judging.line_says names.now) added draft.old number line.now ≡ Ok draft.new) }
    ensures fault { IfErr result (λ error. IsFaultOf (after_line (judging.line_says names.now) added draft.old number line.now) error) }
{
    match line_says(alloc, names, draft, line) {
        Ok(Some(statement)) => draft.add(statement)?,
        Ok(None) => {}
        Err(LineError::Faulty(why)) => {
            return Err(ScriptError::Fault(ScriptFault { line: number, why }));
        }
        Err(LineError::Memory(error)) => return Err(ScriptError::Memory(error)),
    }
    Ok(())
}
