//! What a line of a network's text declares.

ghost use Rattle.std.specs.Prelude.{◌≡◌, false, IfOk, IfErr, IfSome, OnOk, Ok};
ghost use Rattle.np_lines.specs.Answers.{Gives, IsFaultOf, texts};
ghost use Rattle.np_lines.specs.Declaring.{after_line};
ghost use Rattle.np_lines.specs.Skipping.{is_skipped};
ghost use Rattle.np_net_read.specs.Drafting.{IsDraft};
ghost use Rattle.np_net_read.specs.Fitting.{Fits, added};
ghost use Rattle.np_net_read.specs.Judging as judging;
ghost use Rattle.np_net_read.specs.Words.{ArePlainWords};

use crate::draft::Draft;
use crate::fault::{NetError, NetFault, NetWhy};
use crate::statement::Statement;
use crate::{ipsec_statements, statements};
use np_lines::{LineError, is_text, statement_words};
use np_text::Word;
use std::alloc::Global;

/// A statement of the IPsec part, by its first word and the others.
fn ipsec_statement(
    alloc: Global,
    draft: &Draft,
    word: &[u8],
    words: &[Word<'_>],
) -> Result<Statement, LineError<NetWhy>>
    requires { IsDraft draft.now }
    ensures says { Gives result (judging.ipsec_says draft.now.declared word.now (texts words.now)) }
    ensures fits { IfOk result (λ s. Fits draft.now.declared s) }
{
    if word == b"sa".as_slice() {
        return ipsec_statements::sa(alloc, draft, words);
    }
    if word == b"pop".as_slice() {
        return ipsec_statements::pop(alloc, draft, words);
    }
    if word == b"inrule".as_slice() {
        return ipsec_statements::in_rule(alloc, draft, words);
    }
    if word == b"outrule".as_slice() {
        return ipsec_statements::out_rule(alloc, draft, words);
    }
    if word == b"auth".as_slice() {
        return ipsec_statements::auth(alloc, draft, words);
    }
    if word == b"conf".as_slice() {
        return ipsec_statements::conf(alloc, draft, words);
    }
    Err(LineError::Faulty(NetWhy::UnknownStatement))
}

/// A statement, by its first word and the others.
fn statement(
    alloc: Global,
    draft: &Draft,
    word: &[u8],
    words: &[Word<'_>],
) -> Result<Statement, LineError<NetWhy>>
    requires draft { IsDraft draft.now }
    requires words { ArePlainWords (texts words.now) }
    ensures says { Gives result (judging.statement_says draft.now.declared word.now (texts words.now)) }
    ensures fits { IfOk result (λ s. Fits draft.now.declared s) }
{
    if word == b"depth".as_slice() {
        return statements::depth(draft, words);
    }
    if word == b"area".as_slice() {
        return statements::area(alloc, draft, words);
    }
    if word == b"device".as_slice() {
        return statements::device(alloc, draft, words);
    }
    if word == b"interface".as_slice() {
        return statements::interface(alloc, draft, words);
    }
    if word == b"free".as_slice() {
        return statements::free(alloc, draft, words);
    }
    if word == b"goal".as_slice() {
        return statements::goal(alloc, draft, words);
    }
    ipsec_statement(alloc, draft, word, words)
}

/// The statement of the words of a line that isn't skipped.
fn said(
    alloc: Global,
    draft: &Draft,
    words: &[Word<'_>],
) -> Result<Option<Statement>, LineError<NetWhy>>
    requires draft { IsDraft draft.now }
    requires words { ArePlainWords (texts words.now) }
    requires judged { is_skipped 35 (texts words.now) ≡ false }
    ensures says { Gives result (judging.words_say draft.now.declared (texts words.now)) }
    ensures fits { IfOk result (λ said. IfSome said (λ s. Fits draft.now.declared s)) }
{
    let [word, words @ ..] = words else {
        return Ok(None);
    };
    Ok(Some(statement(alloc, draft, word.bytes, words)?))
}

/// The statement of a line. A line without words and a comment have none.
#[tactic(auto, using(crate::proofs::WordLaws::words_of_text), unfolding(crate::specs::Judging::line_says))]
fn line_says(
    alloc: Global,
    draft: &Draft,
    line: &[u8],
) -> Result<Option<Statement>, LineError<NetWhy>>
    requires { IsDraft draft.now }
    ensures says { Gives result (judging.line_says draft.now.declared line.now) }
    ensures fits { IfOk result (λ said. IfSome said (λ s. Fits draft.now.declared s)) }
{
    if !is_text(line) {
        return Err(LineError::Faulty(NetWhy::NotText));
    }
    match statement_words(alloc, line, b'#')? {
        Some(words) => said(alloc, draft, words.as_slice()),
        None => Ok(None),
    }
}

/// Reads the line of this number: adds what it declares.
pub fn read_line(alloc: Global, draft: &mut Draft, number: u64, line: &[u8]) -> Result<(), NetError>
    requires { IsDraft draft.old }
    ensures after { OnOk result (after_line judging.line_says added draft.old.declared number line.now ≡ Ok draft.new.declared) }
    ensures draft { OnOk result (IsDraft draft.new) }
    ensures fault { IfErr result (λ error. IsFaultOf (after_line judging.line_says added draft.old.declared number line.now) error) }
{
    match line_says(alloc, draft, line) {
        Ok(Some(statement)) => draft.add(alloc, statement)?,
        Ok(None) => {}
        Err(LineError::Faulty(why)) => {
            return Err(NetError::Fault(NetFault { line: number, why }));
        }
        Err(LineError::Memory(error)) => return Err(NetError::Memory(error)),
    }
    Ok(())
}
