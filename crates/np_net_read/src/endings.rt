//! The words at the end of a statement.

ghost use Rattle.std.specs.Prelude.{◌≡◌, ◌<◌, ◌∷◌, IfOk, IfSome, OnOk, Result, IsTrue, true};
ghost use Rattle.np_pred.specs.declared.predicate.Pred.{Pred};
ghost use Rattle.np_pred.specs.declared.pred_error.PredFault.{PredFault};
ghost use Rattle.np_pred.specs.Forms.{IsWellFormed};
ghost use Rattle.np_pred.specs.Reading.{FailsAs};
ghost use Rattle.np_net.specs.Names as form;
ghost use Rattle.np_lines.specs.Answers.{Gives, StopsAs, texts};
ghost use Rattle.np_net_read.specs.Drafting.{IsDraft};
ghost use Rattle.np_net_read.specs.Judging as judging;
ghost use Rattle.np_net_read.specs.Words.{ArePlainWords};

use crate::draft::Draft;
use crate::fault::NetWhy;
use np_lines::LineError;
use np_net::{PredWhy, pred_why};
use np_pred::{Pred, PredError, parse};
use np_text::{Name, Word};
use std::alloc::Global;

/// Whether `trusted` ends a statement, or nothing.
pub fn trusted(words: &[Word<'_>]) -> Result<bool, LineError<NetWhy>>
    ensures { Gives result (judging.trusted_of (texts words.now)) }
{
    match words {
        [] => Ok(false),
        [word] if word.bytes == b"trusted".as_slice() => Ok(true),
        _ => Err(LineError::Faulty(NetWhy::BadShape)),
    }
}

/// The file that holds a device's configuration, and whether the device is trusted.
fn configured(
    alloc: Global,
    keyword: &[u8],
    file: &[u8],
    words: &[Word<'_>],
) -> Result<(Option<Name>, bool), LineError<NetWhy>>
    requires { form.is_file_name file.now ≡ true }
    ensures says { Gives result (judging.options_of (keyword.now ∷ file.now ∷ texts words.now)) }
    ensures formed { IfOk result (λ options. IfSome options.0 (λ file. IsTrue (form.is_file_name file))) }
{
    if keyword != b"config".as_slice() {
        return Err(LineError::Faulty(NetWhy::BadShape));
    }
    let trusted = trusted(words)?;
    Ok((Some(Name::of(alloc, file)?), trusted))
}

/// What ends a device's statement: the file that holds its configuration, and whether it is trusted.
pub fn options(alloc: Global, words: &[Word<'_>]) -> Result<(Option<Name>, bool), LineError<NetWhy>>
    requires { ArePlainWords (texts words.now) }
    ensures says { Gives result (judging.options_of (texts words.now)) }
    ensures formed { IfOk result (λ options. IfSome options.0 (λ file. IsTrue (form.is_file_name file))) }
{
    match words {
        [] => Ok((None, false)),
        [word] if word.bytes == b"trusted".as_slice() => Ok((None, true)),
        [_] => Err(LineError::Faulty(NetWhy::BadShape)),
        [keyword, file, words @ ..] => configured(alloc, keyword.bytes, file.bytes, words),
    }
}

/// The cause of a line whose predicate has this one.
fn cause_of(why: PredWhy) -> NetWhy
    ensures { result ≡ judging.cause_of why }
{
    match why {
        PredWhy::BadPred => NetWhy::BadPred,
        PredWhy::TooDeep => NetWhy::TooDeep,
        PredWhy::UnknownName => NetWhy::UnknownName,
    }
}

/// The fault of words that are no predicate.
fn why_unread(error: PredError) -> LineError<NetWhy>
    ensures { (read : Result Pred PredFault) → FailsAs error read → StopsAs result (judging.pred_or_why read) }
{
    match error {
        PredError::Fault(fault) => LineError::Faulty(cause_of(pred_why(fault))),
        PredError::Memory(error) => LineError::Memory(error),
    }
}

/// The predicate that the words at a statement's end are.
pub fn predicate(
    alloc: Global,
    draft: &Draft,
    words: &[Word<'_>],
) -> Result<Pred, LineError<NetWhy>>
    requires { IsDraft draft.now }
    ensures says { Gives result (judging.pred_in draft.now.declared (texts words.now)) }
    ensures formed { IfOk result (IsWellFormed 64) }
{
    match parse(alloc, words, &draft.sources) {
        Ok(pred) => Ok(pred),
        Err(error) => Err(why_unread(error)),
    }
}
