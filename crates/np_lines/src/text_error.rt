ghost use Rattle.std.specs.Prelude.{◌≡◌, alloc_error};
ghost use Rattle.np_lines.specs.declared.text_error.TextError.TheVariants.{Memory};

use crate::fault::LineFault;
use std::alloc::{AllocError, AllocFailed};
use thiserror::Error;

/// Why a text says nothing.
#[derive(Clone, Copy, Debug, Error)]
pub enum TextError<W> {
    /// A line is faulty, and this one is the first.
    #[error("a line of the text is faulty")]
    Fault(LineFault<W>),
    /// Memory ran out.
    #[error("out of memory")]
    Memory(AllocError),
}

impl<W> From<AllocError> for TextError<W> {
    ghost from_gives = { λ error e. e ≡ Memory error };

    fn from(error: AllocError) -> TextError<W> {
        TextError::Memory(error)
    }
}

impl<W, T: Drop> From<AllocFailed<T>> for TextError<W> {
    ghost from_gives = { λ _ e. e ≡ Memory alloc_error };

    fn from(_error: AllocFailed<T>) -> TextError<W> {
        TextError::Memory(AllocError)
    }
}
