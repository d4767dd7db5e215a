ghost use Rattle.std.specs.Prelude.{◌≡◌, alloc_error};
ghost use Rattle.np_lines.specs.declared.line_error.LineError.TheVariants.{Memory};

use std::alloc::{AllocError, AllocFailed};

/// Why a line says nothing.
#[derive(Clone, Copy, Debug)]
pub enum LineError<W> {
    /// The line's first fault, with a cause of its reader's.
    Faulty(W),
    /// Memory ran out.
    Memory(AllocError),
}

impl<W> From<AllocError> for LineError<W> {
    ghost from_gives = { λ error e. e ≡ Memory error };

    fn from(error: AllocError) -> LineError<W> {
        LineError::Memory(error)
    }
}

impl<W, T: Drop> From<AllocFailed<T>> for LineError<W> {
    ghost from_gives = { λ _ e. e ≡ Memory alloc_error };

    fn from(_error: AllocFailed<T>) -> LineError<W> {
        LineError::Memory(AllocError)
    }
}
