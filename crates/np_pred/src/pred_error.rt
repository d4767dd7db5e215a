//! Why words are no predicate.

ghost use Rattle.std.specs.Prelude.{◌≡◌};
ghost use Rattle.np_pred.specs.declared.pred_error.PredError.TheVariants.{Memory};

use std::alloc::AllocError;

/// What is wrong with the first word at which no predicate can go on. Words count from 0.
#[derive(Clone, Copy, Debug, PartialEq, Eq)]
pub enum PredFault {
    /// This word begins no predicate, or isn't the argument that its place needs.
    BadWord(usize),
    /// A word is missing after the last one.
    Unfinished,
    /// This word stands after the whole predicate.
    Extra(usize),
    /// This word should begin a predicate at nesting 65.
    TooDeep(usize),
    /// This word stands for an area, and no area has this name.
    UnknownArea(usize),
}

/// Why no predicate could be read.
#[derive(Clone, Copy, Debug, PartialEq, Eq)]
pub enum PredError {
    /// The words are no predicate.
    Fault(PredFault),
    /// Memory ran out.
    Memory(AllocError),
}

impl From<AllocError> for PredError {
    ghost from_gives = { λ error e. e ≡ Memory error };

    fn from(error: AllocError) -> PredError {
        PredError::Memory(error)
    }
}
