//! What a predicate's fault means for the line that it stands on.

ghost use Rattle.std.specs.Prelude.{◌≡◌};
ghost use Rattle.np_net.specs.Faults as faults;

use np_pred::PredFault;

/// Why a line's predicate can't be read: the causes that every text with predicates has. Each reader
/// turns them into its own.
#[derive(Clone, Copy, Debug, PartialEq, Eq)]
pub enum PredWhy {
    /// The words are no predicate.
    BadPred,
    /// The predicate nests deeper than 64.
    TooDeep,
    /// No area has a name that stands in the predicate.
    UnknownName,
}

/// The cause of a predicate's fault: `TooDeep` and `UnknownArea` have one of their own, and every
/// other fault is `BadPred`.
pub fn pred_why(fault: PredFault) -> PredWhy
    ensures { result ≡ faults.pred_why fault }
{
    match fault {
        PredFault::BadWord(_) | PredFault::Unfinished | PredFault::Extra(_) => PredWhy::BadPred,
        PredFault::TooDeep(_) => PredWhy::TooDeep,
        PredFault::UnknownArea(_) => PredWhy::UnknownName,
    }
}
