//! Laws of the definitions that the contracts cite.

ghost use Rattle.np_top.specs.Outcome.{IsOneOutcome};

/// Two outcomes of the same words and files are the same text and the same status, and there is one exactly where the
/// files that it needs are there.
#[tactic(auto, using(crate::proofs::Outcomes::is_one_outcome))]
pub fn one_outcome()
    ensures { IsOneOutcome }
{}
