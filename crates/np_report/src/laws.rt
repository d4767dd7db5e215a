//! Laws of what is written.

ghost use Rattle.np_report.specs.Runs.{RunsAreMaximal};

/// The runs by which a set is written have its members and no other place, and no two of them touch.
#[tactic(auto, using(crate::proofs::RunLaws::runs_are_maximal))]
pub fn runs_are_maximal()
    ensures { RunsAreMaximal }
{}
