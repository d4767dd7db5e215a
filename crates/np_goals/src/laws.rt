//! Laws of what the other modules' contracts speak of.

ghost use Rattle.np_goals.specs.Existence.{HaveLeasts, HaveVerdicts};

/// Whatever the cuts' tests are, their classes have least members: some list is that of the leasts.
#[tactic(auto, using(crate::proofs::ExistenceLaws::have_leasts))]
pub fn cuts_have_leasts()
    ensures { HaveLeasts }
{}

/// Whatever the slots let cross, each goal has a verdict.
#[tactic(auto, using(crate::proofs::ExistenceLaws::have_verdicts))]
pub fn each_goal_has_a_verdict()
    ensures { HaveVerdicts }
{}
