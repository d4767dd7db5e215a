//! Laws of the definitions that the contracts of this crate cite. A function here does nothing:
//! its contract is the law.

ghost use Rattle.std.specs.Prelude.{ℕ};
ghost use Rattle.np_net.specs.Plan.{Plan};
ghost use Rattle.np_script.specs.declared.script.Script.{Script};
ghost use Rattle.np_traj.specs.Laws.{AreReplayedOnce, BreachesAreUnique, MotionsLeadToOneState, ReplaysHaveBreaches, ScriptsAreReplayed, StartsAreUnrefused, StepsAreUnrefused};

/// A motion of the network isn't refused exactly where there is a step; the same of starts.
#[tactic(auto, using(crate::proofs::StepLaws::steps_are_unrefused, crate::proofs::StartLaws::starts_are_unrefused))]
pub fn steps_are_unrefused()
    ensures steps { StepsAreUnrefused }
    ensures starts { StartsAreUnrefused }
{}

/// A motion leads from a state to one state at most.
#[tactic(auto, using(crate::proofs::StepLaws::motions_lead_to_one_state))]
pub fn motions_lead_to_one_state()
    ensures { MotionsLeadToOneState }
{}

/// A script that fits the network is replayed, in one way.
#[tactic(auto, using(crate::proofs::ReplaysLaws::a_replay, crate::proofs::ReplaysLaws::replayed_once))]
pub fn scripts_are_replayed_once()
    ensures replayed { ScriptsAreReplayed }
    ensures once { (net : Plan) (depth : ℕ) (script : Script) → AreReplayedOnce net depth script }
{}

/// The states of a replay have breaches, and no others.
#[tactic(auto, using(crate::proofs::BreachesLaws::breaches_of))]
pub fn replays_have_breaches()
    ensures have { ReplaysHaveBreaches }
    ensures unique { BreachesAreUnique }
{}
