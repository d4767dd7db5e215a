//! Laws of what the other modules' contracts speak of.

ghost use Rattle.np_flow.specs.Finding.{HaveFirstPaths};

/// Between any two areas there is a first path of those that may be crossed, or none of them may be,
/// whatever the slots say.
#[tactic(auto, using(crate::proofs::FindingLaws::have_first_paths))]
pub fn each_search_ends()
    ensures { HaveFirstPaths }
{}
