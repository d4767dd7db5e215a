//! Laws of the definitions that the contracts of this crate cite. A function here does nothing:
//! its contract is the law.

ghost use Rattle.np_ipsec.specs.Depth.{StepsKeepPlain, StepsOfMoreDepth, StepsStayInside, TrajectoriesOfMoreDepth};

/// Room for more headers takes no step away, and no trajectory.
#[tactic(auto, using(crate::proofs::DepthLaws::steps_of_more_depth, crate::proofs::DepthLaws::trajectories_of_more_depth))]
pub fn more_depth_allows_more()
    ensures steps { StepsOfMoreDepth }
    ensures trajectories { TrajectoriesOfMoreDepth }
{}

/// No step changes the plain header of a packet.
#[tactic(auto, using(crate::proofs::StepLaws::steps_keep_plain))]
pub fn plain_headers_stay()
    ensures { StepsKeepPlain }
{}

/// A step from a place of a network leads to a place of it.
#[tactic(auto, using(crate::proofs::StepLaws::steps_stay_inside))]
pub fn steps_stay_inside()
    ensures { StepsStayInside }
{}
