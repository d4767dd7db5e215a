//! Laws of the chosen posture, whatever travels: an atom, or a header.

ghost use Rattle.np_synth.specs.Choosing.{ChosenIsMaximal, ChosenIsUnique};

/// The chosen posture is maximal, where no goal is broken with all free slots shut: none is broken in it, and
/// opening any free slot that is shut in it breaks one.
#[tactic(auto, using(crate::proofs::ChoosingLaws::chosen_is_maximal))]
pub fn chosen_is_maximal()
    ensures { ChosenIsMaximal }
{}

/// The chosen posture of a network's slots is determined.
pub fn chosen_is_unique()
    ensures { ChosenIsUnique }
{}
