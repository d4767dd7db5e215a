//! Laws of what is synthesised, header by header.

ghost use Rattle.np_synth.specs.Existence.{DroppedAreUnique, HaveSyntheses};
ghost use Rattle.np_synth.specs.Headers.{SynthesisedIsMaximal};
ghost use Rattle.np_synth.specs.Lifting.{AtomsDenyForHeaders, AtomsStandForHeaders};

/// What is synthesised is maximal: no valid header breaks a goal in it, and letting a valid header cross one
/// more free slot breaks one.
pub fn synthesised_is_maximal()
    ensures { SynthesisedIsMaximal }
{}

/// What is synthesised atom by atom is synthesised header by header, for whatever lists the atoms are those of.
pub fn atoms_stand_for_headers()
    ensures { AtomsStandForHeaders }
{}

/// The first goal that some atom breaks while all free slots are shut is the first one that a valid header
/// breaks then.
pub fn atoms_deny_for_headers()
    ensures { AtomsDenyForHeaders }
{}

/// Whatever the slots let cross, some goal can't be attained, or there is a synthesis.
pub fn there_is_a_synthesis()
    ensures { HaveSyntheses }
{}

/// A posture has one list of drops.
pub fn drops_are_unique()
    ensures { DroppedAreUnique }
{}
