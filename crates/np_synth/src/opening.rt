//! Sets and postures that let more cross.

ghost use Rattle.std.specs.Prelude.{◌<◌, List, length, IfOk};
ghost use Rattle.np_synth.specs.Steps.{AreSlots, AreOthers, IsOpened};
ghost use Rattle.np_net.specs.declared.filtering.Interface.{Interface};

use np_atomset::AtomSet;
use np_flow::Posture;
use std::alloc::{AllocError, Global};

/// The atoms that the set doesn't have.
pub(crate) fn others(alloc: Global, set: &AtomSet) -> Result<AtomSet, AllocError>
    ensures { IfOk result (λ others. AreOthers set.now others) }
{
    let mut others = AtomSet::full(alloc, set.len())?;
    others.minus_with(set);
    Ok(others)
}

/// The posture with one slot opened for each of so many atoms.
pub(crate) fn with_open(
    alloc: Global,
    posture: &Posture,
    slot: usize,
    atoms: usize,
) -> Result<Posture, AllocError>
    requires { slot < length posture.now.slots }
    ensures { IfOk result (λ opened. (interfaces : List Interface) → AreSlots interfaces atoms posture.now.slots → IsOpened interfaces atoms slot posture.now.slots opened.slots) }
{
    let mut opened = posture.copy(alloc)?;
    opened.slots.set(slot, AtomSet::full(alloc, atoms)?);
    Ok(opened)
}
