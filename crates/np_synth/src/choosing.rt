//! The choice of a posture: free slots are shut, and then opened one by one, as far as no goal is broken.

ghost use Rattle.std.specs.Prelude.{◌≡◌, ℕ, ◌+◌, ◌*◌, ◌<◌, false, length, replicate, if◌then◌else◌, IfOk, IsErrOf, MatchOption, OnOk};
ghost use Rattle.np_space.specs.declared.headers.Header.{Header as Head};
ghost use Rattle.np_net.specs.declared.paths.Path.{Path as Way};
ghost use Rattle.np_goals.specs.Cases.{HasSizes};
ghost use Rattle.np_synth.specs.Steps.{AreSlots, AreMet, IsFirstBreaking, AreShut, IsFilled, AreChosen};
ghost use Rattle.np_synth.specs.Synthesis.{IsSynthesis, IsUnattainable};

use crate::broken::{breaking, breaking_any, breaking_path};
use crate::chosen::{Chosen, SynthError};
use crate::dropping::dropped;
use crate::opening::{others, with_open};
use np_atomset::AtomSet;
use np_flow::Posture;
use np_goals::{Case, flows};
use np_net::Network;
use sqlite_items::Items;
use std::alloc::{AllocError, Global};

/// A slot's set, and a set of as many atoms without a member where the slot is free.
fn shut_set(alloc: Global, free: bool, set: &AtomSet) -> Result<AtomSet, AllocError>
    ensures { IfOk result (λ shut. shut ≡ (if free then replicate (length set.now) false else set.now)) }
{
    if free {
        AtomSet::new(alloc, set.len())
    } else {
        set.copy(alloc)
    }
}

/// The case's posture with its free slots shut.
fn shut_posture(alloc: Global, net: &Network, case: &Case) -> Result<Posture, AllocError>
    requires { HasSizes net.now.interfaces net.now.goals case.now }
    ensures { IfOk result (λ posture. AreShut net.now case.now (2 * length net.now.interfaces) posture.slots) }
{
    let mut slots = Items::new(alloc);
    for slot in 0..net.free.len() {
        let free = net.free.as_slice()[slot];
        let set = &case.posture.slots.as_slice()[slot];
        slots.push(shut_set(alloc, free, set)?)?;
    }
    Ok(Posture { slots })
}

/// The first goal that some atom breaks in this posture, and the least atom that breaks it.
fn first_broken(
    alloc: Global,
    net: &Network,
    case: &Case,
    posture: &Posture,
) -> Result<Option<(usize, usize)>, AllocError>
    requires sizes { HasSizes net.now.interfaces net.now.goals case.now }
    requires slots { AreSlots net.now.interfaces (length case.now.leasts) posture.now.slots }
    ensures { IfOk result (λ found. MatchOption found (AreMet net.now case.now posture.now.slots (length net.now.goals)) (λ f. IsFirstBreaking net.now case.now posture.now.slots f.0 f.1)) }
{
    let flows = flows(alloc, net, posture)?;
    for k in 0..net.goals.len() {
        let broken = breaking(alloc, net, case, posture, flows.as_slice(), k)?;
        if let Some(atom) = broken.first() {
            return Ok(Some((k, atom)));
        }
    }
    Ok(None)
}

/// Refuses the first goal that is broken although the free slots are shut, as they are in this posture.
fn attained(alloc: Global, net: &Network, case: &Case, posture: &Posture) -> Result<(), SynthError>
    requires sizes { HasSizes net.now.interfaces net.now.goals case.now }
    requires slots { AreShut net.now case.now (2 * length net.now.interfaces) posture.now.slots }
    ensures met { OnOk result (AreMet net.now case.now posture.now.slots (length net.now.goals)) }
    ensures unattainable { (goal : ℕ) (header : Head) (path : Way) → IsErrOf result (SynthError.Unattainable goal header path) → IsUnattainable net.now case.now goal header path.hops }
{
    match first_broken(alloc, net, case, posture)? {
        None => Ok(()),
        Some((goal, atom)) => {
            let path = breaking_path(alloc, net, case, posture, goal, atom)?;
            let header = case.leasts.as_slice()[atom];
            Err(SynthError::Unattainable { goal, header, path })
        }
    }
}

/// Lets those atoms cross the slot that break no goal while they do.
fn fill(
    alloc: Global,
    net: &Network,
    case: &Case,
    posture: &mut Posture,
    slot: usize,
) -> Result<(), AllocError>
    requires sizes { HasSizes net.now.interfaces net.now.goals case.now }
    requires slots { AreSlots net.now.interfaces (length case.now.leasts) posture.old.slots }
    requires place { slot < 2 * length net.now.interfaces }
    ensures { OnOk result (IsFilled net.now case.now slot posture.old.slots posture.new.slots) }
{
    let opened = with_open(alloc, posture, slot, case.leasts.len())?;
    let broken = breaking_any(alloc, net, case, &opened)?;
    let kept = others(alloc, &broken)?;
    posture.slots.set(slot, kept);
    Ok(())
}

/// Chooses what crosses one slot more.
fn choose_at(
    alloc: Global,
    net: &Network,
    case: &Case,
    posture: &mut Posture,
    slot: usize,
) -> Result<(), AllocError>
    requires sizes { HasSizes net.now.interfaces net.now.goals case.now }
    requires place { slot < 2 * length net.now.interfaces }
    requires chosen { AreChosen net.now case.now slot posture.old.slots }
    ensures { OnOk result (AreChosen net.now case.now (slot + 1) posture.new.slots) }
{
    if !net.free.as_slice()[slot] {
        return Ok(());
    }
    fill(alloc, net, case, posture, slot)
}

/// Chooses what crosses each slot, where the free slots are shut.
fn choose(
    alloc: Global,
    net: &Network,
    case: &Case,
    posture: &mut Posture,
) -> Result<(), AllocError>
    requires sizes { HasSizes net.now.interfaces net.now.goals case.now }
    requires shut { AreShut net.now case.now (2 * length net.now.interfaces) posture.old.slots }
    ensures { OnOk result (AreChosen net.now case.now (2 * length net.now.interfaces) posture.new.slots) }
{
    for slot in 0..net.free.len() {
        choose_at(alloc, net, case, posture, slot)?;
    }
    Ok(())
}

/// A maximal posture that meets the goals of a network, and what its free slots drop (Guttman and Herzog 2005).
///
/// First all free slots are shut. Then they are opened one by one, in the order of the slots, each for the
/// atoms that break no goal with the slots before it as they are chosen and those after it shut. A slot that
/// isn't free keeps its atoms. Each atom that a free slot drops is named with the first goal that it would
/// break there, and the first path of that goal. Whatever the case has at free slots is ignored.
///
/// Fails with the first goal that is broken although all free slots are shut, and for want of memory.
pub fn synthesise(alloc: Global, net: &Network, case: &Case) -> Result<Chosen, SynthError>
    requires { HasSizes net.now.interfaces net.now.goals case.now }
    ensures chosen { IfOk result (λ chosen. IsSynthesis net.now case.now chosen.posture.slots chosen.dropped) }
    ensures unattainable { (goal : ℕ) (header : Head) (path : Way) → IsErrOf result (SynthError.Unattainable goal header path) → IsUnattainable net.now case.now goal header path.hops }
{
    let mut posture = shut_posture(alloc, net, case)?;
    attained(alloc, net, case, &posture)?;
    choose(alloc, net, case, &mut posture)?;
    let dropped = dropped(alloc, net, case, &posture)?;
    Ok(Chosen { posture, dropped })
}
