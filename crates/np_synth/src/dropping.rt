//! Why free slots drop what they don't let cross.

ghost use Rattle.std.specs.Prelude.{◌≡◌, ℕ, ◌+◌, ◌*◌, ◌<◌, true, length, IfOk, IsTrue, OnOk};
ghost use Rattle.np_atomset.specs.AtomSet.{has_member};
ghost use Rattle.np_flow.specs.Postures.{lets_atom};
ghost use Rattle.np_goals.specs.Cases.{HasSizes};
ghost use Rattle.np_goals.specs.Judging.{AnswersLeast};
ghost use Rattle.np_synth.specs.Choosing.{is_free, BreaksSome};
ghost use Rattle.np_synth.specs.Dropping.{AreDropped};
ghost use Rattle.np_synth.specs.Synthesis.{bad_for};
ghost use Rattle.np_synth.specs.Steps.{AreSlots, IsFull, AreBreakingEach, IsIn, IsOpening, IsDropOf, AreDroppedBefore};

use crate::broken::{breaking, breaking_path};
use crate::chosen::Dropped;
use crate::opening::{others, with_open};
use np_atomset::AtomSet;
use np_flow::Posture;
use np_goals::{Case, flows};
use np_net::Network;
use sqlite_items::Items;
use std::alloc::{AllocError, Global};

/// A slot that is opened for every atom.
#[derive(Drop)]
struct Opened {
    slot: usize,
    /// The posture with the slot opened.
    posture: Posture,
    /// For each goal the atoms that break it in this posture.
    breaking: Items<AtomSet>,
}

/// Whether set `k` has the atom.
fn has(sets: &[AtomSet], atom: usize, k: usize) -> bool
    requires { k < length sets.now }
    ensures { result ≡ lets_atom sets.now atom k }
{
    let set = &sets[k];
    atom < set.len() && set.has(atom)
}

/// The first of the sets that has the atom.
fn first_with(sets: &[AtomSet], atom: usize) -> Option<usize>
    ensures { AnswersLeast (IsIn sets.now atom) result }
{
    for k in 0..sets.len() {
        if has(sets, atom, k) {
            return Some(k);
        }
    }
    None
}

/// Whether the set has all its atoms.
fn is_full(alloc: Global, set: &AtomSet) -> Result<bool, AllocError>
    ensures { IfOk result (λ full. IsTrue full → (atom : ℕ) → atom < length set.now → has_member set.now atom ≡ true) }
{
    Ok(others(alloc, set)?.first().is_none())
}

/// For each goal the atoms that break it in this posture. Each area at which goals begin has one flow.
fn breaking_each(
    alloc: Global,
    net: &Network,
    case: &Case,
    posture: &Posture,
) -> Result<Items<AtomSet>, AllocError>
    requires sizes { HasSizes net.now.interfaces net.now.goals case.now }
    requires slots { AreSlots net.now.interfaces (length case.now.leasts) posture.now.slots }
    ensures { IfOk result (λ sets. AreBreakingEach net.now case.now posture.now.slots (length net.now.goals) sets) }
{
    let flows = flows(alloc, net, posture)?;
    let mut sets = Items::new(alloc);
    for k in 0..net.goals.len() {
        sets.push(breaking(alloc, net, case, posture, flows.as_slice(), k)?)?;
    }
    Ok(sets)
}

/// The posture with this slot opened for every atom, so that one flow decides for each of them.
fn opened_at(
    alloc: Global,
    net: &Network,
    case: &Case,
    posture: &Posture,
    slot: usize,
) -> Result<Opened, AllocError>
    requires sizes { HasSizes net.now.interfaces net.now.goals case.now }
    requires slots { AreSlots net.now.interfaces (length case.now.leasts) posture.now.slots }
    requires place { slot < 2 * length net.now.interfaces }
    ensures slot_is { IfOk result (λ o. o.slot ≡ slot) }
    ensures opening { IfOk result (λ o. IsOpening net.now case.now posture.now.slots slot o.posture.slots o.breaking) }
{
    let posture = with_open(alloc, posture, slot, case.leasts.len())?;
    let breaking = breaking_each(alloc, net, case, &posture)?;
    Ok(Opened {
        slot,
        posture,
        breaking,
    })
}

/// Why the slot that is opened drops the atom, which breaks some goal then.
fn drop_of(
    alloc: Global,
    net: &Network,
    case: &Case,
    opened: &Opened,
    atom: usize,
) -> Result<Dropped, AllocError>
    requires slots { AreSlots net.now.interfaces (length case.now.leasts) opened.now.posture.slots }
    requires breaking { AreBreakingEach net.now case.now opened.now.posture.slots (length net.now.goals) opened.now.breaking }
    requires breaks { BreaksSome net.now.interfaces net.now.goals (bad_for case.now.bad atom) (lets_atom opened.now.posture.slots atom) }
    ensures { IfOk result (λ drop. IsDropOf net.now case.now opened.now.posture.slots opened.now.slot atom drop) }
{
    match first_with(opened.breaking.as_slice(), atom) {
        Some(goal) => {
            let path = breaking_path(alloc, net, case, &opened.posture, goal, atom)?;
            Ok(Dropped {
                slot: opened.slot,
                atom,
                goal,
                path,
            })
        }
        None => unreachable!(),
    }
}

/// Adds the atom to what is dropped, if the slot drops it.
fn drop_at(
    alloc: Global,
    net: &Network,
    case: &Case,
    posture: &Posture,
    opened: &Opened,
    atom: usize,
    dropped: &mut Items<Dropped>,
) -> Result<(), AllocError>
    requires slots { AreSlots net.now.interfaces (length case.now.leasts) posture.now.slots }
    requires full { IsFull net.now case.now posture.now.slots }
    requires opening { IsOpening net.now case.now posture.now.slots opened.now.slot opened.now.posture.slots opened.now.breaking }
    requires free { is_free net.now.free opened.now.slot ≡ true }
    requires within { atom < length case.now.leasts }
    requires dropped { AreDroppedBefore net.now case.now posture.now.slots opened.now.slot atom dropped.old }
    ensures { OnOk result (AreDroppedBefore net.now case.now posture.now.slots opened.now.slot (atom + 1) dropped.new) }
{
    if has(posture.slots.as_slice(), atom, opened.slot) {
        return Ok(());
    }
    dropped.push(drop_of(alloc, net, case, opened, atom)?)
}

/// Adds what a slot drops, which is opened.
fn drop_all(
    alloc: Global,
    net: &Network,
    case: &Case,
    posture: &Posture,
    opened: &Opened,
    dropped: &mut Items<Dropped>,
) -> Result<(), AllocError>
    requires slots { AreSlots net.now.interfaces (length case.now.leasts) posture.now.slots }
    requires full { IsFull net.now case.now posture.now.slots }
    requires opening { IsOpening net.now case.now posture.now.slots opened.now.slot opened.now.posture.slots opened.now.breaking }
    requires free { is_free net.now.free opened.now.slot ≡ true }
    requires dropped { AreDroppedBefore net.now case.now posture.now.slots opened.now.slot 0 dropped.old }
    ensures { OnOk result (AreDroppedBefore net.now case.now posture.now.slots opened.now.slot (length case.now.leasts) dropped.new) }
{
    for atom in 0..case.leasts.len() {
        drop_at(alloc, net, case, posture, opened, atom, dropped)?;
    }
    Ok(())
}

/// Adds what a slot drops, if it is free.
fn drop_slot(
    alloc: Global,
    net: &Network,
    case: &Case,
    posture: &Posture,
    slot: usize,
    dropped: &mut Items<Dropped>,
) -> Result<(), AllocError>
    requires sizes { HasSizes net.now.interfaces net.now.goals case.now }
    requires slots { AreSlots net.now.interfaces (length case.now.leasts) posture.now.slots }
    requires full { IsFull net.now case.now posture.now.slots }
    requires place { slot < 2 * length net.now.interfaces }
    requires dropped { AreDroppedBefore net.now case.now posture.now.slots slot 0 dropped.old }
    ensures { OnOk result (AreDroppedBefore net.now case.now posture.now.slots (slot + 1) 0 dropped.new) }
{
    if !net.free.as_slice()[slot] || is_full(alloc, &posture.slots.as_slice()[slot])? {
        return Ok(());
    }
    let opened = opened_at(alloc, net, case, posture, slot)?;
    drop_all(alloc, net, case, posture, &opened, dropped)
}

/// What the free slots of a posture drop that is as full as the goals let it be: for each atom, the first goal
/// that is broken once the slot is opened for it alone, and the first path.
pub(crate) fn dropped(
    alloc: Global,
    net: &Network,
    case: &Case,
    posture: &Posture,
) -> Result<Items<Dropped>, AllocError>
    requires sizes { HasSizes net.now.interfaces net.now.goals case.now }
    requires slots { AreSlots net.now.interfaces (length case.now.leasts) posture.now.slots }
    requires full { IsFull net.now case.now posture.now.slots }
    ensures { IfOk result (λ drops. AreDropped net.now.interfaces net.now.goals net.now.free (length case.now.leasts) (bad_for case.now.bad) (lets_atom posture.now.slots) drops) }
{
    let mut dropped = Items::new(alloc);
    for slot in 0..net.free.len() {
        drop_slot(alloc, net, case, posture, slot, &mut dropped)?;
    }
    Ok(dropped)
}
