//! What crosses the slots and what the goals forbid, atom by atom.

ghost use Rattle.std.specs.Prelude.{◌≡◌, ◌+◌, ◌*◌, ◌-◌, ◌<◌, ◌≤◌, ℕ, None, [], length, map, slice_index_or, IfOk, IfSome};
ghost use Rattle.np_atoms.specs.Atoms.{AreAtoms};
ghost use Rattle.np_cut.specs.FilterCuts.{filter_tests};
ghost use Rattle.np_flow.specs.Postures.{AllHaveLength};
ghost use Rattle.np_goals.specs.Cases.{IsCaseOf};
ghost use Rattle.np_goals.specs.Making.{crossing_set, forbidden_set, AreForbidden};

use np_atoms::Atoms;
use np_atomset::AtomSet;
use np_cut::Applied;
use np_flow::Posture;
use np_net::{Goal, Network};
use np_space::Header;
use sqlite_items::Items;
use std::alloc::{AllocError, Global};

/// A network's filtering, atom by atom. All sets have as many atoms as there are least members.
#[derive(Drop)]
pub struct Case {
    /// The atoms that cross each slot.
    pub posture: Posture,
    /// For each goal the atoms that it forbids.
    pub bad: Items<AtomSet>,
    /// The atoms' least members, in ascending order.
    pub leasts: Items<Header>,
}

/// Of so many atoms those that cross a slot whose list is at this place among the cuts. Without a list every atom does.
fn crossing(
    alloc: Global,
    cuts: &[AtomSet],
    atoms: usize,
    place: Option<usize>,
) -> Result<AtomSet, AllocError>
    requires { IfSome place (λ p. p < length cuts.now) }
    ensures { IfOk result (λ set. set ≡ crossing_set cuts.now atoms place) }
{
    match place {
        Some(place) => cuts[place].copy(alloc),
        None => AtomSet::full(alloc, atoms),
    }
}

/// The atoms that cross each slot, by the places of the slots' lists.
fn crossings(
    alloc: Global,
    cuts: &[AtomSet],
    atoms: usize,
    places: &[Option<usize>],
) -> Result<Items<AtomSet>, AllocError>
    requires { (slot : ℕ) → IfSome (slice_index_or places.now slot None) (λ p. p < length cuts.now) }
    ensures { IfOk result (λ slots. slots ≡ map (crossing_set cuts.now atoms) places.now) }
{
    let mut slots = Items::new(alloc);
    for place in places {
        slots.push(crossing(alloc, cuts, atoms, *place)?)?;
    }
    Ok(slots)
}

/// Of so many atoms those that a goal forbids whose predicate is this cut.
fn forbidden(
    alloc: Global,
    cuts: &[AtomSet],
    atoms: usize,
    goal: &Goal,
    cut: usize,
) -> Result<AtomSet, AllocError>
    requires cut { cut < length cuts.now }
    requires sizes { AllHaveLength atoms cuts.now }
    ensures { IfOk result (λ set. set ≡ forbidden_set cuts.now atoms cut goal.now.only) }
{
    if !goal.only {
        return cuts[cut].copy(alloc);
    }
    let mut others = AtomSet::full(alloc, atoms)?;
    others.minus_with(&cuts[cut]);
    Ok(others)
}

/// The atoms that each goal forbids. The goals' cuts are the last ones, in the order of the goals.
fn all_forbidden(
    alloc: Global,
    cuts: &[AtomSet],
    atoms: usize,
    goals: &[Goal],
) -> Result<Items<AtomSet>, AllocError>
    requires cuts { length goals.now ≤ length cuts.now }
    requires sizes { AllHaveLength atoms cuts.now }
    ensures { IfOk result (λ bad. AreForbidden cuts.now atoms (length cuts.now - length goals.now) goals.now (length goals.now) bad) }
{
    let first = cuts.len() - goals.len();
    let mut bad = Items::new(alloc);
    for k in 0..goals.len() {
        bad.push(forbidden(alloc, cuts, atoms, &goals[k], first + k)?)?;
    }
    Ok(bad)
}

/// The case of a network with these lists. The atoms are those of its filter cuts: its lists in their
/// order, and then the predicates of its goals. Fails only for want of memory.
///
/// The least members are moved into the case. A cut's set is copied for each slot and each goal, since a list may be at
/// many slots.
pub fn case_of(
    alloc: Global,
    net: &Network,
    applied: &Applied<'_>,
    atoms: Atoms,
) -> Result<Case, AllocError>
    requires slots { length applied.now.at ≡ 2 * length net.now.interfaces }
    requires atoms { AreAtoms (filter_tests applied.now.lists net.now.goals) atoms }
    ensures { IfOk result (λ case. IsCaseOf net.now.interfaces net.now.goals applied.now case) }
{
    let Atoms { leasts, cuts } = atoms;
    let slots = crossings(alloc, cuts.as_slice(), leasts.len(), applied.at.as_slice())?;
    let bad = all_forbidden(alloc, cuts.as_slice(), leasts.len(), net.goals.as_slice())?;
    Ok(Case {
        posture: Posture { slots },
        bad,
        leasts,
    })
}
