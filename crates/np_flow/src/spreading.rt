//! The atoms that reach each area, by paths of any length.

ghost use Rattle.std.specs.Prelude.{◌≡◌, ◌↔◌, ◌<◌, ℕ, [], length, replicate, slice_index_or, true, false, IfOk};
ghost use Rattle.np_atomset.specs.AtomSet.{has_member};
ghost use Rattle.np_flow.specs.Postures.{lets_atom, atom_count, AllHaveLength, FitsInterfaces};
ghost use Rattle.np_flow.specs.Carrying.{Reaches};

use crate::posture::Posture;
use crate::rounds::spread;
use np_atomset::AtomSet;
use np_net::{AreaId, Network};
use sqlite_items::Items;
use std::alloc::{AllocError, Global};

/// For each area of a network the atoms that reach it from one area.
#[derive(Debug, Drop)]
pub struct Reached {
    pub(crate) sets: Items<AtomSet>,
}

impl Reached {
    /// The atoms that reach the area. Needs an area of the network.
    pub fn at(&self, area: AreaId) -> &AtomSet
        requires { area < length self.now.sets }
        ensures { result.now ≡ slice_index_or self.now.sets area [] }
    {
        &self.sets.as_slice()[area as usize]
    }
}

/// How many atoms the sets of slots have.
fn count_atoms(slots: &[AtomSet]) -> usize
    ensures { result ≡ atom_count slots.now }
{
    match slots.first() {
        Some(set) => set.len(),
        None => 0,
    }
}

/// So many sets of so many atoms, without a member.
fn empty_sets(alloc: Global, n: usize, atoms: usize) -> Result<Vec<AtomSet>, AllocError>
    ensures { IfOk result (λ sets. sets.items ≡ replicate n (replicate atoms false)) }
{
    let mut sets = Vec::new(alloc);
    while sets.len() < n {
        sets.push(AtomSet::new(alloc, atoms)?)?;
    }
    Ok(sets)
}

/// The atoms that reach each area from one of them: those that some path of at least one hop carries,
/// each hop through an inward and an outward slot of one device (Guttman and Herzog 2005). Each set
/// has as many atoms as those of the posture; where the network has no interface, none. Fails only
/// for want of memory.
///
/// Whole sets go from area to area, 64 atoms in a word, until nothing grows: no path is listed. In each round only
/// what grew in the one before goes on.
pub fn flow(
    alloc: Global,
    net: &Network,
    posture: &Posture,
    from: AreaId,
) -> Result<Reached, AllocError>
    requires posture { FitsInterfaces net.now.interfaces posture.now.slots }
    requires from { from < length net.now.areas }
    ensures areas { IfOk result (λ r. length r.sets ≡ length net.now.areas) }
    ensures lengths { IfOk result (λ r. AllHaveLength (atom_count posture.now.slots) r.sets) }
    ensures exact { IfOk result (λ r. (area atom : ℕ) → area < length net.now.areas → (has_member (slice_index_or r.sets area []) atom ≡ true) ↔ Reaches net.now.interfaces (lets_atom posture.now.slots atom) from area) }
{
    let slots = posture.slots.as_slice();
    let atoms = count_atoms(slots);
    let mut devices = empty_sets(alloc, net.devices.len(), atoms)?;
    let mut areas = empty_sets(alloc, net.areas.len(), atoms)?;
    let mut fresh_devices = vec![in alloc; true; net.devices.len()]?;
    let mut fresh_areas = vec![in alloc; false; net.areas.len()]?;
    spread(
        net.interfaces.as_slice(),
        slots,
        from,
        devices.as_mut_slice(),
        areas.as_mut_slice(),
        fresh_devices.as_mut_slice(),
        fresh_areas.as_mut_slice(),
    );
    Ok(Reached {
        sets: Items::from_vec(areas),
    })
}
