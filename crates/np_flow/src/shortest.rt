//! The shortest path by which one atom comes from an area to another, and of the shortest ones the first.

ghost use Rattle.std.specs.Prelude.{◌≡◌, ℕ, ◌+◌, ◌*◌, ◌<◌, ◌≤◌, ◌↔◌, length, Some, None, IfOk, IfNone, IfSome, IsNone};
ghost use Rattle.np_net.specs.Path as path;
ghost use Rattle.np_flow.specs.Postures.{lets_atom, FitsInterfaces};
ghost use Rattle.np_flow.specs.Carrying.{Reaches, IsFirstPath};
ghost use Rattle.np_flow.specs.Distances as spec;
ghost use Rattle.np_flow.specs.Distances.{AreDistances, IsHopTo, IsNextHop};

use crate::distances::{distances_to, lets};
use crate::posture::Posture;
use crate::rounds::{area_of, device_of};
use np_atomset::AtomSet;
use np_net::{AreaId, DevId, IfId, Interface, Network, Path};
use sqlite_items::Items;
use std::alloc::{AllocError, Global};

/// The nearer of what was found and of a distance at place `n`.
fn nearer(
    found: Option<(usize, usize)>,
    distance: Option<usize>,
    n: usize,
) -> Option<(usize, usize)>
    ensures { result ≡ spec.nearer found distance n }
{
    match (found, distance) {
        (None, Some(m)) => Some((m, n)),
        (Some((least, _)), Some(m)) if m < least => Some((m, n)),
        _ => found,
    }
}

/// The distance to which interface `n` lets the atom out of a device.
fn out_at(
    interfaces: &[Interface],
    slots: &[AtomSet],
    atom: usize,
    distances: &[Option<usize>],
    device: DevId,
    n: usize,
) -> Option<usize>
    requires place { n < length interfaces.now }
    requires area { path.area_of interfaces.now n < length distances.now }
    requires slots { length slots.now ≡ 2 * length interfaces.now }
    ensures { result ≡ spec.out_at interfaces.now (lets_atom slots.now atom) distances.now device n }
{
    if device_of(interfaces, n) == device && lets(slots, atom, 2 * n + 1) {
        distances[area_of(interfaces, n) as usize]
    } else {
        None
    }
}

/// The nearest way out of a device, and its distance.
#[tactic(auto, using(crate::proofs::LeastLaws::first_least_more))]
fn way_out(
    interfaces: &[Interface],
    slots: &[AtomSet],
    atom: usize,
    distances: &[Option<usize>],
    device: DevId,
) -> Option<(usize, usize)>
    requires areas { (n : ℕ) → n < length interfaces.now → path.area_of interfaces.now n < length distances.now }
    requires slots { length slots.now ≡ 2 * length interfaces.now }
    ensures { result ≡ spec.way_out interfaces.now (lets_atom slots.now atom) distances.now device }
{
    let mut found = None;
    for n in 0..interfaces.len() {
        found = nearer(
            found,
            out_at(interfaces, slots, atom, distances, device, n),
            n,
        );
    }
    found
}

/// The distance to which interface `n` lets the atom go from an area.
fn in_at(
    interfaces: &[Interface],
    slots: &[AtomSet],
    atom: usize,
    distances: &[Option<usize>],
    area: AreaId,
    n: usize,
) -> Option<usize>
    requires place { n < length interfaces.now }
    requires areas { (n : ℕ) → n < length interfaces.now → path.area_of interfaces.now n < length distances.now }
    requires slots { length slots.now ≡ 2 * length interfaces.now }
    ensures { result ≡ spec.in_at interfaces.now (lets_atom slots.now atom) distances.now area n }
{
    if area_of(interfaces, n) == area && lets(slots, atom, 2 * n) {
        match way_out(interfaces, slots, atom, distances, device_of(interfaces, n)) {
            Some((m, _)) => Some(m),
            None => None,
        }
    } else {
        None
    }
}

/// The nearest way in from an area, and the distance to which it lets go.
#[tactic(auto, using(crate::proofs::LeastLaws::first_least_more))]
fn way_in(
    interfaces: &[Interface],
    slots: &[AtomSet],
    atom: usize,
    distances: &[Option<usize>],
    area: AreaId,
) -> Option<(usize, usize)>
    requires areas { (n : ℕ) → n < length interfaces.now → path.area_of interfaces.now n < length distances.now }
    requires slots { length slots.now ≡ 2 * length interfaces.now }
    ensures { result ≡ spec.way_in interfaces.now (lets_atom slots.now atom) distances.now area }
{
    let mut found = None;
    for n in 0..interfaces.len() {
        found = nearer(found, in_at(interfaces, slots, atom, distances, area, n), n);
    }
    found
}

/// The first of the hops from an area that lead nearest to where the distances end: its distance, and its interfaces.
fn next_hop(
    interfaces: &[Interface],
    slots: &[AtomSet],
    atom: usize,
    distances: &[Option<usize>],
    area: AreaId,
) -> Option<(usize, usize, usize)>
    requires areas { (n : ℕ) → n < length interfaces.now → path.area_of interfaces.now n < length distances.now }
    requires slots { length slots.now ≡ 2 * length interfaces.now }
    ensures none { IfNone result ((m : ℕ) (hop : ℕ × ℕ) → IsHopTo interfaces.now (lets_atom slots.now atom) distances.now area m hop → ⊥) }
    ensures next { IfSome result (λ hop. IsNextHop interfaces.now (lets_atom slots.now atom) distances.now area hop.0 hop.1 hop.2) }
    ensures way { IfSome result (λ hop. spec.way_in interfaces.now (lets_atom slots.now atom) distances.now area ≡ Some (hop.0, hop.1)) }
{
    match way_in(interfaces, slots, atom, distances, area) {
        None => None,
        Some((_, inward)) => match way_out(
            interfaces,
            slots,
            atom,
            distances,
            device_of(interfaces, inward),
        ) {
            None => None,
            Some((m, outward)) => Some((m, inward, outward)),
        },
    }
}

/// The hops from an area that are the next ones each, up to where the distances end.
fn follow(
    alloc: Global,
    interfaces: &[Interface],
    slots: &[AtomSet],
    atom: usize,
    distances: &[Option<usize>],
    from: AreaId,
    to: AreaId,
) -> Result<Option<Path>, AllocError>
    requires areas { (n : ℕ) → n < length interfaces.now → path.area_of interfaces.now n < length distances.now }
    requires slots { length slots.now ≡ 2 * length interfaces.now }
    requires few { length interfaces.now ≤ 65536 }
    requires distances { AreDistances interfaces.now (lets_atom slots.now atom) to distances.now }
    ensures none { IfOk result (λ r. IsNone r ↔ (Reaches interfaces.now (lets_atom slots.now atom) from to → ⊥)) }
    ensures some { IfOk result (λ r. IfSome r (λ p. IsFirstPath interfaces.now (lets_atom slots.now atom) from p.hops to)) }
{
    let mut hops = Items::new(alloc);
    let mut area = from;
    'hops: loop {
        match next_hop(interfaces, slots, atom, distances, area) {
            None => return Ok(None),
            Some((_, inward, outward)) => {
                hops.push((inward as IfId, outward as IfId))?;
                area = area_of(interfaces, outward);
                if area == to {
                    return Ok(Some(Path { hops }));
                }
            }
        }
    }
}

/// The shortest path that carries an atom from an area to another, and of the shortest ones the first: the
/// one whose interfaces, hop by hop, are first in lexicographic order. `None` where no path carries the
/// atom, as one past the posture's atoms. Both areas may be the same one. Fails only for want of memory.
///
/// Distances are found back from `to`, and then each hop is the nearest one: no path is listed.
pub fn first_path(
    alloc: Global,
    net: &Network,
    posture: &Posture,
    atom: usize,
    from: AreaId,
    to: AreaId,
) -> Result<Option<Path>, AllocError>
    requires posture { FitsInterfaces net.now.interfaces posture.now.slots }
    requires from { from < length net.now.areas }
    requires to { to < length net.now.areas }
    ensures none { IfOk result (λ r. IsNone r ↔ (Reaches net.now.interfaces (lets_atom posture.now.slots atom) from to → ⊥)) }
    ensures some { IfOk result (λ r. IfSome r (λ p. IsFirstPath net.now.interfaces (lets_atom posture.now.slots atom) from p.hops to)) }
{
    let interfaces = net.interfaces.as_slice();
    let slots = posture.slots.as_slice();
    let distances = distances_to(
        alloc,
        interfaces,
        slots,
        atom,
        to,
        net.areas.len(),
        net.devices.len(),
    )?;
    follow(
        alloc,
        interfaces,
        slots,
        atom,
        distances.as_slice(),
        from,
        to,
    )
}
