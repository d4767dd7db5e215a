//! How many hops it takes one atom at least to go from each area to one of them.

ghost use Rattle.std.specs.Prelude.{◌≡◌, ◌+◌, ◌*◌, ◌<◌, ◌≤◌, ◌↔◌, true, false, length, None, IfOk, OnOk, IsTrue, vec_len};
ghost use Rattle.std.specs.Bool.{OnFalse, OnTrue};
ghost use Rattle.np_net.specs.Path as path;
ghost use Rattle.np_flow.specs.Postures.{lets_atom};
ghost use Rattle.np_flow.specs.Spread.{AreWithin};
ghost use Rattle.np_flow.specs.Distances.{distance_at, unknown, AreKnown, AreDistances, LetsOut, AreExits, LetsIn, IsNearer, AreNearer};

use crate::rounds::{area_of, device_of};
use np_atomset::AtomSet;
use np_net::{AreaId, Interface};
use std::alloc::{AllocError, Global};

/// Whether a slot lets the atom cross.
pub(crate) fn lets(slots: &[AtomSet], atom: usize, slot: usize) -> bool
    requires { slot < length slots.now }
    ensures { result ≡ lets_atom slots.now atom slot }
{
    let set = &slots[slot];
    atom < set.len() && set.has(atom)
}

/// Whether interface `n` lets the atom out to an area at this distance.
fn lets_out(
    interfaces: &[Interface],
    slots: &[AtomSet],
    atom: usize,
    distances: &[Option<usize>],
    near: usize,
    n: usize,
) -> bool
    requires place { n < length interfaces.now }
    requires area { path.area_of interfaces.now n < length distances.now }
    requires slots { length slots.now ≡ 2 * length interfaces.now }
    ensures { IsTrue result ↔ LetsOut interfaces.now (lets_atom slots.now atom) distances.now near n }
{
    lets(slots, atom, 2 * n + 1) && distances[area_of(interfaces, n) as usize] == Some(near)
}

/// The devices that let the atom out to an area at this distance.
fn exits(
    alloc: Global,
    interfaces: &[Interface],
    slots: &[AtomSet],
    atom: usize,
    distances: &[Option<usize>],
    near: usize,
    devices: usize,
) -> Result<Vec<bool>, AllocError>
    requires within { AreWithin interfaces.now devices (length distances.now) }
    requires slots { length slots.now ≡ 2 * length interfaces.now }
    ensures len { IfOk result (λ marks. vec_len marks ≡ devices) }
    ensures exits { IfOk result (λ marks. AreExits interfaces.now (lets_atom slots.now atom) distances.now near (length interfaces.now) marks.items) }
{
    let mut marks = vec![in alloc; false; devices]?;
    for n in 0..interfaces.len() {
        if lets_out(interfaces, slots, atom, distances, near, n) {
            marks[device_of(interfaces, n) as usize] = true;
        }
    }
    Ok(marks)
}

/// Whether interface `n` lets the atom into a marked device.
fn lets_in(
    interfaces: &[Interface],
    slots: &[AtomSet],
    atom: usize,
    devices: &[bool],
    n: usize,
) -> bool
    requires place { n < length interfaces.now }
    requires device { path.device_of interfaces.now n < length devices.now }
    requires slots { length slots.now ≡ 2 * length interfaces.now }
    ensures { IsTrue result ↔ LetsIn interfaces.now (lets_atom slots.now atom) devices.now n }
{
    lets(slots, atom, 2 * n) && devices[device_of(interfaces, n) as usize]
}

/// Whether the area of interface `n` has no distance, and the interface lets the atom into a marked device.
fn is_news(
    interfaces: &[Interface],
    slots: &[AtomSet],
    atom: usize,
    devices: &[bool],
    distances: &[Option<usize>],
    n: usize,
) -> bool
    requires place { n < length interfaces.now }
    requires within { AreWithin interfaces.now (length devices.now) (length distances.now) }
    requires slots { length slots.now ≡ 2 * length interfaces.now }
    ensures { IsTrue result ↔ ((distance_at distances.now (path.area_of interfaces.now n) ≡ None) × LetsIn interfaces.now (lets_atom slots.now atom) devices.now n) }
{
    distances[area_of(interfaces, n) as usize].is_none()
        && lets_in(interfaces, slots, atom, devices, n)
}

/// Gives the area of interface `n` a distance, if it has none and the interface lets the atom into a marked device.
/// Answers whether it did.
fn approach(
    interfaces: &[Interface],
    slots: &[AtomSet],
    atom: usize,
    devices: &[bool],
    far: usize,
    distances: &mut [Option<usize>],
    n: usize,
) -> bool
    requires place { n < length interfaces.now }
    requires within { AreWithin interfaces.now (length devices.now) (length distances.old) }
    requires slots { length slots.now ≡ 2 * length interfaces.now }
    ensures nearer { IsNearer interfaces.now (lets_atom slots.now atom) devices.now far n distances.old distances.new }
    ensures grew { OnTrue result (unknown distances.new < unknown distances.old) }
    ensures same { OnFalse result (distances.new ≡ distances.old) }
{
    let news = is_news(interfaces, slots, atom, devices, distances, n);
    if news {
        distances[area_of(interfaces, n) as usize] = Some(far);
    }
    news
}

/// Gives each area a distance that has none and an interface that lets the atom into a marked device.
/// Answers whether there is one.
fn approach_all(
    interfaces: &[Interface],
    slots: &[AtomSet],
    atom: usize,
    devices: &[bool],
    far: usize,
    distances: &mut [Option<usize>],
) -> bool
    requires within { AreWithin interfaces.now (length devices.now) (length distances.old) }
    requires slots { length slots.now ≡ 2 * length interfaces.now }
    ensures nearer { AreNearer interfaces.now (lets_atom slots.now atom) devices.now far (length interfaces.now) distances.old distances.new }
    ensures grew { OnTrue result (unknown distances.new < unknown distances.old) }
    ensures same { OnFalse result (distances.new ≡ distances.old) }
{
    let mut grew = false;
    for n in 0..interfaces.len() {
        grew |= approach(interfaces, slots, atom, devices, far, distances, n);
    }
    grew
}

/// Gives distances round by round, until a round gives none.
fn go_back(
    alloc: Global,
    interfaces: &[Interface],
    slots: &[AtomSet],
    atom: usize,
    to: AreaId,
    distances: &mut [Option<usize>],
    devices: usize,
) -> Result<(), AllocError>
    requires within { AreWithin interfaces.now devices (length distances.old) }
    requires slots { length slots.now ≡ 2 * length interfaces.now }
    requires few { length distances.old ≤ 65536 }
    requires known { AreKnown interfaces.now (lets_atom slots.now atom) to 0 distances.old }
    ensures { OnOk result (AreDistances interfaces.now (lets_atom slots.now atom) to distances.new) }
{
    let mut near = 0;
    'rounds: loop {
        let marks = exits(alloc, interfaces, slots, atom, distances, near, devices)?;
        let grew = approach_all(
            interfaces,
            slots,
            atom,
            marks.as_slice(),
            near + 1,
            distances,
        );
        if !grew {
            return Ok(());
        }
        near += 1;
    }
}

/// The distance of each area from which the atom comes to one of them.
pub(crate) fn distances_to(
    alloc: Global,
    interfaces: &[Interface],
    slots: &[AtomSet],
    atom: usize,
    to: AreaId,
    areas: usize,
    devices: usize,
) -> Result<Vec<Option<usize>>, AllocError>
    requires within { AreWithin interfaces.now devices areas }
    requires slots { length slots.now ≡ 2 * length interfaces.now }
    requires few { areas ≤ 65536 }
    requires to { to < areas }
    ensures len { IfOk result (λ distances. vec_len distances ≡ areas) }
    ensures distances { IfOk result (λ distances. AreDistances interfaces.now (lets_atom slots.now atom) to distances.items) }
{
    let mut distances = vec![in alloc; None; areas]?;
    distances[to as usize] = Some(0);
    go_back(
        alloc,
        interfaces,
        slots,
        atom,
        to,
        distances.as_mut_slice(),
        devices,
    )?;
    Ok(distances)
}
