//! Sets of atoms go from areas into devices and out again, in rounds over the interfaces. A round skips the interfaces behind which
//! nothing grew in the round before: they would add nothing.

ghost use Rattle.std.specs.Prelude.{◌≡◌, ℕ, ◌+◌, ◌*◌, ◌<◌, false, true, [], length, replicate, slice_index_or};
ghost use Rattle.std.specs.Bool.{OnFalse, OnTrue};
ghost use Rattle.np_atomset.specs.AtomSet.{has_member};
ghost use Rattle.np_net.specs.Path as path;
ghost use Rattle.np_flow.specs.Postures.{atom_count, AllHaveLength};
ghost use Rattle.np_flow.specs.Spread.{total, AreEmpty, AreWithin, Begins, Enters, Leaves, Adds, AreAdded, AreMarked, StayMarked, IsDone, AreDone, AreReached, HoldReached};

use np_atomset::AtomSet;
use np_net::{AreaId, DevId, Interface};

/// The device of interface `n`.
pub(crate) fn device_of(interfaces: &[Interface], n: usize) -> DevId
    requires { n < length interfaces.now }
    ensures { result ≡ path.device_of interfaces.now n }
{
    interfaces[n].device
}

/// The area of interface `n`.
pub(crate) fn area_of(interfaces: &[Interface], n: usize) -> AreaId
    requires { n < length interfaces.now }
    ensures { result ≡ path.area_of interfaces.now n }
{
    interfaces[n].area
}

fn set_at(sets: &[AtomSet], n: usize) -> &AtomSet
    requires { n < length sets.now }
    ensures { result.now ≡ slice_index_or sets.now n [] }
{
    &sets[n]
}

/// Marks set `at`, if it grew.
fn mark(marks: &mut [bool], at: usize, grew: bool)
    requires { at < length marks.old }
    ensures marked { OnTrue grew (has_member marks.new at ≡ true) }
    ensures stay { StayMarked marks.old marks.new }
{
    if grew {
        marks[at] = true;
    }
}

/// Takes every mark away.
fn clear(marks: &mut [bool])
    ensures { (k : ℕ) → has_member marks.new k ≡ false }
{
    marks.fill(false);
}

/// Adds to set `at` what `x` and `y` have in common, and marks the set and answers `true` where it had not all of it.
fn join_at(sets: &mut [AtomSet], marks: &mut [bool], at: usize, x: &AtomSet, y: &AtomSet) -> bool
    requires place { at < length sets.old }
    requires marks { length marks.old ≡ length sets.old }
    requires x { length (slice_index_or sets.old at []) ≡ length x.now }
    requires y { length (slice_index_or sets.old at []) ≡ length y.now }
    ensures adds { Adds (λ atom. (has_member x.now atom ≡ true) × (has_member y.now atom ≡ true)) at sets.old sets.new }
    ensures grew { OnTrue result (total sets.old < total sets.new) }
    ensures same { OnFalse result (sets.new ≡ sets.old) }
    ensures marked { OnTrue result (has_member marks.new at ≡ true) }
    ensures stay { StayMarked marks.old marks.new }
{
    let grew = sets[at].join_met(x, y);
    mark(marks, at, grew);
    grew
}

/// Lets atoms go in at interface `n` that reach its area, and marks its device and answers `true` where it had not all of them.
fn enter(
    interfaces: &[Interface],
    slots: &[AtomSet],
    areas: &[AtomSet],
    devices: &mut [AtomSet],
    fresh_devices: &mut [bool],
    n: usize,
) -> bool
    requires within { AreWithin interfaces.now (length devices.old) (length areas.now) }
    requires place { n < length interfaces.now }
    requires slots { length slots.now ≡ 2 * length interfaces.now }
    requires widths { AllHaveLength (atom_count slots.now) slots.now }
    requires areas { AllHaveLength (atom_count slots.now) areas.now }
    requires devices { AllHaveLength (atom_count slots.now) devices.old }
    requires marks { length fresh_devices.old ≡ length devices.old }
    ensures adds { Adds (Enters interfaces.now slots.now areas.now n) (path.device_of interfaces.now n) devices.old devices.new }
    ensures same { OnFalse result (devices.new ≡ devices.old) }
    ensures marked { OnTrue result (has_member fresh_devices.new (path.device_of interfaces.now n) ≡ true) }
    ensures stay { StayMarked fresh_devices.old fresh_devices.new }
{
    join_at(
        devices,
        fresh_devices,
        device_of(interfaces, n) as usize,
        set_at(slots, 2 * n),
        set_at(areas, area_of(interfaces, n) as usize),
    )
}

/// Lets atoms go in at interface `n` that reach its area, if the area is marked: where it isn't, they are in the device already.
fn enter_if_fresh(
    interfaces: &[Interface],
    slots: &[AtomSet],
    areas: &[AtomSet],
    devices: &mut [AtomSet],
    fresh_areas: &[bool],
    fresh_devices: &mut [bool],
    n: usize,
)
    requires within { AreWithin interfaces.now (length devices.old) (length areas.now) }
    requires place { n < length interfaces.now }
    requires slots { length slots.now ≡ 2 * length interfaces.now }
    requires widths { AllHaveLength (atom_count slots.now) slots.now }
    requires areas { AllHaveLength (atom_count slots.now) areas.now }
    requires devices { AllHaveLength (atom_count slots.now) devices.old }
    requires fresh_areas { length fresh_areas.now ≡ length areas.now }
    requires fresh_devices { length fresh_devices.old ≡ length devices.old }
    requires done { IsDone (Enters interfaces.now slots.now areas.now) (path.area_of interfaces.now) (path.device_of interfaces.now) fresh_areas.now devices.old n }
    ensures adds { Adds (Enters interfaces.now slots.now areas.now n) (path.device_of interfaces.now n) devices.old devices.new }
    ensures marked { AreMarked devices.old devices.new fresh_devices.new }
    ensures stay { StayMarked fresh_devices.old fresh_devices.new }
{
    if fresh_areas[area_of(interfaces, n) as usize] {
        enter(interfaces, slots, areas, devices, fresh_devices, n);
    }
}

/// Lets atoms go out at interface `n` that can be in its device, and marks its area and answers `true` where it had not all of them.
fn leave(
    interfaces: &[Interface],
    slots: &[AtomSet],
    devices: &[AtomSet],
    areas: &mut [AtomSet],
    fresh_areas: &mut [bool],
    n: usize,
) -> bool
    requires within { AreWithin interfaces.now (length devices.now) (length areas.old) }
    requires place { n < length interfaces.now }
    requires slots { length slots.now ≡ 2 * length interfaces.now }
    requires widths { AllHaveLength (atom_count slots.now) slots.now }
    requires devices { AllHaveLength (atom_count slots.now) devices.now }
    requires areas { AllHaveLength (atom_count slots.now) areas.old }
    requires marks { length fresh_areas.old ≡ length areas.old }
    ensures adds { Adds (Leaves interfaces.now slots.now devices.now n) (path.area_of interfaces.now n) areas.old areas.new }
    ensures grew { OnTrue result (total areas.old < total areas.new) }
    ensures same { OnFalse result (areas.new ≡ areas.old) }
    ensures marked { OnTrue result (has_member fresh_areas.new (path.area_of interfaces.now n) ≡ true) }
    ensures stay { StayMarked fresh_areas.old fresh_areas.new }
{
    join_at(
        areas,
        fresh_areas,
        area_of(interfaces, n) as usize,
        set_at(slots, 2 * n + 1),
        set_at(devices, device_of(interfaces, n) as usize),
    )
}

/// Lets atoms go out at interface `n` that can be in its device, if the device is marked: where it isn't, they are on the area already.
/// Answers whether the area had not all of them.
fn leave_if_fresh(
    interfaces: &[Interface],
    slots: &[AtomSet],
    devices: &[AtomSet],
    areas: &mut [AtomSet],
    fresh_devices: &[bool],
    fresh_areas: &mut [bool],
    n: usize,
) -> bool
    requires within { AreWithin interfaces.now (length devices.now) (length areas.old) }
    requires place { n < length interfaces.now }
    requires slots { length slots.now ≡ 2 * length interfaces.now }
    requires widths { AllHaveLength (atom_count slots.now) slots.now }
    requires devices { AllHaveLength (atom_count slots.now) devices.now }
    requires areas { AllHaveLength (atom_count slots.now) areas.old }
    requires fresh_devices { length fresh_devices.now ≡ length devices.now }
    requires fresh_areas { length fresh_areas.old ≡ length areas.old }
    requires done { IsDone (Leaves interfaces.now slots.now devices.now) (path.device_of interfaces.now) (path.area_of interfaces.now) fresh_devices.now areas.old n }
    ensures adds { Adds (Leaves interfaces.now slots.now devices.now n) (path.area_of interfaces.now n) areas.old areas.new }
    ensures grew { OnTrue result (total areas.old < total areas.new) }
    ensures same { OnFalse result (areas.new ≡ areas.old) }
    ensures marked { AreMarked areas.old areas.new fresh_areas.new }
    ensures stay { StayMarked fresh_areas.old fresh_areas.new }
{
    if fresh_devices[device_of(interfaces, n) as usize] {
        leave(interfaces, slots, devices, areas, fresh_areas, n)
    } else {
        false
    }
}

/// Lets atoms go in at interface `n`, if it is on the area where they start.
fn begin(
    interfaces: &[Interface],
    slots: &[AtomSet],
    from: AreaId,
    devices: &mut [AtomSet],
    n: usize,
)
    requires device { path.device_of interfaces.now n < length devices.old }
    requires place { n < length interfaces.now }
    requires slots { length slots.now ≡ 2 * length interfaces.now }
    requires widths { AllHaveLength (atom_count slots.now) slots.now }
    requires devices { AllHaveLength (atom_count slots.now) devices.old }
    ensures { Adds (Begins interfaces.now slots.now from n) (path.device_of interfaces.now n) devices.old devices.new }
{
    if area_of(interfaces, n) == from {
        let inside = device_of(interfaces, n) as usize;
        devices[inside].join_with(set_at(slots, 2 * n));
    }
}

/// Lets atoms go in at each interface of the area where they start.
fn begin_all(interfaces: &[Interface], slots: &[AtomSet], from: AreaId, devices: &mut [AtomSet])
    requires within { (n : ℕ) → n < length interfaces.now → path.device_of interfaces.now n < length devices.old }
    requires slots { length slots.now ≡ 2 * length interfaces.now }
    requires widths { AllHaveLength (atom_count slots.now) slots.now }
    requires devices { AllHaveLength (atom_count slots.now) devices.old }
    ensures { AreAdded (Begins interfaces.now slots.now from) (path.device_of interfaces.now) (length interfaces.now) devices.old devices.new }
{
    for n in 0..interfaces.len() {
        begin(interfaces, slots, from, devices, n);
    }
}

/// Lets atoms go in at each interface whose area is marked, and marks each device that had not all of them.
fn enter_all(
    interfaces: &[Interface],
    slots: &[AtomSet],
    areas: &[AtomSet],
    devices: &mut [AtomSet],
    fresh_areas: &[bool],
    fresh_devices: &mut [bool],
)
    requires within { AreWithin interfaces.now (length devices.old) (length areas.now) }
    requires slots { length slots.now ≡ 2 * length interfaces.now }
    requires widths { AllHaveLength (atom_count slots.now) slots.now }
    requires areas { AllHaveLength (atom_count slots.now) areas.now }
    requires devices { AllHaveLength (atom_count slots.now) devices.old }
    requires fresh_areas { length fresh_areas.now ≡ length areas.now }
    requires fresh_devices { length fresh_devices.old ≡ length devices.old }
    requires done { AreDone (Enters interfaces.now slots.now areas.now) (path.area_of interfaces.now) (path.device_of interfaces.now) (length interfaces.now) fresh_areas.now devices.old }
    ensures added { AreAdded (Enters interfaces.now slots.now areas.now) (path.device_of interfaces.now) (length interfaces.now) devices.old devices.new }
    ensures marked { AreMarked devices.old devices.new fresh_devices.new }
{
    for n in 0..interfaces.len() {
        enter_if_fresh(
            interfaces,
            slots,
            areas,
            devices,
            fresh_areas,
            fresh_devices,
            n,
        );
    }
}

/// Lets atoms go out at each interface whose device is marked, and marks each area that had not all of them. Answers whether there
/// is one.
fn leave_all(
    interfaces: &[Interface],
    slots: &[AtomSet],
    devices: &[AtomSet],
    areas: &mut [AtomSet],
    fresh_devices: &[bool],
    fresh_areas: &mut [bool],
) -> bool
    requires within { AreWithin interfaces.now (length devices.now) (length areas.old) }
    requires slots { length slots.now ≡ 2 * length interfaces.now }
    requires widths { AllHaveLength (atom_count slots.now) slots.now }
    requires devices { AllHaveLength (atom_count slots.now) devices.now }
    requires areas { AllHaveLength (atom_count slots.now) areas.old }
    requires fresh_devices { length fresh_devices.now ≡ length devices.now }
    requires fresh_areas { length fresh_areas.old ≡ length areas.old }
    requires done { AreDone (Leaves interfaces.now slots.now devices.now) (path.device_of interfaces.now) (path.area_of interfaces.now) (length interfaces.now) fresh_devices.now areas.old }
    ensures added { AreAdded (Leaves interfaces.now slots.now devices.now) (path.area_of interfaces.now) (length interfaces.now) areas.old areas.new }
    ensures grew { OnTrue result (total areas.old < total areas.new) }
    ensures same { OnFalse result (areas.new ≡ areas.old) }
    ensures marked { AreMarked areas.old areas.new fresh_areas.new }
{
    let mut grew = false;
    for n in 0..interfaces.len() {
        grew |= leave_if_fresh(
            interfaces,
            slots,
            devices,
            areas,
            fresh_devices,
            fresh_areas,
            n,
        );
    }
    grew
}

/// Lets atoms start from an area, and go on until they reach no other one. Each device is marked before: a mark says that what is in
/// the device, or on the area, has still to go on.
pub(crate) fn spread(
    interfaces: &[Interface],
    slots: &[AtomSet],
    from: AreaId,
    devices: &mut [AtomSet],
    areas: &mut [AtomSet],
    fresh_devices: &mut [bool],
    fresh_areas: &mut [bool],
)
    requires within { AreWithin interfaces.now (length devices.old) (length areas.old) }
    requires slots { length slots.now ≡ 2 * length interfaces.now }
    requires widths { AllHaveLength (atom_count slots.now) slots.now }
    requires devices { AllHaveLength (atom_count slots.now) devices.old }
    requires areas { AllHaveLength (atom_count slots.now) areas.old }
    requires no_devices { AreEmpty devices.old }
    requires no_areas { AreEmpty areas.old }
    requires fresh_devices { fresh_devices.old ≡ replicate (length devices.old) true }
    requires fresh_areas { length fresh_areas.old ≡ length areas.old }
    ensures widths { AllHaveLength (atom_count slots.now) areas.new }
    ensures sound { AreReached interfaces.now slots.now from areas.new }
    ensures complete { HoldReached interfaces.now slots.now from areas.new }
{
    begin_all(interfaces, slots, from, devices);
    'rounds: while leave_all(
        interfaces,
        slots,
        devices,
        areas,
        fresh_devices,
        fresh_areas,
    ) {
        clear(fresh_devices);
        enter_all(
            interfaces,
            slots,
            areas,
            devices,
            fresh_areas,
            fresh_devices,
        );
        clear(fresh_areas);
    }
}
