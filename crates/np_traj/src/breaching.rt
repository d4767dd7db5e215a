//! Which goals a trajectory breaks.
//!
//! A goal of authentication is broken where a bare packet gets to its area, and one of confidentiality where a packet is exposed:
//! so it is enough to know when that comes first, for all goals that speak of packets that start so.

ghost use Rattle.std.specs.Prelude.{◌≡◌, ℕ, ◌<◌, ◌+◌, ◌++◌, All, IfOk, OnOk, None, Some, length, slice_index_or};
ghost use Rattle.std.specs.Bool.{then_some};
ghost use Rattle.std.specs.List.{list_any};
ghost use Rattle.std.specs.Option.{option_map, option_or, option_to_list};
ghost use Rattle.np_net.specs.Network.{IsIpGoal};
ghost use Rattle.np_ipsec.specs.Tables.{is_secret};
ghost use Rattle.np_traj.specs.Breaching.{AreBreaches};
ghost use Rattle.np_traj.specs.Refusals.{is_at_area};
ghost use Rattle.np_traj.specs.Sighting.{AreArrivals, HavePlainOfFirst, IsAreaBelow, IsBreachOf, IsExposure, is_bare_at, is_exposed, is_meant, state_at};
ghost use Rattle.np_traj.specs.Sighting as sighting;
ghost use Rattle.np_traj.specs.States.{IsStateOf};

use crate::states::State;
use np_ipsec::{Place, is_trusted, secret};
use np_net::{AreaId, IpGoal, Network};
use sqlite_items::Items;
use std::alloc::{AllocError, Global};

// ---- what is seen of a state

/// Whether a place is this area.
fn is_at_area(place: Place, area: AreaId) -> bool
    ensures { result ≡ is_at_area place area }
{
    match place {
        Place::AtArea(a) => a == area,
        Place::AtIn(_) | Place::AtOut(_) => false,
    }
}

/// Whether the header of some secret association hides a packet.
#[tactic(auto, using(crate::proofs::SightLaws::none_secret))]
fn is_hidden<const N: usize>(net: &Network, state: &State<N>) -> bool
    requires { IsStateOf net.now state.now }
    ensures { result ≡ list_any (is_secret net.now) state.now.stack }
{
    for n in 0..state.stack.len() {
        if is_secret_at(net, state, n) {
            return true;
        }
    }
    false
}

/// Whether the association at position `n` from the bottom is secret.
fn is_secret_at<const N: usize>(net: &Network, state: &State<N>, n: usize) -> bool
    requires state { IsStateOf net.now state.now }
    requires within { n < length state.now.stack }
    ensures { result ≡ is_secret net.now (slice_index_or state.now.stack n 0) }
{
    match state.stack.get(n) {
        Some(k) => secret(net, k),
        None => unreachable!(),
    }
}

/// Whether a packet is where nobody is trusted, and nothing around it hides it.
fn is_exposed<const N: usize>(net: &Network, state: &State<N>) -> bool
    requires { IsStateOf net.now state.now }
    ensures { result ≡ is_exposed net.now state.now }
{
    !is_trusted(net, state.place) && !is_hidden(net, state)
}

/// The same of the state at a place of the list.
fn is_exposed_at<const N: usize>(net: &Network, states: &[State<N>], n: usize) -> bool
    requires each { All (λ s. IsStateOf net.now s) states.now }
    requires within { n < length states.now }
    ensures { result ≡ is_exposed net.now (state_at states.now n) }
{
    is_exposed(net, &states[n])
}

/// The first state at which a packet is exposed.
fn exposure<const N: usize>(net: &Network, states: &[State<N>]) -> Option<usize>
    requires { All (λ s. IsStateOf net.now s) states.now }
    ensures { IsExposure net.now states.now result }
{
    for n in 0..states.len() {
        if is_exposed_at(net, states, n) {
            return Some(n);
        }
    }
    None
}

// ---- arrivals

/// Keeps the number of a state at which a bare packet is at an area, unless one was there before.
fn note<const N: usize>(arrivals: &mut [Option<usize>], state: &State<N>, n: usize)
    requires { IsAreaBelow (length arrivals.old) state.now.place }
    ensures { (a : ℕ) → a < length arrivals.old → slice_index_or arrivals.new a None ≡ option_or (slice_index_or arrivals.old a None) (then_some (is_bare_at a state.now) n) }
{
    let Place::AtArea(area) = state.place else {
        return;
    };
    if state.stack.len() == 0 {
        arrivals[area as usize] = arrivals[area as usize].or(Some(n));
    }
}

/// The same of the state at a place of the list.
fn note_at<const N: usize>(
    net: &Network,
    arrivals: &mut [Option<usize>],
    states: &[State<N>],
    n: usize,
)
    requires areas { length arrivals.old ≡ length net.now.areas }
    requires each { All (λ s. IsStateOf net.now s) states.now }
    requires within { n < length states.now }
    requires so_far { AreArrivals states.now n arrivals.old }
    ensures { AreArrivals states.now (n + 1) arrivals.new }
{
    note(arrivals, &states[n], n);
}

/// Keeps for each area the first state at which a bare packet is there.
fn note_all<const N: usize>(net: &Network, arrivals: &mut [Option<usize>], states: &[State<N>])
    requires areas { length arrivals.old ≡ length net.now.areas }
    requires each { All (λ s. IsStateOf net.now s) states.now }
    requires start { AreArrivals states.now 0 arrivals.old }
    ensures { AreArrivals states.now (length states.now) arrivals.new }
{
    for n in 0..states.len() {
        note_at(net, arrivals, states, n);
    }
}

/// For each area the first state at which a bare packet is there.
fn arrivals<const N: usize>(
    alloc: Global,
    net: &Network,
    states: &[State<N>],
) -> Result<Vec<Option<usize>>, AllocError>
    requires { All (λ s. IsStateOf net.now s) states.now }
    ensures count { IfOk result (λ arrivals. length arrivals.items ≡ length net.now.areas) }
    ensures are { IfOk result (λ arrivals. AreArrivals states.now (length states.now) arrivals.items) }
{
    let mut arrivals = vec![in alloc; None; net.areas.len()]?;
    note_all(net, arrivals.as_mut_slice(), states);
    Ok(arrivals)
}

// ---- goals

/// Whether a goal speaks of packets that start so.
fn is_meant<const N: usize>(goal: &IpGoal, first: &State<N>) -> bool
    ensures { result ≡ is_meant goal.now first.now }
{
    match goal {
        IpGoal::Auth { from, at: _, pred } => {
            !is_at_area(first.place, *from) && pred.holds(&first.plain)
        }
        IpGoal::Conf { from, pred } => is_at_area(first.place, *from) && pred.holds(&first.plain),
    }
}

/// The state that breaks a goal first, if the goal speaks of packets that start so.
fn first_breach(arrivals: &[Option<usize>], exposed: Option<usize>, goal: &IpGoal) -> Option<usize>
    requires { IsIpGoal (length arrivals.now) goal.now }
    ensures { result ≡ sighting.first_breach arrivals.now exposed goal.now }
{
    match goal {
        IpGoal::Auth {
            from: _,
            at,
            pred: _,
        } => arrivals[*at as usize],
        IpGoal::Conf { from: _, pred: _ } => exposed,
    }
}

/// The state that breaks goal `g` first, if any does.
fn breach_of<const N: usize>(
    net: &Network,
    states: &[State<N>],
    arrivals: &[Option<usize>],
    exposed: Option<usize>,
    g: usize,
) -> Option<usize>
    requires goal { g < length net.now.ipgoals }
    requires some { 0 < length states.now }
    requires plain { HavePlainOfFirst states.now }
    requires areas { length arrivals.now ≡ length net.now.areas }
    requires arrivals { AreArrivals states.now (length states.now) arrivals.now }
    requires exposed { IsExposure net.now states.now exposed }
    ensures { IsBreachOf net.now states.now g result }
{
    let goal = &net.ipgoals.as_slice()[g];
    if is_meant(goal, &states[0]) {
        first_breach(arrivals, exposed, goal)
    } else {
        None
    }
}

/// Adds the breach of a goal, if it has one.
fn add(
    breaches: &mut Items<(usize, usize)>,
    g: usize,
    first: Option<usize>,
) -> Result<(), AllocError>
    ensures { OnOk result (breaches.new ≡ breaches.old ++ option_to_list (option_map (λ n. (g, n)) first)) }
{
    match first {
        Some(n) => breaches.push((g, n)),
        None => Ok(()),
    }
}

/// The goals that the states of a trajectory break, each with the first such state.
pub(crate) fn breaches<const N: usize>(
    alloc: Global,
    net: &Network,
    states: &[State<N>],
) -> Result<Items<(usize, usize)>, AllocError>
    requires each { All (λ s. IsStateOf net.now s) states.now }
    requires some { 0 < length states.now }
    requires plain { HavePlainOfFirst states.now }
    ensures { IfOk result (λ breaches. AreBreaches net.now states.now (length net.now.ipgoals) breaches) }
{
    let arrivals = arrivals(alloc, net, states)?;
    let exposed = exposure(net, states);
    let mut breaches = Items::new(alloc);
    for g in 0..net.ipgoals.len() {
        let first = breach_of(net, states, arrivals.as_slice(), exposed, g);
        add(&mut breaches, g, first)?;
    }
    Ok(breaches)
}
