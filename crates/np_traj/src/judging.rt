//! Why motions are refused, by the place of the packet.

ghost use Rattle.std.specs.Prelude.{◌≡◌, ◌<◌, IfSome, length};
ghost use Rattle.np_stack.specs.HeaderStack as stacks;
ghost use Rattle.np_ipsec.specs.Steps.{IsPlace, top_in};
ghost use Rattle.np_traj.specs.Refusals as refusals;
ghost use Rattle.np_traj.specs.States.{IsStateOf};

use crate::states::{Illegal, State};
use np_ipsec::{Place, Top, in_action, is_trusted, out_action, pops, secret, sound};
use np_net::{IfId, InAction, Network, OutAction, SaId, area_of, device_of};

/// The outermost header of a packet.
fn top_in<const N: usize>(state: &State<N>) -> Top
    ensures { result ≡ top_in state.now }
{
    match state.stack.top() {
        Some(k) => Top::Under(k),
        None => Top::Plain(state.plain),
    }
}

// ---- into a device

/// Why a packet doesn't come in by an interface: it isn't at the interface's area.
pub(crate) fn enter_refusal<const N: usize>(
    net: &Network,
    state: &State<N>,
    i: IfId,
) -> Option<Illegal>
    requires { i < length net.now.interfaces }
    ensures { result ≡ refusals.enter_refusal net.now state.now i }
{
    match state.place {
        Place::AtArea(area) => (area != area_of(net, i)).then_some(Illegal::NotHere),
        Place::AtIn(_) | Place::AtOut(_) => Some(Illegal::NotHere),
    }
}

// ---- a header is removed

/// Why a trusted device doesn't remove a header from a packet that came in by an interface.
fn pop_by_rule_refusal(net: &Network, i: IfId, top: Option<SaId>) -> Option<Illegal>
    requires { i < length net.now.interfaces }
    ensures { result ≡ refusals.pop_by_rule_refusal net.now i top }
{
    match top {
        Some(k) => (!pops(net, i, k)).then_some(Illegal::NoRule),
        None => Some(Illegal::NotHere),
    }
}

/// Why no header is removed at a trusted place.
fn trusted_pop_refusal(net: &Network, place: Place, top: Option<SaId>) -> Option<Illegal>
    requires { IsPlace net.now place }
    ensures { result ≡ refusals.trusted_pop_refusal net.now place top }
{
    match place {
        Place::AtIn(i) => pop_by_rule_refusal(net, i, top),
        Place::AtArea(_) | Place::AtOut(_) => Some(Illegal::NotHere),
    }
}

/// Why whoever isn't trusted doesn't remove a header: without the key nobody removes what hides the rest.
fn untrusted_pop_refusal(net: &Network, top: Option<SaId>) -> Option<Illegal>
    requires { IfSome top (λ k. k < length net.now.sas) }
    ensures { result ≡ refusals.untrusted_pop_refusal net.now top }
{
    match top {
        Some(k) => secret(net, k).then_some(Illegal::NoKey),
        None => Some(Illegal::NotHere),
    }
}

/// The outermost association, which the network has.
fn top_of<const N: usize>(net: &Network, state: &State<N>) -> Option<SaId>
    requires { IsStateOf net.now state.now }
    ensures value { result ≡ stacks.top_of state.now.stack }
    ensures within { IfSome result (λ k. k < length net.now.sas) }
{
    state.stack.top()
}

/// Why no header is removed from a packet.
pub(crate) fn pop_refusal<const N: usize>(net: &Network, state: &State<N>) -> Option<Illegal>
    requires { IsStateOf net.now state.now }
    ensures { result ≡ refusals.pop_refusal net.now state.now }
{
    let top = top_of(net, state);
    if is_trusted(net, state.place) {
        trusted_pop_refusal(net, state.place, top)
    } else {
        untrusted_pop_refusal(net, top)
    }
}

// ---- through a device

/// Whether a pop rule of the interface fits the outermost association.
fn is_to_pop(net: &Network, i: IfId, top: Option<SaId>) -> bool
    requires { i < length net.now.interfaces }
    ensures { result ≡ refusals.is_to_pop net.now i top }
{
    match top {
        Some(k) => pops(net, i, k),
        None => false,
    }
}

/// Whether a packet is discarded.
fn is_discard(action: InAction) -> bool
    ensures { result ≡ refusals.is_discard action }
{
    match action {
        InAction::Discard => true,
        InAction::Bypass => false,
    }
}

/// Why a trusted device doesn't let a packet through that came in by an interface.
fn trusted_cross_refusal<const N: usize>(
    net: &Network,
    state: &State<N>,
    i: IfId,
) -> Option<Illegal>
    requires { i < length net.now.interfaces }
    ensures { result ≡ refusals.trusted_cross_refusal net.now state.now i }
{
    if is_to_pop(net, i, state.stack.top()) {
        return Some(Illegal::MustPop);
    }
    let action = in_action(net, i, &top_in(state), state.mark);
    is_discard(action).then_some(Illegal::NotAdmitted)
}

/// Why a packet that came in by interface `i` doesn't get to interface `j`.
fn cross_between_refusal<const N: usize>(
    net: &Network,
    state: &State<N>,
    i: IfId,
    j: IfId,
) -> Option<Illegal>
    requires place { IsPlace net.now state.now.place }
    requires i_in { i < length net.now.interfaces }
    requires j_in { j < length net.now.interfaces }
    ensures { result ≡ refusals.cross_between_refusal net.now state.now i j }
{
    if device_of(net, i) != device_of(net, j) {
        Some(Illegal::NotHere)
    } else if is_trusted(net, state.place) {
        trusted_cross_refusal(net, state, i)
    } else {
        None
    }
}

/// Why a packet doesn't cross a device to interface `j`.
pub(crate) fn cross_refusal<const N: usize>(
    net: &Network,
    state: &State<N>,
    j: IfId,
) -> Option<Illegal>
    requires place { IsPlace net.now state.now.place }
    requires j_in { j < length net.now.interfaces }
    ensures { result ≡ refusals.cross_refusal net.now state.now j }
{
    match state.place {
        Place::AtIn(i) => cross_between_refusal(net, state, i, j),
        Place::AtArea(_) | Place::AtOut(_) => Some(Illegal::NotHere),
    }
}

// ---- a header is put around it

/// Whether an action puts a header of this association around a packet.
fn is_protect(action: OutAction, k: SaId) -> bool
    ensures { result ≡ refusals.is_protect action k }
{
    match action {
        OutAction::Protect(l) => l == k,
        OutAction::Bypass | OutAction::Discard => false,
    }
}

/// Why a trusted place has no right to put a header around a packet.
fn trusted_push_refusal<const N: usize>(net: &Network, state: &State<N>, k: SaId) -> Option<Illegal>
    requires { IsPlace net.now state.now.place }
    ensures { result ≡ refusals.trusted_push_refusal net.now state.now state.now.place k }
{
    match state.place {
        Place::AtOut(j) => {
            (!is_protect(out_action(net, j, &top_in(state)), k)).then_some(Illegal::NoRule)
        }
        Place::AtArea(_) | Place::AtIn(_) => Some(Illegal::NotHere),
    }
}

/// Why whoever isn't trusted can't put a header around a packet: without the key nobody makes what can't be forged.
fn untrusted_push_refusal(net: &Network, k: SaId) -> Option<Illegal>
    requires { k < length net.now.sas }
    ensures { result ≡ refusals.untrusted_push_refusal net.now k }
{
    sound(net, k).then_some(Illegal::NoKey)
}

/// Why nobody at the place puts a header around a packet, be there room for it or not.
pub(crate) fn unentitled_push_refusal<const N: usize>(
    net: &Network,
    state: &State<N>,
    k: SaId,
) -> Option<Illegal>
    requires place { IsPlace net.now state.now.place }
    requires k_in { k < length net.now.sas }
    ensures { result ≡ refusals.unentitled_push_refusal net.now state.now k }
{
    if is_trusted(net, state.place) {
        trusted_push_refusal(net, state, k)
    } else {
        untrusted_push_refusal(net, k)
    }
}

// ---- out of a device

/// Whether a packet is let out.
fn is_bypass(action: OutAction) -> bool
    ensures { result ≡ refusals.is_bypass action }
{
    match action {
        OutAction::Bypass => true,
        OutAction::Protect(_) | OutAction::Discard => false,
    }
}

/// Why a packet doesn't go out by interface `j`, at which it is.
fn leave_by_refusal<const N: usize>(net: &Network, state: &State<N>, j: IfId) -> Option<Illegal>
    requires place { IsPlace net.now state.now.place }
    requires j_in { j < length net.now.interfaces }
    ensures { result ≡ refusals.leave_by_refusal net.now state.now j }
{
    if is_trusted(net, state.place) {
        (!is_bypass(out_action(net, j, &top_in(state)))).then_some(Illegal::NotAdmitted)
    } else {
        None
    }
}

/// Why a packet doesn't leave a device.
pub(crate) fn leave_refusal<const N: usize>(net: &Network, state: &State<N>) -> Option<Illegal>
    requires { IsPlace net.now state.now.place }
    ensures { result ≡ refusals.leave_refusal net.now state.now }
{
    match state.place {
        Place::AtOut(j) => leave_by_refusal(net, state, j),
        Place::AtArea(_) | Place::AtIn(_) => Some(Illegal::NotHere),
    }
}
