//! How packets move, and what is done to them where they are.

ghost use Rattle.std.specs.Prelude.{◌≡◌, ℕ, ◌<◌, ◌≤◌, OnOk, OnErr, length};
ghost use Rattle.np_ipsec.specs.Steps.{IsPlace, IsStep};
ghost use Rattle.np_ipsec.specs.declared.places.Motion.TheVariants as motions;
ghost use Rattle.np_traj.specs.Judging.{judged};
ghost use Rattle.np_traj.specs.Refusals as refusals;
ghost use Rattle.np_traj.specs.Refusals.{step_refusal};
ghost use Rattle.np_script.specs.Fitting.{IsMotion};
ghost use Rattle.np_traj.specs.States.{IsStateOf, led_to};
ghost use Rattle.np_ipsec.specs.Steps as model;
ghost use Rattle.np_traj.specs.States as states;

use crate::judging::{
    cross_refusal, enter_refusal, leave_refusal, pop_refusal, unentitled_push_refusal,
};
use crate::states::{Illegal, State};
use np_ipsec::{Motion, Place, is_trusted};
use np_net::{IfId, Network, SaId, area_of};

/// Into a device, by an interface of the area.
fn enter<const N: usize>(net: &Network, state: &mut State<N>, i: IfId) -> Result<(), Illegal>
    requires { i < length net.now.interfaces }
    ensures exact { result ≡ judged (refusals.enter_refusal net.now state.old i) tt }
    ensures ok { OnOk result (state.new ≡ led_to net.now state.old (motions.Enter i)) }
    ensures err { OnErr result (state.new ≡ state.old) }
{
    if let Some(why) = enter_refusal(net, state, i) {
        return Err(why);
    }
    state.place = Place::AtIn(i);
    state.mark = None;
    Ok(())
}

/// The mark of a packet after its outermost header was removed, which was that of association `top`.
fn mark_after_pop(trusted: bool, top: Option<SaId>) -> Option<SaId>
    ensures { result ≡ states.mark_after_pop trusted top }
{
    if trusted { top } else { None }
}

/// The outermost header is removed; a trusted device marks the packet with its association.
#[tactic(auto, using(crate::proofs::StackLaws::popped))]
fn pop<const N: usize>(net: &Network, state: &mut State<N>) -> Result<(), Illegal>
    requires { IsStateOf net.now state.old }
    ensures exact { result ≡ judged (refusals.pop_refusal net.now state.old) tt }
    ensures ok { OnOk result (state.new ≡ led_to net.now state.old motions.Pop) }
    ensures err { OnErr result (state.new ≡ state.old) }
{
    if let Some(why) = pop_refusal(net, state) {
        return Err(why);
    }
    let trusted = is_trusted(net, state.place);
    let top = state.stack.pop();
    state.mark = mark_after_pop(trusted, top);
    Ok(())
}

/// Through a device, to where it goes out by interface `j`.
fn cross<const N: usize>(net: &Network, state: &mut State<N>, j: IfId) -> Result<(), Illegal>
    requires place { IsPlace net.now state.old.place }
    requires j_in { j < length net.now.interfaces }
    ensures exact { result ≡ judged (refusals.cross_refusal net.now state.old j) tt }
    ensures ok { OnOk result (state.new ≡ led_to net.now state.old (motions.Cross j)) }
    ensures err { OnErr result (state.new ≡ state.old) }
{
    if let Some(why) = cross_refusal(net, state, j) {
        return Err(why);
    }
    state.place = Place::AtOut(j);
    state.mark = None;
    Ok(())
}

/// A header of association `k` is put around the packet.
fn push<const N: usize>(net: &Network, state: &mut State<N>, k: SaId) -> Result<(), Illegal>
    requires place { IsPlace net.now state.old.place }
    requires k_in { k < length net.now.sas }
    ensures exact { result ≡ judged (refusals.push_refusal net.now N state.old k) tt }
    ensures ok { OnOk result (state.new ≡ led_to net.now state.old (motions.Push k)) }
    ensures err { OnErr result (state.new ≡ state.old) }
{
    if let Some(why) = unentitled_push_refusal(net, state, k) {
        return Err(why);
    }
    match state.stack.push(k) {
        Ok(()) => Ok(()),
        Err(_) => Err(Illegal::Full),
    }
}

/// Where a packet is that leaves a device.
fn outside(net: &Network, place: Place) -> Place
    requires { IsPlace net.now place }
    ensures { result ≡ states.outside net.now place }
{
    match place {
        Place::AtOut(j) => Place::AtArea(area_of(net, j)),
        Place::AtArea(_) | Place::AtIn(_) => place,
    }
}

/// Out of a device, to the area of the interface.
fn leave<const N: usize>(net: &Network, state: &mut State<N>) -> Result<(), Illegal>
    requires { IsPlace net.now state.old.place }
    ensures exact { result ≡ judged (refusals.leave_refusal net.now state.old) tt }
    ensures ok { OnOk result (state.new ≡ led_to net.now state.old motions.Leave) }
    ensures err { OnErr result (state.new ≡ state.old) }
{
    if let Some(why) = leave_refusal(net, state) {
        return Err(why);
    }
    state.place = outside(net, state.place);
    Ok(())
}

/// Moves a packet, or answers the first reason why it doesn't move so and leaves it as it is.
fn moved<const N: usize>(net: &Network, state: &mut State<N>, m: Motion) -> Result<(), Illegal>
    requires state { IsStateOf net.now state.old }
    requires motion { IsMotion net.now m }
    ensures exact { result ≡ judged (step_refusal net.now N state.old m) tt }
    ensures ok { OnOk result (state.new ≡ led_to net.now state.old m) }
    ensures err { OnErr result (state.new ≡ state.old) }
{
    match m {
        Motion::Enter(i) => enter(net, state, i),
        Motion::Pop => pop(net, state),
        Motion::Cross(j) => cross(net, state, j),
        Motion::Push(k) => push(net, state, k),
        Motion::Leave => leave(net, state),
    }
}

/// Moves a packet by one step, at the depth `N`. A trusted place moves it by its tables; whoever isn't trusted does what can be
/// done without keys (Guttman and Herzog 2005; RFC 4301). The error is the first reason why there is no step, in the order in
/// which the motion's conditions are judged; the packet is then as it was.
#[tactic(auto, using(crate::proofs::MotionLaws::taken, crate::proofs::MotionLaws::taken_deeper, crate::proofs::MotionLaws::refused))]
pub fn step<const N: usize>(net: &Network, state: &mut State<N>, m: Motion) -> Result<(), Illegal>
    requires state { IsStateOf net.now state.old }
    requires motion { IsMotion net.now m }
    ensures exact { result ≡ judged (step_refusal net.now N state.old m) tt }
    ensures ok { OnOk result (IsStep net.now N m state.old state.new) }
    ensures more { OnOk result ((depth : ℕ) → N ≤ depth → IsStep net.now depth m state.old state.new) }
    ensures fits { IsStateOf net.now state.new }
    ensures none { OnErr result ((t : model.State) → IsStep net.now N m state.old t → ⊥) }
    ensures err { OnErr result (state.new ≡ state.old) }
{
    let _areas = &net.areas;
    moved(net, state, m)
}
