//! Where packets start.

ghost use Rattle.std.specs.Prelude.{◌≡◌, IfOk, OnErr};
ghost use Rattle.np_ipsec.specs.Steps.{IsPlace};
ghost use Rattle.np_ipsec.specs.Trajectories.{IsStart};
ghost use Rattle.np_traj.specs.Judging.{judged};
ghost use Rattle.np_traj.specs.Refusals.{start_refusal, trusted_start_refusal};
ghost use Rattle.np_traj.specs.States.{IsStateOf, started};

use crate::states::{Illegal, State};
use np_ipsec::{Place, has_source, is_trusted};
use np_net::Network;
use np_space::{Header, is_valid};
use np_stack::HeaderStack;

/// What is wrong with a start at a trusted place.
fn trusted_start_refusal(net: &Network, place: Place, plain: &Header) -> Option<Illegal>
    requires { IsPlace net.now place }
    ensures { result ≡ trusted_start_refusal net.now place plain.now }
{
    match place {
        Place::AtArea(area) if has_source(net, area, plain) => None,
        Place::AtArea(_) => Some(Illegal::FalseSource),
        Place::AtIn(_) | Place::AtOut(_) => Some(Illegal::NotHere),
    }
}

/// What is wrong with a start.
fn start_refusal(net: &Network, place: Place, plain: &Header) -> Option<Illegal>
    requires { IsPlace net.now place }
    ensures { result ≡ start_refusal net.now place plain.now }
{
    if !is_valid(plain) {
        Some(Illegal::NotValid)
    } else if is_trusted(net, place) {
        trusted_start_refusal(net, place, plain)
    } else {
        None
    }
}

/// A packet with this header that starts at this place, with no header around it and no mark. At a trusted area its source has
/// to be one of the area's; whoever isn't trusted may start any packet (Guttman and Herzog 2005).
#[tactic(auto, using(crate::proofs::StartLaws::start_of_none, crate::proofs::StartLaws::none_of_start, crate::proofs::StartLaws::started_fits))]
pub fn start<const N: usize>(
    net: &Network,
    place: Place,
    plain: Header,
) -> Result<State<N>, Illegal>
    requires { IsPlace net.now place }
    ensures exact { result ≡ judged (start_refusal net.now place plain) (started place plain) }
    ensures ok { IfOk result (λ state. IsStart net.now state) }
    ensures none { OnErr result (IsStart net.now (started place plain) → ⊥) }
    ensures fits { IfOk result (λ state. IsStateOf net.now state) }
{
    match start_refusal(net, place, &plain) {
        Some(why) => Err(why),
        None => Ok(State {
            place,
            plain,
            stack: HeaderStack::new(),
            mark: None,
        }),
    }
}
