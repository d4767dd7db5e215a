//! The replay of a script.

ghost use Rattle.std.specs.Prelude.{◌≡◌, ℕ, ◌≤◌, IfOk, None, length};
ghost use Rattle.np_ipsec.specs.Trajectories.{IsStart};
ghost use Rattle.np_traj.specs.Breaching.{AreBreaches};
ghost use Rattle.np_script.specs.Fitting.{Fits};
ghost use Rattle.np_traj.specs.Refusals.{start_refusal};
ghost use Rattle.np_traj.specs.Replaying.{AreReplayed, AreTrajectory};
ghost use Rattle.np_traj.specs.States.{IsStateOf, started};

use crate::breaching::breaches;
use crate::starting::start;
use crate::states::{Illegal, State};
use crate::travelling::travel;
use np_net::Network;
use np_script::Script;
use sqlite_items::Items;
use std::alloc::{AllocError, Global};

/// A script that was replayed at the depth `N`.
#[derive(Drop)]
pub struct Replayed<const N: usize> {
    /// The start and the states after the first moves, as far as they are legal. There are none where the start is illegal.
    pub states: Items<State<N>>,
    /// The first illegal move, counted from 1, or the start as 0, and why it is illegal; `None` where all are legal.
    pub stop: Option<(usize, Illegal)>,
    /// Each IPsec goal, from 0, that some of the states breaks, with the first such state, from 0, in the order of the goals.
    pub breaches: Items<(usize, usize)>,
}

/// What a packet of a script goes through, from its start on, which is legal.
#[tactic(auto, using(crate::proofs::ReplayLaws::some_states, crate::proofs::ReplayLaws::plain_stays, crate::proofs::ReplayLaws::replayed_from, crate::proofs::ReplayLaws::trajectory_from))]
fn replay_from<const N: usize>(
    alloc: Global,
    net: &Network,
    script: &Script,
    first: State<N>,
) -> Result<Replayed<N>, AllocError>
    requires fits { Fits net.now script.now }
    requires of { IsStateOf net.now first }
    requires start { IsStart net.now first }
    requires first { first ≡ started script.now.place script.now.plain }
    requires legal { start_refusal net.now script.now.place script.now.plain ≡ None }
    ensures replayed { IfOk result (λ replay. AreReplayed net.now N script.now replay.states replay.stop) }
    ensures trajectory { IfOk result (λ replay. (depth : ℕ) → N ≤ depth → AreTrajectory net.now depth replay.states) }
    ensures breaches { IfOk result (λ replay. AreBreaches net.now replay.states (length net.now.ipgoals) replay.breaches) }
{
    let travelled = travel(alloc, net, first, script.moves.as_slice())?;
    let breaches = breaches(alloc, net, travelled.states.as_slice())?;
    Ok(Replayed {
        states: travelled.states,
        stop: travelled.stop,
        breaches,
    })
}

/// Replays a script: the longest prefix of it that is legal, where it stops, and which goals its states break. Where there are
/// states, they are a trajectory, at every larger depth too (Guttman and Herzog 2005). The error says that memory ran out.
pub fn replay<const N: usize>(
    alloc: Global,
    net: &Network,
    script: &Script,
) -> Result<Replayed<N>, AllocError>
    requires fits { Fits net.now script.now }
    requires few { N ≤ 65535 }
    ensures replayed { IfOk result (λ replay. AreReplayed net.now N script.now replay.states replay.stop) }
    ensures trajectory { IfOk result (λ replay. (depth : ℕ) → N ≤ depth → AreTrajectory net.now depth replay.states) }
    ensures breaches { IfOk result (λ replay. AreBreaches net.now replay.states (length net.now.ipgoals) replay.breaches) }
{
    match start(net, script.place, script.plain) {
        Ok(first) => replay_from(alloc, net, script, first),
        Err(why) => Ok(Replayed {
            states: Items::new(alloc),
            stop: Some((0, why)),
            breaches: Items::new(alloc),
        }),
    }
}
