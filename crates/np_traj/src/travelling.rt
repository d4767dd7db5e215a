//! The moves of a script.

ghost use Rattle.std.specs.Prelude.{◌≡◌, All, IfOk};
ghost use Rattle.np_script.specs.Fitting.{AreMotions};
ghost use Rattle.np_traj.specs.Replaying.{AreTravelled};
ghost use Rattle.np_traj.specs.States.{IsStateOf};

use crate::states::{Illegal, State};
use crate::stepping::step;
use np_ipsec::Motion;
use np_net::Network;
use sqlite_items::Items;
use std::alloc::{AllocError, Global};

/// The states of a packet, and where it was stopped.
#[derive(Drop)]
pub(crate) struct Travelled<const N: usize> {
    pub states: Items<State<N>>,
    /// The first move that was refused, counted from 1.
    pub stop: Option<(usize, Illegal)>,
}

/// Makes the moves from a start until one is refused.
pub(crate) fn travel<const N: usize>(
    alloc: Global,
    net: &Network,
    first: State<N>,
    moves: &[Motion],
) -> Result<Travelled<N>, AllocError>
    requires first { IsStateOf net.now first }
    requires moves { AreMotions net.now moves.now }
    ensures travelled { IfOk result (λ travel. AreTravelled net.now N first.entry moves.now travel.states travel.stop) }
    ensures each { IfOk result (λ travel. All (λ s. IsStateOf net.now s) travel.states) }
{
    let mut last = first;
    let mut states = Items::new(alloc);
    states.push(last.copy())?;
    for (n, m) in moves.iter().enumerate() {
        if let Err(why) = step(net, &mut last, *m) {
            return Ok(Travelled {
                states,
                stop: Some((n + 1, why)),
            });
        }
        states.push(last.copy())?;
    }
    Ok(Travelled { states, stop: None })
}
