//! The atoms that break goals.

ghost use Rattle.std.specs.Prelude.{◌≡◌, ◌⊎◌, ◌<◌, length, IfOk};
ghost use Rattle.np_goals.specs.Cases.{HasSizes};
ghost use Rattle.np_goals.specs.Judging.{AreFlows};
ghost use Rattle.np_synth.specs.Steps.{AreSlots, AreCommon, Breaks, AreBreaking, AreBreakingSome, IsPathOf};

use np_atomset::AtomSet;
use np_flow::{Posture, Reached, first_path};
use np_goals::{Case, flows};
use np_net::{Network, Path};
use std::alloc::{AllocError, Global};

/// The atoms that both sets have. The second may have no atoms at all, as where a network has no
/// interfaces.
fn common(alloc: Global, xs: &AtomSet, ys: &AtomSet) -> Result<AtomSet, AllocError>
    requires { (length ys.now ≡ length xs.now) ⊎ (length ys.now ≡ 0) }
    ensures { IfOk result (λ set. AreCommon xs.now ys.now set) }
{
    if xs.len() != ys.len() {
        return AtomSet::new(alloc, xs.len());
    }
    let mut both = xs.copy(alloc)?;
    both.meet_with(ys);
    Ok(both)
}

/// The atoms that break the goal of this number: it forbids them, and some path of this posture, whose
/// flows these are, carries them from its one area to the other.
pub(crate) fn breaking(
    alloc: Global,
    net: &Network,
    case: &Case,
    posture: &Posture,
    flows: &[Option<Reached>],
    k: usize,
) -> Result<AtomSet, AllocError>
    requires sizes { HasSizes net.now.interfaces net.now.goals case.now }
    requires slots { AreSlots net.now.interfaces (length case.now.leasts) posture.now.slots }
    requires flows { AreFlows net.now posture.now.slots (length net.now.areas) flows.now }
    requires goal { k < length net.now.goals }
    ensures { IfOk result (λ set. AreBreaking net.now case.now posture.now.slots k set) }
{
    let goal = &net.goals.as_slice()[k];
    match &flows[goal.from as usize] {
        Some(reached) => common(alloc, &case.bad.as_slice()[k], reached.at(goal.to)),
        None => unreachable!(),
    }
}

/// The atoms that break some goal in this posture. Each area at which goals begin has one flow.
pub(crate) fn breaking_any(
    alloc: Global,
    net: &Network,
    case: &Case,
    posture: &Posture,
) -> Result<AtomSet, AllocError>
    requires sizes { HasSizes net.now.interfaces net.now.goals case.now }
    requires slots { AreSlots net.now.interfaces (length case.now.leasts) posture.now.slots }
    ensures { IfOk result (λ set. AreBreakingSome net.now case.now posture.now.slots (length net.now.goals) set) }
{
    let flows = flows(alloc, net, posture)?;
    let mut all = AtomSet::new(alloc, case.leasts.len())?;
    for k in 0..net.goals.len() {
        let more = breaking(alloc, net, case, posture, flows.as_slice(), k)?;
        all.join_with(&more);
    }
    Ok(all)
}

/// The first path of the goal of this number that carries an atom that breaks it in this posture.
pub(crate) fn breaking_path(
    alloc: Global,
    net: &Network,
    case: &Case,
    posture: &Posture,
    k: usize,
    atom: usize,
) -> Result<Path, AllocError>
    requires slots { AreSlots net.now.interfaces (length case.now.leasts) posture.now.slots }
    requires breaks { Breaks net.now case.now posture.now.slots k atom }
    ensures { IfOk result (λ path. IsPathOf net.now posture.now.slots k atom path.hops) }
{
    let goal = &net.goals.as_slice()[k];
    match first_path(alloc, net, posture, atom, goal.from, goal.to)? {
        Some(path) => Ok(path),
        None => unreachable!(),
    }
}
