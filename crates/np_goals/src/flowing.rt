//! The flows from the areas at which goals begin.

ghost use Rattle.std.specs.Prelude.{◌≡◌, ◌<◌, ℕ, true, false, length, IfOk};
ghost use Rattle.np_net.specs.declared.filtering.Goal.{Goal as Aim};
ghost use Rattle.np_flow.specs.Postures.{FitsInterfaces};
ghost use Rattle.np_goals.specs.Cases.{goal_at};
ghost use Rattle.np_goals.specs.Judging.{IsFlowAt, AreFlows};

use np_flow::{Posture, Reached, flow};
use np_net::{AreaId, Goal, Network};
use std::alloc::{AllocError, Global};

/// Whether some goal begins at the area.
fn begins(goals: &[Goal], area: AreaId) -> bool
    ensures all { (k : ℕ) (d : Aim) → k < length goals.now → (goal_at goals.now d k).from ≡ area → result ≡ true }
    ensures only { ((k : ℕ) (d : Aim) → k < length goals.now → (goal_at goals.now d k).from ≡ area → ⊥) → result ≡ false }
{
    for goal in goals {
        if goal.from == area {
            return true;
        }
    }
    false
}

/// The flow from the area, where some goal begins there.
fn flow_at(
    alloc: Global,
    net: &Network,
    posture: &Posture,
    area: AreaId,
) -> Result<Option<Reached>, AllocError>
    requires posture { FitsInterfaces net.now.interfaces posture.now.slots }
    requires area { area < length net.now.areas }
    ensures { IfOk result (λ found. IsFlowAt net.now posture.now.slots area found) }
{
    if !begins(net.goals.as_slice(), area) {
        return Ok(None);
    }
    Ok(Some(flow(alloc, net, posture, area)?))
}

/// For each area the flow from it where a goal begins there, and nothing elsewhere. Fails only for want of memory.
pub fn flows(
    alloc: Global,
    net: &Network,
    posture: &Posture,
) -> Result<Vec<Option<Reached>>, AllocError>
    requires { FitsInterfaces net.now.interfaces posture.now.slots }
    ensures { IfOk result (λ flows. AreFlows net.now posture.now.slots (length net.now.areas) flows.items) }
{
    let mut flows = Vec::new(alloc);
    for area in 0..net.areas.len() {
        flows.push(flow_at(alloc, net, posture, area as AreaId)?)?;
    }
    Ok(flows)
}
