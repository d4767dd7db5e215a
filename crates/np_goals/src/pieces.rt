//! The goals judged area by area, and each result named by its goal and its area.

ghost use Rattle.std.specs.Prelude.{◌≡◌, ◌<◌, ◌+◌, ◌∷◌, ℕ, [], length, IfOk, OnOk};
ghost use Rattle.np_net.specs.declared.filtering.Goal.{Goal};
ghost use Rattle.np_goals.specs.Cases.{HasSizes, goal_at};
ghost use Rattle.np_goals.specs.Judging.{IsFlowFrom};
ghost use Rattle.np_goals.specs.Sources.{AreAreas, AreJudged, BeginsBefore, BeginsIn};

use crate::cases::Case;
use crate::gate::Gate;
use crate::judging::verdict;
use crate::verdicts::Verdict;
use np_flow::{Reached, flow};
use np_net::{AreaId, Network};
use sqlite_items::Items;
use std::alloc::{AllocError, Global};

/// The verdict on a goal, with the area at which the goal begins and the goal's number.
#[derive(Drop)]
pub(crate) struct Judged {
    pub source: AreaId,
    pub goal: usize,
    pub verdict: Verdict,
}

/// Adds the result of goal k, where it begins at the area.
fn judge_goal(
    alloc: Global,
    net: &Network,
    case: &Case,
    source: AreaId,
    reached: &Reached,
    k: usize,
    results: &mut Items<Judged>,
) -> Result<(), AllocError>
    requires sizes { HasSizes net.now.interfaces net.now.goals case.now }
    requires flow { IsFlowFrom net.now case.now.posture.slots source reached.now.sets }
    requires goal { k < length net.now.goals }
    requires before { AreJudged net.now case.now (BeginsBefore net.now.goals source k) results.old }
    ensures { OnOk result (AreJudged net.now case.now (BeginsBefore net.now.goals source (k + 1)) results.new) }
{
    if net.goals.as_slice()[k].from == source {
        let verdict = verdict(alloc, net, case, source, reached, k)?;
        results.push(Judged {
            source,
            goal: k,
            verdict,
        })?;
    }
    Ok(())
}

/// The results of the goals that begin at an area of which this is the flow.
fn judge_goals(
    alloc: Global,
    net: &Network,
    case: &Case,
    source: AreaId,
    reached: &Reached,
) -> Result<Items<Judged>, AllocError>
    requires sizes { HasSizes net.now.interfaces net.now.goals case.now }
    requires flow { IsFlowFrom net.now case.now.posture.slots source reached.now.sets }
    ensures { IfOk result (λ results. AreJudged net.now case.now (BeginsBefore net.now.goals source (length net.now.goals)) results) }
{
    let mut results = Items::new(alloc);
    for k in 0..net.goals.len() {
        judge_goal(alloc, net, case, source, reached, k, &mut results)?;
    }
    Ok(results)
}

/// The results of the goals that begin at an area. Its flow lives no longer than this call.
fn judge_source(
    alloc: Global,
    net: &Network,
    case: &Case,
    source: AreaId,
) -> Result<Items<Judged>, AllocError>
    requires sizes { HasSizes net.now.interfaces net.now.goals case.now }
    requires area { source < length net.now.areas }
    ensures { IfOk result (λ results. AreJudged net.now case.now (BeginsIn net.now.goals (source ∷ [])) results) }
{
    let reached = flow(alloc, net, &case.posture, source)?;
    judge_goals(alloc, net, case, source, &reached)
}

/// The results of the goals that begin at these areas, area after area. The gate is told of each.
pub(crate) fn judge_piece<G: Gate>(
    alloc: Global,
    net: &Network,
    case: &Case,
    sources: &[AreaId],
    gate: &G,
) -> Result<Items<Judged>, AllocError>
    requires sizes { HasSizes net.now.interfaces net.now.goals case.now }
    requires areas { AreAreas (length net.now.areas) sources.now }
    ensures { IfOk result (λ results. AreJudged net.now case.now (BeginsIn net.now.goals sources.now) results) }
{
    let mut results = Items::new(alloc);
    for source in sources {
        gate.enter(*source);
        results.append(judge_source(alloc, net, case, *source)?)?;
    }
    Ok(results)
}
