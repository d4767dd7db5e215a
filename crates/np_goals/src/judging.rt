//! The verdict on one goal.

ghost use Rattle.std.specs.Prelude.{◌≡◌, ◌⊎◌, ◌<◌, ℕ, length, IfOk};
ghost use Rattle.np_net.specs.declared.filtering.Goal.{Goal};
ghost use Rattle.np_goals.specs.Cases.{HasSizes, goal_at};
ghost use Rattle.np_goals.specs.Judging.{AnswersLeast, IsAtomVerdict, IsBadFor, IsFlowFrom, IsInBoth, IsLeastNumber, IsRight};

use crate::cases::Case;
use crate::verdicts::Verdict;
use np_atomset::AtomSet;
use np_flow::{Reached, first_path};
use np_net::{AreaId, Network};
use std::alloc::{AllocError, Global};

/// The least atom that both sets have. The second may have no atoms at all, as where a network has no
/// interfaces.
fn first_common(alloc: Global, xs: &AtomSet, ys: &AtomSet) -> Result<Option<usize>, AllocError>
    requires { (length ys.now ≡ length xs.now) ⊎ (length ys.now ≡ 0) }
    ensures { IfOk result (λ found. AnswersLeast (IsInBoth xs.now ys.now) found) }
{
    if xs.len() != ys.len() {
        return Ok(None);
    }
    let mut both = xs.copy(alloc)?;
    both.meet_with(ys);
    Ok(both.first())
}

/// The least atom that the goal forbids and that some path from its one area, whose flow this is, to the
/// other carries.
fn least_bad(
    alloc: Global,
    net: &Network,
    case: &Case,
    source: AreaId,
    reached: &Reached,
    k: usize,
) -> Result<Option<usize>, AllocError>
    requires sizes { HasSizes net.now.interfaces net.now.goals case.now }
    requires flow { IsFlowFrom net.now case.now.posture.slots source reached.now.sets }
    requires goal { k < length net.now.goals }
    requires begins { (d : Goal) → (goal_at net.now.goals d k).from ≡ source }
    ensures { IfOk result (λ found. (d : Goal) → AnswersLeast (IsBadFor net.now case.now (goal_at net.now.goals d k) k) found) }
{
    let goal = &net.goals.as_slice()[k];
    first_common(alloc, &case.bad.as_slice()[k], reached.at(goal.to))
}

/// The verdict on a goal of which this is the least atom that breaks it.
fn violated(
    alloc: Global,
    net: &Network,
    case: &Case,
    k: usize,
    atom: usize,
) -> Result<Verdict, AllocError>
    requires sizes { HasSizes net.now.interfaces net.now.goals case.now }
    requires goal { k < length net.now.goals }
    requires least { (d : Goal) → IsLeastNumber (IsBadFor net.now case.now (goal_at net.now.goals d k) k) atom }
    ensures { IfOk result (λ verdict. (d : Goal) → IsAtomVerdict net.now case.now (goal_at net.now.goals d k) k verdict) }
{
    let goal = &net.goals.as_slice()[k];
    let header = case.leasts.as_slice()[atom];
    match first_path(alloc, net, &case.posture, atom, goal.from, goal.to)? {
        Some(path) => Ok(Verdict::Violated { header, path }),
        None => unreachable!(),
    }
}

/// The verdict on one goal, which begins at the area whose flow this is.
pub(crate) fn verdict(
    alloc: Global,
    net: &Network,
    case: &Case,
    source: AreaId,
    reached: &Reached,
    k: usize,
) -> Result<Verdict, AllocError>
    requires sizes { HasSizes net.now.interfaces net.now.goals case.now }
    requires flow { IsFlowFrom net.now case.now.posture.slots source reached.now.sets }
    requires goal { k < length net.now.goals }
    requires begins { (d : Goal) → (goal_at net.now.goals d k).from ≡ source }
    ensures { IfOk result (λ verdict. IsRight net.now case.now k verdict) }
{
    match least_bad(alloc, net, case, source, reached, k)? {
        Some(atom) => violated(alloc, net, case, k, atom),
        None => Ok(Verdict::Holds),
    }
}
