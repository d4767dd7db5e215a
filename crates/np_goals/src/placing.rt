//! The results put into the goals' places.

ghost use Rattle.std.specs.Prelude.{◌≡◌, ◌<◌, ℕ, List, length, IfOk};
ghost use Rattle.np_goals.specs.Cases.{HasSizes};
ghost use Rattle.np_goals.specs.Judging.{AreRight};
ghost use Rattle.np_goals.specs.Sources.{AreJudged, ArePlaced, BeginsIn};

use crate::cases::Case;
use crate::pieces::Judged;
use crate::verdicts::Verdict;
use np_net::Network;
use sqlite_items::Items;
use std::alloc::{AllocError, Global};

/// A place for each of so many goals, to be filled.
fn places(alloc: Global, count: usize) -> Result<Items<Verdict>, AllocError>
    ensures { IfOk result (λ verdicts. length verdicts ≡ count) }
{
    let mut verdicts = Items::new(alloc);
    while verdicts.len() < count {
        verdicts.push(Verdict::Holds)?;
    }
    Ok(verdicts)
}

/// Puts each result into its goal's place.
fn fill(net: &Network, case: &Case, mut results: Items<Judged>, verdicts: &mut Items<Verdict>)
    requires { ArePlaced net.now case.now results verdicts.old }
    ensures { AreRight net.now case.now (length net.now.goals) verdicts.new }
{
    while let Some(judged) = results.pop() {
        verdicts.set(judged.goal, judged.verdict);
    }
}

/// The verdicts in the order of the goals, from one result for each goal, in any order.
pub(crate) fn placed(
    alloc: Global,
    net: &Network,
    case: &Case,
    results: Items<Judged>,
) -> Result<Items<Verdict>, AllocError>
    requires { (sources : List ℕ) × AreJudged net.now case.now (BeginsIn net.now.goals sources) results × ((k : ℕ) → k < length net.now.goals → BeginsIn net.now.goals sources k) }
    ensures { IfOk result (λ verdicts. AreRight net.now case.now (length net.now.goals) verdicts) }
{
    let mut verdicts = places(alloc, net.goals.len())?;
    fill(net, case, results, &mut verdicts);
    Ok(verdicts)
}
