//! The goals judged in several threads, by halves of the areas at which they begin.

ghost use Rattle.std.specs.Prelude.{◌≡◌, ◌<◌, ◌≤◌, ◌-◌, ◌/◌, ◌++◌, ℕ, length, IfOk};
ghost use Rattle.std.specs.Thread.{IsSync};
ghost use Rattle.np_goals.specs.Cases.{HasSizes};
ghost use Rattle.np_goals.specs.Sources.{AreAreas, AreJudged, BeginsIn};

use crate::cases::Case;
use crate::gate::Gate;
use crate::pieces::{Judged, judge_piece};
use np_net::{AreaId, Network};
use sqlite_items::Items;
use std::alloc::{AllocError, Global};
use std::marker::Sync;
use std::thread::{Threads, join};

/// Both halves of a list of areas. The first is the longer one where they differ.
fn halved(sources: &[AreaId]) -> (&[AreaId], &[AreaId])
    ensures whole { sources.now ≡ result.0.now ++ result.1.now }
    ensures first { length result.0.now ≡ length sources.now - length sources.now / 2 }
    ensures second { length result.1.now ≡ length sources.now / 2 }
    ensures areas_first { (count : ℕ) → AreAreas count sources.now → AreAreas count result.0.now }
    ensures areas_second { (count : ℕ) → AreAreas count sources.now → AreAreas count result.1.now }
{
    sources.split_at(sources.len() - sources.len() / 2)
}

/// The results of the goals that begin at these areas, found by up to so many workers. The gate is told of
/// each area.
#[cycle(halves)]
pub(crate) fn judge_halves<R: Threads + Sync, G: Gate + Sync>(
    rt: &R,
    alloc: Global,
    net: &Network,
    case: &Case,
    sources: &[AreaId],
    workers: usize,
    gate: &G,
) -> Result<Items<Judged>, AllocError>
    requires sizes { HasSizes net.now.interfaces net.now.goals case.now }
    requires areas { AreAreas (length net.now.areas) sources.now }
    ensures { IfOk result (λ results. AreJudged net.now case.now (BeginsIn net.now.goals sources.now) results) }
{
    if sources.len() < 2 || workers < 2 {
        return judge_piece(alloc, net, case, sources, gate);
    }
    let (first, second) = halved(sources);
    let front = move || -> Result<Items<Judged>, AllocError>
        requires { IsSync R.row × IsSync G.row × HasSizes net.now.interfaces net.now.goals case.now × AreAreas (length net.now.areas) first.now }
        ensures { IfOk result (λ results. AreJudged net.entry.now case.entry.now (BeginsIn net.entry.now.goals first.entry.now) results) }
    { judge_halves(rt, alloc, net, case, first, workers - workers / 2, gate) };
    let back = move || -> Result<Items<Judged>, AllocError>
        requires { IsSync R.row × IsSync G.row × HasSizes net.now.interfaces net.now.goals case.now × AreAreas (length net.now.areas) second.now }
        ensures { IfOk result (λ results. AreJudged net.entry.now case.entry.now (BeginsIn net.entry.now.goals second.entry.now) results) }
    { judge_halves(rt, alloc, net, case, second, workers / 2, gate) };
    let (some, more) = join(rt, front, back);
    let mut results = some?;
    let rest = more?;
    results.append(rest)?;
    Ok(results)
}
