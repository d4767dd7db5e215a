//! The areas at which goals begin.

ghost use Rattle.std.specs.Prelude.{◌≡◌, ◌<◌, ℕ, [], length, IfOk, OnOk};
ghost use Rattle.np_goals.specs.Sources.{AreAreas, BeginsIn, sources_after, with_source};

use np_net::{AreaId, Goal, Network};
use sqlite_items::Items;
use std::alloc::{AllocError, Global};

/// Adds the area unless it is there.
fn add(sources: &mut Items<AreaId>, area: AreaId) -> Result<(), AllocError>
    ensures { OnOk result (sources.new ≡ with_source sources.old area) }
{
    if !sources.as_slice().contains(&area) {
        sources.push(area)?;
    }
    Ok(())
}

/// The areas at which the goals begin, each once, in the order of first appearance.
fn of_goals(alloc: Global, goals: &[Goal]) -> Result<Items<AreaId>, AllocError>
    ensures { IfOk result (λ sources. sources ≡ sources_after [] goals.now) }
{
    let mut sources = Items::new(alloc);
    for goal in goals {
        add(&mut sources, goal.from)?;
    }
    Ok(sources)
}

/// The areas at which a network's goals begin, each once, in the order of first appearance. Fails only
/// for want of memory.
pub(crate) fn sources_of(alloc: Global, net: &Network) -> Result<Items<AreaId>, AllocError>
    ensures exact { IfOk result (λ sources. sources ≡ sources_after [] net.now.goals) }
    ensures areas { IfOk result (λ sources. AreAreas (length net.now.areas) sources) }
    ensures all { IfOk result (λ sources. (k : ℕ) → k < length net.now.goals → BeginsIn net.now.goals sources k) }
{
    of_goals(alloc, net.goals.as_slice())
}
