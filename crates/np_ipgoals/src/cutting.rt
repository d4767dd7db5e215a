//! The cuts of a network's IPsec part: the regions of the predicates of its rules and goals, and of its areas' sources.

ghost use Rattle.std.specs.Prelude.{◌≡◌, ◌++◌, map, IfOk, OnOk};
ghost use Rattle.std.specs.List.{flat_map};
ghost use Rattle.np_space.specs.declared.headers.Header.{Header};
ghost use Rattle.np_region.specs.Keeping.{KeepsRegions, EachFits, tests_of};
ghost use Rattle.np_ipsec.specs.Goals.{goal_pred};
ghost use Rattle.np_ipgoals.specs.Cuts.{asked, ipsec_tests, source_test, table_preds};

use np_cut::{source_region, with_preds};
use np_ipsec::goal_pred;
use np_net::{Area, InRule, IpGoal, Match, Network, OutRule, Table};
use np_pred::Pred;
use np_region::Regions;
use std::alloc::{AllocError, Global};

/// Adds the predicate that a match asks of a plain header, if it does.
fn add_asked<'a>(preds: &mut Vec<&'a Pred>, top: &'a Match) -> Result<(), AllocError>
    ensures { OnOk result (map (λ pred. pred.now) preds.new.items ≡ map (λ pred. pred.now) preds.old.items ++ asked top.now) }
{
    match top {
        Match::Plain(pred) => preds.push(pred)?,
        Match::Under(_) => {}
        Match::Every => {}
    }
    Ok(())
}

/// Adds the predicates that inward rules ask.
fn add_ins<'a>(preds: &mut Vec<&'a Pred>, rules: &'a [InRule]) -> Result<(), AllocError>
    ensures { OnOk result (map (λ pred. pred.now) preds.new.items ≡ map (λ pred. pred.now) preds.old.items ++ flat_map (λ rule. asked rule.top) rules.now) }
{
    for rule in rules {
        add_asked(preds, &rule.top)?;
    }
    Ok(())
}

/// Adds the predicates that outward rules ask.
fn add_outs<'a>(preds: &mut Vec<&'a Pred>, rules: &'a [OutRule]) -> Result<(), AllocError>
    ensures { OnOk result (map (λ pred. pred.now) preds.new.items ≡ map (λ pred. pred.now) preds.old.items ++ flat_map (λ rule. asked rule.top) rules.now) }
{
    for rule in rules {
        add_asked(preds, &rule.top)?;
    }
    Ok(())
}

/// Adds the predicates that the rules of an interface ask.
fn add_table<'a>(preds: &mut Vec<&'a Pred>, table: &'a Table) -> Result<(), AllocError>
    ensures { OnOk result (map (λ pred. pred.now) preds.new.items ≡ map (λ pred. pred.now) preds.old.items ++ table_preds table.now) }
{
    add_ins(preds, table.ins.as_slice())?;
    add_outs(preds, table.outs.as_slice())?;
    Ok(())
}

/// Adds the predicates that the rules of several interfaces ask.
fn add_tables<'a>(preds: &mut Vec<&'a Pred>, tables: &'a [Table]) -> Result<(), AllocError>
    ensures { OnOk result (map (λ pred. pred.now) preds.new.items ≡ map (λ pred. pred.now) preds.old.items ++ flat_map table_preds tables.now) }
{
    for table in tables {
        add_table(preds, table)?;
    }
    Ok(())
}

/// Adds the predicates of goals.
fn add_goals<'a>(preds: &mut Vec<&'a Pred>, goals: &'a [IpGoal]) -> Result<(), AllocError>
    ensures { OnOk result (map (λ pred. pred.now) preds.new.items ≡ map (λ pred. pred.now) preds.old.items ++ map goal_pred goals.now) }
{
    for goal in goals {
        preds.push(goal_pred(goal))?;
    }
    Ok(())
}

/// The predicates that a network's rules ask, and then those of its goals.
fn all_preds(alloc: Global, net: &Network) -> Result<Vec<&Pred>, AllocError>
    ensures { IfOk result (λ preds. map (λ pred. pred.now) preds.items ≡ flat_map table_preds net.now.tables ++ map goal_pred net.now.ipgoals) }
{
    let mut preds = Vec::new(alloc);
    add_tables(&mut preds, net.tables.as_slice())?;
    add_goals(&mut preds, net.ipgoals.as_slice())?;
    Ok(preds)
}

/// Other cuts, and after them the regions of areas' sources, one for each area.
fn with_sources<S: Regions>(
    store: &mut S,
    before: Vec<S::R>,
    areas: &[Area],
) -> Result<Vec<S::R>, AllocError>
    requires { EachFits S.fits store.old before.items }
    ensures kept { KeepsRegions S.fits S.has_header store.old store.new }
    ensures fits { IfOk result (λ cuts. EachFits S.fits store.new cuts.items) }
    ensures exact { IfOk result (λ cuts. tests_of S.has_header store.new cuts.items ≡ tests_of S.has_header store.old before.items ++ map source_test areas.now) }
{
    let mut cuts = before;
    for area in areas {
        let cut = source_region(store, area.sources.as_slice())?;
        cuts.push(cut)?;
    }
    Ok(cuts)
}

/// The cuts of a network's IPsec part: the regions of the predicates that the interfaces' rules ask, one interface after
/// another, then those of the goals' predicates, and then those of the areas' sources. Fails only for want of memory.
pub fn ipsec_cuts<S: Regions>(
    alloc: Global,
    store: &mut S,
    net: &Network,
) -> Result<Vec<S::R>, AllocError>
    ensures kept { KeepsRegions S.fits S.has_header store.old store.new }
    ensures fits { IfOk result (λ cuts. EachFits S.fits store.new cuts.items) }
    ensures exact { IfOk result (λ cuts. tests_of S.has_header store.new cuts.items ≡ ipsec_tests net.now) }
{
    let none = Vec::new(alloc);
    let preds = all_preds(alloc, net)?;
    let cuts = with_preds(alloc, store, none, preds.as_slice())?;
    with_sources(store, cuts, net.areas.as_slice())
}
