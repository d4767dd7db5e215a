//! The cuts of a network's filtering: the regions of its lists and of its goals' predicates.

ghost use Rattle.std.specs.Prelude.{◌≡◌, ◌++◌, map, slice_get, Some, IfOk, IfSome};
ghost use Rattle.np_space.specs.declared.headers.Header.{Header};
ghost use Rattle.np_region.specs.Keeping.{KeepsRegions, EachFits, tests_of};
ghost use Rattle.np_cut.specs.FilterCuts.{list_test, list_tests, pred_tests, filter_tests};

use crate::applied::Applied;
use crate::list_regions::list_region;
use crate::pred_regions::pred_region_with;
use np_acl::List;
use np_net::{Goal, Network};
use np_pred::Pred;
use np_region::Regions;
use std::alloc::{AllocError, Global};

// The place of a list that is the same as this one: the first, where there is one.
fn place_of(lists: &[&List], list: &List) -> Option<usize>
    ensures { IfSome result (λ n. slice_get (map (λ list. list.now) lists.now) n ≡ Some list.now) }
{
    for (n, other) in lists.iter().enumerate() {
        if other.same_as(list) {
            return Some(n);
        }
    }
    None
}

// The region of a list after others, of which these are the regions: that of the same list, where one of them
// is the same.
fn next_list<S: Regions>(
    alloc: Global,
    store: &mut S,
    before: &[&List],
    cuts: &[S::R],
    list: &List,
) -> Result<S::R, AllocError>
    requires fit { EachFits S.fits store.old cuts.now }
    requires exact { tests_of S.has_header store.old cuts.now ≡ list_tests (map (λ list. list.now) before.now) }
    ensures kept { KeepsRegions S.fits S.has_header store.old store.new }
    ensures fits { IfOk result (λ x. S.fits store.new x) }
    ensures exact { IfOk result (λ x. (h : Header) → S.has_header store.new x h ≡ list_test list.now h) }
{
    match place_of(before, list) {
        Some(place) => store.copy(&cuts[place]),
        None => list_region(alloc, store, list),
    }
}

// The regions of lists, in their order. Lists that are the same are made into a region once.
fn list_cuts<S: Regions>(
    alloc: Global,
    store: &mut S,
    lists: &[&List],
) -> Result<Vec<S::R>, AllocError>
    ensures kept { KeepsRegions S.fits S.has_header store.old store.new }
    ensures fits { IfOk result (λ cuts. EachFits S.fits store.new cuts.items) }
    ensures exact { IfOk result (λ cuts. tests_of S.has_header store.new cuts.items ≡ list_tests (map (λ list. list.now) lists.now)) }
{
    let mut cuts = Vec::new(alloc);
    for n in 0..lists.len() {
        let cut = next_list(alloc, store, &lists[..n], cuts.as_slice(), lists[n])?;
        cuts.push(cut)?;
    }
    Ok(cuts)
}

/// Other cuts, and after them the regions of the predicates, one for each, in their order. The region of many
/// addresses that stand in several of them, as an area's, is made once; no clause says so. Fails only for want
/// of memory.
pub fn with_preds<S: Regions>(
    alloc: Global,
    store: &mut S,
    before: Vec<S::R>,
    preds: &[&Pred],
) -> Result<Vec<S::R>, AllocError>
    requires { EachFits S.fits store.old before.items }
    ensures kept { KeepsRegions S.fits S.has_header store.old store.new }
    ensures fits { IfOk result (λ cuts. EachFits S.fits store.new cuts.items) }
    ensures exact { IfOk result (λ cuts. tests_of S.has_header store.new cuts.items ≡ tests_of S.has_header store.old before.items ++ pred_tests (map (λ pred. pred.now) preds.now)) }
{
    let mut cuts = before;
    let mut made = Vec::new(alloc);
    for pred in preds {
        let cut = pred_region_with(store, &mut made, pred)?;
        cuts.push(cut)?;
    }
    Ok(cuts)
}

// The predicates of goals.
fn goal_preds(alloc: Global, goals: &[Goal]) -> Result<Vec<&Pred>, AllocError>
    ensures { IfOk result (λ preds. map (λ pred. pred.now) preds.items ≡ map (λ goal. goal.pred) goals.now) }
{
    let mut preds = Vec::new(alloc);
    for goal in goals {
        preds.push(&goal.pred)?;
    }
    Ok(preds)
}

/// The cuts of a network's filtering (Guttman and Herzog 2005): the regions of the lists that are
/// applied, in their order, and then those of the goals' predicates. Lists that are the same are made into a
/// region once, and so are the addresses of an area, where there are many; no clause says so. Fails only for
/// want of memory.
pub fn filter_cuts<S: Regions>(
    alloc: Global,
    store: &mut S,
    net: &Network,
    applied: &Applied<'_>,
) -> Result<Vec<S::R>, AllocError>
    ensures kept { KeepsRegions S.fits S.has_header store.old store.new }
    ensures fits { IfOk result (λ cuts. EachFits S.fits store.new cuts.items) }
    ensures exact { IfOk result (λ cuts. tests_of S.has_header store.new cuts.items ≡ filter_tests applied.now.lists net.now.goals) }
{
    let lists = list_cuts(alloc, store, applied.lists.as_slice())?;
    let preds = goal_preds(alloc, net.goals.as_slice())?;
    with_preds(alloc, store, lists, preds.as_slice())
}
