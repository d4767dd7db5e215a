//! The sets of classes of a partition whose classes stand for those of others.

ghost use Rattle.std.specs.Prelude.{◌≡◌, ◌<◌, false, length, slice_set, IfOk};
ghost use Rattle.np_atomset.specs.AtomSet.{has_member};
ghost use Rattle.np_partition.specs.Product.{members_at, sets_at, firsts, seconds};

use np_atomset::AtomSet;
use sqlite_items::Items;
use std::alloc::{AllocError, Global};

// Whether the set has the number, which may be past its end.
fn has(set: &AtomSet, n: usize) -> bool
    ensures { result ≡ has_member set.now n }
{
    n < set.len() && set.has(n)
}

// Makes `k` a member if that is so. It is none yet.
fn put(set: &mut AtomSet, k: usize, member: bool)
    requires within { k < length set.old }
    requires none { has_member set.old k ≡ false }
    ensures { set.new ≡ slice_set set.old k member }
{
    if member {
        set.insert(k);
    }
}

// The set that has k where the set has the number at place k.
#[tactic(auto, using(crate::proofs::SetLaws::set_all))]
fn members_at(alloc: Global, set: &AtomSet, numbers: &[usize]) -> Result<AtomSet, AllocError>
    ensures { IfOk result (λ members. members ≡ members_at set.now numbers.now) }
{
    let mut members = AtomSet::new(alloc, numbers.len())?;
    for k in 0..numbers.len() {
        put(&mut members, k, has(set, numbers[k]));
    }
    Ok(members)
}

/// For each set the set that has k where the first one has the number at place k. A number past the end of a set is none of its
/// members. Fails only for want of memory.
pub fn sets_at(
    alloc: Global,
    sets: &[AtomSet],
    numbers: &[usize],
) -> Result<Items<AtomSet>, AllocError>
    ensures { IfOk result (λ all. all ≡ sets_at sets.now numbers.now) }
{
    let mut all = Items::new(alloc);
    for set in sets {
        all.push(members_at(alloc, set, numbers)?)?;
    }
    Ok(all)
}

/// The first number of each pair.
pub(crate) fn firsts(alloc: Global, pairs: &[(usize, usize)]) -> Result<Vec<usize>, AllocError>
    ensures { IfOk result (λ numbers. numbers.items ≡ firsts pairs.now) }
{
    let mut numbers = Vec::with_capacity(alloc, pairs.len())?;
    for pair in pairs {
        numbers.push(pair.0)?;
    }
    Ok(numbers)
}

/// The second number of each pair.
pub(crate) fn seconds(alloc: Global, pairs: &[(usize, usize)]) -> Result<Vec<usize>, AllocError>
    ensures { IfOk result (λ numbers. numbers.items ≡ seconds pairs.now) }
{
    let mut numbers = Vec::with_capacity(alloc, pairs.len())?;
    for pair in pairs {
        numbers.push(pair.1)?;
    }
    Ok(numbers)
}
