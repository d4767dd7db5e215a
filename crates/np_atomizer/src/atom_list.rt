//! Lists of atoms in the making, each with what stands for its headers.

ghost use Rattle.std.specs.Prelude.{◌≡◌, IfOk};
ghost use Rattle.std.specs.List.Sorted.{IsPermutation, IsSortedBy};
ghost use Rattle.np_atomizer.specs.AtomList.{regions_of, leasts_of, is_before};

use np_space::{Header, order};
use std::alloc::{AllocError, Global};

// A class of headers that no cut tells apart: its region, or the number of its class in a partition, and its least member.
#[derive(Drop)]
pub(crate) struct Atom<R> {
    pub(crate) region: R,
    pub(crate) least: Header,
}

// The atoms in the order of their least members.
pub(crate) fn in_order<R: Drop>(mut atoms: Vec<Atom<R>>) -> Vec<Atom<R>>
    ensures same { IsPermutation atoms.items result.items }
    ensures sorted { IsSortedBy is_before result.items }
{
    atoms.sort_unstable_by(|x, y| order(&x.least, &y.least));
    atoms
}

// The least members of the atoms.
pub(crate) fn least_members<R: Drop>(
    alloc: Global,
    atoms: &[Atom<R>],
) -> Result<Vec<Header>, AllocError>
    ensures { IfOk result (λ v. v.items ≡ leasts_of atoms.now) }
{
    atoms.iter().map(|atom| atom.least).collect(alloc)
}

// The regions of the atoms.
pub(crate) fn regions<R: Drop>(alloc: Global, atoms: Vec<Atom<R>>) -> Result<Vec<R>, AllocError>
    ensures { IfOk result (λ v. v.items ≡ regions_of atoms.items) }
{
    atoms.into_iter().map(|atom| atom.region).collect(alloc)
}
