//! Cutting the valid headers into atoms by splitting classes, over any store.

ghost use Rattle.std.specs.Prelude.{◌≡◌, ◌<◌, ◌==◌, ◌&&◌, ◌∷◌, [], ◌++◌, Bool, IfOk, OnOk, List, length, map};
ghost use Rattle.std.specs.List.{All};
ghost use Rattle.np_space.specs.Header.{is_valid_header};
ghost use Rattle.np_space.specs.declared.headers.Header.{Header};
ghost use Rattle.np_region.specs.Keeping.{KeepsRegions, EachFits, tests_of};
ghost use Rattle.np_atoms.specs.Atoms.{cut_sets, AreAtoms};
ghost use Rattle.np_atomizer.specs.Numbers.{AreNumbers};
ghost use Rattle.np_atomizer.specs.AtomList.{regions_of};
ghost use Rattle.np_atomizer.specs.Splitting.{DivideValid, number_in, HasSome, AreClasses, HasParts, IsRead, AreInOrder};

use crate::atom_list::{Atom, in_order, least_members, regions};
use crate::atomizer::Atomized;
use np_atoms::Atoms;
use np_atomset::AtomSet;
use np_region::Regions;
use np_space::Header;
use sqlite_items::Items;
use std::alloc::{AllocError, Global};

// Adds the parts of the region that the cut tells apart: the region as it is, where the cut has all
// of its headers or none.
fn push_parts<S: Regions>(
    store: &mut S,
    parts: &mut Vec<S::R>,
    region: S::R,
    cut: &S::R,
) -> Result<(), AllocError>
    requires region { S.fits store.old region }
    requires cut { S.fits store.old cut.now }
    ensures kept { KeepsRegions S.fits S.has_header store.old store.new }
    ensures parts { OnOk result (HasParts S.fits S.has_header store.old store.new cut.now region parts.old.items parts.new.items) }
{
    let inside = store.meet(&region, cut)?;
    if store.is_empty(&inside) {
        parts.push(region)?;
        return Ok(());
    }
    let outside = store.minus(&region, cut)?;
    if store.is_empty(&outside) {
        parts.push(region)?;
        return Ok(());
    }
    parts.push(inside)?;
    parts.push(outside)?;
    Ok(())
}

// The classes that one cut more tells apart.
fn split_each<S: Regions>(
    alloc: Global,
    store: &mut S,
    classes: Vec<S::R>,
    cut: &S::R,
) -> Result<Vec<S::R>, AllocError>
    requires classes { EachFits S.fits store.old classes.items }
    requires cut { S.fits store.old cut.now }
    ensures kept { KeepsRegions S.fits S.has_header store.old store.new }
    ensures classes { IfOk result (λ v. (tests : List (Header → Bool)) → AreClasses S.fits S.has_header store.old tests classes.items → AreClasses S.fits S.has_header store.new (tests ++ S.has_header store.old cut.now ∷ []) v.items) }
{
    let mut parts = Vec::new(alloc);
    for region in classes {
        push_parts(store, &mut parts, region, cut)?;
    }
    Ok(parts)
}

// The one class that no cut has told apart: every valid header.
fn one_class<S: Regions>(alloc: Global, store: &mut S) -> Result<Vec<S::R>, AllocError>
    ensures kept { KeepsRegions S.fits S.has_header store.old store.new }
    ensures classes { IfOk result (λ v. AreClasses S.fits S.has_header store.new [] v.items) }
{
    let mut classes = Vec::new(alloc);
    let whole = store.whole()?;
    classes.push(whole)?;
    Ok(classes)
}

// The classes that the cuts tell apart. Each cut goes over the classes once.
fn classes_of<S: Regions>(
    alloc: Global,
    store: &mut S,
    cuts: &[S::R],
) -> Result<Vec<S::R>, AllocError>
    requires { EachFits S.fits store.old cuts.now }
    ensures kept { KeepsRegions S.fits S.has_header store.old store.new }
    ensures classes { IfOk result (λ v. AreClasses S.fits S.has_header store.new (tests_of S.has_header store.old cuts.now) v.items) }
{
    let mut classes = one_class(alloc, store)?;
    for cut in cuts {
        classes = split_each(alloc, store, classes, cut)?;
    }
    Ok(classes)
}

// The atom whose region this is.
fn atom_with<S: Regions>(store: &S, region: S::R) -> Atom<S::R>
    requires fits { S.fits store.now region }
    requires some { HasSome S.has_header store.now region }
    ensures region { result.region ≡ region }
    ensures read { IsRead S.has_header store.now result }
{
    let Some(least) = store.least(&region) else {
        unreachable!()
    };
    Atom { region, least }
}

// The atoms whose regions these are, in the same order.
fn atoms_with<S: Regions>(
    alloc: Global,
    store: &S,
    regions: Vec<S::R>,
) -> Result<Vec<Atom<S::R>>, AllocError>
    requires fits { EachFits S.fits store.now regions.items }
    requires some { All (HasSome S.has_header store.now) regions.items }
    ensures regions { IfOk result (λ v. regions_of v.items ≡ regions.items) }
    ensures read { IfOk result (λ v. All (IsRead S.has_header store.now) v.items) }
{
    let mut atoms = Vec::new(alloc);
    for region in regions {
        atoms.push(atom_with(store, region))?;
    }
    Ok(atoms)
}

// The atoms that the cut has, by their least members: it has all headers of an atom or none.
fn set_of<S: Regions>(
    alloc: Global,
    store: &S,
    leasts: &[Header],
    cut: &S::R,
) -> Result<AtomSet, AllocError>
    requires { S.fits store.now cut.now }
    ensures { IfOk result (λ set. set ≡ map (S.has_header store.now cut.now) leasts.now) }
{
    let mut set = AtomSet::new(alloc, leasts.len())?;
    for (n, least) in leasts.iter().enumerate() {
        let inside = store.has(cut, least);
        if inside {
            set.insert(n);
        }
    }
    Ok(set)
}

// The atoms that each of the cuts has, in the order of the cuts.
fn sets_of<S: Regions>(
    alloc: Global,
    store: &S,
    leasts: &[Header],
    cuts: &[S::R],
) -> Result<Items<AtomSet>, AllocError>
    requires { EachFits S.fits store.now cuts.now }
    ensures { IfOk result (λ sets. sets ≡ cut_sets (tests_of S.has_header store.now cuts.now) leasts.now) }
{
    let mut sets = Items::new(alloc);
    for cut in cuts {
        sets.push(set_of(alloc, store, leasts, cut)?)?;
    }
    Ok(sets)
}

// The atoms of the classes, in the order of their least members.
fn atoms_of<S: Regions>(
    alloc: Global,
    store: &S,
    classes: Vec<S::R>,
) -> Result<Vec<Atom<S::R>>, AllocError>
    requires fits { EachFits S.fits store.now classes.items }
    requires some { All (HasSome S.has_header store.now) classes.items }
    ensures { IfOk result (λ v. (tests : List (Header → Bool)) → AreClasses S.fits S.has_header store.now tests classes.items → AreInOrder S.fits S.has_header store.now tests v.items) }
{
    let atoms = atoms_with(alloc, store, classes)?;
    Ok(in_order(atoms))
}

// The atoms of the cuts, with their regions in their order.
pub(crate) fn split<S: Regions>(
    alloc: Global,
    store: &mut S,
    cuts: &[S::R],
) -> Result<Atomized<Vec<S::R>>, AllocError>
    requires { EachFits S.fits store.old cuts.now }
    ensures kept { KeepsRegions S.fits S.has_header store.old store.new }
    ensures atoms { IfOk result (λ r. AreAtoms (tests_of S.has_header store.old cuts.now) r.atoms) }
    ensures classes { IfOk result (λ r. DivideValid (S.fits store.new) (S.has_header store.new) r.classes.items) }
    ensures count { IfOk result (λ r. length r.classes.items ≡ length r.atoms.leasts) }
    ensures numbers { IfOk result (λ r. AreNumbers (tests_of S.has_header store.old cuts.now) r.atoms.leasts (number_in (S.has_header store.new) r.classes.items)) }
{
    let classes = classes_of(alloc, store, cuts)?;
    let atoms = atoms_of(alloc, store, classes)?;
    let leasts = Items::from_vec(least_members(alloc, &atoms)?);
    let cuts = sets_of(alloc, store, leasts.as_slice(), cuts)?;
    let classes = regions(alloc, atoms)?;
    Ok(Atomized {
        atoms: Atoms { leasts, cuts },
        classes,
    })
}

// The number of the first region that has the header, and how many regions there are where none has it.
pub(crate) fn number_of<S: Regions>(store: &S, regions: &[S::R], h: &Header) -> usize
    requires { EachFits S.fits store.now regions.now }
    ensures { result ≡ number_in (S.has_header store.now) regions.now h.now }
{
    for (n, region) in regions.iter().enumerate() {
        if store.has(region, h) {
            return n;
        }
    }
    regions.len()
}

// The region with the number, once more.
pub(crate) fn region_at<S: Regions>(
    store: &mut S,
    regions: &[S::R],
    n: usize,
) -> Result<S::R, AllocError>
    requires within { n < length regions.now }
    requires divide { DivideValid (S.fits store.old) (S.has_header store.old) regions.now }
    ensures kept { KeepsRegions S.fits S.has_header store.old store.new }
    ensures fits { IfOk result (λ x. S.fits store.new x) }
    ensures exact { IfOk result (λ x. (h : Header) → S.has_header store.new x h ≡ (is_valid_header h && (number_in (S.has_header store.old) regions.now h == n))) }
{
    store.copy(&regions[n])
}
