//! The atoms among the classes of a partition, and their numbers.

ghost use Rattle.std.specs.Prelude.{◌≡◌, ◌<◌, ◌+◌, ℕ, IfOk, OnOk, length, slice_index_or};
ghost use Rattle.std.specs.List.{All};
ghost use Rattle.np_atomizer.specs.ClassAtoms.{AreListed, StandsOnce, AreNumbered};

use crate::atom_list::Atom;
use np_atomset::AtomSet;
use np_space::Header;
use std::alloc::{AllocError, Global};

// Adds class n with its least member, if it has one and is one of the set's.
fn push_class(
    atoms: &mut Vec<Atom<usize>>,
    set: &AtomSet,
    leasts: &[Option<Header>],
    n: usize,
) -> Result<(), AllocError>
    requires set { length set.now ≡ length leasts.now }
    requires within { n < length leasts.now }
    requires listed { AreListed set.now leasts.now n atoms.old.items }
    ensures { OnOk result (AreListed set.now leasts.now (n + 1) atoms.new.items) }
{
    let Some(least) = leasts[n] else {
        return Ok(());
    };
    if !set.has(n) {
        return Ok(());
    }
    atoms.push(Atom { region: n, least })?;
    Ok(())
}

// The set's classes that have a least member, in ascending order.
pub(crate) fn listed(
    alloc: Global,
    set: &AtomSet,
    leasts: &[Option<Header>],
) -> Result<Vec<Atom<usize>>, AllocError>
    requires { length set.now ≡ length leasts.now }
    ensures { IfOk result (λ v. AreListed set.now leasts.now (length leasts.now) v.items) }
{
    let mut atoms = Vec::new(alloc);
    for n in 0..leasts.len() {
        push_class(&mut atoms, set, leasts, n)?;
    }
    Ok(atoms)
}

// Writes to each class of the list the number of its place.
fn number(numbers: &mut [usize], classes: &[usize])
    requires within { All (λ k. k < length numbers.old) classes.now }
    requires once { StandsOnce classes.now }
    ensures count { length numbers.new ≡ length numbers.old }
    ensures numbers { AreNumbered classes.now (length classes.now) numbers.new }
{
    for n in 0..classes.len() {
        numbers[classes[n]] = n;
    }
}

// For each of so many classes its place in the list, and 0 for a class that isn't in it.
pub(crate) fn places(
    alloc: Global,
    count: usize,
    classes: &[usize],
) -> Result<Vec<usize>, AllocError>
    requires within { All (λ k. k < count) classes.now }
    requires once { StandsOnce classes.now }
    ensures count { IfOk result (λ v. length v.items ≡ count) }
    ensures numbers { IfOk result (λ v. AreNumbered classes.now (length classes.now) v.items) }
{
    let mut numbers = vec![in alloc; 0; count]?;
    number(numbers.as_mut_slice(), classes);
    Ok(numbers)
}

// The number of the class.
pub(crate) fn number_at(numbers: &[usize], class: usize) -> usize
    requires { class < length numbers.now }
    ensures { result ≡ slice_index_or numbers.now class 0 }
{
    numbers[class]
}
