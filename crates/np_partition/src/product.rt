//! The product of two partitions.

ghost use Rattle.std.specs.Prelude.{◌≡◌, ◌<◌, ◌≤◌, Bool, List, ◌++◌, length, IfOk, OnOk, IfSome, IsNone};
ghost use Rattle.np_space.specs.declared.headers.Header.{Header};
ghost use Rattle.np_bdd.specs.Views.{Bits};
ghost use Rattle.np_partition.specs.Diagram.{bit_at, IsDiagram};
ghost use Rattle.np_partition.specs.Places.{IsSplit};
ghost use Rattle.np_partition.specs.Pairing.{classes_at, lesser_bit, AreHalves, KeepsPairing, IsPaired, AddsReached, AreAllReached, IsPairMemo};
ghost use Rattle.np_partition.specs.Product.{sets_at, firsts, seconds, IsProduct};
ghost use Rattle.np_partition.specs.Partition.{IsPartition};

use crate::class_sets::{firsts, seconds, sets_at};
use crate::pair_memo::PairMemo;
use crate::pairing::Pairing;
use crate::partition::Partition;
use crate::shows::Show;
use np_atomset::AtomSet;
use sqlite_items::Items;
use std::alloc::{AllocError, Global};

// The places of a test's two branches.
#[derive(Clone, Copy)]
struct Branches {
    low: usize,
    high: usize,
}

// The branches at a bit of a place of each diagram.
#[derive(Clone, Copy)]
struct Halves {
    bit: u8,
    x: Branches,
    y: Branches,
}

// The places that decide where the bit is 0 and where it is 1. The place tests no bit before it.
#[tactic(auto, using(crate::proofs::PlaceLaws::split_at_test))]
fn split(shows: &[Show], bit: u8, at: usize) -> Branches
    requires diagram { IsDiagram shows.now }
    requires there { at < length shows.now }
    requires fits { bit < 111 }
    requires from { bit ≤ bit_at shows.now at }
    ensures { IsSplit shows.now bit result.low result.high at }
{
    match shows[at] {
        Show::Test {
            bit: tested,
            low,
            high,
        } if tested == bit => Branches { low, high },
        _ => Branches { low: at, high: at },
    }
}

// The classes of the two places, if neither tests a bit.
fn both_classes(first: &[Show], second: &[Show], x: usize, y: usize) -> Option<(usize, usize)>
    requires first { IsDiagram first.now }
    requires second { IsDiagram second.now }
    requires x { x < length first.now }
    requires y { y < length second.now }
    ensures some { IfSome result (λ pair. (bits : Bits) → classes_at bits first.now second.now x y ≡ pair) }
    ensures none { IsNone result → lesser_bit first.now second.now x y < 111 }
{
    match (first[x], second[y]) {
        (Show::Class(m), Show::Class(n)) => Some((m, n)),
        _ => None,
    }
}

// The branches of both places at the lesser of the bits that they test.
fn split_both(first: &[Show], second: &[Show], x: usize, y: usize) -> Halves
    requires first { IsDiagram first.now }
    requires second { IsDiagram second.now }
    requires x { x < length first.now }
    requires y { y < length second.now }
    requires tests { lesser_bit first.now second.now x y < 111 }
    ensures { AreHalves first.now second.now x y result }
{
    let bit = first[x].bit().min(second[y].bit());
    Halves {
        bit,
        x: split(first, bit, x),
        y: split(second, bit, y),
    }
}

impl Pairing {
    // The place for a place of each diagram, from which bits lead to the class of the pair of their classes there.
    fn pair(
        &mut self,
        memo: &mut PairMemo,
        first: &[Show],
        second: &[Show],
        x: usize,
        y: usize,
    ) -> Result<usize, AllocError>
        requires first { IsDiagram first.now }
        requires second { IsDiagram second.now }
        requires x { x < length first.now }
        requires y { y < length second.now }
        requires memo { IsPairMemo first.now second.now self.old memo.old }
        ensures kept { OnOk result (KeepsPairing self.old self.new) }
        ensures paired { IfOk result (λ z. IsPaired first.now second.now x y self.new z) }
        ensures reached { OnOk result (AddsReached first.now second.now x y self.old self.new) }
        ensures memo { OnOk result (IsPairMemo first.now second.now self.new memo.new) }
    {
        if let Some(z) = memo.found(x, y) {
            return Ok(z);
        }
        if let Some(pair) = both_classes(first, second, x, y) {
            let z = self.class(pair)?;
            memo.learn(x, y, z)?;
            return Ok(z);
        }
        let halves = split_both(first, second, x, y);
        let low = self.pair(memo, first, second, halves.x.low, halves.y.low)?;
        let high = self.pair(memo, first, second, halves.x.high, halves.y.high)?;
        let z = self.places.test(halves.bit, low, high)?;
        memo.learn(x, y, z)?;
        Ok(z)
    }
}

// For each set of the first partition, and then of the second, the pairs of classes that it has.
fn sets_of_pairs(
    alloc: Global,
    pairs: &[(usize, usize)],
    first: &[AtomSet],
    second: &[AtomSet],
) -> Result<Items<AtomSet>, AllocError>
    ensures { IfOk result (λ sets. sets ≡ sets_at first.now (firsts pairs.now) ++ sets_at second.now (seconds pairs.now)) }
{
    let numbers = firsts(alloc, pairs)?;
    let mut sets = sets_at(alloc, first, numbers.as_slice())?;
    let numbers = seconds(alloc, pairs)?;
    sets.append(sets_at(alloc, second, numbers.as_slice())?)?;
    Ok(sets)
}

// The product, with the root and the pairs that its classes stand for.
fn paired(
    alloc: Global,
    first: &Partition,
    second: &Partition,
    pairing: Pairing,
    root: usize,
) -> Result<Partition, AllocError>
    requires paired { IsPaired first.now.shows second.now.shows first.now.root second.now.root pairing root }
    requires reached { AreAllReached first.now.shows second.now.shows first.now.root second.now.root pairing }
    ensures { IfOk result (IsProduct first.now second.now pairing.pairs.keys) }
{
    let Pairing { places, pairs } = pairing;
    let sets = sets_of_pairs(
        alloc,
        pairs.as_slice(),
        first.sets.as_slice(),
        second.sets.as_slice(),
    )?;
    Ok(Partition {
        shows: places.finish(),
        root,
        classes: pairs.len(),
        sets,
    })
}

impl Partition {
    /// The classes that the tests of both partitions tell apart together: those of the first, and then those of the second. Fails
    /// only for want of memory. It makes a place for each pair of places to which the same bits lead, and looks at each set once
    /// for each class.
    pub fn with(
        alloc: Global,
        first: &Partition,
        second: &Partition,
    ) -> Result<Partition, AllocError>
        requires first { IsDiagram first.now.shows }
        requires first_root { first.now.root < length first.now.shows }
        requires second { IsDiagram second.now.shows }
        requires second_root { second.now.root < length second.now.shows }
        ensures { IfOk result (λ p. (xs ys : List (Header → Bool)) → IsPartition xs first.now → IsPartition ys second.now → IsPartition (xs ++ ys) p) }
    {
        let mut pairing = Pairing::new(alloc);
        let root = {
            let mut memo = PairMemo::new(alloc);
            pairing.pair(
                &mut memo,
                first.shows.as_slice(),
                second.shows.as_slice(),
                first.root,
                second.root,
            )?
        };
        let product = paired(alloc, first, second, pairing, root)?;
        Ok(product)
    }
}
