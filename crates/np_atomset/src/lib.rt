//! Sets of atoms, seen as lists of truth values: place n says whether atom n is a member.
//!
//! The members lie in words of 64 bits, so that joins, meets and differences of whole sets go word by word.
#![tactic(auto)]

ghost use Rattle.std.specs.Prelude.{◌≡◌, ◌≢◌, ℕ, ◌<◌, ◌↔◌, true, false, length, replicate, slice_set, IfOk, IfNone, IfSome, IsTrue};
ghost use Rattle.std.specs.Bool.{OnFalse};
ghost use Rattle.np_atomset.specs.AtomSet.{has_member, joined, met, without, AreWordsOf};

mod words;

use std::alloc::{AllocError, Global};
use std::marker::Model;

/// A set of atoms, which are counted from 0. Its length, the number of atoms there are, never changes.
#[derive(Debug, Drop)]
pub struct AtomSet {
    len: usize,
    words: Vec<u64>,
}

impl Model for AtomSet {
    ghost use Rattle.std.specs.Prelude.{Bool, List};
    ghost use Rattle.np_atomset.specs.AtomSet.{members, FitsLength};

    ghost Value = { List Bool };

    ghost view = { λ set. members set.len set.words.items };

    ghost invariant = { λ set. FitsLength set.len set.words.items };
}

impl AtomSet {
    /// The set of length `n` that has no member.
    pub fn new(alloc: Global, n: usize) -> Result<AtomSet, AllocError>
        ensures { IfOk result (λ set. set ≡ replicate n false) }
    {
        let words = words::empty(alloc, n)?;
        Ok(AtomSet { len: n, words })
    }

    /// The set of length `n` that has every member.
    pub fn full(alloc: Global, n: usize) -> Result<AtomSet, AllocError>
        ensures { IfOk result (λ set. set ≡ replicate n true) }
    {
        let words = words::full(alloc, n)?;
        Ok(AtomSet { len: n, words })
    }

    /// A second set with the same members.
    pub fn copy(&self, alloc: Global) -> Result<AtomSet, AllocError>
        ensures { IfOk result (λ set. set ≡ self.now) }
    {
        let words = Vec::from_slice(alloc, self.words.as_slice())?;
        Ok(AtomSet {
            len: self.len,
            words,
        })
    }

    /// How many atoms there are, members or not.
    pub fn len(&self) -> usize
        ensures { result ≡ length self.now }
    {
        self.len
    }

    /// Whether `n` is a member.
    pub fn has(&self, n: usize) -> bool
        requires { n < length self.now }
        ensures { result ≡ has_member self.now n }
    {
        words::has(self.words.as_slice(), n)
    }

    /// Makes `n` a member.
    pub fn insert(&mut self, n: usize)
        requires { n < length self.old }
        ensures { self.new ≡ slice_set self.old n true }
    {
        words::insert(self.words.as_mut_slice(), n);
    }

    /// Makes `n` no member.
    pub fn remove(&mut self, n: usize)
        requires { n < length self.old }
        ensures { self.new ≡ slice_set self.old n false }
    {
        words::remove(self.words.as_mut_slice(), n);
    }

    /// Adds the members of `other`, and answers whether there is one that the set did not have.
    pub fn join_with(&mut self, other: &AtomSet) -> bool
        requires { length self.old ≡ length other.now }
        ensures all { self.new ≡ joined self.old other.now }
        ensures grew { IsTrue result ↔ (self.new ≢ self.old) }
        ensures same { OnFalse result (self.new ≡ self.old) }
    {
        words::join(self.words.as_mut_slice(), other.words.as_slice())
    }

    /// Adds the members that `x` and `y` have in common, and answers whether there is one that the set did not have.
    pub fn join_met(&mut self, x: &AtomSet, y: &AtomSet) -> bool
        requires x { length self.old ≡ length x.now }
        requires y { length self.old ≡ length y.now }
        ensures all { self.new ≡ joined self.old (met x.now y.now) }
        ensures grew { IsTrue result ↔ (self.new ≢ self.old) }
        ensures same { OnFalse result (self.new ≡ self.old) }
    {
        words::join_met(
            self.words.as_mut_slice(),
            x.words.as_slice(),
            y.words.as_slice(),
        )
    }

    /// Keeps the members that `other` has too.
    pub fn meet_with(&mut self, other: &AtomSet)
        requires { length self.old ≡ length other.now }
        ensures { self.new ≡ met self.old other.now }
    {
        words::meet(self.words.as_mut_slice(), other.words.as_slice());
    }

    /// Keeps the members that `other` does not have.
    pub fn minus_with(&mut self, other: &AtomSet)
        requires { length self.old ≡ length other.now }
        ensures { self.new ≡ without self.old other.now }
    {
        words::minus(self.words.as_mut_slice(), other.words.as_slice());
    }

    /// The least member, and `None` where there is none.
    pub fn first(&self) -> Option<usize>
        ensures empty { IfNone result ((n : ℕ) → has_member self.now n ≡ false) }
        ensures within { IfSome result (λ n. n < length self.now) }
        ensures member { IfSome result (λ n. has_member self.now n ≡ true) }
        ensures least { IfSome result (λ n. (k : ℕ) → k < n → has_member self.now k ≡ false) }
    {
        words::first(self.words.as_slice())
    }

    /// The members as bits: member k is bit k mod 64 of word k / 64, counted from the lowest, and every other bit is 0.
    pub fn words(&self) -> &[u64]
        ensures { AreWordsOf self.now result.now }
    {
        self.words.as_slice()
    }
}

/// Sets are equal where they have the same length and the same members.
impl PartialEq for AtomSet {
    ghost use Rattle.std.proofs.Common.{rules};
    ghost use Rattle.std.specs.Bool.{beq};
    ghost use Rattle.std.specs.Cmp.Lexicographic.{pointwise};
    ghost use Rattle.std.specs.Cmp.Rules.{comparing};

    ghost eq = { pointwise beq };

    ghost laws = { Prim.search (comparing, rules) };

    fn eq(&self, other: &Self) -> bool {
        self.len == other.len && words::same(self.words.as_slice(), other.words.as_slice())
    }
}

impl Eq for AtomSet {
    ghost use Rattle.std.proofs.Common.{rules};
    ghost use Rattle.std.specs.Cmp.Rules.{comparing};

    ghost laws = { Prim.search (comparing, rules) };
}
