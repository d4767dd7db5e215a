//! The nodes that test an address against many patterns.

ghost use Rattle.std.specs.Prelude.{◌≡◌, true, false, ◌+◌, ◌-◌, ◌<◌, ◌≤◌, ℕ, length, IfOk};
ghost use Rattle.std.specs.List.{filter, list_all};
ghost use Rattle.np_space.specs.Bit.{has_bit};
ghost use Rattle.np_space.specs.Patterns.{any_pattern_has};
ghost use Rattle.np_bdd.specs.Fields.{any_below, allows};

use crate::header_bits::has_bit;
use crate::nodes::Nodes;
use crate::views::Node;
use np_space::Ternary;
use std::alloc::{AllocError, Global};

impl Nodes {
    ghost use Rattle.np_bdd.specs.Nodes.{KeepsNodes, StartsAt};
    ghost use Rattle.np_bdd.specs.Fields.{TestsField, IsField};

    /// The node that tests whether one of the patterns has the address of 32 bits from the first one on,
    /// and goes on at the tail. It makes the nodes of the result and no others.
    ///
    /// A prefix is looked at once for each of its bits at most. A bit that is wild in every pattern that is
    /// left is passed over; one that is wild in some, before a fixed bit, sends these both ways, so that the
    /// work may double with each such bit.
    #[tactic(auto, using(crate::proofs::PatternListLemmas::any_field_tests))]
    pub(crate) fn patterns(
        &mut self,
        alloc: Global,
        first: u8,
        patterns: &[Ternary],
        tail: Node,
    ) -> Result<Node, AllocError>
        requires fits { first + 32 ≤ 111 }
        requires tail { StartsAt self.old (first + 32) tail.at }
        ensures kept { KeepsNodes self.old self.new }
        ensures starts { IfOk result (λ z. StartsAt self.new first z.at) }
        ensures tests { IfOk result (λ z. TestsField (any_pattern_has patterns.now) first 32 self.new tail.at z.at) }
    {
        let all = Vec::from_slice(alloc, patterns)?;
        Ok(self.patterns_below(alloc, first, 32, all, tail)?)
    }

    // The node that tests whether one of the patterns agrees with the lowest bits of the address, as many
    // as the width says.
    #[tactic(auto, using(crate::proofs::KeepingLemmas::keeps_nodes_itself))]
    fn patterns_below(
        &mut self,
        alloc: Global,
        first: u8,
        width: u8,
        patterns: Vec<Ternary>,
        tail: Node,
    ) -> Result<Node, AllocError>
        requires narrow { width ≤ 32 }
        requires fits { first + 32 ≤ 111 }
        requires tail { StartsAt self.old (first + 32) tail.at }
        ensures kept { KeepsNodes self.old self.new }
        ensures is { IfOk result (λ z. IsField (any_below patterns.items width) (first + (32 - width)) width self.new tail.at z.at) }
    {
        if patterns.is_empty() {
            return Ok(self.no());
        }
        if patterns.len() == 1 {
            return Ok(self.pattern_lowest(first, width, &patterns[0], tail)?);
        }
        if is_whole(&patterns, width) {
            return Ok(tail);
        }
        if are_wild(&patterns, width - 1) {
            return Ok(self.patterns_below(alloc, first, width - 1, patterns, tail)?);
        }
        let zeros = side(alloc, width - 1, false, &patterns)?;
        let ones = side(alloc, width - 1, true, &patterns)?;
        // So the lists at hand together are at most twice as long as the first one.
        drop(patterns);
        let low = self.patterns_below(alloc, first, width - 1, zeros, tail)?;
        let high = self.patterns_below(alloc, first, width - 1, ones, tail)?;
        Ok(self.node(first + (32 - width), low, high)?)
    }
}

// Whether the lowest bits of the pattern are wild, as many as the width says.
fn is_wild_below(pattern: &Ternary, width: u8) -> bool
    requires { width ≤ 32 }
    ensures wild { result ≡ true → (i : ℕ) → i < width → has_bit pattern.now.wild i ≡ true }
    ensures more { result ≡ false → 0 < width }
{
    let ones = (1u64 << width) - 1;
    u64::from(pattern.wild) & ones == ones
}

// Whether one of the patterns, which are some, agrees with all numbers on as many of their lowest bits.
fn is_whole(patterns: &[Ternary], width: u8) -> bool
    requires narrow { width ≤ 32 }
    requires some { 0 < length patterns.now }
    ensures whole { result ≡ true → (n : ℕ) → any_below patterns.now width n ≡ true }
    ensures more { result ≡ false → 0 < width }
{
    for pattern in patterns {
        if is_wild_below(pattern, width) {
            return true;
        }
    }
    false
}

// Whether the bit is wild in each of the patterns.
fn are_wild(patterns: &[Ternary], bit: u8) -> bool
    requires { bit < 32 }
    ensures { result ≡ list_all (λ p. has_bit p.wild bit) patterns.now }
{
    patterns.iter().all(|pattern| has_bit(pattern.wild, bit))
}

// Whether the pattern has numbers with this bit.
fn allows(pattern: &Ternary, bit: u8, set: bool) -> bool
    requires { bit < 32 }
    ensures { result ≡ allows bit set pattern.now }
{
    has_bit(pattern.wild, bit) || has_bit(pattern.value, bit) == set
}

// The patterns that have numbers with this bit.
fn side(alloc: Global, bit: u8, set: bool, patterns: &[Ternary]) -> Result<Vec<Ternary>, AllocError>
    requires { bit < 32 }
    ensures { IfOk result (λ v. v.items ≡ filter (allows bit set) patterns.now) }
{
    let mut list = Vec::new(alloc);
    for pattern in patterns {
        if allows(pattern, bit, set) {
            list.push(*pattern)?;
        }
    }
    Ok(list)
}
