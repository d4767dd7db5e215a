//! The nodes that test whole fields of a header.

ghost use Rattle.std.specs.Prelude.{◌≡◌, true, false, ◌+◌, ◌-◌, ◌<◌, ◌≤◌, ◌^◌, length, IfOk};
ghost use Rattle.np_space.specs.Ternary.{ternary_has};
ghost use Rattle.np_space.specs.Span.{span_has};

use crate::header_bits::has_bit;
use crate::nodes::Nodes;
use crate::views::Node;
use np_space::{Block, Span, Ternary};
use std::alloc::AllocError;

impl Nodes {
    ghost use Rattle.np_bdd.specs.Nodes.{KeepsNodes, StartsAt};
    ghost use Rattle.np_bdd.specs.Fields.{TestsField, lower_has, HasHeaders, IsField, pattern_below, range_has};

    /// The node that tests whether the pattern has the address of 32 bits from the first one on, and
    /// goes on at the tail.
    #[tactic(auto, using(crate::proofs::AddressLemmas::pattern_starts))]
    pub(crate) fn pattern(
        &mut self,
        first: u8,
        pattern: &Ternary,
        tail: Node,
    ) -> Result<Node, AllocError>
        requires fits { first + 32 ≤ 111 }
        requires tail { StartsAt self.old (first + 32) tail.at }
        ensures kept { KeepsNodes self.old self.new }
        ensures starts { IfOk result (λ z. StartsAt self.new first z.at) }
        ensures tests { IfOk result (λ z. TestsField (ternary_has pattern.now) first 32 self.new tail.at z.at) }
    {
        Ok(self.pattern_lowest(first, 32, pattern, tail)?)
    }

    /// The node that tests whether the pattern agrees with the lowest bits of the address of 32 bits from
    /// the first one on, as many as the width says, and goes on at the tail.
    #[tactic(auto, using(crate::proofs::KeepingLemmas::keeps_nodes_chained, crate::proofs::AddressLemmas::so_far_more))]
    pub(crate) fn pattern_lowest(
        &mut self,
        first: u8,
        width: u8,
        pattern: &Ternary,
        tail: Node,
    ) -> Result<Node, AllocError>
        requires narrow { width ≤ 32 }
        requires fits { first + 32 ≤ 111 }
        requires tail { StartsAt self.old (first + 32) tail.at }
        ensures kept { KeepsNodes self.old self.new }
        ensures is { IfOk result (λ z. IsField (pattern_below pattern.now width) (first + (32 - width)) width self.new tail.at z.at) }
    {
        let mut node = tail;
        for k in 0..width {
            node = self.pattern_bit(first, pattern, k, tail, node)?;
        }
        Ok(node)
    }

    // A node that tests one bit more than this one, which tests the lowest `k` bits of the address.
    fn pattern_bit(
        &mut self,
        first: u8,
        pattern: &Ternary,
        k: u8,
        tail: Node,
        node: Node,
    ) -> Result<Node, AllocError>
        requires low { k < 32 }
        requires fits { first + 32 ≤ 111 }
        requires tail { tail.at < length self.old }
        requires field { IsField (pattern_below pattern.now k) (first + (32 - k)) k self.old tail.at node.at }
        ensures kept { KeepsNodes self.old self.new }
        ensures is { IfOk result (λ z. IsField (pattern_below pattern.now (k + 1)) (first + (32 - (k + 1))) (k + 1) self.new tail.at z.at) }
    {
        if has_bit(pattern.wild, k) {
            return Ok(node);
        }
        let bit = first + (31 - k);
        let no = self.no();
        if has_bit(pattern.value, k) {
            Ok(self.node(bit, no, node)?)
        } else {
            Ok(self.node(bit, node, no)?)
        }
    }

    /// The node that tests whether the span has the number of so many bits from the first one on, and
    /// goes on at the tail.
    pub(crate) fn span(
        &mut self,
        first: u8,
        width: u8,
        span: &Span,
        tail: Node,
    ) -> Result<Node, AllocError>
        requires narrow { width ≤ 16 }
        requires fits { first + width ≤ 111 }
        requires high { span.now.high < 2 ^ width }
        requires tail { StartsAt self.old (first + width) tail.at }
        ensures kept { KeepsNodes self.old self.new }
        ensures starts { IfOk result (λ z. StartsAt self.new first z.at) }
        ensures tests { IfOk result (λ z. TestsField (span_has span.now) first width self.new tail.at z.at) }
    {
        let end = u32::from(span.high) + 1;
        Ok(self.range(first, width, u32::from(span.low), end, tail)?)
    }

    // The node that tests whether the number of so many bits from the first one on is at least `low`
    // and before `end`, and goes on at the tail. At most two branches of a bit are neither empty nor
    // whole, so that it takes two nodes a bit.
    #[tactic(auto, using(crate::proofs::KeepingLemmas::keeps_nodes_itself, crate::proofs::KeepingLemmas::keeps_nodes_chained, crate::proofs::RangeLemmas::range_empty, crate::proofs::RangeLemmas::range_whole))]
    fn range(
        &mut self,
        first: u8,
        width: u8,
        low: u32,
        end: u32,
        tail: Node,
    ) -> Result<Node, AllocError>
        requires narrow { width ≤ 16 }
        requires fits { first + width ≤ 111 }
        requires end { end ≤ 2 ^ width }
        requires tail { StartsAt self.old (first + width) tail.at }
        ensures kept { KeepsNodes self.old self.new }
        ensures is { IfOk result (λ z. IsField (range_has low end) first width self.new tail.at z.at) }
    {
        if low >= end {
            return Ok(self.no());
        }
        if is_whole(width, low, end) {
            return Ok(tail);
        }
        let half = power(width - 1);
        let zeros = self.range(1 + first, width - 1, low, end.min(half), tail)?;
        let ones = self.range(
            1 + first,
            width - 1,
            low.saturating_sub(half),
            end.saturating_sub(half),
            tail,
        )?;
        Ok(self.node(first, zeros, ones)?)
    }

    /// The node that tests whether the block has a header's fields after the addresses.
    pub(crate) fn lower(&mut self, block: &Block) -> Result<Node, AllocError>
        ensures kept { KeepsNodes self.old self.new }
        ensures starts { IfOk result (λ z. StartsAt self.new 64 z.at) }
        ensures exact { IfOk result (λ z. HasHeaders (lower_has block.now) self.new z.at) }
    {
        let yes = self.yes();
        let dscp = self.span(105, 6, &block.dscp, yes)?;
        let est = self.span(104, 1, &block.est, dscp)?;
        let b = self.span(88, 16, &block.b, est)?;
        let a = self.span(72, 16, &block.a, b)?;
        Ok(self.span(64, 8, &block.proto, a)?)
    }
}

// Whether the numbers from `low` to before `end`, which are some, are all that there are of so many
// bits. Of no bits there is one number, so that there is a bit where they aren't all.
fn is_whole(width: u8, low: u32, end: u32) -> bool
    requires narrow { width ≤ 16 }
    requires some { low < end }
    requires end { end ≤ 2 ^ width }
    ensures whole { result ≡ true → (low ≡ 0) × (end ≡ 2 ^ width) }
    ensures more { result ≡ false → 0 < width }
{
    low == 0 && end == power(width)
}

// How many numbers there are of so many bits.
fn power(width: u8) -> u32
    requires { width ≤ 16 }
    ensures { result ≡ 2 ^ width }
{
    1 << width
}
