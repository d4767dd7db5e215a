//! What two nodes are combined to, bit by bit.

ghost use Rattle.std.specs.Prelude.{◌≡◌, ◌≢◌, true, false, ◌<◌, ◌≤◌, length, IfOk, IfSome, IsNone, OnOk};

use crate::memo::Memo;
use crate::nodes::{Branches, Nodes};
use crate::views::{NO, Node, YES};
use std::alloc::{AllocError, Global};

/// What is made of two regions.
#[derive(Clone, Copy, Debug, PartialEq, Eq)]
pub(crate) enum Operation {
    /// The headers of both.
    Meet,
    /// The headers of the first that the second hasn't.
    Minus,
    /// The headers of either.
    Join,
}

// Both nodes' branches at a bit.
#[derive(Clone, Copy)]
struct Halves {
    bit: u8,
    x: Branches,
    y: Branches,
}

impl Nodes {
    ghost use Rattle.np_bdd.specs.Diagram.{bit_at_place};
    ghost use Rattle.np_bdd.specs.Nodes.{KeepsNodes};
    ghost use Rattle.np_bdd.specs.Combining.{IsCombined, IsPart, AreHalves};
    ghost use Rattle.np_bdd.specs.Memo.{IsMemo};

    // Whether it shows without a walk that the first node's headers are among the second's.
    #[tactic(auto, using(crate::proofs::CombiningLemmas::no_is_part, crate::proofs::CombiningLemmas::part_of_yes, crate::proofs::CombiningLemmas::part_of_same))]
    fn is_part(&self, x: Node, y: Node) -> bool
        ensures part { result ≡ true → IsPart self.now x.at y.at }
        ensures first { result ≡ false → x.at ≢ 0 }
        ensures second { result ≡ false → y.at ≢ 1 }
    {
        self.is_diagram();
        if x == NO {
            return true;
        }
        if y == YES {
            return true;
        }
        x == y
    }

    #[tactic(auto, using(crate::proofs::CombiningLemmas::meet_first, crate::proofs::CombiningLemmas::meet_second, crate::proofs::CombiningLemmas::tests_at))]
    fn settled_meet(&self, x: Node, y: Node) -> Option<Node>
        requires first { x.at < length self.now }
        requires second { y.at < length self.now }
        ensures settled { IfSome result (λ z. IsCombined Operation.Meet self.now x.at y.at z.at) }
        ensures unsettled { IsNone result → bit_at_place self.now y.at < 111 }
    {
        self.is_diagram();
        if self.is_part(x, y) {
            return Some(x);
        }
        if self.is_part(y, x) {
            return Some(y);
        }
        None
    }

    #[tactic(auto, using(crate::proofs::CombiningLemmas::minus_none, crate::proofs::CombiningLemmas::minus_first, crate::proofs::CombiningLemmas::tests_at))]
    fn settled_minus(&self, x: Node, y: Node) -> Option<Node>
        requires first { x.at < length self.now }
        requires second { y.at < length self.now }
        ensures settled { IfSome result (λ z. IsCombined Operation.Minus self.now x.at y.at z.at) }
        ensures unsettled { IsNone result → bit_at_place self.now y.at < 111 }
    {
        self.is_diagram();
        if self.is_part(x, y) {
            return Some(NO);
        }
        if y == NO {
            return Some(x);
        }
        None
    }

    #[tactic(auto, using(crate::proofs::CombiningLemmas::join_first, crate::proofs::CombiningLemmas::join_second, crate::proofs::CombiningLemmas::tests_at))]
    fn settled_join(&self, x: Node, y: Node) -> Option<Node>
        requires first { x.at < length self.now }
        requires second { y.at < length self.now }
        ensures settled { IfSome result (λ z. IsCombined Operation.Join self.now x.at y.at z.at) }
        ensures unsettled { IsNone result → bit_at_place self.now y.at < 111 }
    {
        self.is_diagram();
        if self.is_part(x, y) {
            return Some(y);
        }
        if self.is_part(y, x) {
            return Some(x);
        }
        None
    }

    // The answers that need no walk. Where there is none, the second node tests a bit.
    fn settled(&self, operation: Operation, x: Node, y: Node) -> Option<Node>
        requires first { x.at < length self.now }
        requires second { y.at < length self.now }
        ensures settled { IfSome result (λ z. IsCombined operation self.now x.at y.at z.at) }
        ensures unsettled { IsNone result → bit_at_place self.now y.at < 111 }
    {
        match operation {
            Operation::Meet => self.settled_meet(x, y),
            Operation::Minus => self.settled_minus(x, y),
            Operation::Join => self.settled_join(x, y),
        }
    }

    // Both nodes' branches at the lesser of the bits that they test.
    fn halves(&self, x: Node, y: Node) -> Halves
        requires first { x.at < length self.now }
        requires second { y.at < length self.now }
        requires tests { bit_at_place self.now y.at < 111 }
        ensures { AreHalves self.now x.at y.at result }
    {
        let first = self.view(x);
        let second = self.view(y);
        let bit = first.bit().min(second.bit());
        Halves {
            bit,
            x: self.split(bit, x, first),
            y: self.split(bit, y, second),
        }
    }

    // The same as `combined`, with a memo that has seen some of the pairs.
    fn combined_by(
        &mut self,
        memo: &mut Memo,
        operation: Operation,
        x: Node,
        y: Node,
    ) -> Result<Node, AllocError>
        requires first { x.at < length self.old }
        requires second { y.at < length self.old }
        requires memo { IsMemo operation self.old memo.old }
        ensures kept { KeepsNodes self.old self.new }
        ensures exact { IfOk result (λ z. IsCombined operation self.new x.at y.at z.at) }
        ensures memo { OnOk result (IsMemo operation self.new memo.new) }
    {
        if let Some(z) = self.settled(operation, x, y) {
            return Ok(z);
        }
        if let Some(z) = memo.found(x, y) {
            return Ok(z);
        }
        let halves = self.halves(x, y);
        let low = self.combined_by(memo, operation, halves.x.low, halves.y.low)?;
        let high = self.combined_by(memo, operation, halves.x.high, halves.y.high)?;
        let z = self.node(halves.bit, low, high)?;
        memo.learn(x, y, z)?;
        Ok(z)
    }

    /// The node that the operation makes of two.
    pub(crate) fn combined(
        &mut self,
        alloc: Global,
        operation: Operation,
        x: Node,
        y: Node,
    ) -> Result<Node, AllocError>
        requires first { x.at < length self.old }
        requires second { y.at < length self.old }
        ensures kept { KeepsNodes self.old self.new }
        ensures exact { IfOk result (λ z. IsCombined operation self.new x.at y.at z.at) }
    {
        let mut memo = Memo::new(alloc);
        self.combined_by(&mut memo, operation, x, y)
    }
}
