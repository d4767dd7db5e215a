//! The ways of a header's bits, and of the least header, through a diagram.

ghost use Rattle.std.specs.Prelude.{◌≡◌, ◌≢◌, ◌↔◌, ◌==◌, ℕ, ◌<◌, length, false, IsTrue, IsNone, IfSome};
ghost use Rattle.np_space.specs.Header.{HasWidths, IsLeast};
ghost use Rattle.np_space.specs.declared.headers.Header.{Header};

use crate::header_bits::{header_bit, in_widths, with_bit_set};
use crate::nodes::Nodes;
use crate::views::{BITS, NO, Node, View};
use np_space::Header;

impl Nodes {
    ghost use Rattle.np_bdd.specs.Views.{bits_of_header, view_at, sent_by, is_yes, leads_to_yes, node_has};
    ghost use Rattle.np_bdd.specs.Diagram.{bit_at_place};
    ghost use Rattle.np_bdd.specs.Walking.{IsWay};

    /// Whether the header's bits lead from the node to `Yes`, where `dscp` is at most 63.
    pub(crate) fn has(&self, x: Node, h: &Header) -> bool
        requires { x.at < length self.now }
        ensures { result ≡ node_has self.now x h.now }
    {
        in_widths(h) && self.leads(x, h)
    }

    // Whether the header's bits lead from the node to `Yes`.
    #[tactic(auto, using(crate::proofs::WalkLemmas::sent_there, crate::proofs::WalkLemmas::sent_later, crate::proofs::WalkLemmas::at_end, crate::proofs::PlaceLemmas::leads_on))]
    fn leads(&self, x: Node, h: &Header) -> bool
        requires { x.at < length self.now }
        ensures { result ≡ leads_to_yes self.now (bits_of_header h.now) x.at }
    {
        self.is_diagram();
        let mut at = x;
        while self.bit(at) < BITS {
            at = self.sent(at, h);
        }
        self.is_yes(at)
    }

    // The node to which the header's bit leads from this one, which stays where it tests nothing.
    fn sent(&self, x: Node, h: &Header) -> Node
        requires { x.at < length self.now }
        ensures { result.at ≡ sent_by (view_at self.now x.at) (bits_of_header h.now) x.at }
    {
        match self.view(x) {
            View::No | View::Yes => x,
            View::Test { bit, high, .. } if header_bit(h, bit) => high,
            View::Test { low, .. } => low,
        }
    }

    // Whether the node shows `Yes`.
    fn is_yes(&self, x: Node) -> bool
        requires { x.at < length self.now }
        ensures { result ≡ is_yes (view_at self.now x.at) }
    {
        matches!(self.view(x), View::Yes)
    }

    /// Whether the node has no header.
    pub(crate) fn is_empty(&self, x: Node) -> bool
        requires { x.at < length self.now }
        ensures { IsTrue result ↔ ((h : Header) → node_has self.now x h ≡ false) }
    {
        self.is_diagram();
        x == NO
    }

    /// The least header that the node has.
    pub(crate) fn least(&self, x: Node) -> Option<Header>
        requires { x.at < length self.now }
        ensures none { IsNone result ↔ ((h : Header) → node_has self.now x h ≡ false) }
        ensures some { IfSome result (λ h. IsLeast (node_has self.now x) h) }
    {
        self.is_diagram();
        if x == NO {
            return None;
        }
        Some(self.least_from(x))
    }

    // The least header of a node that isn't `No`: the way goes to the low branch wherever that has a
    // header.
    fn least_from(&self, x: Node) -> Header
        requires there { x.at < length self.now }
        requires some { x.at ≢ 0 }
        ensures { IsLeast (node_has self.now x) result }
    {
        self.is_diagram();
        let mut at = x;
        let mut h = Header::zeros();
        while self.bit(at) < BITS {
            at = self.least_branch(at, &mut h);
        }
        h
    }

    // The branch in which the least header is, for which the bit is set if that is the high one.
    fn least_branch(&self, at: Node, h: &mut Header) -> Node
        requires there { at.at < length self.now }
        requires widths { HasWidths h.old }
        ensures widths { HasWidths h.new }
        ensures later { bit_at_place self.now at.at < 111 → bit_at_place self.now at.at < bit_at_place self.now result.at }
        ensures way { (x : ℕ) → IsWay self.now x at.at (bits_of_header h.old) → IsWay self.now x result.at (bits_of_header h.new) }
    {
        self.is_diagram();
        match self.view(at) {
            View::No | View::Yes => at,
            View::Test { bit, low, high } => {
                if low == NO {
                    *h = with_bit_set(*h, bit);
                    return high;
                }
                low
            }
        }
    }

    /// Whether the two nodes have the same headers.
    pub(crate) fn same(&self, x: Node, y: Node) -> bool
        requires first { x.at < length self.now }
        requires second { y.at < length self.now }
        ensures equal { result ≡ (x.at == y.at) }
        ensures exact { IsTrue result ↔ ((h : Header) → node_has self.now x h ≡ node_has self.now y h) }
    {
        self.is_diagram();
        x == y
    }
}
