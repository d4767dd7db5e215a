//! The list of views that a store's nodes show.

ghost use Rattle.std.specs.Prelude.{◌≡◌, ◌+◌, ◌<◌, ◌≤◌, [], ◌∷◌, ℕ, length, IfOk};

mod ends;

use crate::views::{Node, View};
use indexmap::IndexSet;
use std::alloc::{AllocError, Global};
use std::marker::Model;

/// An ordered reduced decision diagram: the views of its nodes, each at its node's place.
#[derive(Drop)]
pub(crate) struct Nodes {
    views: IndexSet<View>,
}

/// The nodes of a test's two branches.
#[derive(Clone, Copy)]
pub(crate) struct Branches {
    pub low: Node,
    pub high: Node,
}

impl Model for Nodes {
    ghost use Rattle.std.specs.Prelude.{List};
    ghost use Rattle.np_bdd.specs.declared.views.View.{View as Shown};
    ghost use Rattle.np_bdd.specs.Diagram.{IsDiagram};

    ghost Value = { List Shown };

    ghost view = { λ s. s.views.keys };

    ghost invariant = { λ s. IsDiagram s.views.keys };
}

impl Nodes {
    ghost use Rattle.std.specs.Prelude.{List};
    ghost use Rattle.np_bdd.specs.declared.views.View.TheVariants.{No, Yes};
    ghost use Rattle.np_bdd.specs.Views.{view_at};
    ghost use Rattle.np_bdd.specs.Diagram.{bit_at_place, IsDiagram, IsOrdered};
    ghost use Rattle.np_bdd.specs.Nodes.{KeepsNodes, StartsAt, IsSplit, Chooses};

    /// The diagram that has no test yet.
    pub(crate) fn new(alloc: Global) -> Result<Nodes, AllocError>
        ensures { IfOk result (λ s. s ≡ No ∷ Yes ∷ []) }
    {
        let mut views = IndexSet::new(alloc);
        views.insert(View::No)?;
        views.insert(View::Yes)?;
        Ok(Nodes { views })
    }

    /// How many nodes there are.
    pub(crate) fn count(&self) -> usize
        ensures { result ≡ length self.now }
    {
        self.views.len()
    }

    /// What the node shows.
    pub(crate) fn view(&self, x: Node) -> View
        requires { x.at < length self.now }
        ensures view { result ≡ view_at self.now x.at }
        ensures ordered { IsOrdered self.now result }
        ensures unique { (y : ℕ) → y < length self.now → view_at self.now y ≡ result → y ≡ x.at }
    {
        self.views.as_slice()[x.at]
    }

    /// The list is a diagram. This only tells it to the proofs of callers, who see the list alone.
    #[inline(always)]
    pub(crate) fn is_diagram(&self)
        ensures { IsDiagram self.now }
    {
        let _ = &self.views;
    }

    /// The bit that the node tests, and one past the last where it tests none.
    pub(crate) fn bit(&self, x: Node) -> u8
        requires { x.at < length self.now }
        ensures bit { result ≡ bit_at_place self.now x.at }
        ensures small { result ≤ 111 }
    {
        self.view(x).bit()
    }

    /// The nodes that decide where the bit is 0 and where it is 1. The node tests no bit before it.
    pub(crate) fn branches(&self, bit: u8, x: Node) -> Branches
        requires bit { bit < 111 }
        requires starts { StartsAt self.now bit x.at }
        ensures { IsSplit self.now bit result.low.at result.high.at x.at }
    {
        self.split(bit, x, self.view(x))
    }

    /// The same of a node whose view has been read already.
    #[tactic(auto, using(crate::proofs::AddingLemmas::split_at_test))]
    pub(crate) fn split(&self, bit: u8, x: Node, shown: View) -> Branches
        requires bit { bit < 111 }
        requires starts { StartsAt self.now bit x.at }
        requires shown { shown ≡ view_at self.now x.at }
        ensures { IsSplit self.now bit result.low.at result.high.at x.at }
    {
        // opens the invariant, for the proof
        let _ = &self.views;
        match shown {
            View::Test {
                bit: tested,
                low,
                high,
            } if tested == bit => Branches { low, high },
            _ => Branches { low: x, high: x },
        }
    }

    /// The node that decides by the bit between two nodes, both of which test later bits alone.
    #[tactic(auto, using(crate::proofs::KeepingLemmas::keeps_nodes_itself))]
    pub(crate) fn node(&mut self, bit: u8, low: Node, high: Node) -> Result<Node, AllocError>
        requires bit { bit < 111 }
        requires low { StartsAt self.old (1 + bit) low.at }
        requires high { StartsAt self.old (1 + bit) high.at }
        ensures kept { KeepsNodes self.old self.new }
        ensures starts { IfOk result (λ z. StartsAt self.new bit z.at) }
        ensures chooses { IfOk result (λ z. Chooses self.new bit low.at high.at z.at) }
    {
        if low == high {
            return Ok(low);
        }
        let (at, _) = self.views.insert_full(View::Test { bit, low, high })?;
        Ok(Node { at })
    }
}
