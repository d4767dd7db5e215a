//! The nodes that test nothing.

ghost use Rattle.std.specs.Prelude.{true, false};
ghost use Rattle.np_bdd.specs.Fields.{AlwaysAnswers};

use crate::nodes::Nodes;
use crate::views::{NO, Node, YES};

impl Nodes {
    /// The node of no header.
    #[tactic(auto, using(crate::proofs::EndLemmas::no_answers))]
    pub(crate) fn no(&self) -> Node
        ensures { AlwaysAnswers false self.now result.at }
    {
        // Names the views, so that a proof knows what stands first among them.
        let _ = &self.views;
        NO
    }

    /// The node of every header.
    #[tactic(auto, using(crate::proofs::EndLemmas::yes_answers))]
    pub(crate) fn yes(&self) -> Node
        ensures { AlwaysAnswers true self.now result.at }
    {
        let _ = &self.views;
        YES
    }
}
