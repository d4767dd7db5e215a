//! The region of a class.

ghost use Rattle.std.specs.Prelude.{◌≡◌, ◌==◌, ◌&&◌, ◌<◌, length, IfOk};
ghost use Rattle.np_space.specs.Header.{IsValid, HasWidths, has_widths};
ghost use Rattle.np_space.specs.declared.headers.Header.{Header};
ghost use Rattle.np_region.specs.Keeping.{KeepsRegions};
ghost use Rattle.np_bdd.specs.Views.{node_has};
ghost use Rattle.np_bdd.specs.Diagram.{IsRegion};
ghost use Rattle.np_bdd.specs.Nodes.{KeepsNodes};

use crate::partition::Partition;
use crate::shows::Show;
use np_bdd::{Diagrams, Node};
use std::alloc::{AllocError, Global};

impl Partition {
    ghost use Rattle.np_partition.specs.Diagram.{IsDiagram};
    ghost use Rattle.np_partition.specs.Partition.{class_of};
    ghost use Rattle.np_partition.specs.Region.{AreNodesOf, IsNodeOf};

    /// The region of class `n`, all of whose headers are valid. It has no header if there is no class of
    /// that number.
    ///
    /// The store has one node more for each place of the diagram at most.
    ///
    /// # Errors
    ///
    /// `AllocError` if there is no memory for the nodes, or for a list of as many nodes as places.
    #[tactic(auto, using(np_bdd::proofs::StoreLemmas::regions_kept, crate::proofs::RegionLaws::region_fits, crate::proofs::RegionLaws::region_exact))]
    pub fn region(&self, alloc: Global, store: &mut Diagrams, n: usize) -> Result<Node, AllocError>
        requires diagram { IsDiagram self.now.shows }
        requires there { self.now.root < length self.now.shows }
        requires valid { (h : Header) → HasWidths h → class_of self.now h ≡ n → IsValid h }
        ensures kept { KeepsRegions IsRegion node_has store.old store.new }
        ensures fits { IfOk result (λ z. IsRegion store.new z) }
        ensures exact { IfOk result (λ z. (h : Header) → node_has store.new z h ≡ (has_widths h && (class_of self.now h == n))) }
    {
        let nodes = self.nodes(alloc, store, n)?;
        Ok(nodes[self.root])
    }

    // A node for each place, from which bits lead to `Yes` where they lead from the place to the class.
    fn nodes(&self, alloc: Global, store: &mut Diagrams, n: usize) -> Result<Vec<Node>, AllocError>
        requires { IsDiagram self.now.shows }
        ensures kept { KeepsNodes store.old store.new }
        ensures count { IfOk result (λ nodes. length nodes.items ≡ length self.now.shows) }
        ensures nodes { IfOk result (λ nodes. AreNodesOf self.now.shows n store.new nodes.items) }
    {
        let mut nodes = Vec::new(alloc);
        for at in 0..self.shows.len() {
            let node = self.node(store, n, &nodes, at)?;
            nodes.push(node)?;
        }
        Ok(nodes)
    }

    // The node of a place, by those of the places before it.
    fn node(
        &self,
        store: &mut Diagrams,
        n: usize,
        nodes: &[Node],
        at: usize,
    ) -> Result<Node, AllocError>
        requires diagram { IsDiagram self.now.shows }
        requires there { at < length self.now.shows }
        requires before { length nodes.now ≡ at }
        requires nodes { AreNodesOf self.now.shows n store.old nodes.now }
        ensures kept { KeepsNodes store.old store.new }
        ensures exact { IfOk result (λ z. IsNodeOf self.now.shows n store.new at z) }
    {
        match self.shows.as_slice()[at] {
            Show::Class(class) if class == n => Ok(store.yes()),
            Show::Class(_) => Ok(store.no()),
            Show::Test { bit, low, high } => store.test(bit, nodes[low], nodes[high]),
        }
    }
}
