//! The store of regions.

ghost use Rattle.std.specs.Prelude.{◌≡◌, ◌↔◌, ◌==◌, ◌&&◌, ◌||◌, not, true, false, [], ◌∷◌, ◌+◌, ◌<◌, ℕ, length, IsTrue, IsNone, IfSome, IfOk};
ghost use Rattle.np_space.specs.Header.{is_valid_header, IsValid, IsLeast, HasWidths};
ghost use Rattle.np_space.specs.Block.{address_number, block_has};
ghost use Rattle.np_space.specs.Patterns.{any_pattern_has};
ghost use Rattle.np_space.specs.declared.headers.Header.{Header};
ghost use Rattle.np_region.specs.Keeping.{KeepsRegions};
ghost use Rattle.np_bdd.specs.declared.views.View.TheVariants.{No, Yes};
ghost use Rattle.np_bdd.specs.Views.{bits_of_header, leads_to_yes, node_has, view_at};
ghost use Rattle.np_bdd.specs.Diagram.{IsOrdered, IsRegion, KeepsViews};
ghost use Rattle.np_bdd.specs.Nodes.{KeepsNodes, StartsAt, Chooses};
ghost use Rattle.np_bdd.specs.Fields.{AlwaysAnswers};

use crate::combining::Operation;
use crate::nodes::Nodes;
use crate::views::{Node, View};
use np_region::Regions;
use np_space::{AddressField, Block, Header, Ternary};
use std::alloc::{AllocError, Global};
use std::marker::Model;

/// A store whose regions are nodes of one ordered reduced decision diagram (Bryant 1986) over the 111
/// bits of a header.
///
/// It is seen as the list of its nodes' views. Every call keeps the earlier views, one that fails
/// included.
#[derive(Drop)]
pub struct Diagrams {
    alloc: Global,
    nodes: Nodes,
    // the node of the valid headers, once it is asked for
    valid: Option<Node>,
}

impl Model for Diagrams {
    ghost use Rattle.std.specs.Prelude.{List, IfSome};
    ghost use Rattle.np_bdd.specs.declared.views.View.{View as Shown};
    ghost use Rattle.np_bdd.specs.Store.{IsValidNode};

    ghost Value = { List Shown };

    ghost view = { λ s. s.nodes };

    ghost invariant = { λ s. IfSome s.valid (IsValidNode s.nodes) };
}

impl Diagrams {
    ghost use Rattle.np_bdd.specs.Combining.{combined};
    ghost use Rattle.np_bdd.specs.Store.{IsValidNode};

    /// A store whose nodes are those of `No` and `Yes`.
    pub fn new(alloc: Global) -> Result<Diagrams, AllocError>
        ensures { IfOk result (λ s. s ≡ No ∷ Yes ∷ []) }
    {
        let nodes = Nodes::new(alloc)?;
        Ok(Diagrams {
            alloc,
            nodes,
            valid: None,
        })
    }

    /// How many nodes there are, those that no region needs any more among them.
    pub fn count(&self) -> usize
        ensures { result ≡ length self.now }
    {
        self.nodes.count()
    }

    /// Whether the two regions have the same headers, which is whether they are the same node.
    pub fn same(&self, x: &Node, y: &Node) -> bool
        requires first { IsRegion self.now x.now }
        requires second { IsRegion self.now y.now }
        ensures equal { result ≡ (x.now.at == y.now.at) }
        ensures exact { IsTrue result ↔ ((h : Header) → IsValid h → node_has self.now x.now h ≡ node_has self.now y.now h) }
    {
        self.nodes.same(*x, *y)
    }

    /// What the node shows. The two nodes of a test differ, stand in the list of views and test later
    /// bits; no other place of the list has the same view; and the bits of a header, one that isn't
    /// valid included, lead from the node to `Yes` exactly where the region has the header.
    #[tactic(auto, using(crate::proofs::StoreLemmas::node_leads))]
    pub fn view(&self, x: &Node) -> View
        requires { x.now.at < length self.now }
        ensures view { result ≡ view_at self.now x.now.at }
        ensures ordered { IsOrdered self.now result }
        ensures unique { (y : ℕ) → y < length self.now → view_at self.now y ≡ result → y ≡ x.now.at }
        ensures leads { (h : Header) → HasWidths h → leads_to_yes self.now (bits_of_header h) x.now.at ≡ ⟦<Diagrams as Regions>⟧.has_header self.now x.now h }
    {
        self.nodes.view(*x)
    }

    /// The node of `No`. It tests no bit, and no bits lead from it to `Yes`.
    pub fn no(&self) -> Node
        ensures { AlwaysAnswers false self.now result.at }
    {
        self.nodes.no()
    }

    /// The node of `Yes`. It tests no bit, and all bits lead from it to `Yes`, those of headers that
    /// aren't valid among them.
    pub fn yes(&self) -> Node
        ensures { AlwaysAnswers true self.now result.at }
    {
        self.nodes.yes()
    }

    /// The node that decides by the bit, from 0 to 110, between two nodes of the store, which test later
    /// bits alone: `high` decides where the bit is 1, and `low` where it is 0. It is `low` itself where
    /// the two are the same node.
    ///
    /// Its bits may be those of headers that aren't valid. It is a region where no such bits lead from it
    /// to `Yes`.
    ///
    /// # Errors
    ///
    /// `AllocError` if there is no memory for one node more.
    #[tactic(auto, using(crate::proofs::StoreLemmas::regions_kept, crate::proofs::StoreLemmas::valid_kept))]
    pub fn test(&mut self, bit: u8, low: Node, high: Node) -> Result<Node, AllocError>
        requires bit { bit < 111 }
        requires low { StartsAt self.old (1 + bit) low.at }
        requires high { StartsAt self.old (1 + bit) high.at }
        ensures kept { KeepsRegions IsRegion node_has self.old self.new }
        ensures nodes { KeepsNodes self.old self.new }
        ensures starts { IfOk result (λ z. StartsAt self.new bit z.at) }
        ensures chooses { IfOk result (λ z. Chooses self.new bit low.at high.at z.at) }
    {
        self.nodes.node(bit, low, high)
    }

    // The node of the valid headers, which is made when it is first asked for.
    #[tactic(auto, using(crate::proofs::StoreLemmas::regions_kept, crate::proofs::StoreLemmas::valid_kept))]
    fn valid_node(&mut self) -> Result<Node, AllocError>
        ensures kept { KeepsRegions IsRegion node_has self.old self.new }
        ensures views { KeepsViews self.old self.new }
        ensures valid { IfOk result (IsValidNode self.new) }
    {
        if let Some(valid) = self.valid {
            return Ok(valid);
        }
        let valid = self.nodes.valid(self.alloc)?;
        self.valid = Some(valid);
        Ok(valid)
    }

    // The region that the operation makes of two.
    #[tactic(auto, using(crate::proofs::StoreLemmas::regions_kept, crate::proofs::StoreLemmas::combined_has, crate::proofs::StoreLemmas::combined_region))]
    fn operate(&mut self, operation: Operation, x: Node, y: Node) -> Result<Node, AllocError>
        requires first { IsRegion self.old x }
        requires second { IsRegion self.old y }
        ensures kept { KeepsRegions IsRegion node_has self.old self.new }
        ensures views { KeepsViews self.old self.new }
        ensures fits { IfOk result (λ z. IsRegion self.new z) }
        ensures exact { IfOk result (λ z. (h : Header) → node_has self.new z h ≡ combined operation (node_has self.old x h) (node_has self.old y h)) }
    {
        self.nodes.combined(self.alloc, operation, x, y)
    }
}

impl Regions for Diagrams {
    type R = Node;

    ghost fits = { λ s x. IsRegion s x };

    ghost has_header = { λ s x h. node_has s x h };

    #[tactic(auto, using(crate::proofs::StoreLemmas::has_none, crate::proofs::StoreLemmas::none_region))]
    fn none(&mut self) -> Node
        ensures kept { KeepsRegions IsRegion node_has self.old self.new }
        ensures views { KeepsViews self.old self.new }
        ensures fits { IsRegion self.new result }
        ensures exact { (h : Header) → node_has self.new result h ≡ false }
    {
        self.nodes.no()
    }

    #[tactic(auto, using(crate::proofs::StoreLemmas::has_valid, crate::proofs::StoreLemmas::region_of, crate::proofs::StoreLemmas::all_valid))]
    fn whole(&mut self) -> Result<Node, AllocError>
        ensures kept { KeepsRegions IsRegion node_has self.old self.new }
        ensures views { KeepsViews self.old self.new }
        ensures fits { IfOk result (λ x. IsRegion self.new x) }
        ensures exact { IfOk result (λ x. (h : Header) → node_has self.new x h ≡ is_valid_header h) }
    {
        self.valid_node()
    }

    #[tactic(auto, using(crate::proofs::StoreLemmas::regions_kept, crate::proofs::StoreLemmas::has_block, crate::proofs::StoreLemmas::region_of, crate::proofs::StoreLemmas::block_valid))]
    fn of_block(&mut self, block: &Block) -> Result<Node, AllocError>
        ensures kept { KeepsRegions IsRegion node_has self.old self.new }
        ensures views { KeepsViews self.old self.new }
        ensures fits { IfOk result (λ x. IsRegion self.new x) }
        ensures exact { IfOk result (λ x. (h : Header) → node_has self.new x h ≡ (is_valid_header h && block_has block.now h)) }
    {
        let valid = self.valid_node()?;
        self.nodes.valid_of(self.alloc, valid, block)
    }

    #[tactic(auto, using(crate::proofs::StoreLemmas::regions_kept, crate::proofs::StoreLemmas::has_addresses, crate::proofs::StoreLemmas::addresses_region))]
    fn of_addresses(
        &mut self,
        field: AddressField,
        patterns: &[Ternary],
    ) -> Result<Node, AllocError>
        ensures kept { KeepsRegions IsRegion node_has self.old self.new }
        ensures views { KeepsViews self.old self.new }
        ensures fits { IfOk result (λ x. IsRegion self.new x) }
        ensures exact { IfOk result (λ x. (h : Header) → node_has self.new x h ≡ (is_valid_header h && any_pattern_has patterns.now (address_number field h))) }
    {
        let valid = self.valid_node()?;
        self.nodes.valid_with(self.alloc, valid, field, patterns)
    }

    fn meet(&mut self, x: &Node, y: &Node) -> Result<Node, AllocError>
        requires first { IsRegion self.old x.now }
        requires second { IsRegion self.old y.now }
        ensures kept { KeepsRegions IsRegion node_has self.old self.new }
        ensures views { KeepsViews self.old self.new }
        ensures fits { IfOk result (λ z. IsRegion self.new z) }
        ensures exact { IfOk result (λ z. (h : Header) → node_has self.new z h ≡ (node_has self.old x.now h && node_has self.old y.now h)) }
    {
        self.operate(Operation::Meet, *x, *y)
    }

    fn minus(&mut self, x: &Node, y: &Node) -> Result<Node, AllocError>
        requires first { IsRegion self.old x.now }
        requires second { IsRegion self.old y.now }
        ensures kept { KeepsRegions IsRegion node_has self.old self.new }
        ensures views { KeepsViews self.old self.new }
        ensures fits { IfOk result (λ z. IsRegion self.new z) }
        ensures exact { IfOk result (λ z. (h : Header) → node_has self.new z h ≡ (node_has self.old x.now h && not (node_has self.old y.now h))) }
    {
        self.operate(Operation::Minus, *x, *y)
    }

    fn join(&mut self, x: &Node, y: &Node) -> Result<Node, AllocError>
        requires first { IsRegion self.old x.now }
        requires second { IsRegion self.old y.now }
        ensures kept { KeepsRegions IsRegion node_has self.old self.new }
        ensures views { KeepsViews self.old self.new }
        ensures fits { IfOk result (λ z. IsRegion self.new z) }
        ensures exact { IfOk result (λ z. (h : Header) → node_has self.new z h ≡ (node_has self.old x.now h || node_has self.old y.now h)) }
    {
        self.operate(Operation::Join, *x, *y)
    }

    fn copy(&mut self, x: &Node) -> Result<Node, AllocError>
        requires { IsRegion self.old x.now }
        ensures kept { KeepsRegions IsRegion node_has self.old self.new }
        ensures views { KeepsViews self.old self.new }
        ensures fits { IfOk result (λ z. IsRegion self.new z) }
        ensures exact { IfOk result (λ z. (h : Header) → node_has self.new z h ≡ node_has self.old x.now h) }
    {
        Ok(*x)
    }

    fn is_empty(&self, x: &Node) -> bool {
        self.nodes.is_empty(*x)
    }

    fn least(&self, x: &Node) -> Option<Header> {
        self.nodes.least(*x)
    }

    fn has(&self, x: &Node, h: &Header) -> bool {
        self.nodes.has(*x, h)
    }

    ghost only_valid = { λ s x h fits has. fits.only_valid h has };
}
