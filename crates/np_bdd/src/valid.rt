//! The nodes of valid headers.

ghost use Rattle.std.specs.Prelude.{◌≡◌, ◌&&◌, ◌||◌, Bool, ◌<◌, ◌≤◌, length, IfOk};
ghost use Rattle.np_space.specs.Header.{is_valid_header, HasWidths};
ghost use Rattle.np_space.specs.Block.{address_number, block_has};
ghost use Rattle.np_space.specs.Patterns.{any_pattern_has};
ghost use Rattle.np_space.specs.declared.headers.Header.{Header};
ghost use Rattle.np_bdd.specs.Views.{bits_of_header};
ghost use Rattle.np_bdd.specs.Fields.{AreBitsOf};

use crate::combining::Operation;
use crate::nodes::Nodes;
use crate::views::Node;
use np_space::{AddressField, Block, Ternary, valid_blocks};
use std::alloc::{AllocError, Global};

impl Nodes {
    ghost use Rattle.np_bdd.specs.Nodes.{KeepsNodes, StartsAt};
    ghost use Rattle.np_bdd.specs.Fields.{HasHeaders, lower_has};

    /// The node of all valid headers.
    #[tactic(auto, using(crate::proofs::KeepingLemmas::keeps_nodes_chained, crate::proofs::ValidLemmas::joined_none))]
    pub(crate) fn valid(&mut self, alloc: Global) -> Result<Node, AllocError>
        ensures kept { KeepsNodes self.old self.new }
        ensures starts { IfOk result (λ z. StartsAt self.new 64 z.at) }
        ensures exact { IfOk result (λ z. HasHeaders is_valid_header self.new z.at) }
    {
        // The addresses of these blocks are any.
        let blocks = valid_blocks();
        let mut node = self.no();
        for block in &blocks {
            node = self.or_lower(alloc, node, block)?;
        }
        Ok(node)
    }

    // The node of the headers that the node has, or whose fields after the addresses the block has.
    #[tactic(auto, using(crate::proofs::KeepingLemmas::keeps_nodes_chained))]
    fn or_lower(&mut self, alloc: Global, node: Node, block: &Block) -> Result<Node, AllocError>
        requires starts { StartsAt self.old 64 node.at }
        ensures kept { KeepsNodes self.old self.new }
        ensures starts { IfOk result (λ z. StartsAt self.new 64 z.at) }
        ensures exact { (test : Header → Bool) → HasHeaders test self.old node.at → IfOk result (λ z. HasHeaders (λ h. test h || lower_has block.now h) self.new z.at) }
    {
        let lower = self.lower(block)?;
        Ok(self.combined(alloc, Operation::Join, node, lower)?)
    }

    /// The node of the valid headers that the block has. The node that is handed in is that of all
    /// valid headers.
    #[tactic(auto, using(crate::proofs::KeepingLemmas::keeps_nodes_chained))]
    pub(crate) fn valid_of(
        &mut self,
        alloc: Global,
        valid: Node,
        block: &Block,
    ) -> Result<Node, AllocError>
        requires starts { StartsAt self.old 64 valid.at }
        requires valid { HasHeaders is_valid_header self.old valid.at }
        ensures kept { KeepsNodes self.old self.new }
        ensures there { IfOk result (λ z. z.at < length self.new) }
        ensures exact { IfOk result (λ z. HasHeaders (λ h. is_valid_header h && block_has block.now h) self.new z.at) }
    {
        let lower = self.lower(block)?;
        let both = self.combined(alloc, Operation::Meet, valid, lower)?;
        let dst = self.pattern(32, &block.dst, both)?;
        Ok(self.pattern(0, &block.src, dst)?)
    }

    /// The node of the valid headers whose address of this kind is in one of the patterns. The node that
    /// is handed in is that of all valid headers.
    #[tactic(auto, using(crate::proofs::PatternListLemmas::starts_later))]
    pub(crate) fn valid_with(
        &mut self,
        alloc: Global,
        valid: Node,
        field: AddressField,
        patterns: &[Ternary],
    ) -> Result<Node, AllocError>
        requires starts { StartsAt self.old 64 valid.at }
        requires valid { HasHeaders is_valid_header self.old valid.at }
        ensures kept { KeepsNodes self.old self.new }
        ensures there { IfOk result (λ z. z.at < length self.new) }
        ensures exact { IfOk result (λ z. HasHeaders (λ h. is_valid_header h && any_pattern_has patterns.now (address_number field h)) self.new z.at) }
    {
        Ok(self.patterns(alloc, first_bit(field), patterns, valid)?)
    }
}

// The first bit of the address among those of a header.
fn first_bit(field: AddressField) -> u8
    ensures early { result ≤ 32 }
    ensures bits { (h : Header) → HasWidths h → AreBitsOf (bits_of_header h) result 32 (address_number field h) }
{
    match field {
        AddressField::Src => 0,
        AddressField::Dst => 32,
    }
}
