//! The store whose regions are lists of blocks.

ghost use Rattle.std.specs.Prelude.{◌≡◌, IfOk, [], ◌&&◌, ◌||◌, not, false, IsTrue, Bool};

use crate::lists;
use crate::regions::Regions;
use np_space::{AddressField, Block, Header, Ternary};
use std::alloc::{AllocError, Global};
use std::marker::Model;

/// A region of `BlockLists`: disjoint blocks, each of which lies in a block of valid headers. It
/// owns them, and so means the same whatever becomes of the store.
#[derive(Drop)]
pub struct BlockList {
    blocks: Vec<Block>,
}

impl Model for BlockList {
    ghost use Rattle.std.specs.Prelude.{List};
    ghost use Rattle.np_space.specs.declared.blocks.Block.{Block};

    ghost Value = { List Block };

    ghost use Rattle.np_region.specs.BlockLists.{IsBlockList};

    ghost view = { λ r. r.blocks.items };

    ghost invariant = { λ r. IsBlockList r.blocks.items };
}

/// The store of regions that are lists of blocks.
#[derive(Drop)]
pub struct BlockLists {
    alloc: Global,
}

impl BlockLists {
    ghost use Rattle.std.specs.Prelude.{List};
    ghost use Rattle.np_space.specs.Block.{any_has};
    ghost use Rattle.np_space.specs.declared.headers.Header.{Header};
    ghost use Rattle.np_space.specs.declared.blocks.Block.{Block};
    ghost use Rattle.np_region.specs.BlockLists.{IsBlockList};

    /// A store that takes its memory from the allocator. Every list of blocks that is a region of
    /// one such store is a region of this one too, with the same headers.
    pub fn new(alloc: Global) -> BlockLists
        ensures fits { (x : List Block) → IsBlockList x → ⟦<BlockLists as Regions>⟧.fits result x }
        ensures same { (x : List Block) (h : Header) → ⟦<BlockLists as Regions>⟧.has_header result x h ≡ any_has x h }
    {
        BlockLists { alloc }
    }
}

impl Regions for BlockLists {
    ghost use Rattle.np_space.specs.Block.{any_has};
    ghost use Rattle.np_region.specs.BlockLists.{IsBlockList};

    type R = BlockList;

    ghost fits = { λ _ x. IsBlockList x };

    ghost has_header = { λ _ x h. any_has x h };

    fn none(&mut self) -> BlockList {
        BlockList {
            blocks: Vec::new(self.alloc),
        }
    }

    fn whole(&mut self) -> Result<BlockList, AllocError> {
        let blocks = lists::all_valid(self.alloc)?;
        Ok(BlockList { blocks })
    }

    fn of_block(&mut self, block: &Block) -> Result<BlockList, AllocError> {
        let blocks = lists::valid_of(self.alloc, block)?;
        Ok(BlockList { blocks })
    }

    fn of_addresses(
        &mut self,
        field: AddressField,
        patterns: &[Ternary],
    ) -> Result<BlockList, AllocError> {
        let blocks = lists::valid_with(self.alloc, field, patterns)?;
        Ok(BlockList { blocks })
    }

    fn meet(&mut self, x: &BlockList, y: &BlockList) -> Result<BlockList, AllocError> {
        let blocks = lists::common(self.alloc, &x.blocks, &y.blocks)?;
        Ok(BlockList { blocks })
    }

    fn minus(&mut self, x: &BlockList, y: &BlockList) -> Result<BlockList, AllocError> {
        let blocks = lists::difference(self.alloc, &x.blocks, &y.blocks)?;
        Ok(BlockList { blocks })
    }

    fn join(&mut self, x: &BlockList, y: &BlockList) -> Result<BlockList, AllocError> {
        let blocks = lists::union(self.alloc, &x.blocks, &y.blocks)?;
        Ok(BlockList { blocks })
    }

    fn copy(&mut self, x: &BlockList) -> Result<BlockList, AllocError> {
        let blocks = Vec::from_slice(self.alloc, &x.blocks)?;
        Ok(BlockList { blocks })
    }

    fn is_empty(&self, x: &BlockList) -> bool {
        lists::has_none(&x.blocks)
    }

    fn least(&self, x: &BlockList) -> Option<Header> {
        lists::least(&x.blocks)
    }

    fn has(&self, x: &BlockList, h: &Header) -> bool {
        lists::has(&x.blocks, h)
    }

    ghost only_valid = { λ _ x h fits has. fits.only_valid h has };
}
