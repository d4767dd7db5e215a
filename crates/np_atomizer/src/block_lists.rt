//! The atoms of cuts that are lists of blocks: classes are split, one cut after another.

use crate::atomizer::{Atomized, Atomizer};
use crate::splitting;
use np_region::{BlockList, BlockLists};
use np_space::Header;
use std::alloc::{AllocError, Global};

/// It looks at each cut once for each atom so far, sorts the atoms, and then looks at each cut once more for each atom. The
/// classes are the atoms' regions in their order, of which `atom_of` asks one after another.
impl Atomizer for BlockLists {
    ghost use Rattle.std.specs.Prelude.{length};
    ghost use Rattle.np_space.specs.Block.{any_has};
    ghost use Rattle.np_region.specs.BlockLists.{IsBlockList};
    ghost use Rattle.np_atomizer.specs.Splitting.{DivideValid, number_in};

    type Classes = Vec<BlockList>;

    ghost are_classes = { λ regions. DivideValid IsBlockList any_has regions.items };

    ghost count = { λ regions. length regions.items };

    ghost atom_number = { λ regions h. number_in any_has regions.items h };

    fn atomize(
        &mut self,
        alloc: Global,
        cuts: &[BlockList],
    ) -> Result<Atomized<Vec<BlockList>>, AllocError> {
        splitting::split(alloc, self, cuts)
    }

    fn atom_of(&self, classes: &Vec<BlockList>, h: &Header) -> usize {
        splitting::number_of(self, classes.as_slice(), h)
    }

    fn region(
        &mut self,
        _alloc: Global,
        classes: &Vec<BlockList>,
        n: usize,
    ) -> Result<BlockList, AllocError> {
        splitting::region_at(self, classes.as_slice(), n)
    }
}
