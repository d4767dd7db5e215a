//! The algebra of lists of blocks.

ghost use Rattle.std.specs.Prelude.{◌≡◌, ◌↔◌, ◌*◌, ◌&&◌, ◌||◌, not, false, [], IsTrue, IfOk, OnOk, Option, Bool, if◌then◌else◌};
ghost use Rattle.std.specs.List.{All};
ghost use Rattle.np_space.specs.Flag.{flag_number};
ghost use Rattle.np_space.specs.Header.{is_valid_header, header_le, IsLeast};
ghost use Rattle.np_space.specs.Ternary.{ternary_has};
ghost use Rattle.np_space.specs.Patterns.{any_pattern_has};
ghost use Rattle.np_space.specs.Block.{address_number, block_has, count_having, any_has};
ghost use Rattle.np_space.specs.declared.headers.Header.{Header};
ghost use Rattle.np_region.specs.BlockLists.{LiesInValidBlock, IsBlockList, IsListOf, HasAdded, IsLeastIfAny};

use np_space::{AddressField, Block, Header, Ternary, meet, minus, order, valid_blocks};
use std::alloc::{AllocError, Global};

// Adds the headers that both blocks have.
fn push_meet(blocks: &mut Vec<Block>, x: &Block, y: &Block) -> Result<(), AllocError>
    requires { LiesInValidBlock x.now }
    ensures { OnOk result (HasAdded (λ h. flag_number (block_has x.now h && block_has y.now h)) blocks.old.items blocks.new.items) }
{
    match meet(x, y) {
        Some(common) => Ok(blocks.push(common)?),
        None => Ok(()),
    }
}

// Adds the headers that the block has in common with each of the others.
fn push_meets(blocks: &mut Vec<Block>, block: &Block, others: &[Block]) -> Result<(), AllocError>
    requires { All LiesInValidBlock others.now }
    ensures { OnOk result (HasAdded (λ h. flag_number (block_has block.now h) * count_having others.now h) blocks.old.items blocks.new.items) }
{
    for other in others {
        push_meet(blocks, other, block)?;
    }
    Ok(())
}

// The valid headers.
pub(crate) fn all_valid(alloc: Global) -> Result<Vec<Block>, AllocError>
    ensures { IfOk result (λ v. IsListOf is_valid_header v.items) }
{
    Vec::from_slice(alloc, &valid_blocks())
}

// The valid headers that the block has.
pub(crate) fn valid_of(alloc: Global, block: &Block) -> Result<Vec<Block>, AllocError>
    ensures { IfOk result (λ v. IsListOf (λ h. is_valid_header h && block_has block.now h) v.items) }
{
    let mut blocks = Vec::new(alloc);
    push_meets(&mut blocks, block, &valid_blocks())?;
    Ok(blocks)
}

// The headers that are in both lists.
pub(crate) fn common(alloc: Global, xs: &[Block], ys: &[Block]) -> Result<Vec<Block>, AllocError>
    requires first { IsBlockList xs.now }
    requires second { IsBlockList ys.now }
    ensures { IfOk result (λ v. IsListOf (λ h. any_has xs.now h && any_has ys.now h) v.items) }
{
    let mut blocks = Vec::new(alloc);
    for y in ys {
        push_meets(&mut blocks, y, xs)?;
    }
    Ok(blocks)
}

// Adds the headers that the first block has and the second hasn't.
fn push_minus(
    alloc: Global,
    blocks: &mut Vec<Block>,
    x: &Block,
    y: &Block,
) -> Result<(), AllocError>
    requires { LiesInValidBlock x.now }
    ensures { OnOk result (HasAdded (λ h. flag_number (block_has x.now h && not (block_has y.now h))) blocks.old.items blocks.new.items) }
{
    let rest = minus(alloc, x, y)?;
    blocks.extend_from_slice(&rest)?;
    Ok(())
}

// The headers that are in the list and not in the block.
fn without(alloc: Global, xs: &[Block], y: &Block) -> Result<Vec<Block>, AllocError>
    requires { IsBlockList xs.now }
    ensures { IfOk result (λ v. IsListOf (λ h. any_has xs.now h && not (block_has y.now h)) v.items) }
{
    let mut blocks = Vec::new(alloc);
    for x in xs {
        push_minus(alloc, &mut blocks, x, y)?;
    }
    Ok(blocks)
}

// The headers that are in the first list and not in the second.
pub(crate) fn difference(
    alloc: Global,
    xs: &[Block],
    ys: &[Block],
) -> Result<Vec<Block>, AllocError>
    requires { IsBlockList xs.now }
    ensures { IfOk result (λ v. IsListOf (λ h. any_has xs.now h && not (any_has ys.now h)) v.items) }
{
    let mut rest = Vec::from_slice(alloc, xs)?;
    for y in ys {
        rest = without(alloc, &rest, y)?;
    }
    Ok(rest)
}

// The headers that are in one of the lists, or in both.
pub(crate) fn union(alloc: Global, xs: &[Block], ys: &[Block]) -> Result<Vec<Block>, AllocError>
    requires first { IsBlockList xs.now }
    requires second { IsBlockList ys.now }
    ensures { IfOk result (λ v. IsListOf (λ h. any_has xs.now h || any_has ys.now h) v.items) }
{
    let mut blocks = difference(alloc, ys, xs)?;
    blocks.extend_from_slice(xs)?;
    Ok(blocks)
}

// The headers of the list, and the valid ones whose address of this kind is in the pattern.
fn and_pattern(
    alloc: Global,
    blocks: &[Block],
    field: AddressField,
    pattern: Ternary,
) -> Result<Vec<Block>, AllocError>
    requires { IsBlockList blocks.now }
    ensures { IfOk result (λ v. IsListOf (λ h. any_has blocks.now h || (is_valid_header h && ternary_has pattern (address_number field h))) v.items) }
{
    let one = valid_of(alloc, &Block::of_address(field, pattern))?;
    Ok(union(alloc, blocks, &one)?)
}

// The valid headers whose address of this kind is in one of the patterns.
pub(crate) fn valid_with(
    alloc: Global,
    field: AddressField,
    patterns: &[Ternary],
) -> Result<Vec<Block>, AllocError>
    ensures { IfOk result (λ v. IsListOf (λ h. is_valid_header h && any_pattern_has patterns.now (address_number field h)) v.items) }
{
    let mut blocks = Vec::new(alloc);
    for pattern in patterns {
        blocks = and_pattern(alloc, &blocks, field, *pattern)?;
    }
    Ok(blocks)
}

// Whether no header is in the list: a block always has one.
pub(crate) fn has_none(blocks: &[Block]) -> bool
    ensures { IsTrue result ↔ ((h : Header) → any_has blocks.now h ≡ false) }
{
    blocks.is_empty()
}

// Whether the list has the header.
pub(crate) fn has(blocks: &[Block], h: &Header) -> bool
    ensures { result ≡ any_has blocks.now h.now }
{
    blocks.iter().any(|block| block.has(h))
}

// The header that stands first.
#[tactic(auto, unfolding(np_space::specs::Header::header_le))]
fn lesser(x: Header, y: Header) -> Header
    ensures { result ≡ (if header_le x y then x else y) }
{
    if order(&x, &y).is_le() { x } else { y }
}

// The lesser of a header and the least one of a block.
fn least_with(best: Option<Header>, block: &Block) -> Header
    ensures { (test : Header → Bool) → IsLeastIfAny test best → IsLeast (λ h. test h || block_has block.now h) result }
{
    let least = block.least();
    match best {
        Some(first) => lesser(first, least),
        None => least,
    }
}

// The least header of the list.
pub(crate) fn least(blocks: &[Block]) -> Option<Header>
    ensures { IsLeastIfAny (any_has blocks.now) result }
{
    let mut best = None;
    for block in blocks {
        best = Some(least_with(best, block));
    }
    best
}
