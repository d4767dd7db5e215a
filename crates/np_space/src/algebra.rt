//! The common headers of two blocks, and the headers of one that another hasn't.

ghost use Rattle.std.specs.Prelude.{◌≡◌, ◌≢◌, ◌+◌, ◌≤◌, ◌<◌, ◌↔◌, ℕ, [], ◌∷◌, ◌&&◌, not, false, vec_len, IsTrue, IsNone, is_some, IfSome, IfOk, OnOk};
ghost use Rattle.std.specs.Option.{ForSome};
ghost use Rattle.np_space.specs.Flag.{flag_number, some_has};
ghost use Rattle.np_space.specs.Span.{IsPartOf};
ghost use Rattle.np_space.specs.Ternary.{IsNarrower, SameBit};
ghost use Rattle.np_space.specs.Block.{block_has, address_of, span_of, has_with_address, has_with_span, IsInside, HasMoved, count_having, any_has, AreDisjoint};
ghost use Rattle.np_space.specs.declared.headers.Header.{Header};

use crate::blocks::{AddressField, Block, SpanField};
use crate::patterns::Ternary;
use crate::spans::Span;
use std::alloc::{AllocError, Global};

/// The block of the headers that both blocks have. `None` comes exactly where they have no header
/// in common.
pub fn meet(x: &Block, y: &Block) -> Option<Block>
    ensures exact { (h : Header) → some_has block_has result h ≡ (block_has x.now h && block_has y.now h) }
    ensures none { IsNone result ↔ ((h : Header) → (block_has x.now h && block_has y.now h) ≡ false) }
    ensures inside { IfSome result (λ common. IsInside common x.now) }
{
    Some(Block {
        src: x.src.meet(&y.src)?,
        dst: x.dst.meet(&y.dst)?,
        proto: x.proto.meet(&y.proto)?,
        a: x.a.meet(&y.a)?,
        b: x.b.meet(&y.b)?,
        est: x.est.meet(&y.est)?,
        dscp: x.dscp.meet(&y.dscp)?,
    })
}

// Adds the numbers of the pattern that the narrower one lacks on account of the bit, as a block, and
// fixes the bit.
fn push_bit(
    pieces: &mut Vec<Block>,
    whole: &Block,
    field: AddressField,
    rest: &mut Ternary,
    part: &Ternary,
    bit: u32,
) -> Result<(), AllocError>
    requires bit { bit < 32 }
    requires narrower { IsNarrower part.now rest.old }
    ensures narrower { IsNarrower part.now rest.new }
    ensures fixed { SameBit rest.new part.now bit }
    ensures others { (i : ℕ) → i ≢ bit → SameBit rest.new rest.old i }
    ensures exact { OnOk result (HasMoved (has_with_address field rest.old whole.now) (has_with_address field rest.new whole.now) pieces.old.items pieces.new.items) }
    ensures bound { vec_len pieces.new ≤ vec_len pieces.old + 1 }
{
    match rest.fix(part, bit) {
        Some(taken) => Ok(pieces.push(whole.with_address(field, taken))?),
        None => Ok(()),
    }
}

// Adds the headers of the block whose address in the field isn't in the narrower pattern.
fn push_addresses(
    pieces: &mut Vec<Block>,
    whole: &Block,
    field: AddressField,
    part: &Ternary,
) -> Result<(), AllocError>
    requires { IsNarrower part.now (address_of field whole.now) }
    ensures exact { OnOk result (HasMoved (block_has whole.now) (has_with_address field part.now whole.now) pieces.old.items pieces.new.items) }
    ensures bound { OnOk result (vec_len pieces.new ≤ vec_len pieces.old + 32) }
{
    let mut rest = whole.address(field);
    for bit in 0..32 {
        push_bit(pieces, whole, field, &mut rest, part, bit)?;
    }
    Ok(())
}

// Adds the block with the span in the field, if there is one.
fn push_span(
    pieces: &mut Vec<Block>,
    whole: &Block,
    field: SpanField,
    span: Option<Span>,
) -> Result<(), AllocError>
    requires { ForSome span (λ some. IsPartOf some (span_of field whole.now)) }
    ensures exact { OnOk result ((h : Header) → count_having pieces.new.items h ≡ count_having pieces.old.items h + flag_number (some_has (λ some. has_with_span field some whole.now) span h)) }
    ensures len { OnOk result (vec_len pieces.new ≡ vec_len pieces.old + flag_number (is_some span)) }
{
    match span {
        Some(some) => Ok(pieces.push(whole.with_span(field, some))?),
        None => Ok(()),
    }
}

// Adds the headers of the block whose number in the field isn't in a part of the span: at most two
// blocks, and no more than the span has numbers beside its first.
fn push_numbers(
    pieces: &mut Vec<Block>,
    whole: &Block,
    field: SpanField,
    part: &Span,
) -> Result<(), AllocError>
    requires { IsPartOf part.now (span_of field whole.now) }
    ensures exact { OnOk result (HasMoved (block_has whole.now) (has_with_span field part.now whole.now) pieces.old.items pieces.new.items) }
    ensures bound { OnOk result (vec_len pieces.new ≤ vec_len pieces.old + 2) }
    ensures narrow { OnOk result (vec_len pieces.new + (span_of field whole.now).low ≤ vec_len pieces.old + (span_of field whole.now).high) }
{
    let span = whole.span(field);
    push_span(pieces, whole, field, span.below(part))?;
    push_span(pieces, whole, field, span.above(part))?;
    Ok(())
}

// The headers of the block that a block inside it hasn't: field by field, with the fields before it
// as in the part and those after it as in the whole.
fn outside(alloc: Global, whole: &Block, part: &Block) -> Result<Vec<Block>, AllocError>
    requires { IsInside part.now whole.now }
    ensures exact { IfOk result (λ v. HasMoved (block_has whole.now) (block_has part.now) [] v.items) }
    ensures bound { IfOk result (λ v. vec_len v ≤ 73) }
{
    let mut pieces = Vec::new(alloc);
    let mut rest = *whole;
    push_addresses(&mut pieces, &rest, AddressField::Src, &part.src)?;
    rest.src = part.src;
    push_addresses(&mut pieces, &rest, AddressField::Dst, &part.dst)?;
    rest.dst = part.dst;
    push_numbers(&mut pieces, &rest, SpanField::Proto, &part.proto)?;
    rest.proto = part.proto;
    push_numbers(&mut pieces, &rest, SpanField::A, &part.a)?;
    rest.a = part.a;
    push_numbers(&mut pieces, &rest, SpanField::B, &part.b)?;
    rest.b = part.b;
    push_numbers(&mut pieces, &rest, SpanField::Est, &part.est)?;
    rest.est = part.est;
    push_numbers(&mut pieces, &rest, SpanField::Dscp, &part.dscp)?;
    Ok(pieces)
}

/// The headers of `x` that `y` hasn't, as at most 73 blocks of which no two have a header in
/// common: `x` alone where the blocks don't meet, and no block where `y` has all of `x`. Fails only
/// for want of memory.
pub fn minus(alloc: Global, x: &Block, y: &Block) -> Result<Vec<Block>, AllocError>
    ensures once { IfOk result (λ v. (h : Header) → count_having v.items h ≡ flag_number (block_has x.now h && not (block_has y.now h))) }
    ensures together { IfOk result (λ v. (h : Header) → any_has v.items h ≡ (block_has x.now h && not (block_has y.now h))) }
    ensures disjoint { IfOk result (λ v. AreDisjoint v.items) }
    ensures bound { IfOk result (λ v. vec_len v ≤ 73) }
    ensures empty { IfOk result (λ v. (v.items ≡ []) ↔ ((h : Header) → IsTrue (block_has x.now h) → IsTrue (block_has y.now h))) }
    ensures alone { IfOk result (λ v. ((h : Header) → (block_has x.now h && block_has y.now h) ≡ false) → v.items ≡ x.now ∷ []) }
{
    match meet(x, y) {
        Some(common) => outside(alloc, x, &common),
        None => {
            let mut pieces = Vec::new(alloc);
            pieces.push(*x)?;
            Ok(pieces)
        }
    }
}
