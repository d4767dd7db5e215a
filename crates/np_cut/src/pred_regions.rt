//! The region of a predicate.

ghost use Rattle.std.specs.Prelude.{◌≡◌, ◌==◌, ◌&&◌, ◌||◌, not, false, IfOk, OnOk};
ghost use Rattle.np_space.specs.Header.{is_valid_header};
ghost use Rattle.np_space.specs.Block.{block_has};
ghost use Rattle.np_space.specs.Span.{span_has};
ghost use Rattle.np_space.specs.Patterns.{any_pattern_has};
ghost use Rattle.np_space.specs.declared.headers.Header.{Header};
ghost use Rattle.np_pred.specs.Dscp.{dscp_has};
ghost use Rattle.np_pred.specs.Meaning.{has_ports, pred_holds};
ghost use Rattle.np_region.specs.Keeping.{KeepsRegions};
ghost use Rattle.np_cut.specs.Making.{AreMade};

use crate::field_blocks::{
    of_code_points, of_established, of_first_number, of_protocol, of_second_number,
};
use crate::made_regions::{Made, address_region};
use np_pred::{DscpSpan, Pred};
use np_region::Regions;
use np_space::{AddressField, Block, Span, Ternary};
use std::alloc::{AllocError, Global};

// The valid headers that one of two blocks has.
fn of_two<S: Regions>(store: &mut S, first: &Block, second: &Block) -> Result<S::R, AllocError>
    ensures kept { KeepsRegions S.fits S.has_header store.old store.new }
    ensures fits { IfOk result (λ x. S.fits store.new x) }
    ensures exact { IfOk result (λ x. (h : Header) → S.has_header store.new x h ≡ ((is_valid_header h && block_has first.now h) || (is_valid_header h && block_has second.now h))) }
{
    let x = store.of_block(first)?;
    let y = store.of_block(second)?;
    store.join(&x, &y)
}

/// Exactly the valid headers whose source is in one of the patterns, as those of an area's sources. The
/// patterns may stand in any order, overlap and be repeated. Fails only for want of memory.
pub fn source_region<S: Regions>(store: &mut S, patterns: &[Ternary]) -> Result<S::R, AllocError>
    ensures kept { KeepsRegions S.fits S.has_header store.old store.new }
    ensures fits { IfOk result (λ x. S.fits store.new x) }
    ensures exact { IfOk result (λ x. (h : Header) → S.has_header store.new x h ≡ (is_valid_header h && any_pattern_has patterns.now h.src)) }
{
    store.of_addresses(AddressField::Src, patterns)
}

// The valid headers of TCP and UDP with a source port in the span.
fn source_ports<S: Regions>(store: &mut S, ports: Span) -> Result<S::R, AllocError>
    ensures kept { KeepsRegions S.fits S.has_header store.old store.new }
    ensures fits { IfOk result (λ x. S.fits store.new x) }
    ensures exact { IfOk result (λ x. (h : Header) → S.has_header store.new x h ≡ (is_valid_header h && (has_ports h && span_has ports h.a))) }
{
    of_two(
        store,
        &of_first_number(6, ports),
        &of_first_number(17, ports),
    )
}

// The valid headers of TCP and UDP with a destination port in the span.
fn destination_ports<S: Regions>(store: &mut S, ports: Span) -> Result<S::R, AllocError>
    ensures kept { KeepsRegions S.fits S.has_header store.old store.new }
    ensures fits { IfOk result (λ x. S.fits store.new x) }
    ensures exact { IfOk result (λ x. (h : Header) → S.has_header store.new x h ≡ (is_valid_header h && (has_ports h && span_has ports h.b))) }
{
    of_two(
        store,
        &of_second_number(6, ports),
        &of_second_number(17, ports),
    )
}

// The valid headers of ICMP of this type.
fn icmp_type<S: Regions>(store: &mut S, number: u8) -> Result<S::R, AllocError>
    ensures kept { KeepsRegions S.fits S.has_header store.old store.new }
    ensures fits { IfOk result (λ x. S.fits store.new x) }
    ensures exact { IfOk result (λ x. (h : Header) → S.has_header store.new x h ≡ (is_valid_header h && (h.proto == 1 && h.a == number))) }
{
    store.of_block(&of_first_number(1, Span::only(u16::from(number))))
}

// The valid headers of ICMP with this code.
fn icmp_code<S: Regions>(store: &mut S, number: u8) -> Result<S::R, AllocError>
    ensures kept { KeepsRegions S.fits S.has_header store.old store.new }
    ensures fits { IfOk result (λ x. S.fits store.new x) }
    ensures exact { IfOk result (λ x. (h : Header) → S.has_header store.new x h ≡ (is_valid_header h && (h.proto == 1 && h.b == number))) }
{
    store.of_block(&of_second_number(1, Span::only(u16::from(number))))
}

// The valid headers with one of these code points.
fn code_points<S: Regions>(store: &mut S, values: DscpSpan) -> Result<S::R, AllocError>
    ensures kept { KeepsRegions S.fits S.has_header store.old store.new }
    ensures fits { IfOk result (λ x. S.fits store.new x) }
    ensures exact { IfOk result (λ x. (h : Header) → S.has_header store.new x h ≡ (is_valid_header h && dscp_has values h.dscp)) }
{
    store.of_block(&of_code_points(values.span()))
}

// The valid headers for which an operand doesn't hold, by its region.
fn without<S: Regions>(store: &mut S, operand: S::R) -> Result<S::R, AllocError>
    requires { S.fits store.old operand }
    ensures kept { KeepsRegions S.fits S.has_header store.old store.new }
    ensures fits { IfOk result (λ x. S.fits store.new x) }
    ensures exact { IfOk result (λ x. (h : Header) → S.has_header store.new x h ≡ (is_valid_header h && not (S.has_header store.old operand h))) }
{
    let whole = store.whole()?;
    store.minus(&whole, &operand)
}

// The region of a predicate, beside regions that were made before.
#[tactic(auto, using(crate::proofs::MakingLaws::made_kept))]
pub(crate) fn pred_region_with<S: Regions>(
    store: &mut S,
    made: &mut Vec<Made<S::R>>,
    p: &Pred,
) -> Result<S::R, AllocError>
    requires { AreMade S.fits S.has_header store.old made.old.items }
    ensures kept { KeepsRegions S.fits S.has_header store.old store.new }
    ensures fits { IfOk result (λ x. S.fits store.new x) }
    ensures exact { IfOk result (λ x. (h : Header) → S.has_header store.new x h ≡ (is_valid_header h && pred_holds p.now h)) }
    ensures made { OnOk result (AreMade S.fits S.has_header store.new made.new.items) }
{
    match p {
        Pred::Any => store.whole(),
        Pred::Nothing => Ok(store.none()),
        Pred::Proto(number) => store.of_block(&of_protocol(*number)),
        Pred::Src(addresses) => address_region(store, made, AddressField::Src, addresses),
        Pred::Dst(addresses) => address_region(store, made, AddressField::Dst, addresses),
        Pred::SrcPort(ports) => source_ports(store, *ports),
        Pred::DstPort(ports) => destination_ports(store, *ports),
        Pred::IcmpType(number) => icmp_type(store, *number),
        Pred::IcmpCode(number) => icmp_code(store, *number),
        Pred::Dscp(values) => code_points(store, *values),
        Pred::Established => store.of_block(&of_established()),
        Pred::Not(operand) => {
            let region = pred_region_with(store, made, operand.get())?;
            without(store, region)
        }
        Pred::And(first, second) => {
            let x = pred_region_with(store, made, first.get())?;
            let y = pred_region_with(store, made, second.get())?;
            store.meet(&x, &y)
        }
        Pred::Or(first, second) => {
            let x = pred_region_with(store, made, first.get())?;
            let y = pred_region_with(store, made, second.get())?;
            store.join(&x, &y)
        }
    }
}

/// Exactly the valid headers for which the predicate holds. The region of many addresses that stand in it
/// more than once is made once; no clause says so. Fails only for want of memory.
pub fn pred_region<S: Regions>(alloc: Global, store: &mut S, p: &Pred) -> Result<S::R, AllocError>
    ensures kept { KeepsRegions S.fits S.has_header store.old store.new }
    ensures fits { IfOk result (λ x. S.fits store.new x) }
    ensures exact { IfOk result (λ x. (h : Header) → S.has_header store.new x h ≡ (is_valid_header h && pred_holds p.now h)) }
{
    let mut made = Vec::new(alloc);
    pred_region_with(store, &mut made, p)
}
