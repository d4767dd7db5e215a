//! The region of an access list.

ghost use Rattle.std.specs.Prelude.{◌≡◌, ◌↔◌, ◌∷◌, [], Bool, false, ◌&&◌, ◌||◌, not, ℕ, ◌≤◌, nat_le, Option, IsNone, IfSome, IfOk, if◌then◌else◌};
ghost use Rattle.np_space.specs.Flag.{flag_number, some_has};
ghost use Rattle.np_space.specs.Header.{is_valid_header};
ghost use Rattle.np_space.specs.Block.{block_has};
ghost use Rattle.np_space.specs.Span.{span_has};
ghost use Rattle.np_space.specs.declared.headers.Header.{Header};
ghost use Rattle.np_region.specs.Keeping.{KeepsRegions};
ghost use Rattle.std.specs.Prelude.{List as ListOf, ◌++◌};
ghost use Rattle.np_acl.specs.declared.entries.Entry.{Entry as Entries};
ghost use Rattle.np_acl.specs.Entries.{entry_matches, list_permits};
ghost use Rattle.np_cut.specs.Cutting.{matches_with, IsPartOf};

use np_acl::{Entry, List, PortSpan};
use np_region::Regions;
use np_space::{Block, Span};
use std::alloc::{AllocError, Global};

// The numbers of the span that are no greater than `most`.
fn span_to(span: &Span, most: u16) -> Option<Span>
    ensures exact { (x : ℕ) → some_has span_has result x ≡ (span_has span.now x && nat_le x most) }
    ensures capped { IfSome result (λ part. part.high ≤ most) }
{
    if span.low <= most {
        Some(Span {
            low: span.low,
            high: span.high.min(most),
        })
    } else {
        None
    }
}

// The headers that the entry matches with these spans for its ports, as a block; none where it
// matches no protocol, no flag or no code point.
fn entry_block(entry: &Entry, a: Span, b: Span) -> Option<Block>
    ensures { (h : Header) → (is_valid_header h && some_has block_has result h) ≡ (is_valid_header h && matches_with entry.now (a ∷ []) (b ∷ []) h) }
{
    let proto = span_to(&entry.proto, 255)?;
    let est = span_to(&entry.est, 1)?;
    let dscp = span_to(&entry.dscp, 63)?;
    Some(Block {
        src: entry.src,
        dst: entry.dst,
        proto,
        a,
        b,
        est,
        dscp,
    })
}

// Adds to a region the valid headers that the entry matches with these spans for its ports.
fn with_block<S: Regions>(
    store: &mut S,
    region: S::R,
    entry: &Entry,
    a: Span,
    b: Span,
) -> Result<S::R, AllocError>
    requires { S.fits store.old region }
    ensures kept { KeepsRegions S.fits S.has_header store.old store.new }
    ensures fits { IfOk result (λ x. S.fits store.new x) }
    ensures exact { IfOk result (λ x. (h : Header) → S.has_header store.new x h ≡ (S.has_header store.old region h || (is_valid_header h && matches_with entry.now (a ∷ []) (b ∷ []) h))) }
{
    match entry_block(entry, a, b) {
        Some(block) => {
            let part = store.of_block(&block)?;
            let joined = store.join(&region, &part)?;
            Ok(joined)
        }
        None => Ok(region),
    }
}

// Adds to a region the valid headers that the entry matches with this span for its source ports.
fn with_source<S: Regions>(
    store: &mut S,
    region: S::R,
    entry: &Entry,
    a: Span,
) -> Result<S::R, AllocError>
    requires { S.fits store.old region }
    ensures kept { KeepsRegions S.fits S.has_header store.old store.new }
    ensures fits { IfOk result (λ x. S.fits store.new x) }
    ensures exact { IfOk result (λ x. (h : Header) → S.has_header store.new x h ≡ (S.has_header store.old region h || (is_valid_header h && matches_with entry.now (a ∷ []) entry.now.b h))) }
{
    let mut all = region;
    for b in entry.b.as_slice() {
        all = with_block(store, all, entry, a, b.span())?;
    }
    Ok(all)
}

/// Exactly the valid headers that the entry matches. Fails only for want of memory. It joins a block
/// for each pair of a span of `a` and a span of `b`.
pub fn entry_region<S: Regions>(store: &mut S, entry: &Entry) -> Result<S::R, AllocError>
    ensures kept { KeepsRegions S.fits S.has_header store.old store.new }
    ensures fits { IfOk result (λ x. S.fits store.new x) }
    ensures exact { IfOk result (λ x. (h : Header) → S.has_header store.new x h ≡ (is_valid_header h && entry_matches entry.now h)) }
{
    let mut all = store.none();
    for a in entry.a.as_slice() {
        all = with_source(store, all, entry, a.span())?;
    }
    Ok(all)
}

/// What entries in a row match of the valid headers, and what of it they permit.
#[derive(Drop)]
struct Part<R> {
    matched: R,
    permitted: R,
}

// What one entry matches and permits.
#[tactic(auto, using(crate::proofs::CuttingLaws::part_of_entry))]
fn part_of_one<S: Regions>(store: &mut S, entry: &Entry) -> Result<Part<S::R>, AllocError>
    ensures kept { KeepsRegions S.fits S.has_header store.old store.new }
    ensures part { IfOk result (λ x. IsPartOf S.fits S.has_header store.new (entry.now ∷ []) x.matched x.permitted) }
{
    let matched = entry_region(store, entry)?;
    let permitted = if entry.permit {
        store.copy(&matched)?
    } else {
        store.none()
    };
    Ok(Part { matched, permitted })
}

// What is permitted where some entries stand before others: what the first ones match they decide alone.
fn permitted_before<S: Regions>(
    store: &mut S,
    first: &Part<S::R>,
    second: &S::R,
) -> Result<S::R, AllocError>
    requires matched { S.fits store.old first.now.matched }
    requires permitted { S.fits store.old first.now.permitted }
    requires second { S.fits store.old second.now }
    ensures kept { KeepsRegions S.fits S.has_header store.old store.new }
    ensures fits { IfOk result (λ x. S.fits store.new x) }
    ensures exact { IfOk result (λ x. (h : Header) → S.has_header store.new x h ≡ (S.has_header store.old first.now.permitted h || (S.has_header store.old second.now h && not (S.has_header store.old first.now.matched h)))) }
{
    let rest = store.minus(second, &first.matched)?;
    store.join(&first.permitted, &rest)
}

// What entries match and permit, the first of them before the others.
#[tactic(auto, using(crate::proofs::CuttingLaws::parts_together))]
fn put_before<S: Regions>(
    store: &mut S,
    first: &Part<S::R>,
    second: &Part<S::R>,
) -> Result<Part<S::R>, AllocError>
    requires first_matched { S.fits store.old first.now.matched }
    requires first_permitted { S.fits store.old first.now.permitted }
    requires second_matched { S.fits store.old second.now.matched }
    requires second_permitted { S.fits store.old second.now.permitted }
    ensures kept { KeepsRegions S.fits S.has_header store.old store.new }
    ensures part { IfOk result (λ x. (xs ys : ListOf Entries) → IsPartOf S.fits S.has_header store.old xs first.now.matched first.now.permitted → IsPartOf S.fits S.has_header store.old ys second.now.matched second.now.permitted → IsPartOf S.fits S.has_header store.new (xs ++ ys) x.matched x.permitted) }
{
    let permitted = permitted_before(store, first, &second.permitted)?;
    let matched = store.join(&first.matched, &second.matched)?;
    Ok(Part { matched, permitted })
}

// What entries match and permit, by halves: so each region is joined with one of its own size, and not a
// small one again and again with all that there is.
#[tactic(auto, using(crate::proofs::CuttingLaws::part_of_none))]
fn part_of<S: Regions>(store: &mut S, entries: &[Entry]) -> Result<Part<S::R>, AllocError>
    ensures kept { KeepsRegions S.fits S.has_header store.old store.new }
    ensures part { IfOk result (λ x. IsPartOf S.fits S.has_header store.new entries.now x.matched x.permitted) }
{
    if let [entry] = entries {
        return part_of_one(store, entry);
    }
    if entries.is_empty() {
        return Ok(Part {
            matched: store.none(),
            permitted: store.none(),
        });
    }
    let (before, after) = entries.split_at(entries.len() / 2);
    let first = part_of(store, before)?;
    let second = part_of(store, after)?;
    Ok(put_before(store, &first, &second)?)
}

/// Exactly the valid headers that the list permits, by its first entry that matches (Cisco IOS Security
/// Command Reference, `access-list`; Guttman and Herzog 2005). Fails only for want of memory. The entries are taken
/// by halves, with three joins and differences of regions for each entry beside its own region.
pub fn list_region<S: Regions>(
    _alloc: Global,
    store: &mut S,
    list: &List,
) -> Result<S::R, AllocError>
    ensures kept { KeepsRegions S.fits S.has_header store.old store.new }
    ensures fits { IfOk result (λ x. S.fits store.new x) }
    ensures exact { IfOk result (λ x. (h : Header) → S.has_header store.new x h ≡ (is_valid_header h && list_permits list.now h)) }
{
    let entries = list.as_slice();
    if entries.is_empty() {
        store.whole()
    } else {
        Ok(part_of(store, entries)?.permitted)
    }
}
