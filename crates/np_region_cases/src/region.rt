//! Regions: callers of a store that know no more of it than the trait says, over both stores.

ghost use Rattle.std.specs.Prelude.{◌≡◌, ◌&&◌, ◌||◌, not, true, false, IsTrue, IfOk, map, length, ◌<◌};
ghost use Rattle.np_space.specs.Header.{is_valid_header, IsValid};
ghost use Rattle.np_space.specs.declared.headers.Header.{Header};
ghost use Rattle.np_region.specs.Keeping.{KeepsRegions, EachFits, some_has_header};

use np_bdd::Diagrams;
use np_region::{BlockLists, Regions};
use np_space::{Block, Header, Span, valid_blocks};
use std::alloc::{AllocError, Global};
use std::process::Abort;
use std::test::Fail;

// The first region without the second, joined with the third.
fn without_joined<S: Regions>(
    store: &mut S,
    x: &S::R,
    y: &S::R,
    z: &S::R,
) -> Result<S::R, AllocError>
    requires first { S.fits store.old x.now }
    requires second { S.fits store.old y.now }
    requires third { S.fits store.old z.now }
    ensures kept { KeepsRegions S.fits S.has_header store.old store.new }
    ensures fits { IfOk result (λ r. S.fits store.new r) }
    ensures exact { IfOk result (λ r. (h : Header) → S.has_header store.new r h ≡ ((S.has_header store.old x.now h && not (S.has_header store.old y.now h)) || S.has_header store.old z.now h)) }
{
    let rest = store.minus(x, y)?;
    store.join(&rest, z)
}

// All headers that some of the regions has.
fn join_all<S: Regions>(store: &mut S, regions: &[S::R]) -> Result<S::R, AllocError>
    requires { EachFits S.fits store.old regions.now }
    ensures kept { KeepsRegions S.fits S.has_header store.old store.new }
    ensures fits { IfOk result (λ r. S.fits store.new r) }
    ensures exact { IfOk result (λ r. (h : Header) → S.has_header store.new r h ≡ some_has_header S.has_header store.old regions.now h) }
{
    let mut all = store.none();
    for region in regions {
        all = store.join(&all, region)?;
    }
    Ok(all)
}

// The headers that each of the regions has in common with another.
fn meet_each<S: Regions>(
    alloc: Global,
    store: &mut S,
    regions: &[S::R],
    cut: &S::R,
) -> Result<Vec<S::R>, AllocError>
    requires each { EachFits S.fits store.old regions.now }
    requires cut { S.fits store.old cut.now }
    ensures kept { KeepsRegions S.fits S.has_header store.old store.new }
    ensures fits { IfOk result (λ v. EachFits S.fits store.new v.items) }
    ensures exact { IfOk result (λ v. (h : Header) → some_has_header S.has_header store.new v.items h ≡ (some_has_header S.has_header store.old regions.now h && S.has_header store.old cut.now h)) }
{
    let mut common = Vec::new(alloc);
    for region in regions {
        let part = store.meet(region, cut)?;
        common.push(part)?;
    }
    Ok(common)
}

// A header that a region has is valid.
fn has_valid<S: Regions>(store: &S, x: &S::R, h: &Header) -> bool
    requires { S.fits store.now x.now }
    ensures { IsTrue result → IsValid h.now }
{
    store.has(x, h)
}

// A header without addresses and numbers.
fn header(proto: u8, est: bool) -> Header {
    let mut header = Header::zeros();
    header.proto = proto;
    header.est = est;
    header
}

fn least_of_none<S: Regions>(store: &mut S) -> Option<Header> {
    let none = store.none();
    store.least(&none)
}

fn least_of_whole<S: Regions>(store: &mut S) -> Result<Option<Header>, AllocError> {
    let whole = store.whole()?;
    Ok(store.least(&whole))
}

fn whole_has<S: Regions>(store: &mut S, h: &Header) -> Result<bool, AllocError> {
    let whole = store.whole()?;
    Ok(has_valid(store, &whole, h))
}

fn whole_less_copy_is_empty<S: Regions>(store: &mut S) -> Result<bool, AllocError> {
    let whole = store.whole()?;
    let copy = store.copy(&whole)?;
    let rest = store.minus(&whole, &copy)?;
    Ok(store.is_empty(&rest))
}

fn least_of_join<S: Regions>(
    store: &mut S,
    x: &Block,
    y: &Block,
) -> Result<Option<Header>, AllocError> {
    let first = store.of_block(x)?;
    let second = store.of_block(y)?;
    let both = store.join(&first, &second)?;
    Ok(store.least(&both))
}

fn least_of_meet<S: Regions>(
    store: &mut S,
    x: &Block,
    y: &Block,
) -> Result<Option<Header>, AllocError> {
    let first = store.of_block(x)?;
    let second = store.of_block(y)?;
    let common = store.meet(&first, &second)?;
    Ok(store.least(&common))
}

// The least header of what `without_joined` and `join_all` make of two blocks, and how many regions
// `meet_each` makes of them.
fn by_the_laws<S: Regions>(
    alloc: Global,
    store: &mut S,
    x: &Block,
    y: &Block,
) -> Result<(Option<Header>, Option<Header>, usize), AllocError> {
    let first = store.of_block(x)?;
    let second = store.of_block(y)?;
    let rest = without_joined(store, &first, &first, &second)?;
    let mut both = Vec::new(alloc);
    both.push(first)?;
    both.push(second)?;
    let all = join_all(store, &both)?;
    let common = meet_each(alloc, store, &both, &rest)?;
    Ok((store.least(&rest), store.least(&all), common.len()))
}

// What every store answers.
fn the_least_and_the_empty_region<R: Abort, S: Regions>(
    rt: &R,
    alloc: Global,
    store: &mut S,
) -> Result<(), Fail> {
    let [_, _, _, tcp, _, udp, _] = valid_blocks();
    assert_eq!(rt; least_of_none(store), None);
    assert_eq!(rt; least_of_whole(store)?, Some(header(0, false)));
    assert_eq!(rt; whole_has(store, &header(17, true))?, false);
    assert_eq!(rt; whole_less_copy_is_empty(store)?, true);
    assert_eq!(rt; least_of_join(store, &udp, &tcp)?, Some(header(6, false)));
    assert_eq!(rt; least_of_meet(store, &udp, &tcp)?, None);
    assert_eq!(rt; least_of_meet(store, &udp, &udp)?, Some(header(17, false)));
    assert_eq!(rt;
        by_the_laws(alloc, store, &tcp, &udp)?,
        (Some(header(17, false)), Some(header(6, false)), 2)
    );
    Ok(())
}

// The flag and the code point of a header that is valid, and past what is.
fn the_last_fields<R: Abort, S: Regions>(rt: &R, store: &mut S) -> Result<(), Fail> {
    let mut marked = header(6, true);
    marked.dscp = 63;
    assert_eq!(rt; whole_has(store, &marked)?, true);
    marked.dscp = 64;
    assert_eq!(rt; whole_has(store, &marked)?, false);
    let mut replies = Block::everything();
    replies.est = Span { low: 1, high: 1 };
    replies.dscp = Span { low: 46, high: 46 };
    let mut least = header(6, true);
    least.dscp = 46;
    assert_eq!(rt; least_of_meet(store, &replies, &replies)?, Some(least));
    Ok(())
}

#[test]
fn regions_of_block_lists(rt: HostRuntime) -> Result<(), Fail> {
    let mut store = BlockLists::new(rt.alloc());
    the_least_and_the_empty_region(&rt, rt.alloc(), &mut store)?;
    the_last_fields(&rt, &mut store)
}

#[test]
fn regions_of_diagrams(rt: HostRuntime) -> Result<(), Fail> {
    let mut store = Diagrams::new(rt.alloc())?;
    the_least_and_the_empty_region(&rt, rt.alloc(), &mut store)?;
    the_last_fields(&rt, &mut store)
}
