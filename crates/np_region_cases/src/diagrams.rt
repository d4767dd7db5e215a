//! What only the store of diagrams shows: its nodes.

use np_bdd::{Diagrams, Node, View};
use np_region::Regions;
use np_space::{AddressField, Block, Ternary};
use std::alloc::{AllocError, Global};
use std::test::Fail;

// Every header with these source and destination addresses.
fn from_to(src: Ternary, dst: Ternary) -> Block {
    let mut block = Block::everything();
    block.src = src;
    block.dst = dst;
    block
}

// The addresses in which each of these bits is 1.
fn with_bits(bits: u32) -> Ternary {
    Ternary::of(bits, !bits)
}

// The node's diagram has a test of bit 0 first, or of another one.
fn first_bit(store: &Diagrams, x: Node) -> Option<u8>
    requires { ⟦<Diagrams as Regions>⟧.fits store.now x }
{
    match store.view(&x) {
        View::Test { bit, .. } => Some(bit),
        View::No | View::Yes => None,
    }
}

// Every header in whose source bit 0 is 1.
fn high_sources() -> Block {
    from_to(with_bits(1 << 31), Ternary::any())
}

// What the parts of the valid headers by bit 0 show, and whether they are the same.
fn parts_by_bit_0(store: &mut Diagrams) -> Result<(View, View, bool), AllocError> {
    let whole = store.whole()?;
    let high = store.of_block(&high_sources())?;
    let low = store.minus(&whole, &high)?;
    Ok((store.view(&low), store.view(&high), store.same(&low, &high)))
}

// Whether what is left without the rest is the same node again.
fn taken_out_twice(store: &mut Diagrams) -> Result<bool, AllocError> {
    let whole = store.whole()?;
    let high = store.of_block(&high_sources())?;
    let low = store.minus(&whole, &high)?;
    let again = store.minus(&whole, &low)?;
    Ok(again == high && store.same(&again, &high))
}

// Whether the two parts have no header in common.
fn parts_are_apart(store: &mut Diagrams) -> Result<bool, AllocError> {
    let whole = store.whole()?;
    let high = store.of_block(&high_sources())?;
    let low = store.minus(&whole, &high)?;
    let neither = store.meet(&low, &high)?;
    Ok(store.is_empty(&neither))
}

// What the nodes of no and of all valid headers show, the second by its first bit alone.
fn ends(store: &mut Diagrams) -> Result<(View, Option<u8>, [Node; 2]), AllocError> {
    let none = store.none();
    let whole = store.whole()?;
    Ok((store.view(&none), first_bit(store, whole), [none, whole]))
}

// How many nodes the region of these sources takes beside those that there are.
fn nodes_made(store: &mut Diagrams, patterns: &[Ternary]) -> Result<usize, AllocError> {
    let before = store.count();
    store.of_addresses(AddressField::Src, patterns)?;
    Ok(store.count().saturating_sub(before))
}

#[test]
fn many_addresses_take_no_other_nodes(rt: HostRuntime) -> Result<(), Fail> {
    let mut store = Diagrams::new(rt.alloc())?;
    store.whole()?;
    let ten = Ternary::prefix(0x0a00_0000, 8);
    let low = Ternary::prefix(0x0a00_0000, 9);
    let high = Ternary::prefix(0x0a80_0000, 9);
    assert_eq!(rt; nodes_made(&mut store, &[])?, 0);
    assert_eq!(rt; nodes_made(&mut store, &[Ternary::any(), ten])?, 0);
    // a test for each fixed bit, and none where two prefixes make up one
    assert_eq!(rt; nodes_made(&mut store, &[ten])?, 8);
    assert_eq!(rt; nodes_made(&mut store, &[high, ten, low])?, 0);
    assert_eq!(rt; nodes_made(&mut store, &[high, low])?, 0);
    // the two hosts differ in the last bit alone
    let first = Ternary::host(0xc000_0200);
    let second = Ternary::host(0xc000_0201);
    assert_eq!(rt; nodes_made(&mut store, &[second, first])?, 31);
    Ok(())
}

#[test]
fn nodes_of_equal_regions(rt: HostRuntime) -> Result<(), Fail> {
    let mut store = Diagrams::new(rt.alloc())?;
    let (shown, bit, [none, whole]) = ends(&mut store)?;
    assert_eq!(rt; shown, View::No);
    assert_eq!(rt; bit, Some(64));
    let (low, high, same) = parts_by_bit_0(&mut store)?;
    assert_eq!(rt;
        low,
        View::Test {
            bit: 0,
            low: whole,
            high: none
        }
    );
    assert_eq!(rt;
        high,
        View::Test {
            bit: 0,
            low: none,
            high: whole
        }
    );
    assert_eq!(rt; same, false);
    assert_eq!(rt; taken_out_twice(&mut store)?, true);
    assert_eq!(rt; parts_are_apart(&mut store)?, true);
    Ok(())
}
