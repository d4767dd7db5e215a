//! The regions of many addresses, over both stores.

use np_bdd::Diagrams;
use np_region::{BlockLists, Regions};
use np_space::{AddressField, Header, Ternary};
use std::alloc::AllocError;
use std::process::Abort;
use std::test::Fail;

/// A header with this address at the field, and with another at the other one.
fn header_at(field: AddressField, address: u32, other: u32) -> Header {
    let (src, dst) = match field {
        AddressField::Src => (address, other),
        AddressField::Dst => (other, address),
    };
    let mut header = Header::zeros();
    header.src = src;
    header.dst = dst;
    header
}

/// Addresses that tell the patterns of these tests apart: the first and the last of all, the two ends of
/// 10.0.0.0/8 with their neighbours, and 192.0.2.1 with its own.
fn addresses() -> [u32; 9] {
    [
        0x0000_0000,
        0x09ff_ffff,
        0x0a00_0000,
        0x0aff_ffff,
        0x0b00_0000,
        0xc000_0200,
        0xc000_0201,
        0xc000_0202,
        0xffff_ffff,
    ]
}

/// Whether the region has each of the addresses beside another one, and its least header.
fn answers<S: Regions>(
    store: &mut S,
    field: AddressField,
    patterns: &[Ternary],
    other: u32,
) -> Result<([bool; 9], Option<Header>), AllocError> {
    let region = store.of_addresses(field, patterns)?;
    let mut having = [false; 9];
    for (has, address) in having.iter_mut().zip(&addresses()) {
        *has = store.has(&region, &header_at(field, *address, other));
    }
    Ok((having, store.least(&region)))
}

/// The regions of both fields have the addresses that they should, whatever the other address is, and the
/// least header has the least of them.
fn compare<R: Abort, S: Regions>(
    rt: &R,
    store: &mut S,
    patterns: &[Ternary],
    having: [bool; 9],
    least: Option<u32>,
) -> Result<(), Fail> {
    let (src, dst) = (AddressField::Src, AddressField::Dst);
    let first = least.map(|address| header_at(AddressField::Src, address, 0));
    assert_eq!(rt; answers(store, src, patterns, 0)?, (having, first));
    assert_eq!(rt;
        answers(store, src, patterns, 0xc000_0201)?,
        (having, first)
    );
    let first = least.map(|address| header_at(AddressField::Dst, address, 0));
    assert_eq!(rt; answers(store, dst, patterns, 0)?, (having, first));
    assert_eq!(rt;
        answers(store, dst, patterns, 0xc000_0201)?,
        (having, first)
    );
    Ok(())
}

fn prefixes<R: Abort, S: Regions>(rt: &R, store: &mut S) -> Result<(), Fail> {
    let (y, n) = (true, false);
    let ten = Ternary::prefix(0x0a00_0000, 8);
    let half = Ternary::prefix(0x0a80_0000, 9);
    let host = Ternary::host(0xc000_0201);
    compare(rt, store, &[], [n, n, n, n, n, n, n, n, n], None)?;
    compare(
        rt,
        store,
        &[host],
        [n, n, n, n, n, n, y, n, n],
        Some(0xc000_0201),
    )?;
    compare(
        rt,
        store,
        &[ten],
        [n, n, y, y, n, n, n, n, n],
        Some(0x0a00_0000),
    )?;
    compare(
        rt,
        store,
        &[half],
        [n, n, n, y, n, n, n, n, n],
        Some(0x0a80_0000),
    )?;
    // in order, out of order, inside one another and repeated
    compare(
        rt,
        store,
        &[ten, host],
        [n, n, y, y, n, n, y, n, n],
        Some(0x0a00_0000),
    )?;
    compare(
        rt,
        store,
        &[host, ten],
        [n, n, y, y, n, n, y, n, n],
        Some(0x0a00_0000),
    )?;
    compare(
        rt,
        store,
        &[half, ten, half],
        [n, n, y, y, n, n, n, n, n],
        Some(0x0a00_0000),
    )?;
    compare(
        rt,
        store,
        &[host, host, host],
        [n, n, n, n, n, n, y, n, n],
        Some(0xc000_0201),
    )?;
    compare(
        rt,
        store,
        &[host, Ternary::any()],
        [y, y, y, y, y, y, y, y, y],
        Some(0),
    )
}

/// Neighbours that make up a prefix, and patterns whose wild bits stand before fixed ones.
fn other_patterns<R: Abort, S: Regions>(rt: &R, store: &mut S) -> Result<(), Fail> {
    let (y, n) = (true, false);
    let low = Ternary::prefix(0x0a00_0000, 9);
    let high = Ternary::prefix(0x0a80_0000, 9);
    compare(
        rt,
        store,
        &[high, low],
        [n, n, y, y, n, n, n, n, n],
        Some(0x0a00_0000),
    )?;
    // odd addresses, and those that end with two zeros
    let odd = Ternary::of(1, 0xffff_fffe);
    let fourth = Ternary::of(0, 0xffff_fffc);
    compare(rt, store, &[odd], [n, y, n, y, n, n, y, n, y], Some(1))?;
    compare(
        rt,
        store,
        &[odd, fourth],
        [y, y, y, y, y, y, y, n, y],
        Some(0),
    )?;
    compare(
        rt,
        store,
        &[fourth, low],
        [y, n, y, n, y, y, n, n, n],
        Some(0),
    )
}

/// Whether the region of all addresses has a header that isn't valid: one with a type and without a
/// protocol that has types, and one with a code point past the last.
fn invalid<S: Regions>(store: &mut S) -> Result<[bool; 2], AllocError> {
    let all = store.of_addresses(AddressField::Src, &[Ternary::any()])?;
    let mut typed = header_at(AddressField::Src, 1, 1);
    typed.a = 3;
    let mut marked = header_at(AddressField::Src, 1, 1);
    marked.dscp = 64;
    Ok([store.has(&all, &typed), store.has(&all, &marked)])
}

fn many_addresses<R: Abort, S: Regions>(rt: &R, store: &mut S) -> Result<(), Fail> {
    prefixes(rt, store)?;
    other_patterns(rt, store)?;
    assert_eq!(rt; invalid(store)?, [false, false]);
    Ok(())
}

#[test]
fn addresses_over_block_lists(rt: HostRuntime) -> Result<(), Fail> {
    many_addresses(&rt, &mut BlockLists::new(rt.alloc()))
}

#[test]
fn addresses_over_diagrams(rt: HostRuntime) -> Result<(), Fail> {
    let mut store = Diagrams::new(rt.alloc())?;
    many_addresses(&rt, &mut store)
}
