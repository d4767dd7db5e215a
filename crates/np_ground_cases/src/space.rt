//! Headers, patterns, spans and blocks.

use np_space::{
    Block, Header, Span, Ternary, any_pattern_has, is_valid, meet, minus, order, valid_blocks,
};
use std::cmp::Ordering;
use std::test::Fail;

// 10.1.0.7 with the wildcard 0.0.255.0.
const LAB: u32 = 0x0a01_0007;

fn header(proto: u8, a: u16, b: u16, est: bool, dscp: u8) -> Header {
    Header {
        src: 0x0a00_0001,
        dst: u32::MAX,
        proto,
        a,
        b,
        est,
        dscp,
    }
}

fn in_two(address: u32) -> bool {
    any_pattern_has(&[Ternary::host(LAB), Ternary::prefix(LAB, 24)], address)
}

fn in_none(address: u32) -> bool {
    any_pattern_has(&[], address)
}

#[test]
fn patterns_have_their_addresses(rt: HostRuntime) {
    let lab = Ternary::of(LAB | 0x0000_4200, 0x0000_ff00);
    for (address, of, host, prefix, one) in [
        (0x0a01_0007, true, true, true, true),
        (0x0a01_ff07, true, false, false, false),
        (0x0a01_4207, true, false, false, false),
        (0x0a01_0006, false, false, true, true),
        (0x0a01_00ff, false, false, true, true),
        (0x0a01_0100, false, false, false, false),
        (0x0a00_ffff, false, false, false, false),
        (0x0a02_0007, false, false, false, false),
        (u32::MAX, false, false, false, false),
    ] {
        assert_eq!(rt; lab.has(address), of, "{address} in the pattern");
        assert_eq!(rt; Ternary::host(LAB).has(address), host, "{address} alone");
        assert_eq!(rt;
            Ternary::prefix(LAB, 24).has(address),
            prefix,
            "{address} by prefix"
        );
        assert_eq!(rt; Ternary::any().has(address), true, "{address} in all");
        assert_eq!(rt; in_two(address), one, "{address} in one of two");
        assert_eq!(rt; in_none(address), false, "{address} in none");
    }
    assert_eq!(rt; lab.value, LAB);
    assert_eq!(rt; lab.wild, 0x0000_ff00);
    assert_eq!(rt; Ternary::prefix(LAB, 0), Ternary::any());
    assert_eq!(rt; Ternary::prefix(LAB, 32), Ternary::host(LAB));
    assert_eq!(rt; Ternary::prefix(LAB, 24).wild, 0x0000_00ff);
}

#[test]
fn spans_reach_both_ends(rt: HostRuntime) {
    for (low, high, number, want) in [
        (0, 0, 0, Some(true)),
        (0, 0, 1, Some(false)),
        (65535, 65535, 65535, Some(true)),
        (65535, 65535, 65534, Some(false)),
        (0, 65535, 0, Some(true)),
        (0, 65535, 65535, Some(true)),
        (1, 65534, 0, Some(false)),
        (1, 65534, 65535, Some(false)),
        (2, 1, 1, None),
    ] {
        let between = Span::between(low, high).map(|span| span.has(number));
        assert_eq!(rt; between, want, "{number} in {low} to {high}");
    }
    assert_eq!(rt; Some(Span::only(46)), Span::between(46, 46));
    assert_eq!(rt; Span::from_to(3, 9), Span { low: 3, high: 9 });
    assert_eq!(rt; Span::from_to(9, 3), Span::only(3));
}

#[test]
fn each_valid_block_has_its_headers(rt: HostRuntime) {
    let blocks = valid_blocks();
    for (h, valid, at) in [
        (header(0, 0, 0, false, 0), true, 0),
        (header(1, 255, 255, false, 63), true, 1),
        (header(2, 0, 0, false, 1), true, 2),
        (header(5, 0, 0, false, 46), true, 2),
        (header(6, 65535, 0, true, 63), true, 3),
        (header(7, 0, 0, false, 0), true, 4),
        (header(16, 0, 0, false, 0), true, 4),
        (header(17, 53, 65535, false, 63), true, 5),
        (header(18, 0, 0, false, 0), true, 6),
        (header(255, 0, 0, false, 63), true, 6),
        (header(0, 0, 0, false, 64), false, 0),
        (header(1, 256, 0, false, 0), false, 1),
        (header(6, 0, 0, true, 64), false, 3),
        (header(17, 53, 53, true, 0), false, 5),
        (header(50, 1, 0, false, 0), false, 6),
        (header(255, 0, 0, false, 255), false, 6),
    ] {
        assert_eq!(rt; is_valid(&h), valid, "{h:?}");
        let has = blocks.get(at).map(|block: &Block| block.has(&h));
        assert_eq!(rt; has, Some(valid), "{h:?} in block {at}");
        assert_eq!(rt; Block::everything().has(&h), h.dscp < 64, "{h:?} at all");
    }
}

#[test]
fn a_difference_has_no_more_blocks_than_it_needs(rt: HostRuntime) -> Result<(), Fail> {
    let [_, _, _, tcp, _, udp, _] = valid_blocks();
    let mut web = tcp;
    web.b = Span::only(80);
    assert_eq!(rt; minus(rt.alloc(), &web, &tcp)?.len(), 0);
    assert_eq!(rt; minus(rt.alloc(), &web, &web)?.len(), 0);
    assert_eq!(rt; minus(rt.alloc(), &web, &udp)?.as_slice(), [web].as_slice());

    let mut below = tcp;
    below.b = Span::from_to(0, 79);
    let mut above = tcp;
    above.b = Span::from_to(81, 65535);
    assert_eq!(rt;
        minus(rt.alloc(), &tcp, &web)?.as_slice(),
        [below, above].as_slice()
    );
    assert_eq!(rt; meet(&tcp, &web), Some(web));
    assert_eq!(rt; meet(&tcp, &udp), None);

    let mut expedited = udp;
    expedited.dscp = Span { low: 46, high: 46 };
    let mut lower = udp;
    lower.dscp = Span { low: 0, high: 45 };
    let mut higher = udp;
    higher.dscp = Span { low: 47, high: 63 };
    assert_eq!(rt;
        minus(rt.alloc(), &udp, &expedited)?.as_slice(),
        [lower, higher].as_slice()
    );
    assert_eq!(rt; meet(&lower, &higher), None);
    assert_eq!(rt; meet(&udp, &expedited), Some(expedited));
    Ok(())
}

#[test]
fn headers_stand_in_order(rt: HostRuntime) {
    let [_, icmp, _, tcp, _, udp, _] = valid_blocks();
    let mut lab = tcp;
    lab.src = Ternary::of(LAB, 0x0000_ff00);
    let mut expedited = udp;
    expedited.dscp = Span { low: 46, high: 63 };
    let least = lab.least();
    assert_eq!(rt; least.src, LAB);
    assert_eq!(rt; least.proto, 6);
    assert_eq!(rt; expedited.least().dscp, 46);
    assert_eq!(rt; Block::everything().least(), Header::zeros());
    for (x, y, want) in [
        (least, header(6, 0, 0, false, 0), Ordering::Greater),
        (icmp.least(), tcp.least(), Ordering::Less),
        (least, least, Ordering::Equal),
        (udp.least(), expedited.least(), Ordering::Less),
        (
            header(6, 0, 0, true, 0),
            header(6, 0, 0, false, 63),
            Ordering::Greater,
        ),
        (
            header(6, 0, 1, false, 0),
            header(6, 0, 0, true, 63),
            Ordering::Greater,
        ),
        (
            header(6, 0, 0, true, 62),
            header(6, 0, 0, true, 63),
            Ordering::Less,
        ),
    ] {
        assert_eq!(rt; order(&x, &y), want, "{x:?} and {y:?}");
    }
}
