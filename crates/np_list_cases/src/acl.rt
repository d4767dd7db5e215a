//! Entries, lists, and the names of their lines.

use np_acl::{
    Entry, List, PortNames, Ports, dscp_of, icmp_of, port_of, precedence_of, protocol_of,
};
use np_space::{Header, Span, Ternary};
use std::alloc::{AllocError, Global};
use std::process::Abort;
use std::test::Fail;

/// Ports, code points, and what a list says to TCP segments with them.
const ANSWERS: [(u16, u8, bool); 10] = [
    (24, 0, true),
    (25, 0, false),
    (80, 0, false),
    (90, 0, false),
    (91, 0, true),
    (443, 0, false),
    (1023, 63, true),
    (1024, 0, false),
    (1024, 46, true),
    (1024, 47, false),
];

/// Words, and the protocols that they give: the first and the last.
const PROTOCOLS: [(&str, Option<(u16, u16)>); 14] = [
    ("ip", Some((0, 255))),
    ("icmp", Some((1, 1))),
    ("tcp", Some((6, 6))),
    ("udp", Some((17, 17))),
    ("ahp", Some((51, 51))),
    ("pim", Some((103, 103))),
    ("0", Some((0, 0))),
    ("255", Some((255, 255))),
    ("0000255", Some((255, 255))),
    ("256", None),
    ("", None),
    ("TCP", None),
    ("ip4", None),
    ("domain", None),
];

/// Words, and the ports that they give by the names of TCP and by those of UDP.
const PORTS: [(&str, Option<u16>, Option<u16>); 15] = [
    ("ftp-data", Some(20), None),
    ("www", Some(80), None),
    ("uucp", Some(540), None),
    ("domain", Some(53), Some(53)),
    ("sunrpc", Some(111), Some(111)),
    ("cmd", Some(514), None),
    ("syslog", None, Some(514)),
    ("bootps", None, Some(67)),
    ("non500-isakmp", None, Some(4500)),
    ("0", Some(0), Some(0)),
    ("0065535", Some(65535), Some(65535)),
    ("65536", None, None),
    ("-1", None, None),
    ("ftp-dat", None, None),
    ("tcp", None, None),
];

/// Words, and the ICMP types and codes that they give.
const MESSAGES: [(&str, Option<(u8, Option<u8>)>); 11] = [
    ("echo-reply", Some((0, None))),
    ("unreachable", Some((3, None))),
    ("net-unreachable", Some((3, Some(0)))),
    ("administratively-prohibited", Some((3, Some(13)))),
    ("echo", Some((8, None))),
    ("time-exceeded", Some((11, None))),
    ("ttl-exceeded", Some((11, Some(0)))),
    ("parameter-problem", Some((12, None))),
    ("8", None),
    ("echo-", None),
    ("", None),
];

/// Words, and the code points and the precedences that they give.
const CODE_POINTS: [(&str, Option<u8>, Option<u8>); 20] = [
    ("default", Some(0), None),
    ("ef", Some(46), None),
    ("cs1", Some(8), None),
    ("cs7", Some(56), None),
    ("af11", Some(10), None),
    ("af23", Some(22), None),
    ("af43", Some(38), None),
    ("cs0", None, None),
    ("cs8", None, None),
    ("af44", None, None),
    ("EF", None, None),
    ("routine", None, Some(0)),
    ("flash", None, Some(3)),
    ("flash-override", None, Some(4)),
    ("network", None, Some(7)),
    ("0", Some(0), Some(0)),
    ("007", Some(7), Some(7)),
    ("8", Some(8), None),
    ("63", Some(63), None),
    ("64", None, None),
];

/// Which field of an entry has another value.
#[derive(Clone, Copy)]
enum Change {
    Permit,
    Proto,
    Src,
    Dst,
    A,
    B,
    Est,
    Dscp,
}

/// Each field of an entry, by its name.
const CHANGES: [(&str, Change); 8] = [
    ("permit", Change::Permit),
    ("proto", Change::Proto),
    ("src", Change::Src),
    ("dst", Change::Dst),
    ("a", Change::A),
    ("b", Change::B),
    ("est", Change::Est),
    ("dscp", Change::Dscp),
];

/// The numbers from the lesser of two to the greater.
fn span(x: u16, y: u16) -> Span {
    Span {
        low: x.min(y),
        high: x.max(y),
    }
}

fn ports(alloc: Global, spans: &[(u16, u16)]) -> Result<Ports, AllocError> {
    let mut ports = Ports::new(alloc);
    for (x, y) in spans {
        ports.push(span(*x, *y))?;
    }
    Ok(ports)
}

/// An entry for one protocol between any two addresses, to some of the destination ports.
fn entry(alloc: Global, permit: bool, proto: u8, to: &[(u16, u16)]) -> Result<Entry, AllocError> {
    let mut entry = Entry::any(alloc, permit)?;
    entry.proto = span(u16::from(proto), u16::from(proto));
    entry.b = ports(alloc, to)?;
    Ok(entry)
}

fn tcp_to(port: u16, dscp: u8) -> Header {
    Header {
        src: 0x0a00_0001,
        dst: 0x0a00_0002,
        proto: 6,
        a: 1024,
        b: port,
        est: false,
        dscp,
    }
}

#[test]
fn the_first_match_decides(rt: HostRuntime) -> Result<(), Fail> {
    let alloc = rt.alloc();
    let mut list = List::new(alloc);
    assert_eq!(rt;
        list.permits(&tcp_to(25, 0)),
        true,
        "a list without entries"
    );
    list.push(entry(alloc, false, 6, &[(25, 25), (80, 90), (443, 443)])?)?;
    list.push(entry(alloc, true, 6, &[(0, 1023)])?)?;
    let mut urgent = Entry::any(alloc, true)?;
    urgent.dscp = span(46, 46);
    list.push(urgent)?;
    let copy = list.copy(alloc)?;
    for (port, dscp, want) in ANSWERS {
        let header = tcp_to(port, dscp);
        assert_eq!(rt;
            list.permits(&header),
            want,
            "port {port}, code point {dscp}"
        );
        assert_eq!(rt; copy.permits(&header), want, "the copy at port {port}");
    }
    assert_eq!(rt; copy.as_slice().len(), 3);
    assert_eq!(rt; list.into_vec().len(), 3);
    let alone = List::from_vec(vec![in alloc; entry(alloc, true, 17, &[(53, 53)])?]?);
    assert_eq!(rt; alone.permits(&tcp_to(53, 0)), false);
    Ok(())
}

#[test]
fn an_entry_without_words_tests_nothing(rt: HostRuntime) -> Result<(), Fail> {
    let alloc = rt.alloc();
    let any = Entry::any(alloc, false)?.copy(alloc)?;
    assert_eq!(rt; any.permit, false);
    assert_eq!(rt; any.proto, span(0, 255));
    assert_eq!(rt; any.src, Ternary::of(0, u32::MAX));
    assert_eq!(rt; any.dst, Ternary::of(0, u32::MAX));
    assert_eq!(rt; any.est, span(0, 1));
    assert_eq!(rt; any.dscp, span(0, 63));
    for (port, dscp, _) in ANSWERS {
        assert_eq!(rt; any.matches(&tcp_to(port, dscp)), true);
    }
    assert_eq!(rt; any.a.has(0) && any.a.has(65535), true);
    Ok(())
}

/// Expects that these ports have a number, or that they haven't, and that their parts say the same.
fn expect_has<R: Abort>(rt: &R, ports: Ports, number: u16, has: bool) {
    assert_eq!(rt; ports.has(number), has, "{number}");
    match ports.into_vec() {
        Ok(parts) => assert_eq!(rt;
            parts.as_slice().iter().any(|part| part.span().has(number)),
            has,
            "{number} in the parts"
        ),
        Err(_) => panic!(rt; "no memory for spans"),
    }
}

#[test]
fn ports_of_spans(rt: HostRuntime) -> Result<(), Fail> {
    let alloc = rt.alloc();
    let two = ports(alloc, &[(3, 5), (9, 9)])?;
    expect_has(&rt, two, 6, false);
    let three = ports(alloc, &[(3, 5), (9, 9), (7, 7)])?;
    expect_has(&rt, three, 7, true);
    let copy = Ports::of(alloc, span(4, 6))?.copy(alloc)?;
    expect_has(&rt, copy, 6, true);
    let any = Ports::any(alloc)?;
    expect_has(&rt, any, 65535, true);
    Ok(())
}

#[test]
fn protocols_by_words(rt: HostRuntime) {
    for (word, want) in PROTOCOLS {
        let want = want.map(|ends| span(ends.0, ends.1));
        assert_eq!(rt; protocol_of(word.as_bytes()), want, "{word}");
    }
}

#[test]
fn ports_by_words(rt: HostRuntime) {
    for (word, tcp, udp) in PORTS {
        assert_eq!(rt;
            port_of(word.as_bytes(), PortNames::Tcp),
            tcp,
            "{word} of TCP"
        );
        assert_eq!(rt;
            port_of(word.as_bytes(), PortNames::Udp),
            udp,
            "{word} of UDP"
        );
    }
}

#[test]
fn messages_by_words(rt: HostRuntime) {
    for (word, want) in MESSAGES {
        assert_eq!(rt; icmp_of(word.as_bytes()), want, "{word}");
    }
}

#[test]
fn code_points_by_words(rt: HostRuntime) {
    for (word, dscp, precedence) in CODE_POINTS {
        assert_eq!(rt; dscp_of(word.as_bytes()), dscp, "{word} as a code point");
        assert_eq!(rt;
            precedence_of(word.as_bytes()),
            precedence,
            "{word} as a precedence"
        );
    }
}

/// An entry for two ranges of source ports and two of destination ports, with this field changed.
fn changed(alloc: Global, change: Option<Change>) -> Result<Entry, AllocError> {
    let mut entry = entry(alloc, true, 6, &[(25, 25), (80, 90)])?;
    entry.a = ports(alloc, &[(0, 7), (1024, 2000)])?;
    match change {
        Some(Change::Permit) => entry.permit = false,
        Some(Change::Proto) => entry.proto = span(6, 17),
        Some(Change::Src) => entry.src = Ternary::of(0x0a00_0000, 0xff),
        Some(Change::Dst) => entry.dst = Ternary::of(0, 0x7fff_ffff),
        Some(Change::A) => entry.a = ports(alloc, &[(0, 7), (1024, 2001)])?,
        Some(Change::B) => entry.b = ports(alloc, &[(25, 25), (80, 90), (91, 91)])?,
        Some(Change::Est) => entry.est = span(1, 1),
        Some(Change::Dscp) => entry.dscp = span(0, 62),
        None => {}
    }
    Ok(entry)
}

/// A list of `before` entries and then this one.
fn list_with(alloc: Global, before: usize, last: Entry) -> Result<List, AllocError> {
    let mut list = List::new(alloc);
    for _ in 0..before {
        list.push(entry(alloc, false, 17, &[(53, 53)])?)?;
    }
    list.push(last)?;
    Ok(list)
}

/// Whether an entry is the same once this field is changed, and whether a list that ends with it is.
fn same_when(alloc: Global, change: Option<Change>) -> Result<(bool, bool), AllocError> {
    let one = changed(alloc, None)?;
    let other = changed(alloc, change)?;
    let entries = one.same_as(&other);
    let lists = list_with(alloc, 2, one)?.same_as(&list_with(alloc, 2, other)?);
    Ok((entries, lists))
}

#[test]
fn the_same_entries(rt: HostRuntime) -> Result<(), Fail> {
    let alloc = rt.alloc();
    assert_eq!(rt; same_when(alloc, None)?, (true, true));
    for (field, change) in CHANGES {
        assert_eq!(rt; same_when(alloc, Some(change))?, (false, false), "{field}");
    }
    Ok(())
}

/// Whether lists of so many entries, each the same, are the same list.
fn same_lengths(alloc: Global, one: usize, other: usize) -> Result<bool, AllocError> {
    let mut ones = List::new(alloc);
    let mut others = List::new(alloc);
    for _ in 0..one {
        ones.push(Entry::any(alloc, true)?)?;
    }
    for _ in 0..other {
        others.push(Entry::any(alloc, true)?)?;
    }
    Ok(ones.same_as(&others))
}

#[test]
fn lists_of_other_lengths(rt: HostRuntime) -> Result<(), Fail> {
    let alloc = rt.alloc();
    assert_eq!(rt; same_lengths(alloc, 0, 0)?, true);
    assert_eq!(rt; same_lengths(alloc, 0, 1)?, false);
    assert_eq!(rt; same_lengths(alloc, 3, 2)?, false);
    assert_eq!(rt; same_lengths(alloc, 20_000, 20_000)?, true);
    Ok(())
}

/// Whether ports of these spans are the same.
fn same_ports(
    alloc: Global,
    spans: &[(u16, u16)],
    others: &[(u16, u16)],
) -> Result<bool, AllocError> {
    Ok(ports(alloc, spans)?.same_as(&ports(alloc, others)?))
}

#[test]
fn the_same_ports(rt: HostRuntime) -> Result<(), Fail> {
    let alloc = rt.alloc();
    let three = [(3, 5), (9, 9), (7, 7)];
    assert_eq!(rt; same_ports(alloc, &three, &three)?, true);
    assert_eq!(rt; same_ports(alloc, &three, &three[..2])?, false);
    assert_eq!(rt;
        same_ports(alloc, &three, &[(3, 5), (7, 7), (9, 9)])?,
        false,
        "another order"
    );
    assert_eq!(rt; same_ports(alloc, &[(3, 5)], &[(3, 6)])?, false);
    assert_eq!(rt; same_ports(alloc, &[(3, 5)], &[(2, 5)])?, false);
    Ok(())
}
