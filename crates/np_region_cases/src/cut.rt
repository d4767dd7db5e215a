//! The regions of entries, of lists and of predicates, over both stores.

use np_acl::{Entry, List, Ports};
use np_bdd::Diagrams;
use np_cut::{entry_region, list_region, pred_region};
use np_pred::{Areas, parse};
use np_region::{BlockLists, Regions};
use np_space::{Header, Span};
use np_text::word_list;
use std::alloc::{AllocError, Global};
use std::process::Abort;
use std::test::Fail;

fn ports(alloc: Global, spans: &[(u16, u16)]) -> Result<Ports, AllocError> {
    let mut ports = Ports::new(alloc);
    for (low, high) in spans {
        ports.push(Span::from_to(*low, *high))?;
    }
    Ok(ports)
}

/// An entry of TCP between any two addresses, to some of the destination ports.
fn tcp_entry(alloc: Global, permit: bool, to: &[(u16, u16)]) -> Result<Entry, AllocError> {
    let mut entry = Entry::any(alloc, permit)?;
    entry.proto = Span::only(6);
    entry.b = ports(alloc, to)?;
    Ok(entry)
}

fn header(proto: u8, b: u16, est: bool, dscp: u8) -> Header {
    let mut header = Header::zeros();
    header.proto = proto;
    header.b = b;
    header.est = est;
    header.dscp = dscp;
    header
}

/// The least header that the list permits, and whether its region has another one.
fn asked<S: Regions>(
    alloc: Global,
    store: &mut S,
    list: &List,
    h: &Header,
) -> Result<(Option<Header>, bool), AllocError> {
    let region = list_region(alloc, store, list)?;
    Ok((store.least(&region), store.has(&region, h)))
}

/// The least header that the entry matches.
fn least_match<S: Regions>(store: &mut S, entry: &Entry) -> Result<Option<Header>, AllocError> {
    let region = entry_region(store, entry)?;
    Ok(store.least(&region))
}

fn regions_with_the_flag<R: Abort, S: Regions>(
    rt: &R,
    alloc: Global,
    store: &mut S,
) -> Result<(), Fail> {
    let all = asked(alloc, store, &List::new(alloc), &header(17, 53, false, 0))?;
    assert_eq!(rt; all, (Some(Header::zeros()), true));

    let mut replies = tcp_entry(alloc, true, &[(0, 65535)])?;
    replies.est = Span::only(1);
    assert_eq!(rt; least_match(store, &replies)?, Some(header(6, 0, true, 0)));
    let replies = List::from_vec(vec![in alloc; replies]?);
    let found = asked(alloc, store, &replies, &header(6, 80, false, 0))?;
    assert_eq!(rt; found, (Some(header(6, 0, true, 0)), false));
    Ok(())
}

fn regions_by_code_point<R: Abort, S: Regions>(
    rt: &R,
    alloc: Global,
    store: &mut S,
) -> Result<(), Fail> {
    let mut voice = Entry::any(alloc, false)?;
    voice.dscp = Span::only(46);
    assert_eq!(rt; least_match(store, &voice)?, Some(header(0, 0, false, 46)));
    let mut list = List::new(alloc);
    list.push(voice)?;
    list.push(Entry::any(alloc, true)?)?;
    for (dscp, permitted) in [(45, true), (46, false), (47, true), (63, true), (64, false)] {
        let (_, found) = asked(alloc, store, &list, &header(0, 0, false, dscp))?;
        assert_eq!(rt; found, permitted, "{dscp}");
    }
    Ok(())
}

fn earlier_entries_are_cut_out<R: Abort, S: Regions>(
    rt: &R,
    alloc: Global,
    store: &mut S,
) -> Result<(), Fail> {
    let mut web = List::new(alloc);
    web.push(tcp_entry(alloc, false, &[(0, 79), (81, 442)])?)?;
    web.push(tcp_entry(alloc, true, &[(0, 443)])?)?;
    for (h, permitted) in [
        (header(6, 443, false, 0), true),
        (header(6, 80, true, 7), true),
        (header(6, 81, true, 0), false),
        (header(6, 444, false, 0), false),
        (header(17, 80, false, 0), false),
    ] {
        let (least, found) = asked(alloc, store, &web, &h)?;
        assert_eq!(rt; least, Some(header(6, 80, false, 0)));
        assert_eq!(rt; found, permitted, "{h:?}");
    }
    Ok(())
}

/// Headers that tell the predicates apart.
fn headers() -> [Header; 7] {
    let base = Header {
        src: 0x0a01_0203,
        dst: 0xc000_0201,
        proto: 6,
        a: 1024,
        b: 80,
        est: false,
        dscp: 0,
    };
    let mut all = [base; 7];
    all[1].est = true;
    all[2].proto = 17;
    all[3].src = 0xc000_0201;
    all[4].proto = 1;
    all[4].a = 3;
    all[4].b = 4;
    all[5].proto = 47;
    all[5].a = 0;
    all[5].b = 0;
    all[6].b = 443;
    all[6].dscp = 46;
    all
}

/// The predicate's region has just those of the headers that are valid and for which it holds.
fn compare<R: Abort, S: Regions>(
    rt: &R,
    alloc: Global,
    store: &mut S,
    text: &str,
    holding: &[bool; 7],
) -> Result<(), Fail> {
    let words = word_list(alloc, text.as_bytes())?;
    let pred = parse(alloc, words.as_slice(), &Areas::new(alloc))?;
    let region = pred_region(alloc, store, &pred)?;
    for (header, holds) in headers().iter().zip(holding) {
        assert_eq!(rt; store.has(&region, header), *holds, "{text}, {header:?}");
        assert_eq!(rt; pred.holds(header), *holds, "{text}, {header:?}");
    }
    Ok(())
}

fn predicates<R: Abort, S: Regions>(rt: &R, alloc: Global, store: &mut S) -> Result<(), Fail> {
    let (y, n) = (true, false);
    for (text, holding) in [
        ("any", [y, y, y, y, y, y, y]),
        ("nothing", [n, n, n, n, n, n, n]),
        ("proto 47", [n, n, n, n, n, y, n]),
        ("src 10.0.0.0/8,198.51.100.1", [y, y, y, n, y, y, y]),
        ("dst none", [n, n, n, n, n, n, n]),
        ("dst 192.0.2.1", [y, y, y, y, y, y, y]),
        ("sport 1024-65535", [y, y, y, y, n, n, y]),
        ("dport 80", [y, y, y, y, n, n, n]),
        ("type 3", [n, n, n, n, y, n, n]),
        ("code 4", [n, n, n, n, y, n, n]),
        ("established", [n, y, n, n, n, n, n]),
        ("dscp 46", [n, n, n, n, n, n, y]),
        ("dscp 0-45", [y, y, y, y, y, y, n]),
        ("not tcp", [n, n, y, n, y, y, n]),
        ("and tcp dport 443", [n, n, n, n, n, n, y]),
        ("or udp established", [n, y, y, n, n, n, n]),
        (
            "and src 10.0.0.0,10.0.0.1,10.0.0.2,10.0.0.3,10.0.0.4,10.0.0.5,10.0.0.6,10.0.0.7,10.0.0.8,10.0.0.9,10.0.0.10,10.0.0.11,10.0.0.12,10.0.0.13,10.0.0.14,10.1.2.3 not dst 10.0.0.0,10.0.0.1,10.0.0.2,10.0.0.3,10.0.0.4,10.0.0.5,10.0.0.6,10.0.0.7,10.0.0.8,10.0.0.9,10.0.0.10,10.0.0.11,10.0.0.12,10.0.0.13,10.0.0.14,10.1.2.3",
            [y, y, y, n, y, y, y],
        ),
        (
            "or dst 10.0.0.0,10.0.0.1,10.0.0.2,10.0.0.3,10.0.0.4,10.0.0.5,10.0.0.6,10.0.0.7,10.0.0.8,10.0.0.9,10.0.0.10,10.0.0.11,10.0.0.12,10.0.0.13,10.0.0.14,10.1.2.3 or src 10.0.0.0,10.0.0.1,10.0.0.2,10.0.0.3,10.0.0.4,10.0.0.5,10.0.0.6,10.0.0.7,10.0.0.8,10.0.0.9,10.0.0.10,10.0.0.11,10.0.0.12,10.0.0.13,10.0.0.14,10.1.2.3 src 10.0.0.0,10.0.0.1,10.0.0.2,10.0.0.3,10.0.0.4,10.0.0.5,10.0.0.6,10.0.0.7,10.0.0.8,10.0.0.9,10.0.0.10,10.0.0.11,10.0.0.12,10.0.0.13,10.0.0.14,10.1.2.3",
            [y, y, y, n, y, y, y],
        ),
        (
            "and src 10.0.0.0,10.0.0.1,10.0.0.2,10.0.0.3,10.0.0.4,10.0.0.5,10.0.0.6,10.0.0.7,10.0.0.8,10.0.0.9,10.0.0.10,10.0.0.11,10.0.0.12,10.0.0.13,10.0.0.14,10.1.2.3 not src 10.0.0.0,10.0.0.1,10.0.0.2,10.0.0.3,10.0.0.4,10.0.0.5,10.0.0.6,10.0.0.7,10.0.0.8,10.0.0.9,10.0.0.10,10.0.0.11,10.0.0.12,10.0.0.13,10.0.0.14,10.1.2.4",
            [y, y, y, n, y, y, y],
        ),
    ] {
        compare(rt, alloc, store, text, &holding)?;
    }
    Ok(())
}

fn lists_and_predicates<R: Abort, S: Regions>(
    rt: &R,
    alloc: Global,
    store: &mut S,
) -> Result<(), Fail> {
    regions_with_the_flag(rt, alloc, store)?;
    regions_by_code_point(rt, alloc, store)?;
    earlier_entries_are_cut_out(rt, alloc, store)?;
    predicates(rt, alloc, store)
}

#[test]
fn lists_over_block_lists(rt: HostRuntime) -> Result<(), Fail> {
    lists_and_predicates(&rt, rt.alloc(), &mut BlockLists::new(rt.alloc()))
}

#[test]
fn lists_over_diagrams(rt: HostRuntime) -> Result<(), Fail> {
    let mut store = Diagrams::new(rt.alloc())?;
    lists_and_predicates(&rt, rt.alloc(), &mut store)
}
