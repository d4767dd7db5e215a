//! Predicates: words, faults, meaning.

use np_pred::{
    Areas, DscpSpan, NESTING_LIMIT, Pred, PredError, PredFault, addresses, parse, put_addresses,
    put_pred,
};
use np_space::Header;
use np_text::{Name, word_list};
use std::alloc::{AllocError, Global};
use std::test::Fail;

// The area `lab`.
fn lab(alloc: Global) -> Result<Areas, AllocError> {
    let mut areas = Areas::new(alloc);
    if let Some(sources) = addresses(alloc, b"10.0.0.0/8,192.168.1.7")? {
        let name = Name::of(alloc, b"lab")?;
        areas.add(alloc, name, sources)?;
    }
    Ok(areas)
}

// The predicate of the words of a line.
fn read(alloc: Global, areas: &Areas, line: &[u8]) -> Result<Pred, PredError> {
    let words = word_list(alloc, line)?;
    parse(alloc, words.as_slice(), areas)
}

// The canonical text of the predicate of a line.
fn canonical(alloc: Global, areas: &Areas, line: &[u8]) -> Result<Vec<u8>, PredError> {
    let words = word_list(alloc, line)?;
    let pred = parse(alloc, words.as_slice(), areas)?;
    let mut out = Vec::new(alloc);
    put_pred(&mut out, &pred)?;
    Ok(out)
}

// `not` so many times, and a predicate.
fn negations(alloc: Global, count: usize, pred: &str) -> Result<String, AllocError> {
    let mut line = String::new(alloc);
    for _ in 0..count {
        line.push_str("not ")?;
    }
    line.push_str(pred)?;
    Ok(line)
}

#[test]
fn words_give_predicates(rt: HostRuntime) -> Result<(), Fail> {
    let areas = lab(rt.alloc())?;
    for (line, text) in [
        ("any", "any"),
        ("nothing", "nothing"),
        ("icmp", "icmp"),
        ("proto 6", "tcp"),
        ("proto 017", "udp"),
        ("proto 255", "proto 255"),
        ("src none", "src none"),
        ("src 10.0.0.0/8,192.0.2.1", "src 10.0.0.0/8,192.0.2.1/32"),
        ("dst lab", "dst 10.0.0.0/8,192.168.1.7/32"),
        ("dst 255.255.255.255/0", "dst 0.0.0.0/0"),
        ("dport 80-443", "dport 80-443"),
        ("sport 65535-65535", "sport 65535"),
        ("and type 8 code 0", "and type 8 code 0"),
        ("dscp 063", "dscp 63"),
        ("not dscp 46-46", "not dscp 46"),
        ("or dscp 0-7 tcp", "or dscp 0-7 tcp"),
        ("or  not established\tudp", "or not established udp"),
        (
            "and or tcp udp not src 10.1.2.3/16",
            "and or tcp udp not src 10.1.0.0/16",
        ),
    ] {
        let out = canonical(rt.alloc(), &areas, line.as_bytes())?;
        assert_eq!(rt; out.as_slice(), text.as_bytes(), "{line:?}");
    }
    for (word, text) in [
        ("none", "none"),
        ("10.1.2.3/8,0.0.0.1", "10.0.0.0/8,0.0.0.1/32"),
    ] {
        let mut out = Vec::new(rt.alloc());
        if let Some(patterns) = addresses(rt.alloc(), word.as_bytes())? {
            put_addresses(&mut out, patterns.as_slice())?;
        }
        assert_eq!(rt; out.as_slice(), text.as_bytes(), "{word:?}");
    }
    Ok(())
}

#[test]
fn the_first_fault_counts(rt: HostRuntime) -> Result<(), Fail> {
    let areas = lab(rt.alloc())?;
    for (line, fault) in [
        ("", PredFault::Unfinished),
        ("and tcp", PredFault::Unfinished),
        ("src", PredFault::Unfinished),
        ("dscp", PredFault::Unfinished),
        ("tcp udp", PredFault::Extra(1)),
        ("not any x", PredFault::Extra(2)),
        ("src nowhere", PredFault::UnknownArea(1)),
        ("src tcp", PredFault::UnknownArea(1)),
        ("or any dst None", PredFault::UnknownArea(3)),
        ("sport 70000", PredFault::BadWord(1)),
        ("sport 9-3", PredFault::BadWord(1)),
        ("sport 1-2-3", PredFault::BadWord(1)),
        ("proto 256", PredFault::BadWord(1)),
        ("code x", PredFault::BadWord(1)),
        ("dscp 64", PredFault::BadWord(1)),
        ("dscp 8-64", PredFault::BadWord(1)),
        ("dscp 9-8", PredFault::BadWord(1)),
        ("not dscp ef", PredFault::BadWord(2)),
        ("src 10.0.0.0/8,", PredFault::BadWord(1)),
        ("and 10.0.0.0/8 any", PredFault::BadWord(1)),
        ("lab", PredFault::BadWord(0)),
    ] {
        let read = canonical(rt.alloc(), &areas, line.as_bytes());
        assert_eq!(rt; read.err(), Some(PredError::Fault(fault)), "{line:?}");
    }
    Ok(())
}

#[test]
fn predicates_nest_up_to_a_limit(rt: HostRuntime) -> Result<(), Fail> {
    let areas = lab(rt.alloc())?;
    let deepest = negations(rt.alloc(), NESTING_LIMIT - 1, "any")?;
    let out = canonical(rt.alloc(), &areas, deepest.as_bytes())?;
    assert_eq!(rt; out.as_slice(), deepest.as_bytes());
    for (word, fault) in [
        ("any", PredFault::TooDeep(64)),
        ("no-such-word", PredFault::TooDeep(64)),
        ("", PredFault::Unfinished),
    ] {
        let line = negations(rt.alloc(), 64, word)?;
        let read = canonical(rt.alloc(), &areas, line.as_bytes());
        assert_eq!(rt; read.err(), Some(PredError::Fault(fault)), "{word:?}");
    }
    Ok(())
}

// A segment of TCP that lab sends to a web server, within an established connection.
fn web() -> Header {
    Header {
        src: 0x0a01_0203,
        dst: 0xc000_0201,
        proto: 6,
        a: 50_000,
        b: 443,
        est: true,
        dscp: 10,
    }
}

// An echo request of ICMP that lab sends.
fn ping() -> Header {
    Header {
        src: 0xc0a8_0107,
        dst: 0xc000_0201,
        proto: 1,
        a: 8,
        b: 0,
        est: false,
        dscp: 46,
    }
}

#[test]
fn predicates_hold_by_their_fields(rt: HostRuntime) -> Result<(), Fail> {
    let areas = lab(rt.alloc())?;
    let web = web();
    let ping = ping();
    for (line, of_web, of_ping) in [
        ("any", true, true),
        ("nothing", false, false),
        ("tcp", true, false),
        ("icmp", false, true),
        ("src lab", true, true),
        ("src 192.168.1.0/29", false, true),
        ("dst lab", false, false),
        ("dst none", false, false),
        ("sport 50000", true, false),
        ("dport 80-443", true, false),
        ("dport 0-65535", true, false),
        ("type 8", false, true),
        ("code 0", false, true),
        ("dscp 46", false, true),
        ("dscp 10-45", true, false),
        ("dscp 0-63", true, true),
        ("established", true, false),
        ("not established", false, true),
        ("and src lab tcp", true, false),
        ("or tcp icmp", true, true),
        ("or udp proto 2", false, false),
    ] {
        let pred = read(rt.alloc(), &areas, line.as_bytes())?;
        assert_eq!(rt; pred.holds(&web), of_web, "{line:?} of {web:?}");
        assert_eq!(rt; pred.holds(&ping), of_ping, "{line:?} of {ping:?}");
    }
    Ok(())
}

#[test]
fn spans_of_dscp_have_their_values(rt: HostRuntime) {
    let high = DscpSpan { low: 8, high: 63 };
    assert!(rt; high.has(8) && high.has(63) && !high.has(7));
    assert_eq!(rt; (high.span().low, high.span().high), (8, 63));
}
