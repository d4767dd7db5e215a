//! `show NET`.

use crate::networks::OPEN;
use crate::runs::{expect, expect_over};
use np_outside::MemShelf;
use std::alloc::{AllocError, Global};
use std::process::Abort;
use std::test::Fail;
use std::thread::Threads;

/// The canonical text of two areas and a device between them.
const OPEN_SHOWN: &str = "depth 8
area out 0.0.0.0/0
area lan 10.0.0.0/8
device r
interface r e0 out
interface r e1 lan
goal out lan never tcp
";

/// The same with line ends of two bytes.
const RETURNS: &str = "area out 0.0.0.0/0\r
area lan 10.0.0.0/8\r
device r\r
interface r e0 out\r
interface r e1 lan\r
goal out lan never tcp\r
";

/// The same with a predicate that names an area.
const ONLY: &str = "area out 0.0.0.0/0
area lan 10.0.0.0/8
device r
interface r e0 out
interface r e1 lan
goal out lan only and src lan dport 80-443
";

/// Its canonical text.
const ONLY_SHOWN: &str = "depth 8
area out 0.0.0.0/0
area lan 10.0.0.0/8
device r
interface r e0 out
interface r e1 lan
goal out lan only and src 10.0.0.0/8 dport 80-443
";

/// The same with predicates on the code point: one number, one by its span, and both ends of the range.
const CODE_POINTS: &str = "area out 0.0.0.0/0
area lan 10.0.0.0/8
device r
interface r e0 out
interface r e1 lan
goal out lan never dscp 46
goal out lan only or dscp 08-0015 dscp 63-63
goal lan out never not dscp 0-63
";

/// Its canonical text.
const CODE_POINTS_SHOWN: &str = "depth 8
area out 0.0.0.0/0
area lan 10.0.0.0/8
device r
interface r e0 out
interface r e1 lan
goal out lan never dscp 46
goal out lan only or dscp 8-15 dscp 63
goal lan out never not dscp 0-63
";

/// Each form of statement, in another order than the canonical one.
const MIXED: &str = "# a comment
device b config b.cfg trusted
device c trusted
\tarea z none   trusted

area y 10.1.2.3,10.0.0.0/08
goal z y never not established
interface b Gi0/1:2 z
interface c e0 y
free c e0 out
free c e0 in
free b Gi0/1:2 out
depth 003
";

/// Its canonical text.
const MIXED_SHOWN: &str = "depth 3
area z none trusted
area y 10.1.2.3/32,10.0.0.0/8
device b config b.cfg trusted
device c trusted
interface b Gi0/1:2 z
interface c e0 y
free b Gi0/1:2 out
free c e0 in
free c e0 out
goal z y never not established
";

/// Runs `show net` over this file, and compares the text and the status.
fn expect_shown<R: Threads + Sync + Abort>(
    rt: &R,
    alloc: Global,
    case: &str,
    net: &[u8],
    text: &str,
    number: u8,
) -> Result<(), Fail> {
    let mut shelf = MemShelf::new(alloc);
    shelf.put(b"net", net)?;
    expect_over(
        rt,
        alloc,
        case,
        &["show", "net"],
        &mut shelf,
        text.as_bytes(),
        number,
    )
}

#[test]
fn canonical_texts(rt: HostRuntime) -> Result<(), Fail> {
    for (case, net, text) in [
        ("two areas", OPEN, OPEN_SHOWN),
        ("a canonical text", OPEN_SHOWN, OPEN_SHOWN),
        ("line ends of two bytes", RETURNS, OPEN_SHOWN),
        ("a predicate with an area", ONLY, ONLY_SHOWN),
        (
            "predicates on the code point",
            CODE_POINTS,
            CODE_POINTS_SHOWN,
        ),
        ("each form of statement", MIXED, MIXED_SHOWN),
        ("an area alone", "area z none", "depth 8\narea z none\n"),
        ("an empty file", "", "depth 8\n"),
    ] {
        expect_shown(&rt, rt.alloc(), case, net.as_bytes(), text, 0)?;
    }
    Ok(())
}

#[test]
fn refused_files(rt: HostRuntime) -> Result<(), Fail> {
    for (case, net, text) in [
        (
            "an interface before its device",
            "interface r e0 out\ndevice r\narea out none\n",
            "refused net line 1 UnknownName\n",
        ),
        (
            "a slot freed twice",
            "area z none\ndevice r\ninterface r e0 z\nfree r e0 in\nfree r e0 in\n",
            "refused net line 5 Duplicate\n",
        ),
        ("a byte of no text", "\0", "refused net line 1 NotText\n"),
        (
            "the first of two faults",
            "area z none\n\ncolor red\narea 1z none\n",
            "refused net line 3 UnknownStatement\n",
        ),
    ] {
        expect_shown(&rt, rt.alloc(), case, net.as_bytes(), text, 3)?;
    }
    Ok(())
}

#[test]
fn long_names(rt: HostRuntime) -> Result<(), Fail> {
    let name = "a".repeat(rt.alloc(), 64)?;
    let net = format!(in rt.alloc(); "area {name} none\n")?;
    let shown = format!(in rt.alloc(); "depth 8\narea {name} none\n")?;
    expect_shown(
        &rt,
        rt.alloc(),
        "64 bytes",
        net.as_bytes(),
        shown.as_str(),
        0,
    )?;
    let net = format!(in rt.alloc(); "area a{name} none\n")?;
    expect_shown(
        &rt,
        rt.alloc(),
        "65 bytes",
        net.as_bytes(),
        "refused net line 1 BadName\n",
        3,
    )
}

#[test]
fn deep_predicates(rt: HostRuntime) -> Result<(), Fail> {
    let nots = "not ".repeat(rt.alloc(), 63)?;
    let net = format!(in rt.alloc(); "area a none\narea b none\ngoal a b only {nots}any\n")?;
    let shown = format!(in rt.alloc(); "depth 8\n{net}")?;
    expect_shown(
        &rt,
        rt.alloc(),
        "nested 64 deep",
        net.as_bytes(),
        shown.as_str(),
        0,
    )
}

/// So many areas, with a line each.
fn areas(alloc: Global, count: u32) -> Result<String, AllocError> {
    let mut text = String::new(alloc);
    for number in 0..count {
        text.push_str(format!(in alloc; "area a{number} none\n")?.as_str())?;
    }
    Ok(text)
}

#[test]
fn as_many_areas_as_there_may_be(rt: HostRuntime) -> Result<(), Fail> {
    let net = areas(rt.alloc(), 256)?;
    let shown = format!(in rt.alloc(); "depth 8\n{net}")?;
    expect_shown(
        &rt,
        rt.alloc(),
        "256 areas",
        net.as_bytes(),
        shown.as_str(),
        0,
    )?;
    let net = areas(rt.alloc(), 257)?;
    expect_shown(
        &rt,
        rt.alloc(),
        "257 areas",
        net.as_bytes(),
        "refused net line 257 TooMany\n",
        3,
    )
}

/// An area, a device, and so many interfaces, with a line each.
pub(crate) fn interfaces(alloc: Global, count: u32) -> Result<String, AllocError> {
    let mut text = String::from_str(alloc, "area z none\ndevice r\n")?;
    for number in 0..count {
        text.push_str(format!(in alloc; "interface r e{number} z\n")?.as_str())?;
    }
    Ok(text)
}

#[test]
fn as_many_interfaces_as_there_may_be(rt: HostRuntime) -> Result<(), Fail> {
    let net = interfaces(rt.alloc(), 1_024)?;
    let shown = format!(in rt.alloc(); "depth 8\n{net}")?;
    expect_shown(
        &rt,
        rt.alloc(),
        "1,024 interfaces",
        net.as_bytes(),
        shown.as_str(),
        0,
    )?;
    let net = interfaces(rt.alloc(), 1_025)?;
    expect_shown(
        &rt,
        rt.alloc(),
        "1,025 interfaces",
        net.as_bytes(),
        "refused net line 1027 TooMany\n",
        3,
    )
}

#[test]
fn as_many_bytes_as_there_may_be(rt: HostRuntime) -> Result<(), Fail> {
    for (case, count, text) in [
        (
            "as many bytes as there may be",
            16_777_216,
            "refused net line 1 UnknownStatement\n",
        ),
        ("a byte too many", 16_777_217, "refused net too-long\n"),
    ] {
        let long = vec![in rt.alloc(); b'a'; count]?;
        expect_shown(&rt, rt.alloc(), case, long.as_slice(), text, 3)?;
    }
    Ok(())
}

#[test]
fn other_words(rt: HostRuntime) -> Result<(), Fail> {
    expect(&rt, rt.alloc(), "no file", &["show"], &[], "usage\n", 2)?;
    expect(
        &rt,
        rt.alloc(),
        "a word too many",
        &["show", "a", "b"],
        &[("a", ""), ("b", "")],
        "usage\n",
        2,
    )?;
    expect(
        &rt,
        rt.alloc(),
        "a missing file",
        &["show", "missing"],
        &[("net", OPEN)],
        "",
        4,
    )
}
