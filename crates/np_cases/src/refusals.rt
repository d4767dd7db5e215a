//! Files that are refused.

use crate::networks::{OPEN, filtered};
use crate::runs::{expect_between, expect_by_diagrams, expect_over, expect_report};
use np_outside::MemShelf;
use std::alloc::{AllocError, Global};
use std::process::Abort;
use std::test::Fail;
use std::thread::Threads;

/// Lines that are refused at the end of a network, and why.
const NET_LINES: [(&[u8], &str); 15] = [
    (b"# \x80", "NotText"),
    (b"color red", "UnknownStatement"),
    (b"sa t gre r r", "BadShape"),
    (b"area z", "BadShape"),
    (b"area 1z none", "BadName"),
    (b"area none none", "BadName"),
    (b"area z 10.0.0.0/33", "BadNumber"),
    (b"device r", "Duplicate"),
    (b"interface r e2 nowhere", "UnknownName"),
    (b"goal out lan never and tcp", "BadPred"),
    (b"goal out lan never dscp 64", "BadPred"),
    (b"goal out lan never dscp 9-8", "BadPred"),
    (b"goal out lan never dscp ef", "BadPred"),
    (b"goal out lan never dscp", "BadPred"),
    (b"goal lan lan never any", "SameArea"),
];

/// Lines that are refused in a configuration after its first two, the number of the first one at fault, and why.
const CONFIG_LINES: [(&str, u8, &str); 13] = [
    ("access-list 100 deny tcp any\n", 3, "BadEntry"),
    ("access-list 100 deny tcp a", 3, "BadEntry"),
    ("access-list 100 permit ip any any eq 80\n", 3, "BadEntry"),
    (
        "access-list 100 permit tcp any any fragments\n",
        3,
        "Unsupported",
    ),
    (
        "access-list 100 permit tcp any any eq nosuch\n",
        3,
        "UnknownName",
    ),
    (
        "access-list 100 permit tcp any any eq 65536\n",
        3,
        "BadNumber",
    ),
    (
        "access-list 100 permit tcp any any range 30 20\n",
        3,
        "BadRange",
    ),
    ("no access-list 100\n", 3, "Negated"),
    (
        "ip access-list extended L\n20 permit ip any any\n20 deny ip any any\n",
        5,
        "DuplicateSequence",
    ),
    (
        "access-list 100 permit ip any any dscp 64\n",
        3,
        "BadNumber",
    ),
    (
        "access-list 100 permit ip any any dscp gold\n",
        3,
        "UnknownName",
    ),
    (
        "access-list 100 permit ip any any dscp ef precedence 5\n",
        3,
        "BadEntry",
    ),
    ("access-list 100 permit ip any any dscp\n", 3, "BadEntry"),
];

/// Networks with several faults, a configuration and its file, and what comes first.
const FIRST: [(&str, &str, &str, &str, u8); 4] = [
    (
        "device r config missing\ncolor red\n",
        "r.cfg",
        "",
        "refused net line 2 UnknownStatement\n",
        3,
    ),
    (
        "device r config r.cfg\ndevice s config missing\n",
        "r.cfg",
        "!\nno access-list 100\ninterface\n",
        "refused r.cfg line 2 Negated\n",
        3,
    ),
    (
        "device r config missing\ndevice s config r.cfg\n",
        "r.cfg",
        "interface\n",
        "",
        4,
    ),
    (
        "device r\ndevice s config r.cfg\n",
        "r.cfg",
        "interface\n",
        "refused r.cfg line 1 BadEntry\n",
        3,
    ),
];

/// The lines of a network and then this one.
fn with_line(alloc: Global, line: &[u8]) -> Result<Vec<u8>, AllocError> {
    let mut net = Vec::new(alloc);
    net.extend_from_slice(OPEN.as_bytes())?;
    net.extend_from_slice(line)?;
    net.push(b'\n')?;
    Ok(net)
}

/// Expects that a command refuses this line after the six of a network.
fn expect_refused<R: Threads + Sync + Abort>(
    rt: &R,
    alloc: Global,
    command: &str,
    line: &[u8],
    why: &str,
) -> Result<(), Fail> {
    let net = with_line(alloc, line)?;
    let mut shelf = MemShelf::new(alloc);
    shelf.put(b"net", net.as_slice())?;
    let text = format!(in alloc; "refused net line 7 {why}\n")?;
    expect_over(
        rt,
        alloc,
        why,
        &[command, "net"],
        &mut shelf,
        text.as_bytes(),
        3,
    )
}

/// Expects that each command refuses it.
fn expect_refused_by_all<R: Threads + Sync + Abort>(
    rt: &R,
    alloc: Global,
    line: &[u8],
    why: &str,
) -> Result<(), Fail> {
    expect_refused(rt, alloc, "check", line, why)?;
    expect_refused(rt, alloc, "atoms", line, why)?;
    expect_refused(rt, alloc, "show", line, why)
}

#[test]
fn lines_of_networks(rt: HostRuntime) -> Result<(), Fail> {
    for (line, why) in NET_LINES {
        expect_refused_by_all(&rt, rt.alloc(), line, why)?;
    }
    Ok(())
}

#[test]
fn a_predicate_that_is_too_deep(rt: HostRuntime) -> Result<(), Fail> {
    let nots = " not".repeat(rt.alloc(), 64)?;
    let line = format!(in rt.alloc(); "goal out lan never{nots} any")?;
    expect_refused_by_all(&rt, rt.alloc(), line.as_bytes(), "TooDeep")
}

/// Expects that `check` and `atoms` refuse these lines of a configuration.
fn expect_refused_config<R: Threads + Sync + Abort>(
    rt: &R,
    alloc: Global,
    lines: &str,
    line: u8,
    why: &str,
) -> Result<(), Fail> {
    let text = format!(in alloc; "refused r.cfg line {line} {why}\n")?;
    expect_between(rt, alloc, "check", "never tcp", lines, text.as_str(), 3)?;
    expect_between(rt, alloc, "atoms", "never tcp", lines, text.as_str(), 3)
}

#[test]
fn lines_of_configurations(rt: HostRuntime) -> Result<(), Fail> {
    for (lines, line, why) in CONFIG_LINES {
        expect_refused_config(&rt, rt.alloc(), lines, line, why)?;
    }
    Ok(())
}

#[test]
fn the_first_of_several_faults(rt: HostRuntime) -> Result<(), Fail> {
    for (net, file, config, text, number) in FIRST {
        expect_report(&rt, rt.alloc(), "check", net, file, config, text, number)?;
        expect_report(&rt, rt.alloc(), "atoms", net, file, config, text, number)?;
    }
    Ok(())
}

#[test]
fn an_entry_too_many(rt: HostRuntime) -> Result<(), Fail> {
    let net = filtered(rt.alloc(), "never tcp")?;
    let config = "access-list 100 permit ip any any\n".repeat(rt.alloc(), 20_001)?;
    expect_by_diagrams(
        &rt,
        rt.alloc(),
        "an entry too many",
        &["check", "net"],
        &[("net", net.as_str()), ("r.cfg", config.as_str())],
        "refused r.cfg line 20001 TooManyEntries\n",
        3,
    )
}

/// Expects that `check` and `atoms` refuse these files with this text.
fn expect_too_long<R: Threads + Sync + Abort>(
    rt: &R,
    alloc: Global,
    net: &[u8],
    config: &[u8],
    text: &[u8],
) -> Result<(), Fail> {
    let mut shelf = MemShelf::new(alloc);
    shelf.put(b"net", net)?;
    shelf.put(b"r.cfg", config)?;
    expect_over(rt, alloc, "check", &["check", "net"], &mut shelf, text, 3)?;
    expect_over(rt, alloc, "atoms", &["atoms", "net"], &mut shelf, text, 3)
}

#[test]
fn a_byte_too_many(rt: HostRuntime) -> Result<(), Fail> {
    let long = vec![in rt.alloc(); b'a'; 16_777_217]?;
    let net = filtered(rt.alloc(), "never tcp")?;
    expect_too_long(
        &rt,
        rt.alloc(),
        long.as_slice(),
        b"",
        b"refused net too-long\n",
    )?;
    expect_too_long(
        &rt,
        rt.alloc(),
        net.as_bytes(),
        long.as_slice(),
        b"refused r.cfg too-long\n",
    )
}
