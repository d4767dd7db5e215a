//! Files at the limits, and files that aren't what they should be.

ghost use Rattle.std.specs.Prelude.{◌<◌};

use crate::networks::{BRANCH, BRANCH_CONFIG, filtered, guarded};
use crate::runs::{compare, expect_between, expect_by_diagrams, expect_over, status};
use crate::show::interfaces;
use np_outside::{MemShelf, MemSink};
use std::alloc::{AllocError, Global};
use std::process::Abort;
use std::test::Fail;
use std::thread::Threads;

/// The report where nothing is denied between two areas.
const VIOLATED: &str = "goal 1 violated 0.0.0.0 0.0.0.0 6 0 0 0\nhop r e0 e1\nfails\n";

/// Lines of the configuration between two areas, the text of `check`, and the status.
const LINES: [(&str, &str, u8); 4] = [
    (
        "access-list 100 permit tcp any any eq 1 2 3 4 5 6 7 8 9 10 11\n",
        "refused r.cfg line 3 BadEntry\n",
        3,
    ),
    (
        "ip access-list extended L\n 2147483647 permit ip any any\n deny ip any any\n",
        "refused r.cfg line 5 BadNumber\n",
        3,
    ),
    (
        "ip access-list extended L\n 0 permit ip any any\n",
        "refused r.cfg line 4 BadNumber\n",
        3,
    ),
    ("ip access-list extended L\n 0 remark x\n", VIOLATED, 1),
];

/// No list of the branch office's router is there, or none that it applies.
const OPEN_OFFICE: &str = "goal 1 violated 0.0.0.0 0.0.0.0 6 0 23 0
hop br1 GigabitEthernet0/0 GigabitEthernet0/1
goal 2 violated 10.0.0.0 0.0.0.0 0 0 0 0
hop br1 GigabitEthernet0/0 GigabitEthernet0/1
goal 3 violated 0.0.0.0 0.0.0.0 17 0 0 0
hop br1 GigabitEthernet0/0 GigabitEthernet0/1
goal 4 violated 0.0.0.0 0.0.0.0 6 0 23 0
hop br1 GigabitEthernet0/1 GigabitEthernet0/0
goal 5 violated 0.0.0.0 0.0.0.0 0 0 0 0
hop br1 GigabitEthernet0/1 GigabitEthernet0/0
goal 6 violated 0.0.0.0 0.0.0.0 6 0 22 0
hop br1 GigabitEthernet0/0 GigabitEthernet0/2
fails
";

/// The list for what comes in lets TCP of established connections and to the web server in, and the other one isn't there.
const WEB_ALONE: &str = "goal 1 holds
goal 2 holds
goal 3 holds
goal 4 violated 0.0.0.0 0.0.0.0 6 0 23 0
hop br1 GigabitEthernet0/1 GigabitEthernet0/0
goal 5 violated 0.0.0.0 0.0.0.0 0 0 0 0
hop br1 GigabitEthernet0/1 GigabitEthernet0/0
goal 6 holds
fails
";

/// The list for what comes in is whole, and the other one has no entry.
const ONE_LIST: &str = "goal 1 holds
goal 2 holds
goal 3 violated 0.0.0.0 0.0.0.0 17 0 53 0
hop br1 GigabitEthernet0/0 GigabitEthernet0/1
goal 4 violated 0.0.0.0 0.0.0.0 6 0 23 0
hop br1 GigabitEthernet0/1 GigabitEthernet0/0
goal 5 violated 0.0.0.0 0.0.0.0 0 0 0 0
hop br1 GigabitEthernet0/1 GigabitEthernet0/0
goal 6 holds
fails
";

/// Both lists are whole.
const BOTH_LISTS: &str = "goal 1 holds
goal 2 holds
goal 3 violated 0.0.0.0 0.0.0.0 17 0 53 0
hop br1 GigabitEthernet0/0 GigabitEthernet0/1
goal 4 holds
goal 5 holds
goal 6 holds
fails
";

/// The branch office's configuration, cut after each multiple of 16 bytes. Each row has the multiples from the row before
/// it on and below its number, the text, and the status.
const CUTS: [(u8, &str, u8); 21] = [
    (17, OPEN_OFFICE, 1),
    (18, "refused br1.cfg line 13 BadEntry\n", 3),
    (26, OPEN_OFFICE, 1),
    (27, "refused br1.cfg line 20 BadEntry\n", 3),
    (28, "refused br1.cfg line 22 BadEntry\n", 3),
    (40, OPEN_OFFICE, 1),
    (43, "refused br1.cfg line 32 BadEntry\n", 3),
    (45, "refused br1.cfg line 33 BadEntry\n", 3),
    (47, "refused br1.cfg line 34 BadEntry\n", 3),
    (48, WEB_ALONE, 1),
    (49, "refused br1.cfg line 35 BadEntry\n", 3),
    (50, "refused br1.cfg line 35 UnknownName\n", 3),
    (51, "refused br1.cfg line 36 BadEntry\n", 3),
    (52, "refused br1.cfg line 36 UnknownName\n", 3),
    (54, "refused br1.cfg line 37 BadEntry\n", 3),
    (59, ONE_LIST, 1),
    (61, "refused br1.cfg line 40 BadEntry\n", 3),
    (63, "refused br1.cfg line 41 BadEntry\n", 3),
    (64, BOTH_LISTS, 1),
    (66, "refused br1.cfg line 43 BadEntry\n", 3),
    (74, BOTH_LISTS, 1),
];

/// Expects of `check` that it refuses a network with this text.
fn expect_refused_net<R: Threads + Sync + Abort>(
    rt: &R,
    alloc: Global,
    net: &[u8],
    text: &str,
) -> Result<(), Fail> {
    let mut shelf = MemShelf::new(alloc);
    shelf.put(b"net", net)?;
    expect_over(
        rt,
        alloc,
        text,
        &["check", "net"],
        &mut shelf,
        text.as_bytes(),
        3,
    )
}

#[test]
fn networks_that_are_no_text(rt: HostRuntime) -> Result<(), Fail> {
    let long = vec![in rt.alloc(); b'a'; 16_777_216]?;
    expect_refused_net(
        &rt,
        rt.alloc(),
        long.as_slice(),
        "refused net line 1 UnknownStatement\n",
    )?;
    expect_refused_net(&rt, rt.alloc(), b"\0", "refused net line 1 NotText\n")
}

#[test]
fn one_interface_or_rule_too_many(rt: HostRuntime) -> Result<(), Fail> {
    let net = interfaces(rt.alloc(), 1_025)?;
    expect_refused_net(
        &rt,
        rt.alloc(),
        net.as_bytes(),
        "refused net line 1027 TooMany\n",
    )?;
    let rules = "outrule g e0 bypass every\n".repeat(rt.alloc(), 4_097)?;
    let net = format!(in rt.alloc(); "area x none\ndevice g\ninterface g e0 x\n{rules}")?;
    expect_refused_net(
        &rt,
        rt.alloc(),
        net.as_bytes(),
        "refused net line 4100 TooMany\n",
    )
}

#[test]
fn as_many_rules_as_there_may_be(rt: HostRuntime) -> Result<(), Fail> {
    let rules = "outrule g e0 bypass every\n".repeat(rt.alloc(), 4_096)?;
    let net = format!(in rt.alloc(); "area x none\ndevice g\ninterface g e0 x\n{rules}")?;
    expect_by_diagrams(
        &rt,
        rt.alloc(),
        "4,096 rules",
        &["check", "net"],
        &[("net", net.as_str())],
        "holds\n",
        0,
    )
}

#[test]
fn a_predicate_as_deep_as_may_be(rt: HostRuntime) -> Result<(), Fail> {
    let nots = "not ".repeat(rt.alloc(), 63)?;
    let net = format!(in rt.alloc();
        "area out 0.0.0.0/0\narea lan 10.0.0.0/8\ndevice r\ninterface r e0 out\ninterface r e1 lan\ngoal out lan never {nots}any\n"
    )?;
    expect_by_diagrams(
        &rt,
        rt.alloc(),
        "63 times not",
        &["check", "net"],
        &[("net", net.as_str())],
        "goal 1 holds\nholds\n",
        0,
    )
}

#[test]
fn a_configuration_that_is_no_text(rt: HostRuntime) -> Result<(), Fail> {
    let net = filtered(rt.alloc(), "never tcp")?;
    let long = vec![in rt.alloc(); b'\xff'; 16_777_216]?;
    let mut shelf = MemShelf::new(rt.alloc());
    shelf.put(b"net", net.as_bytes())?;
    shelf.put(b"r.cfg", long.as_slice())?;
    expect_over(
        &rt,
        rt.alloc(),
        "16,777,216 bytes 0xFF",
        &["check", "net"],
        &mut shelf,
        VIOLATED.as_bytes(),
        1,
    )
}

#[test]
fn lines_at_the_limits(rt: HostRuntime) -> Result<(), Fail> {
    for (lines, text, number) in LINES {
        expect_between(&rt, rt.alloc(), "check", "never tcp", lines, text, number)?;
    }
    Ok(())
}

/// Expects that the branch office's configuration gives this text and status, cut after so many times 16 bytes.
fn expect_cut<R: Threads + Sync + Abort>(
    rt: &R,
    alloc: Global,
    cut: u8,
    text: &str,
    number: u8,
) -> Result<(), Fail> {
    let bytes = BRANCH_CONFIG.as_bytes();
    let length = bytes.len().min(16 * cut as usize);
    let mut shelf = MemShelf::new(alloc);
    shelf.put(b"net", BRANCH.as_bytes())?;
    shelf.put(b"br1.cfg", &bytes[..length])?;
    let case = format!(in alloc; "{length} bytes of the configuration")?;
    expect_over(
        rt,
        alloc,
        case.as_str(),
        &["check", "net"],
        &mut shelf,
        text.as_bytes(),
        number,
    )
}

/// The same of each number of times from the first one on and below the last one.
fn expect_cuts<R: Threads + Sync + Abort>(
    rt: &R,
    alloc: Global,
    first: u8,
    after: u8,
    text: &str,
    number: u8,
) -> Result<(), Fail> {
    for cut in first..after {
        expect_cut(rt, alloc, cut, text, number)?;
    }
    Ok(())
}

#[test]
fn a_configuration_that_is_cut(rt: HostRuntime) -> Result<(), Fail> {
    let mut first = 0;
    for (after, text, number) in CUTS {
        expect_cuts(&rt, rt.alloc(), first, after, text, number)?;
        first = after;
    }
    // The configuration has 1,169 bytes.
    assert_eq!(rt; BRANCH_CONFIG.len().div_ceil(16), first as usize);
    Ok(())
}

/// The start of the scripts, at a place that isn't trusted.
const START: &str = "start area net 0.0.0.0 0.0.0.0 0 0 0 0\n";

#[test]
fn a_depth_too_large(rt: HostRuntime) -> Result<(), Fail> {
    let net = guarded(rt.alloc(), "depth 17\n", "esp")?;
    expect_by_diagrams(
        &rt,
        rt.alloc(),
        "depth 17",
        &["trace", "net", "script"],
        &[("net", net.as_str()), ("script", START)],
        "refused net line 1 BadNumber\n",
        3,
    )
}

/// Adds a state whose packet has one header more around it.
fn put_pushed(
    alloc: Global,
    text: &mut String,
    stack: &mut String,
    state: u32,
) -> Result<(), AllocError> {
    let line = format!(in alloc; "state {state} area net stack {stack} mark -\n")?;
    text.push_str(line.as_str())?;
    stack.push_str(",u")
}

/// The replay of 17 headers that are put around one packet, of which there may be 16.
fn full(alloc: Global) -> Result<String, AllocError> {
    let mut text = String::from_str(alloc, "state 0 area net stack - mark -\n")?;
    let mut stack = String::from_str(alloc, "u")?;
    for state in 1..17 {
        put_pushed(alloc, &mut text, &mut stack, state)?;
    }
    text.push_str("illegal 17 Full\nillegal\n")?;
    Ok(text)
}

#[test]
fn a_header_too_many(rt: HostRuntime) -> Result<(), Fail> {
    let net = guarded(rt.alloc(), "depth 16\n", "esp")?;
    let pushes = "push u\n".repeat(rt.alloc(), 17)?;
    let script = format!(in rt.alloc(); "{START}{pushes}")?;
    let text = full(rt.alloc())?;
    expect_by_diagrams(
        &rt,
        rt.alloc(),
        "depth 16",
        &["trace", "net", "script"],
        &[("net", net.as_str()), ("script", script.as_str())],
        text.as_str(),
        1,
    )
}

/// Adds the states in which a header is around the packet and is removed again.
fn put_pair(alloc: Global, text: &mut String, pair: u32) -> Result<(), AllocError>
    requires { pair < 1000000 }
{
    let pushed = 2 * pair + 1;
    let popped = pushed + 1;
    text.push_str(format!(in alloc;
        "state {pushed} area net stack u mark -\nstate {popped} area net stack - mark -\n"
    )?.as_str())
}

/// The replay of 10,000 headers that are put around one packet, each removed before the next one.
fn pushed_and_popped(alloc: Global) -> Result<String, AllocError> {
    let mut text = String::from_str(alloc, "state 0 area net stack - mark -\n")?;
    for pair in 0..10_000 {
        put_pair(alloc, &mut text, pair)?;
    }
    text.push_str("legal\n")?;
    Ok(text)
}

#[test]
fn twenty_thousand_moves(rt: HostRuntime) -> Result<(), Fail> {
    let net = guarded(rt.alloc(), "", "esp")?;
    let moves = "push u\npop\n".repeat(rt.alloc(), 10_000)?;
    let script = format!(in rt.alloc(); "{START}{moves}")?;
    let text = pushed_and_popped(rt.alloc())?;
    let mut shelf = MemShelf::new(rt.alloc());
    shelf.put(b"net", net.as_bytes())?;
    shelf.put(b"script", script.as_bytes())?;
    let mut sink = MemSink::new(rt.alloc(), 1_048_576)?;
    let status = status(
        &rt,
        rt.alloc(),
        &["trace", "net", "script"],
        &mut shelf,
        &mut sink,
    )?;
    compare(&rt, "20,000 moves", &sink, status, text.as_bytes(), 0);
    Ok(())
}
