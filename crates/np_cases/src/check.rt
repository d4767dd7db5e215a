//! `check NET` and `check NET WORKERS`.

use crate::given::shelf;
use crate::networks::{
    AROUND, BRANCH, BRANCH_CONFIG, OPEN, RING, SHUT, SIDE_BY_SIDE, TCP_DENIED, crossed, filtered,
    ladder, protocols,
};
use crate::runs::{expect, expect_checked, expect_checked_between, expect_in, status};
use np_atomizer::Atomizer;
use np_bdd::Diagrams;
use np_outside::MemSink;
use std::alloc::{AllocError, Global};
use std::process::Abort;
use std::test::Fail;
use std::thread::Threads;

/// Goals from the outer area of two to the inner one, and lines of the configuration between them, by which they hold.
const HOLDING: [(&str, &str); 8] = [
    ("never tcp", TCP_DENIED),
    ("never any", "access-list 100 permit tcp any any gt 65535\n"),
    ("never any", "access-list 100 permit tcp any any lt 0\n"),
    (
        "only established",
        "access-list 100 permit tcp any any established\n",
    ),
    (
        "never dscp 46",
        "access-list 100 deny ip any any dscp ef\naccess-list 100 permit ip any any\n",
    ),
    (
        "never tcp",
        "ip access-list extended L\n 20 permit ip any any\n 10 deny tcp any any\ninterface e0\n ip access-group L in\n",
    ),
    (
        "never tcp",
        "interface e1\n ip access-group 101 out\naccess-list 101 deny tcp any any\naccess-list 101 permit ip any any\n",
    ),
    (
        "never tcp",
        " ip access-group 101 in\naccess-list 100 permit ip any any\naccess-list 101 deny ip any any\n",
    ),
];

/// The same by which they are violated, with the least forbidden header.
const VIOLATED: [(&str, &str, &str); 11] = [
    ("never tcp", "", "0.0.0.0 0.0.0.0 6 0 0 0"),
    (
        "never and tcp dst 10.0.0.1",
        "access-list 100 permit tcp any any\naccess-list 100 deny tcp any host 10.0.0.1\n",
        "0.0.0.0 10.0.0.1 6 0 0 0",
    ),
    (
        "never tcp",
        "access-list 100 remark nothing here\n",
        "0.0.0.0 0.0.0.0 6 0 0 0",
    ),
    (
        "never and tcp src 10.1.200.0/24",
        "access-list 100 permit tcp 10.1.0.7 0.0.255.0 any\n",
        "10.1.200.7 0.0.0.0 6 0 0 0",
    ),
    (
        "never any",
        "access-list 100 permit tcp any any range 20 20\n",
        "0.0.0.0 0.0.0.0 6 0 20 0",
    ),
    (
        "never tcp",
        "access-list 100 permit tcp any any eq 1 2 3 4 5 6 7 8 9 10\n",
        "0.0.0.0 0.0.0.0 6 0 1 0",
    ),
    (
        "never dscp 46",
        "access-list 100 permit ip any any precedence critical\n",
        "0.0.0.0 0.0.0.0 0 0 0 0 dscp=46",
    ),
    (
        "never tcp",
        "access-list 10 permit any\n",
        "0.0.0.0 0.0.0.0 6 0 0 0",
    ),
    ("never tcp", "hostname r\n", "0.0.0.0 0.0.0.0 6 0 0 0"),
    (
        "never tcp",
        " ip access-group 101 out\naccess-list 101 deny ip any any\n",
        "0.0.0.0 0.0.0.0 6 0 0 0",
    ),
    (
        "never tcp",
        " ip access-group 101 in\naccess-list 100 deny ip any any\n",
        "0.0.0.0 0.0.0.0 6 0 0 0",
    ),
];

/// A configuration by which nothing comes in at `e0` or `e1`.
const SHUT_TWICE: &str = "interface e0
 ip access-group 100 in
interface e1
 ip access-group 100 in
access-list 100 deny ip any any
";

/// Two devices that name one file, and between them one without.
const ONE_FILE: &str = "area out 0.0.0.0/0
area mid 10.1.0.0/16
area lan 10.0.0.0/8
device s config r.cfg
device t
device r config r.cfg
interface s e0 out
interface s e1 mid
interface r e0 lan
interface r e1 mid
goal out lan never tcp
goal lan mid never tcp
goal mid lan never tcp
";

/// Networks, a configuration and its file, and the report.
const REPORTS: [(&str, &str, &str, &str, u8); 12] = [
    (
        OPEN,
        "r.cfg",
        "",
        "goal 1 violated 0.0.0.0 0.0.0.0 6 0 0 0\nhop r e0 e1\nfails\n",
        1,
    ),
    (
        "area out 0.0.0.0/0\narea lan 10.0.0.0/8\ndevice r\ninterface r e0 out\ninterface r e1 lan\ngoal out lan only established\n",
        "r.cfg",
        "",
        "goal 1 violated 0.0.0.0 0.0.0.0 0 0 0 0\nhop r e0 e1\nfails\n",
        1,
    ),
    (
        AROUND,
        "d4.cfg",
        SHUT,
        "goal 1 violated 0.0.0.0 0.0.0.0 17 0 0 0\nhop d1 e0 e1\nhop d2 e0 e1\nhop d3 e0 e1\nfails\n",
        1,
    ),
    (
        AROUND,
        "d4.cfg",
        "",
        "goal 1 violated 0.0.0.0 0.0.0.0 17 0 0 0\nhop d1 e0 e1\nhop d4 e0 e1\nfails\n",
        1,
    ),
    (
        SIDE_BY_SIDE,
        "r.cfg",
        "",
        "goal 1 violated 0.0.0.0 0.0.0.0 6 0 0 0\nhop r2 e0 e1\nfails\n",
        1,
    ),
    (
        RING,
        "r.cfg",
        "",
        "goal 1 violated 0.0.0.0 0.0.0.0 6 0 0 0\nhop r e0 e1\ngoal 2 violated 0.0.0.0 0.0.0.0 17 0 0 0\nhop r e1 e2\ngoal 3 holds\nfails\n",
        1,
    ),
    (
        BRANCH,
        "br1.cfg",
        BRANCH_CONFIG,
        "goal 1 holds\ngoal 2 holds\ngoal 3 violated 0.0.0.0 0.0.0.0 17 0 53 0\nhop br1 GigabitEthernet0/0 GigabitEthernet0/1\ngoal 4 holds\ngoal 5 holds\ngoal 6 holds\nfails\n",
        1,
    ),
    (
        "area out 0.0.0.0/0\r\narea lan 10.0.0.0/8\r\ndevice r config r.cfg\r\ninterface r e0 out\r\ninterface r e1 lan\r\ngoal out lan never tcp\r\n",
        "r.cfg",
        "interface e0\r\n ip access-group 100 in\r\naccess-list 100 deny tcp any any\r\naccess-list 100 permit ip any any\r\n",
        "goal 1 holds\nholds\n",
        0,
    ),
    (
        "area out 0.0.0.0/0\narea lan 10.0.0.0/8\ndevice r config r.cfg\ninterface r e0 out\ninterface r e1 lan\ngoal out lan never tcp\ndevice r2 config r.cfg\n",
        "r.cfg",
        "interface e0\n ip access-group 100 in\naccess-list 100 deny tcp any any\naccess-list 100 permit ip any any\n",
        "goal 1 holds\nholds\n",
        0,
    ),
    (
        ONE_FILE,
        "r.cfg",
        "interface e0\n ip access-group 100 in\naccess-list 100 deny tcp any any\naccess-list 100 permit ip any any\n",
        "goal 1 holds\ngoal 2 holds\ngoal 3 violated 0.0.0.0 0.0.0.0 6 0 0 0\nhop r e1 e0\nfails\n",
        1,
    ),
    ("", "r.cfg", "", "holds\n", 0),
    (
        "# two areas\narea A none\n\narea B 10.0.0.0/8,10.1.2.3\r\ndevice r\n\tinterface r e0/0 A",
        "r.cfg",
        "",
        "holds\n",
        0,
    ),
];

#[test]
fn goals_that_hold(rt: HostRuntime) -> Result<(), Fail> {
    for (goal, lines) in HOLDING {
        expect_checked_between(&rt, rt.alloc(), goal, lines, "goal 1 holds\nholds\n", 0)?;
    }
    Ok(())
}

/// Expects that the goal is violated by this header.
fn expect_violated<R: Threads + Sync + Abort>(
    rt: &R,
    alloc: Global,
    goal: &str,
    lines: &str,
    header: &str,
) -> Result<(), Fail> {
    let text = format!(in alloc; "goal 1 violated {header}\nhop r e0 e1\nfails\n")?;
    expect_checked_between(rt, alloc, goal, lines, text.as_str(), 1)
}

#[test]
fn goals_that_are_violated(rt: HostRuntime) -> Result<(), Fail> {
    for (goal, lines, header) in VIOLATED {
        expect_violated(&rt, rt.alloc(), goal, lines, header)?;
    }
    Ok(())
}

#[test]
fn paths_through_networks(rt: HostRuntime) -> Result<(), Fail> {
    for (net, file, config, text, number) in REPORTS {
        expect_checked(&rt, rt.alloc(), net, file, config, text, number)?;
    }
    Ok(())
}

/// Runs `check net` over the ladder, with this configuration halfway.
fn expect_of_ladder<R: Threads + Sync + Abort>(
    rt: &R,
    alloc: Global,
    config: &str,
    text: &str,
    number: u8,
) -> Result<(), Fail> {
    let net = ladder(alloc)?;
    expect_checked(rt, alloc, net.as_str(), "half.cfg", config, text, number)
}

#[test]
fn a_ladder_that_is_shut_halfway(rt: HostRuntime) -> Result<(), Fail> {
    expect_of_ladder(&rt, rt.alloc(), SHUT_TWICE, "goal 1 holds\nholds\n", 0)
}

#[test]
fn a_ladder_that_is_open(rt: HostRuntime) -> Result<(), Fail> {
    let text = crossed(rt.alloc())?;
    expect_of_ladder(&rt, rt.alloc(), "", text.as_str(), 1)
}

/// The report on a goal for each of 70 protocols, of which none is filtered.
fn all_violated(alloc: Global) -> Result<String, AllocError> {
    let mut text = String::new(alloc);
    for protocol in 0..70 {
        let number = protocol + 1;
        let line = format!(in alloc; "goal {number} violated 0.0.0.0 0.0.0.0 {protocol} 0 0 0\n")?;
        text.push_str(line.as_str())?;
        text.push_str("hop r e0 e1\n")?;
    }
    text.push_str("fails\n")?;
    Ok(text)
}

#[test]
fn many_goals(rt: HostRuntime) -> Result<(), Fail> {
    let net = protocols(rt.alloc())?;
    let text = all_violated(rt.alloc())?;
    expect_checked(&rt, rt.alloc(), net.as_str(), "r.cfg", "", text.as_str(), 1)
}

#[test]
fn a_deep_predicate(rt: HostRuntime) -> Result<(), Fail> {
    let nots = "not ".repeat(rt.alloc(), 63)?;
    let goal = format!(in rt.alloc(); "never {nots}any")?;
    expect_checked_between(
        &rt,
        rt.alloc(),
        goal.as_str(),
        "",
        "goal 1 holds\nholds\n",
        0,
    )
}

/// Runs `check net` over the networks of the reports, all in one store.
fn expect_in_one_store<R: Threads + Sync + Abort, G: Atomizer>(
    rt: &R,
    alloc: Global,
    store: &mut G,
) -> Result<(), Fail> {
    for (net, file, config, text, number) in REPORTS {
        let files = [("net", net), (file, config)];
        expect_in(
            rt,
            alloc,
            store,
            net,
            &["check", "net"],
            &files,
            text,
            number,
        )?;
    }
    Ok(())
}

#[test]
fn many_runs_in_one_store(rt: HostRuntime) -> Result<(), Fail> {
    let mut store = Diagrams::new(rt.alloc())?;
    expect_in_one_store(&rt, rt.alloc(), &mut store)
}

/// Words that fit no command, or name a file that isn't there.
const OTHER_WORDS: [(&str, &[&str], &str, u8); 14] = [
    ("no words", &[], "usage\n", 2),
    ("no file", &["check"], "usage\n", 2),
    ("no worker", &["check", "net", "0"], "usage\n", 2),
    ("too many workers", &["check", "net", "65"], "usage\n", 2),
    ("a word for workers", &["check", "net", "one"], "usage\n", 2),
    ("a word too many", &["check", "net", "1", "1"], "usage\n", 2),
    ("workers for atoms", &["atoms", "net", "1"], "usage\n", 2),
    ("no seed", &["gen"], "usage\n", 2),
    (
        "a seed past the greatest",
        &["gen", "4294967296"],
        "usage\n",
        2,
    ),
    ("a word for a seed", &["gen", "net"], "usage\n", 2),
    ("no worker for a seed", &["gen", "1", "0"], "usage\n", 2),
    ("no command", &["report", "net"], "usage\n", 2),
    ("a missing file", &["check", "missing"], "", 4),
    ("a missing configuration", &["check", "between"], "", 4),
];

#[test]
fn other_words(rt: HostRuntime) -> Result<(), Fail> {
    let between = filtered(rt.alloc(), "never tcp")?;
    for (case, words, text, number) in OTHER_WORDS {
        let files = [("net", OPEN), ("between", between.as_str())];
        expect(&rt, rt.alloc(), case, words, &files, text, number)?;
    }
    Ok(())
}

#[test]
fn a_write_that_fails(rt: HostRuntime) -> Result<(), Fail> {
    let mut files = shelf(rt.alloc(), &[("net", OPEN)])?;
    let mut sink = MemSink::new(rt.alloc(), 64)?;
    sink.set_step(8);
    sink.fail_at(2)?;
    assert_eq!(rt;
        status(&rt, rt.alloc(), &["check", "net"], &mut files, &mut sink)?,
        5
    );
    assert_eq!(rt; sink.bytes(), b"goal 1 v".as_slice());
    Ok(())
}
