//! `ipsec NET`.

use crate::networks::{OPEN, guarded_and, half_trusted};
use crate::runs::{expect, expect_by_diagrams};
use std::alloc::Global;
use std::process::Abort;
use std::test::Fail;
use std::thread::Threads;

/// Kinds of the association between the guards, and lines after all others, with the answers and statuses.
const GUARDED: [(&str, &str, &str, u8); 5] = [
    // The association keeps its packets from being forged and from being read.
    ("esp", "", "ipgoal 1 auth yes\nipgoal 2 conf yes\nyes\n", 0),
    // It hides nothing.
    (
        "ah",
        "",
        "ipgoal 1 auth yes\nipgoal 2 conf no K2 gx e1 under t\nno\n",
        1,
    ),
    (
        "esp-null",
        "",
        "ipgoal 1 auth yes\nipgoal 2 conf no K2 gx e1 under t\nno\n",
        1,
    ),
    // It lets forgeries pass.
    (
        "esp-enc",
        "",
        "ipgoal 1 auth no A2 gy e0 popped t 10.1.0.0 10.2.0.0 0 0 0 0\nipgoal 2 conf yes\nno\n",
        1,
    ),
    // A guard takes bare packets too.
    (
        "esp",
        "inrule gy e0 bypass unmarked plain src x\n",
        "ipgoal 1 auth no A2 gy e0 unmarked 10.1.0.0 0.0.0.0 0 0 0 0\nipgoal 2 conf yes\nno\n",
        1,
    ),
];

/// Networks without IPsec goals, words that fit no command, and files that aren't there or aren't a network.
const OTHERS: [(&str, &[&str], &str, u8); 5] = [
    ("no goals", &["ipsec", "net"], "yes\n", 0),
    ("no network", &["ipsec"], "usage\n", 2),
    ("a word more", &["ipsec", "net", "more"], "usage\n", 2),
    ("a missing network", &["ipsec", "missing"], "", 4),
    (
        "a script",
        &["ipsec", "script"],
        "refused script line 1 UnknownStatement\n",
        3,
    ),
];

/// Asks about the IPsec goals of a network.
fn expect_answers<R: Threads + Sync + Abort>(
    rt: &R,
    alloc: Global,
    net: &str,
    text: &str,
    number: u8,
) -> Result<(), Fail> {
    let files = [("net", net)];
    expect(rt, alloc, net, &["ipsec", "net"], &files, text, number)
}

/// The same of the guarded network with this kind of the association and this line after all others.
fn expect_guarded<R: Threads + Sync + Abort>(
    rt: &R,
    alloc: Global,
    kind: &str,
    last: &str,
    text: &str,
    number: u8,
) -> Result<(), Fail> {
    let net = guarded_and(alloc, kind, last)?;
    expect_answers(rt, alloc, net.as_str(), text, number)
}

#[test]
fn guarded_networks(rt: HostRuntime) -> Result<(), Fail> {
    for (kind, last, text, number) in GUARDED {
        expect_guarded(&rt, rt.alloc(), kind, last, text, number)?;
    }
    Ok(())
}

#[test]
fn an_area_that_is_not_trusted(rt: HostRuntime) -> Result<(), Fail> {
    let net = half_trusted(rt.alloc())?;
    expect_answers(
        &rt,
        rt.alloc(),
        net.as_str(),
        "ipgoal 1 auth no A0 area y\nipgoal 2 conf no K1 gy e1 10.1.0.0 10.2.0.0 0 0 0 0\nno\n",
        1,
    )
}

#[test]
fn other_words_of_ipsec(rt: HostRuntime) -> Result<(), Fail> {
    let files = [("net", OPEN), ("script", "start\n")];
    for (case, words, text, number) in OTHERS {
        expect_by_diagrams(&rt, rt.alloc(), case, words, &files, text, number)?;
    }
    Ok(())
}
