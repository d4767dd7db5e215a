//! `atoms NET`.

ghost use Rattle.std.specs.Prelude.{◌<◌};

use crate::networks::{TCP_DENIED, applied, filtered, pairs, protocols};
use crate::runs::{expect, expect_between, expect_by_diagrams, expect_report};
use std::alloc::{AllocError, Global};
use std::test::Fail;

/// Goals from the outer area of two to the inner one, lines of the configuration between them, and the report.
const BETWEEN: [(&str, &str, &str); 6] = [
    (
        "never tcp",
        TCP_DENIED,
        "cuts 2\ncut 1 list r 100\ncut 2 goal 1\natoms 2\natom 1 0.0.0.0 0.0.0.0 0 0 0 0 10\natom 2 0.0.0.0 0.0.0.0 6 0 0 0 01\n",
    ),
    (
        "never icmp",
        "access-list 100 permit icmp any any packet-too-big\n",
        "cuts 2\ncut 1 list r 100\ncut 2 goal 1\natoms 3\natom 1 0.0.0.0 0.0.0.0 0 0 0 0 00\natom 2 0.0.0.0 0.0.0.0 1 0 0 0 01\natom 3 0.0.0.0 0.0.0.0 1 3 4 0 11\n",
    ),
    (
        "never tcp",
        "ip access-list extended L\n 20 permit ip any any\n 10 deny tcp any any\ninterface e0\n ip access-group L in\n",
        "cuts 2\ncut 1 list r L\ncut 2 goal 1\natoms 2\natom 1 0.0.0.0 0.0.0.0 0 0 0 0 10\natom 2 0.0.0.0 0.0.0.0 6 0 0 0 01\n",
    ),
    (
        "never dscp 46",
        "access-list 100 permit ip any any precedence critical\n",
        "cuts 2\ncut 1 list r 100\ncut 2 goal 1\natoms 3\natom 1 0.0.0.0 0.0.0.0 0 0 0 0 00\natom 2 0.0.0.0 0.0.0.0 0 0 0 0 dscp=40 10\natom 3 0.0.0.0 0.0.0.0 0 0 0 0 dscp=46 11\n",
    ),
    (
        "only and src lan tcp",
        TCP_DENIED,
        "cuts 2\ncut 1 list r 100\ncut 2 goal 1\natoms 3\natom 1 0.0.0.0 0.0.0.0 0 0 0 0 10\natom 2 0.0.0.0 0.0.0.0 6 0 0 0 00\natom 3 10.0.0.0 0.0.0.0 6 0 0 0 01\n",
    ),
    (
        "never tcp",
        "",
        "cuts 1\ncut 1 goal 1\natoms 2\natom 1 0.0.0.0 0.0.0.0 0 0 0 0 0\natom 2 0.0.0.0 0.0.0.0 6 0 0 0 1\n",
    ),
];

/// Two devices with one configuration, of which each list stands once for each device, in the order of the slots.
const SHARED: &str = "area a none
area b none
device d config lists.cfg
device e config lists.cfg
interface e e0 a
interface d e0 a
interface d e1 b
goal a b never udp
goal b a only tcp
";

/// Two lists that are applied, and one that isn't.
const SHARED_CONFIG: &str = "interface e0
 ip access-group B out
interface e1
 ip access-group A in
 ip access-group B out
ip access-list extended A
 permit tcp any any
ip access-list extended B
 permit udp any any
ip access-list extended C
 deny ip any any
";

const SHARED_ATOMS: &str = "cuts 5
cut 1 list e B
cut 2 list d B
cut 3 list d A
cut 4 goal 1
cut 5 goal 2
atoms 3
atom 1 0.0.0.0 0.0.0.0 0 0 0 0 00000
atom 2 0.0.0.0 0.0.0.0 6 0 0 0 00101
atom 3 0.0.0.0 0.0.0.0 17 0 0 0 11010
";

/// Words that fit no command, or name a file that isn't there.
const OTHER_WORDS: [(&str, &[&str], &str, u8); 3] = [
    ("no file", &["atoms"], "usage\n", 2),
    ("a word too many", &["atoms", "net", "1"], "usage\n", 2),
    ("a missing file", &["atoms", "missing"], "", 4),
];

#[test]
fn atoms_of_a_list_and_a_goal(rt: HostRuntime) -> Result<(), Fail> {
    for (goal, lines, text) in BETWEEN {
        expect_between(&rt, rt.alloc(), "atoms", goal, lines, text, 0)?;
    }
    Ok(())
}

#[test]
fn atoms_of_networks(rt: HostRuntime) -> Result<(), Fail> {
    for (net, config, text) in [
        (
            "",
            "",
            "cuts 0\natoms 1\natom 1 0.0.0.0 0.0.0.0 0 0 0 0 -\n",
        ),
        (SHARED, SHARED_CONFIG, SHARED_ATOMS),
    ] {
        expect_report(&rt, rt.alloc(), "atoms", net, "lists.cfg", config, text, 0)?;
    }
    Ok(())
}

/// The goals' cuts where each of 70 protocols has a goal of its own.
fn put_cuts(alloc: Global, text: &mut String) -> Result<(), AllocError> {
    text.push_str("cuts 70\n")?;
    for protocol in 0..70 {
        let number = protocol + 1;
        text.push_str(format!(in alloc; "cut {number} goal {number}\n")?.as_str())?;
    }
    Ok(())
}

/// The atom of a protocol that has a goal.
fn atom(alloc: Global, protocol: usize) -> Result<String, AllocError>
    requires { protocol < 70 }
{
    let number = protocol + 1;
    let before = "0".repeat(alloc, protocol)?;
    let after = "0".repeat(alloc, 69 - protocol)?;
    format!(in alloc; "atom {number} 0.0.0.0 0.0.0.0 {protocol} 0 0 0 {before}1{after}\n")
}

/// The atom of each of them, and then of the other protocols.
fn put_atoms(alloc: Global, text: &mut String) -> Result<(), AllocError> {
    text.push_str("atoms 71\n")?;
    for protocol in 0..70 {
        text.push_str(atom(alloc, protocol)?.as_str())?;
    }
    let rest = "0".repeat(alloc, 70)?;
    text.push_str(format!(in alloc; "atom 71 0.0.0.0 0.0.0.0 70 0 0 0 {rest}\n")?.as_str())?;
    Ok(())
}

#[test]
fn atoms_of_many_goals(rt: HostRuntime) -> Result<(), Fail> {
    let net = protocols(rt.alloc())?;
    let mut text = String::new(rt.alloc());
    put_cuts(rt.alloc(), &mut text)?;
    put_atoms(rt.alloc(), &mut text)?;
    expect_report(
        &rt,
        rt.alloc(),
        "atoms",
        net.as_str(),
        "r.cfg",
        "",
        text.as_str(),
        0,
    )
}

#[test]
fn atoms_of_a_list_of_many_blocks(rt: HostRuntime) -> Result<(), Fail> {
    let net = filtered(rt.alloc(), "never any")?;
    let lines = pairs(rt.alloc())?;
    let config = applied(rt.alloc(), lines.as_str())?;
    expect_by_diagrams(
        &rt,
        rt.alloc(),
        "a list of many blocks",
        &["atoms", "net"],
        &[("net", net.as_str()), ("r.cfg", config.as_str())],
        "cuts 2\ncut 1 list r 100\ncut 2 goal 1\natoms 2\natom 1 0.0.0.0 0.0.0.0 0 0 0 0 01\natom 2 0.0.0.0 0.0.0.3 0 0 0 0 11\n",
        0,
    )
}

#[test]
fn other_words(rt: HostRuntime) -> Result<(), Fail> {
    for (case, words, text, number) in OTHER_WORDS {
        expect(&rt, rt.alloc(), case, words, &[("net", "")], text, number)?;
    }
    Ok(())
}
