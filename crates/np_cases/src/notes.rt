//! `notes NET`.

use crate::networks::{BRANCH, BRANCH_CONFIG, OPEN, filtered};
use crate::runs::{expect_by_diagrams, expect_report};
use std::alloc::{AllocError, Global};
use std::process::Abort;
use std::test::Fail;
use std::thread::Threads;

/// Configurations of the device between two areas, of which something was passed over, and its notes.
const NOTED: [(&str, &str); 17] = [
    (
        "interface e0\n ip access-group 100 in\n",
        "note r.cfg no-interface e1\nnote r.cfg line 2 undefined 100\nnotes\n",
    ),
    (
        "interface e0\n ip access-group L in\ninterface e1\nip access-list extended L\n",
        "note r.cfg line 2 empty L\nnotes\n",
    ),
    (
        "interface e0\n ip access-group L in\ninterface e1\nip access-list extended L\n 10 deny tcp any any\n*Mar  1 00:01:02.123: %SYS-5-CONFIG_I: Configured\n 20 deny udp any any\n permit ip any any\n",
        "note r.cfg line 7 entry\nnote r.cfg line 8 entry\nnotes\n",
    ),
    (
        "interface e0\n ip access-group L in\ninterface e1\nip access-list extended L\n 10 deny tcp any any\n --More-- \n 20 deny udp any any\n permit ip any any\n",
        "note r.cfg line 6 closes L\nnote r.cfg line 7 entry\nnote r.cfg line 8 entry\nnotes\n",
    ),
    (
        "interface e0\n ip access-group L in\ninterface e1\nip access-list extended L\n 10 deny tcp any any\n exit\n 20 deny udp any any\n permit ip any any\n",
        "note r.cfg line 7 entry\nnote r.cfg line 8 entry\nnotes\n",
    ),
    (
        "interface e0\ninterface e1\n ip nat inside\nrouter ospf 1\n ip access-group L in\nip access-list extended L\n permit ip any any\n",
        "note r.cfg line 3 not-modelled\nnote r.cfg line 5 stray-group e1\nnotes\n",
    ),
    (
        "interface e0\n ip access-group L in\ninterface e2\n ip access-group L out\ninterface e0\n ip access-group M in\ninterface e1\nip access-list standard L\n permit any\n",
        "note r.cfg line 4 unknown-interface e2\nnote r.cfg line 6 undefined M\nnotes\n",
    ),
    (
        "interface e0\ninterface e1\nipv6 access-list L6\n permit ipv6 any any\npermit tcp any any\n",
        "note r.cfg line 5 entry\nnotes\n",
    ),
    (
        "interface e0\ninterface e1\nipv6 access-list F\n ip access-list extended M\n exit\n permit ip any any\n",
        "note r.cfg line 6 entry\nnotes\n",
    ),
    (
        "interface e0\ninterface e1\nip community-list 1 permit 100:1\n permit ip any any\n",
        "note r.cfg line 4 entry\nnotes\n",
    ),
    (
        "interface e0\ninterface e1\n evaluate R\n20 dynamic D permit ip any any\n",
        "note r.cfg line 3 entry\nnote r.cfg line 4 entry\nnotes\n",
    ),
    (
        "interface e0\ninterface e1\npermit tcp any any\n20 deny ip any any\n20 remark x\n",
        "note r.cfg line 3 entry\nnote r.cfg line 4 entry\nnotes\n",
    ),
    (
        "interface e0\ninterface e1\n\tip nat inside\n\r ip nat outside\n\rip nat inside\nip access-list extended L\n\tdescription x\n",
        "note r.cfg line 3 not-modelled\nnote r.cfg line 4 not-modelled\nnote r.cfg line 7 closes L\nnotes\n",
    ),
    (
        "interface e0\ninterface e1\nipv6 access-list F\n permit ipv6 any any\nhostname r\n permit ipv6 any any\n",
        "note r.cfg line 6 entry\nnotes\n",
    ),
    (
        "interface e0\ninterface e1\nip access-list extended L\n permit ip any any\nip access-list resequence L 10 10\n",
        "note r.cfg line 5 not-modelled\nnotes\n",
    ),
    (
        "interface e0\ninterface e1\ndefault interface e0\nipv6 access-list F\n default interface e1\n",
        "note r.cfg line 3 not-modelled\nnote r.cfg line 5 not-modelled\nnotes\n",
    ),
    (
        "interface e0\n crypto map M\ninterface e1\n ip inspect FW in\ncrypto map M 10 ipsec-isakmp\naccess-list 100 permit ip any any\n ip nat inside\n",
        "note r.cfg line 2 not-modelled\nnote r.cfg line 4 not-modelled\nnotes\n",
    ),
];

/// Configurations of the same device of which there is nothing to note.
const CLEAN: [&str; 3] = [
    "interface e0\n ip access-group L in\ninterface e1\nip access-list extended L\n 10 deny tcp any any\n!\n 20 deny udp any any\n permit ip any any\n",
    "interface e0\ninterface e1\nipv6 access-list L6\n permit ipv6 any any\n sequence 20 deny ipv6 any any\n!\nip nat inside source list 1 interface e0 overload\n",
    "interface e0\n! to the provider\n description to the provider\n ip access-group 100 in\ninterface e1\naccess-list 100 permit ip any any\n",
];

/// Two devices that name one file.
const SHARED: &str = "area out 0.0.0.0/0
area lan 10.0.0.0/8
device s config r.cfg
device r config r.cfg
interface r e0 out
interface s e1 lan
";

/// A device without a file before one with a file.
const SECOND: &str = "area out 0.0.0.0/0
device s
device r config r.cfg
interface s e0 out
interface r e1 out
";

/// Networks, the configuration in `r.cfg`, and what is noted or refused.
const NETWORKS: [(&str, &str, &str, u8); 5] = [
    (
        SHARED,
        "interface e0\npermit any\n",
        "note r.cfg line 2 entry\nnote r.cfg no-interface e1\nnote r.cfg line 2 entry\nnotes\n",
        1,
    ),
    (
        SECOND,
        "interface e0\n",
        "note r.cfg no-interface e1\nnotes\n",
        1,
    ),
    ("device r\n", "permit any\n", "clean\n", 0),
    (
        "device r config r.cfg\ncolor red\n",
        "permit any\n",
        "refused net line 2 UnknownStatement\n",
        3,
    ),
    (
        "device r config r.cfg\ndevice s config missing\n",
        "permit any\n",
        "",
        4,
    ),
];

/// Expects these notes on a configuration of the device between two areas.
fn expect_noted<R: Threads + Sync + Abort>(
    rt: &R,
    alloc: Global,
    config: &str,
    text: &str,
    number: u8,
) -> Result<(), Fail> {
    let net = filtered(alloc, "never tcp")?;
    expect_report(
        rt,
        alloc,
        "notes",
        net.as_str(),
        "r.cfg",
        config,
        text,
        number,
    )
}

#[test]
fn what_is_passed_over(rt: HostRuntime) -> Result<(), Fail> {
    for (config, text) in NOTED {
        expect_noted(&rt, rt.alloc(), config, text, 1)?;
    }
    Ok(())
}

#[test]
fn nothing_to_note(rt: HostRuntime) -> Result<(), Fail> {
    for config in CLEAN {
        expect_noted(&rt, rt.alloc(), config, "clean\n", 0)?;
    }
    Ok(())
}

#[test]
fn a_device_without_a_configuration(rt: HostRuntime) -> Result<(), Fail> {
    expect_report(&rt, rt.alloc(), "notes", OPEN, "r.cfg", "", "clean\n", 0)
}

#[test]
fn a_refused_configuration(rt: HostRuntime) -> Result<(), Fail> {
    expect_noted(
        &rt,
        rt.alloc(),
        "interface e0\n ip access-group 100 sideways\n",
        "refused r.cfg line 2 BadEntry\n",
        3,
    )
}

#[test]
fn devices_in_their_order(rt: HostRuntime) -> Result<(), Fail> {
    for (net, config, text, number) in NETWORKS {
        expect_report(&rt, rt.alloc(), "notes", net, "r.cfg", config, text, number)?;
    }
    Ok(())
}

/// The configuration of the branch office with a log message as its line 33, after the first entry of a list.
fn with_message(alloc: Global) -> Result<String, AllocError> {
    BRANCH_CONFIG.replace(
        alloc,
        " 20 permit",
        "*Mar  1 00:01:02.123: %SYS-5-CONFIG_I: Configured\n 20 permit",
    )
}

#[test]
fn a_branch_office(rt: HostRuntime) -> Result<(), Fail> {
    expect_report(
        &rt,
        rt.alloc(),
        "notes",
        BRANCH,
        "br1.cfg",
        BRANCH_CONFIG,
        "clean\n",
        0,
    )?;
    let config = with_message(rt.alloc())?;
    expect_report(
        &rt,
        rt.alloc(),
        "notes",
        BRANCH,
        "br1.cfg",
        config.as_str(),
        "note br1.cfg line 34 entry\nnote br1.cfg line 35 entry\nnote br1.cfg line 36 entry\nnote br1.cfg line 37 entry\nnote br1.cfg line 38 entry\nnotes\n",
        1,
    )
}

#[test]
fn other_words(rt: HostRuntime) -> Result<(), Fail> {
    expect_by_diagrams(&rt, rt.alloc(), "no file", &["notes"], &[], "usage\n", 2)?;
    expect_by_diagrams(
        &rt,
        rt.alloc(),
        "a word too many",
        &["notes", "net", "net"],
        &[("net", OPEN)],
        "usage\n",
        2,
    )
}
