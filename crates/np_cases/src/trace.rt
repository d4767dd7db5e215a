//! `trace NET SCRIPT`.

use crate::networks::{OPEN, guarded};
use crate::runs::expect_by_diagrams;
use std::alloc::Global;
use std::process::Abort;
use std::test::Fail;
use std::thread::Threads;

/// Kinds of the association between the guards, and scripts of legal moves, with their replays and statuses.
const LEGAL: [(&str, &str, &str, u8); 3] = [
    // From guard to guard under the association.
    (
        "esp",
        "start area x 10.1.0.1 10.2.0.1 6 1024 80 0\nenter gx e0\ncross gx e1\npush t\nleave\nenter gy e0\npop\ncross gy e1\nleave\n",
        "state 0 area x stack - mark -\nstate 1 in gx e0 stack - mark -\nstate 2 out gx e1 stack - mark -\nstate 3 out gx e1 stack t mark -\nstate 4 area net stack t mark -\nstate 5 in gy e0 stack t mark -\nstate 6 in gy e0 stack - mark t\nstate 7 out gy e1 stack - mark -\nstate 8 area y stack - mark -\nlegal\n",
        0,
    ),
    // What hides nothing is seen outside.
    (
        "ah",
        "start area x 10.1.0.1 10.2.0.1 6 1024 80 0\nenter gx e0\ncross gx e1\npush t\nleave\nenter gy e0\npop\ncross gy e1\nleave\n",
        "state 0 area x stack - mark -\nstate 1 in gx e0 stack - mark -\nstate 2 out gx e1 stack - mark -\nstate 3 out gx e1 stack t mark -\nstate 4 area net stack t mark -\nstate 5 in gy e0 stack t mark -\nstate 6 in gy e0 stack - mark t\nstate 7 out gy e1 stack - mark -\nstate 8 area y stack - mark -\nbreach 2 state 4\nlegal\n",
        1,
    ),
    // What lets forgeries pass can be forged outside.
    (
        "esp-enc",
        "start area net 10.1.0.1 10.2.0.1 0 0 0 0\npush t\nenter gy e0\npop\ncross gy e1\nleave\n",
        "state 0 area net stack - mark -\nstate 1 area net stack t mark -\nstate 2 in gy e0 stack t mark -\nstate 3 in gy e0 stack - mark t\nstate 4 out gy e1 stack - mark -\nstate 5 area y stack - mark -\nbreach 1 state 5\nlegal\n",
        1,
    ),
];

/// Scripts whose last line is illegal, and their replays.
const ILLEGAL: [(&str, &str); 8] = [
    (
        "start area x 10.9.0.1 10.2.0.1 0 0 0 0\n",
        "illegal 0 FalseSource\nillegal\n",
    ),
    (
        "start area x 10.1.0.1 10.2.0.1 0 1 0 0\n",
        "illegal 0 NotValid\nillegal\n",
    ),
    (
        "start in gx e0 10.1.0.1 10.2.0.1 0 0 0 0\n",
        "illegal 0 NotHere\nillegal\n",
    ),
    (
        "start area net 10.1.0.1 10.2.0.1 0 0 0 0\npush t\n",
        "state 0 area net stack - mark -\nillegal 1 NoKey\nillegal\n",
    ),
    (
        "start area net 10.1.0.1 10.2.0.1 0 0 0 0\npop\n",
        "state 0 area net stack - mark -\nillegal 1 NotHere\nillegal\n",
    ),
    (
        "start area net 10.1.0.1 10.2.0.1 0 0 0 0\nenter gy e0\ncross gy e1\n",
        "state 0 area net stack - mark -\nstate 1 in gy e0 stack - mark -\nillegal 2 NotAdmitted\nillegal\n",
    ),
    (
        "start area x 10.1.0.1 10.2.0.1 0 0 0 0\nenter gx e0\ncross gx e1\npush u\n",
        "state 0 area x stack - mark -\nstate 1 in gx e0 stack - mark -\nstate 2 out gx e1 stack - mark -\nillegal 3 NoRule\nillegal\n",
    ),
    (
        "start area x 10.1.0.1 10.2.0.1 0 0 0 0\nenter gx e0\ncross gx e1\npush t\nleave\nenter gy e0\ncross gy e1\n",
        "state 0 area x stack - mark -\nstate 1 in gx e0 stack - mark -\nstate 2 out gx e1 stack - mark -\nstate 3 out gx e1 stack t mark -\nstate 4 area net stack t mark -\nstate 5 in gy e0 stack t mark -\nillegal 6 MustPop\nillegal\n",
    ),
];

/// Kinds of an association with one service, and scripts whose last line is illegal, and their replays.
const ONE_SERVICE: [(&str, &str, &str); 2] = [
    // Outside it can be forged, but not removed.
    (
        "esp-enc",
        "start area net 10.1.0.1 10.2.0.1 0 0 0 0\npush t\npop\n",
        "state 0 area net stack - mark -\nstate 1 area net stack t mark -\nillegal 2 NoKey\nillegal\n",
    ),
    // Outside it can't be forged.
    (
        "esp-null",
        "start area net 10.1.0.1 10.2.0.1 0 0 0 0\npush t\n",
        "state 0 area net stack - mark -\nillegal 1 NoKey\nillegal\n",
    ),
];

/// Lines before those of the network, and the replay of three headers that are put around one packet.
const DEPTHS: [(&str, &str, u8); 2] = [
    (
        "depth 2\n",
        "state 0 area net stack - mark -\nstate 1 area net stack u mark -\nstate 2 area net stack u,u mark -\nillegal 3 Full\nillegal\n",
        1,
    ),
    (
        "depth 3\n",
        "state 0 area net stack - mark -\nstate 1 area net stack u mark -\nstate 2 area net stack u,u mark -\nstate 3 area net stack u,u,u mark -\nlegal\n",
        0,
    ),
];

/// Scripts that are refused, and the line that says so.
const REFUSED: [(&str, &str); 5] = [
    ("", "refused script line 1 NoStart\n"),
    (
        "start area q 0.0.0.0 0.0.0.0 0 0 0 0\n",
        "refused script line 1 UnknownName\n",
    ),
    (
        "start area net 0.0.0.0 0.0.0.0 256 0 0 0\n",
        "refused script line 1 BadNumber\n",
    ),
    (
        "start area net 0.0.0.0 0.0.0.0 0 0 0 0\njump\n",
        "refused script line 2 BadMove\n",
    ),
    (
        "start area net 0.0.0.0 0.0.0.0 0 0 0 0 dscp=64\n",
        "refused script line 1 BadNumber\n",
    ),
];

/// Words that fit no command, or name a file that isn't there. The network's file is read before the script's.
const OTHER_WORDS: [(&str, &[&str], &str, u8); 5] = [
    ("no script", &["trace", "net"], "usage\n", 2),
    (
        "a word more",
        &["trace", "net", "script", "more"],
        "usage\n",
        2,
    ),
    ("a missing network", &["trace", "missing", "script"], "", 4),
    ("a missing script", &["trace", "net", "missing"], "", 4),
    (
        "no network and a missing script",
        &["trace", "script", "missing"],
        "refused script line 1 UnknownStatement\n",
        3,
    ),
];

/// Replays a script in a network.
fn expect_replay<R: Threads + Sync + Abort>(
    rt: &R,
    alloc: Global,
    net: &str,
    script: &str,
    text: &str,
    number: u8,
) -> Result<(), Fail> {
    let files = [("net", net), ("script", script)];
    expect_by_diagrams(
        rt,
        alloc,
        script,
        &["trace", "net", "script"],
        &files,
        text,
        number,
    )
}

/// Replays a script in the guarded network with this first line and this kind of the association.
fn expect_trace<R: Threads + Sync + Abort>(
    rt: &R,
    alloc: Global,
    first: &str,
    kind: &str,
    script: &str,
    text: &str,
    number: u8,
) -> Result<(), Fail> {
    let net = guarded(alloc, first, kind)?;
    expect_replay(rt, alloc, net.as_str(), script, text, number)
}

#[test]
fn legal_scripts(rt: HostRuntime) -> Result<(), Fail> {
    for (kind, script, text, number) in LEGAL {
        expect_trace(&rt, rt.alloc(), "", kind, script, text, number)?;
    }
    Ok(())
}

#[test]
fn illegal_scripts(rt: HostRuntime) -> Result<(), Fail> {
    for (script, text) in ILLEGAL {
        expect_trace(&rt, rt.alloc(), "", "esp", script, text, 1)?;
    }
    Ok(())
}

#[test]
fn one_service(rt: HostRuntime) -> Result<(), Fail> {
    for (kind, script, text) in ONE_SERVICE {
        expect_trace(&rt, rt.alloc(), "", kind, script, text, 1)?;
    }
    Ok(())
}

#[test]
fn depths(rt: HostRuntime) -> Result<(), Fail> {
    let script = "start area net 0.0.0.0 0.0.0.0 0 0 0 0\npush u\npush u\npush u\n";
    for (first, text, number) in DEPTHS {
        expect_trace(&rt, rt.alloc(), first, "esp", script, text, number)?;
    }
    Ok(())
}

#[test]
fn refused_scripts(rt: HostRuntime) -> Result<(), Fail> {
    for (script, text) in REFUSED {
        expect_trace(&rt, rt.alloc(), "", "esp", script, text, 3)?;
    }
    Ok(())
}

#[test]
fn other_words_of_trace(rt: HostRuntime) -> Result<(), Fail> {
    let files = [("net", OPEN), ("script", "start\n")];
    for (case, words, text, number) in OTHER_WORDS {
        expect_by_diagrams(&rt, rt.alloc(), case, words, &files, text, number)?;
    }
    Ok(())
}
