//! `synth NET`.

use crate::runs::{expect, expect_report};
use std::test::Fail;

/// Networks, a configuration in the file `r.cfg`, and the report on a posture that there is.
const CHOSEN: [(&str, &str, &str); 5] = [
    // The first free slot lets everything cross, since the second one is shut until its turn.
    (
        "area out 0.0.0.0/0\narea lan 10.0.0.0/8\ndevice r\ninterface r e0 out\ninterface r e1 lan\ngoal out lan never tcp\nfree r e0 in\nfree r e1 out\n",
        "",
        "atoms 2\natom 1 0.0.0.0 0.0.0.0 0 0 0 0\natom 2 0.0.0.0 0.0.0.0 6 0 0 0\nslot r e0 in 1-2\nslot r e1 out 1\ndrop 2 goal 1\nhop r e0 e1\nsynthesised\n",
    ),
    // A slot that lets nothing cross.
    (
        "area out 0.0.0.0/0\narea lan 10.0.0.0/8\ndevice r\ninterface r e0 out\ninterface r e1 lan\ngoal out lan never any\nfree r e0 in\n",
        "",
        "atoms 1\natom 1 0.0.0.0 0.0.0.0 0 0 0 0\nslot r e0 in -\ndrop 1 goal 1\nhop r e0 e1\nsynthesised\n",
    ),
    // A goal for each way, and a free slot for each.
    (
        "area out 0.0.0.0/0\narea lan 10.0.0.0/8\ndevice r\ninterface r e0 out\ninterface r e1 lan\ngoal out lan never proto 5\ngoal lan out never proto 9\nfree r e1 in\nfree r e0 in\n",
        "",
        "atoms 3\natom 1 0.0.0.0 0.0.0.0 0 0 0 0\natom 2 0.0.0.0 0.0.0.0 5 0 0 0\natom 3 0.0.0.0 0.0.0.0 9 0 0 0\nslot r e0 in 1,3\ndrop 2 goal 1\nhop r e0 e1\nslot r e1 in 1-2\ndrop 3 goal 2\nhop r e1 e0\nsynthesised\n",
    ),
    // A drop names the first of the goals that would be broken.
    (
        "area out 0.0.0.0/0\narea lan 10.0.0.0/8\ndevice r\ninterface r e0 out\ninterface r e1 lan\ngoal out lan never udp\ngoal out lan never any\nfree r e0 in\n",
        "",
        "atoms 2\natom 1 0.0.0.0 0.0.0.0 0 0 0 0\natom 2 0.0.0.0 0.0.0.0 17 0 0 0\nslot r e0 in -\ndrop 1 goal 2\nhop r e0 e1\ndrop 2 goal 1\nhop r e0 e1\nsynthesised\n",
    ),
    // The atoms know the list at the free slot, which is not asked there.
    (
        "area out 0.0.0.0/0\narea lan 10.0.0.0/8\ndevice r config r.cfg\ninterface r e0 out\ninterface r e1 lan\ngoal out lan never tcp\nfree r e0 in\n",
        "interface e0\n ip access-group 100 in\naccess-list 100 deny udp any any\naccess-list 100 permit ip any any\n",
        "atoms 3\natom 1 0.0.0.0 0.0.0.0 0 0 0 0\natom 2 0.0.0.0 0.0.0.0 6 0 0 0\natom 3 0.0.0.0 0.0.0.0 17 0 0 0\nslot r e0 in 1,3\ndrop 2 goal 1\nhop r e0 e1\nsynthesised\n",
    ),
];

/// The same of networks with more goals and slots.
const MORE_CHOSEN: [(&str, &str, &str); 3] = [
    // At its turn the first slot would break the second goal; in the end, with the later slot open, it is the first goal.
    (
        "area out 0.0.0.0/0\narea dmz none\narea lan 10.0.0.0/8\ndevice r1\ndevice r2\ninterface r1 e0 out\ninterface r1 e1 dmz\ninterface r2 e0 dmz\ninterface r2 e1 lan\ngoal out lan never any\ngoal out dmz never any\nfree r1 e0 in\nfree r2 e0 in\n",
        "",
        "atoms 1\natom 1 0.0.0.0 0.0.0.0 0 0 0 0\nslot r1 e0 in -\ndrop 1 goal 1\nhop r1 e0 e1\nhop r2 e0 e1\nslot r2 e0 in 1\nsynthesised\n",
    ),
    // A run of atoms and a single one.
    (
        "area out 0.0.0.0/0\narea lan 10.0.0.0/8\ndevice r\ninterface r e0 out\ninterface r e1 lan\ngoal out lan never proto 5\ngoal lan out never proto 3\ngoal lan out never proto 9\nfree r e0 in\nfree r e1 in\n",
        "",
        "atoms 4\natom 1 0.0.0.0 0.0.0.0 0 0 0 0\natom 2 0.0.0.0 0.0.0.0 3 0 0 0\natom 3 0.0.0.0 0.0.0.0 5 0 0 0\natom 4 0.0.0.0 0.0.0.0 9 0 0 0\nslot r e0 in 1-2,4\ndrop 3 goal 1\nhop r e0 e1\nslot r e1 in 1,3\ndrop 2 goal 2\nhop r e1 e0\ndrop 4 goal 3\nhop r e1 e0\nsynthesised\n",
    ),
    // A code point.
    (
        "area out 0.0.0.0/0\narea lan 10.0.0.0/8\ndevice r\ninterface r e0 out\ninterface r e1 lan\ngoal out lan never dscp 46\nfree r e0 in\n",
        "",
        "atoms 2\natom 1 0.0.0.0 0.0.0.0 0 0 0 0\natom 2 0.0.0.0 0.0.0.0 0 0 0 0 dscp=46\nslot r e0 in 1\ndrop 2 goal 1\nhop r e0 e1\nsynthesised\n",
    ),
];

/// Networks whose configured slots decide everything, with a configuration in the file `r.cfg`, and the report.
const FIXED: [(&str, &str, &str, u8); 4] = [
    // The configured list denies what the goal forbids, so the free slot may let everything cross.
    (
        "area out 0.0.0.0/0\narea lan 10.0.0.0/8\ndevice r config r.cfg\ninterface r e0 out\ninterface r e1 lan\ngoal out lan never tcp\nfree r e1 out\n",
        "interface e0\n ip access-group 100 in\naccess-list 100 deny tcp any any\naccess-list 100 permit ip any any\n",
        "atoms 2\natom 1 0.0.0.0 0.0.0.0 0 0 0 0\natom 2 0.0.0.0 0.0.0.0 6 0 0 0\nslot r e1 out 1-2\nsynthesised\n",
        0,
    ),
    // No slot is free.
    (
        "area out 0.0.0.0/0\narea lan 10.0.0.0/8\ndevice r config r.cfg\ninterface r e0 out\ninterface r e1 lan\ngoal out lan never tcp\n",
        "interface e0\n ip access-group 100 in\naccess-list 100 deny tcp any any\naccess-list 100 permit ip any any\n",
        "atoms 2\natom 1 0.0.0.0 0.0.0.0 0 0 0 0\natom 2 0.0.0.0 0.0.0.0 6 0 0 0\nsynthesised\n",
        0,
    ),
    // A way around the free slot is open.
    (
        "area out 0.0.0.0/0\narea lan 10.0.0.0/8\ndevice r1\ndevice r2\ninterface r2 e0 out\ninterface r2 e1 lan\ninterface r1 e0 out\ninterface r1 e1 lan\ngoal out lan never tcp\nfree r2 e0 in\n",
        "",
        "unattainable goal 1 0.0.0.0 0.0.0.0 6 0 0 0\nhop r1 e0 e1\n",
        1,
    ),
    // The first goal holds even so.
    (
        "area out 0.0.0.0/0\narea lan 10.0.0.0/8\ndevice r1\ndevice r2\ninterface r2 e0 out\ninterface r2 e1 lan\ninterface r1 e0 out\ninterface r1 e1 lan\ngoal lan out never nothing\ngoal out lan never tcp\nfree r2 e0 in\n",
        "",
        "unattainable goal 2 0.0.0.0 0.0.0.0 6 0 0 0\nhop r1 e0 e1\n",
        1,
    ),
];

/// Words that fit no command, or name a file that isn't there, and an empty network.
const OTHER_WORDS: [(&str, &[&str], &str, u8); 4] = [
    ("no file", &["synth"], "usage\n", 2),
    ("a word too many", &["synth", "net", "1"], "usage\n", 2),
    (
        "an empty network",
        &["synth", "net"],
        "atoms 1\natom 1 0.0.0.0 0.0.0.0 0 0 0 0\nsynthesised\n",
        0,
    ),
    ("a missing file", &["synth", "missing"], "", 4),
];

#[test]
fn chosen_postures(rt: HostRuntime) -> Result<(), Fail> {
    for (net, config, text) in CHOSEN {
        expect_report(&rt, rt.alloc(), "synth", net, "r.cfg", config, text, 0)?;
    }
    Ok(())
}

#[test]
fn more_chosen_postures(rt: HostRuntime) -> Result<(), Fail> {
    for (net, config, text) in MORE_CHOSEN {
        expect_report(&rt, rt.alloc(), "synth", net, "r.cfg", config, text, 0)?;
    }
    Ok(())
}

#[test]
fn fixed_postures(rt: HostRuntime) -> Result<(), Fail> {
    for (net, config, text, number) in FIXED {
        expect_report(&rt, rt.alloc(), "synth", net, "r.cfg", config, text, number)?;
    }
    Ok(())
}

#[test]
fn other_words_of_synth(rt: HostRuntime) -> Result<(), Fail> {
    for (case, words, text, number) in OTHER_WORDS {
        expect(&rt, rt.alloc(), case, words, &[("net", "")], text, number)?;
    }
    Ok(())
}
