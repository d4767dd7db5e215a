//! What configurations apply at the slots of a network, and its cuts.

use np_acl_read::{SharedConfig, read_config};
use np_cut::{Applied, apply, filter_cuts, lets};
use np_net_read::read_net;
use np_region::BlockLists;
use np_space::Header;
use std::alloc::Global;
use std::test::Fail;

const NET: &[u8] = b"area a 10.1.0.0/16\n\
    area b 10.2.0.0/16\n\
    device d config d.cfg\n\
    device e config e.cfg\n\
    interface d e0 a\n\
    interface d e1 b\n\
    interface e e0 a\n\
    interface e e1 b\n\
    goal a b only dport 53\n";

/// A list at two slots, one that isn't defined, one without entries, and an interface that the network
/// doesn't have.
const FIRST: &[u8] = b"access-list 100 deny tcp any any eq 22\n\
    access-list 100 permit ip any any\n\
    ip access-list extended bare\n\
    interface e0\n \
    ip access-group 100 in\n \
    ip access-group missing out\n\
    interface e1\n \
    ip access-group bare in\n \
    ip access-group 100 out\n\
    interface e9\n \
    ip access-group other in\n";

/// A list of another device's name.
const SECOND: &[u8] = b"access-list 100 permit tcp any any\n\
    interface e0\n \
    ip access-group 100 out\n";

fn to_port(proto: u8, b: u16) -> Header {
    Header {
        src: 0,
        dst: 0,
        proto,
        a: 0,
        b,
        est: false,
        dscp: 0,
    }
}

// The two configurations.
fn both(alloc: Global) -> Result<Vec<SharedConfig>, Fail> {
    let mut configs = Vec::new(alloc);
    configs.push(SharedConfig::of(alloc, read_config(alloc, FIRST)?)?)?;
    configs.push(SharedConfig::of(alloc, read_config(alloc, SECOND)?)?)?;
    Ok(configs)
}

// The place of the list at a slot, and whether it lets a header of the shell and one of names cross.
fn at_slot(applied: &Applied<'_>, slot: usize) -> (Option<usize>, bool, bool) {
    if slot < applied.at.len() {
        let shell = lets(applied, slot, &to_port(6, 22));
        let names = lets(applied, slot, &to_port(17, 53));
        (applied.at.as_slice()[slot], shell, names)
    } else {
        (None, false, false)
    }
}

#[test]
fn lists_at_slots(rt: HostRuntime) -> Result<(), Fail> {
    let net = read_net(rt.alloc(), NET)?;
    let configs = both(rt.alloc())?;
    let applied = apply(rt.alloc(), &net, configs.as_slice())?;
    for (slot, found) in [
        (0, (Some(0), false, true)),
        (1, (None, true, true)),
        (2, (None, true, true)),
        (3, (Some(0), false, true)),
        (4, (None, true, true)),
        (5, (Some(1), true, false)),
        (6, (None, true, true)),
        (7, (None, true, true)),
        (8, (None, false, false)),
    ] {
        assert_eq!(rt; at_slot(&applied, slot), found);
    }
    Ok(())
}

#[test]
fn cuts_of_lists_and_goals(rt: HostRuntime) -> Result<(), Fail> {
    let net = read_net(rt.alloc(), NET)?;
    let configs = both(rt.alloc())?;
    let applied = apply(rt.alloc(), &net, configs.as_slice())?;
    let mut store = BlockLists::new(rt.alloc());
    let cuts = filter_cuts(rt.alloc(), &mut store, &net, &applied)?;
    assert_eq!(rt; cuts.len(), 3);
    Ok(())
}
