//! Networks: the forms of names, names and numbers, paths.

use np_net::{
    NetNames, Network, Path, PredWhy, area_name, areas_of, device_name, interface_name,
    is_interface_name, is_name, path_links, pred_why, sa_name,
};
use np_net_read::{NetError, read_net};
use np_pred::{PredFault, parse, put_pred};
use np_text::word_list;
use sqlite_items::Items;
use std::alloc::Global;
use std::test::Fail;

// Two areas, and two devices of which one has an interface on each area.
fn small(alloc: Global) -> Result<Network, NetError> {
    read_net(
        alloc,
        b"area lan 10.0.0.0/8,192.0.2.7\n\
        area net none\n\
        device r\n\
        device s config s.cfg\n\
        interface r e0 lan\n\
        interface r e1 net\n\
        interface s e0 net\n",
    )
}

#[test]
fn names_begin_with_a_letter_and_have_64_bytes_at_most(rt: HostRuntime) {
    for (word, name, interface) in [
        ("", false, false),
        ("a", true, true),
        ("Z-9_.x", true, true),
        ("1a", false, false),
        ("-a", false, false),
        ("none", false, true),
        ("None", true, true),
        ("a:b", false, true),
        ("GigabitEthernet0/0.100", false, true),
        ("a b", false, false),
        (
            "L234567890123456789012345678901234567890123456789012345678901234",
            true,
            true,
        ),
        (
            "L2345678901234567890123456789012345678901234567890123456789012345",
            false,
            false,
        ),
    ] {
        assert_eq!(rt; is_name(word.as_bytes()), name);
        assert_eq!(rt; is_interface_name(word.as_bytes()), interface);
    }
}

#[test]
fn items_have_names_and_numbers(rt: HostRuntime) -> Result<(), Fail> {
    let alloc = rt.alloc();
    let net = small(alloc)?;
    let names = NetNames::of(alloc, &net)?;
    for (id, area, device, interface) in [
        (0, "lan", "r", "e0"),
        (1, "net", "s", "e1"),
        (2, "", "", "e0"),
        (3, "", "", ""),
    ] {
        assert_eq!(rt; area_name(&net, id), area.as_bytes(), "{id}");
        assert_eq!(rt; device_name(&net, id), device.as_bytes(), "{id}");
        assert_eq!(rt; interface_name(&net, id), interface.as_bytes(), "{id}");
        assert_eq!(rt; sa_name(&net, id), b"".as_slice(), "{id}");
    }
    for (word, area, device, of_r, of_s) in [
        ("lan", Some(0), None, None, None),
        ("net", Some(1), None, None, None),
        ("s", None, Some(1), None, None),
        ("e0", None, None, Some(0), Some(2)),
        ("e1", None, None, Some(1), None),
    ] {
        let bytes = word.as_bytes();
        assert_eq!(rt; names.area(alloc, bytes)?, area, "{word}");
        assert_eq!(rt; names.device(alloc, bytes)?, device, "{word}");
        assert_eq!(rt; names.interface(alloc, 0, bytes)?, of_r, "{word}");
        assert_eq!(rt; names.interface(alloc, 1, bytes)?, of_s, "{word}");
        assert_eq!(rt; names.association(alloc, bytes)?, None, "{word}");
    }
    let areas = areas_of(alloc, &net)?;
    let words = word_list(alloc, b"or src lan dst net")?;
    let pred = parse(alloc, words.as_slice(), &areas)?;
    let mut text = Vec::new(alloc);
    put_pred(&mut text, &pred)?;
    assert_eq!(rt;
        text.as_slice(),
        b"or src 10.0.0.0/8,192.0.2.7/32 dst none".as_slice()
    );
    Ok(())
}

#[test]
fn paths_and_causes(rt: HostRuntime) -> Result<(), Fail> {
    let alloc = rt.alloc();
    let net = small(alloc)?;
    for (hop, from, to, links) in [
        ((0, 1), 0, 1, true),
        ((1, 0), 1, 0, true),
        ((1, 1), 1, 1, true),
        ((0, 1), 1, 0, false),
        ((0, 2), 0, 1, false),
        ((0, 3), 0, 1, false),
    ] {
        let path = Path {
            hops: Items::from_slice(alloc, &[hop])?,
        };
        assert_eq!(rt; path_links(&net, &path, from, to), links, "{hop:?}");
    }
    let nowhere = Path {
        hops: Items::new(alloc),
    };
    assert!(rt; !path_links(&net, &nowhere, 0, 0));
    for (fault, why) in [
        (PredFault::BadWord(1), PredWhy::BadPred),
        (PredFault::Unfinished, PredWhy::BadPred),
        (PredFault::Extra(2), PredWhy::BadPred),
        (PredFault::TooDeep(64), PredWhy::TooDeep),
        (PredFault::UnknownArea(1), PredWhy::UnknownName),
    ] {
        assert_eq!(rt; pred_why(fault), why);
    }
    Ok(())
}
