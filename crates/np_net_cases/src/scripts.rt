//! Texts of scripts: read, and refused.

ghost use Rattle.std.specs.Prelude.{◌≡◌, IfOk};
ghost use Rattle.np_net_read.specs.Tables.{no_rules};
ghost use Rattle.np_net_cases.specs.Small.{small_areas, small_associations, small_device, small_devices, small_interface, small_interfaces, small_tables};

use np_ipsec::{Motion, Place};
use np_net::{Area, Device, Interface, Kind, Network, Sa, Table};
use np_script::{Script, ScriptError, ScriptFault, ScriptWhy, read_script};
use np_space::Header;
use np_text::Name;
use sqlite_items::Items;
use std::alloc::{AllocError, Global};
use std::test::Fail;

fn areas(alloc: Global) -> Result<Items<Area>, AllocError>
    ensures { IfOk result (λ areas. areas ≡ small_areas) }
{
    let mut areas = Items::new(alloc);
    areas.push(Area {
        name: Name::of(alloc, b"x")?,
        sources: Items::new(alloc),
        trusted: false,
    })?;
    Ok(areas)
}

fn device(alloc: Global, name: &[u8]) -> Result<Device, AllocError>
    ensures { IfOk result (λ device. device ≡ small_device name.now) }
{
    Ok(Device {
        name: Name::of(alloc, name)?,
        config: None,
        trusted: false,
    })
}

fn devices(alloc: Global) -> Result<Items<Device>, AllocError>
    ensures { IfOk result (λ devices. devices ≡ small_devices) }
{
    let mut devices = Items::new(alloc);
    devices.push(device(alloc, b"g")?)?;
    devices.push(device(alloc, b"h")?)?;
    Ok(devices)
}

fn interface(alloc: Global, name: &[u8], device: u16) -> Result<Interface, AllocError>
    ensures { IfOk result (λ interface. interface ≡ small_interface name.now device) }
{
    Ok(Interface {
        name: Name::of(alloc, name)?,
        device,
        area: 0,
    })
}

fn interfaces(alloc: Global) -> Result<Items<Interface>, AllocError>
    ensures { IfOk result (λ interfaces. interfaces ≡ small_interfaces) }
{
    let mut interfaces = Items::new(alloc);
    interfaces.push(interface(alloc, b"e0", 0)?)?;
    interfaces.push(interface(alloc, b"e1", 0)?)?;
    interfaces.push(interface(alloc, b"e1", 1)?)?;
    Ok(interfaces)
}

fn associations(alloc: Global) -> Result<Items<Sa>, AllocError>
    ensures { IfOk result (λ sas. sas ≡ small_associations) }
{
    let mut sas = Items::new(alloc);
    sas.push(Sa {
        name: Name::of(alloc, b"t")?,
        kind: Kind::Esp,
        from: 0,
        to: 1,
    })?;
    Ok(sas)
}

fn table(alloc: Global) -> Table
    ensures { result ≡ no_rules }
{
    Table {
        pops: Items::new(alloc),
        ins: Items::new(alloc),
        outs: Items::new(alloc),
    }
}

fn tables(alloc: Global) -> Result<Items<Table>, AllocError>
    ensures { IfOk result (λ tables. tables ≡ small_tables) }
{
    let mut tables = Items::new(alloc);
    tables.push(table(alloc))?;
    tables.push(table(alloc))?;
    tables.push(table(alloc))?;
    Ok(tables)
}

// One area, and two devices that are on it, the first by two interfaces; and an association between
// them.
fn network(alloc: Global) -> Result<Network, AllocError> {
    let areas = areas(alloc)?;
    let devices = devices(alloc)?;
    let interfaces = interfaces(alloc)?;
    let sas = associations(alloc)?;
    let tables = tables(alloc)?;
    let free = Items::from_slice(alloc, &[false; 6])?;
    Ok(Network {
        areas,
        devices,
        interfaces,
        free,
        goals: Items::new(alloc),
        sas,
        tables,
        ipgoals: Items::new(alloc),
        depth: 8,
    })
}

// The fault of a text; `None` where it is a script, or where memory runs out.
fn fault_of(alloc: Global, net: &Network, text: &str) -> Option<ScriptFault> {
    match read_script(alloc, net, text.as_bytes()) {
        Ok(_) => None,
        Err(ScriptError::Fault(fault)) => Some(fault),
        Err(ScriptError::Memory(_)) => None,
    }
}

#[test]
fn a_start_says_a_place_and_a_header(rt: HostRuntime) -> Result<(), Fail> {
    let net = network(rt.alloc())?;
    for (text, line, why) in [
        ("", 1, ScriptWhy::NoStart),
        ("# nothing", 2, ScriptWhy::NoStart),
        ("\n#\n", 3, ScriptWhy::NoStart),
        ("#\npop\nstart area y\n", 2, ScriptWhy::NoStart),
        ("Start area x\n", 1, ScriptWhy::NoStart),
        ("start\n", 1, ScriptWhy::BadMove),
        ("start at x\n", 1, ScriptWhy::BadMove),
        ("start area\n", 1, ScriptWhy::BadMove),
        ("start area g 1.2.3\n", 1, ScriptWhy::UnknownName),
        ("start in t e0\n", 1, ScriptWhy::UnknownName),
        ("start in g\n", 1, ScriptWhy::BadMove),
        ("start in h e0\n", 1, ScriptWhy::UnknownName),
        ("start out g e2\n", 1, ScriptWhy::UnknownName),
        ("start area x\n", 1, ScriptWhy::BadMove),
        ("start area x 1.2.3\n", 1, ScriptWhy::BadNumber),
        ("start area x 1.2.3.4 any\n", 1, ScriptWhy::BadNumber),
    ] {
        assert_eq!(rt;
            fault_of(rt.alloc(), &net, text),
            Some(ScriptFault { line, why }),
            "{text:?}"
        );
    }
    Ok(())
}

#[test]
fn numbers_of_a_header_are_of_their_ranges(rt: HostRuntime) -> Result<(), Fail> {
    let net = network(rt.alloc())?;
    for (text, why) in [
        (
            "start area x 0.0.0.0 0.0.0.0 256 0 0 0",
            ScriptWhy::BadNumber,
        ),
        (
            "start area x 0.0.0.0 0.0.0.0 tcp 0 0 0",
            ScriptWhy::BadNumber,
        ),
        ("start area x 0.0.0.0 0.0.0.0 0 65536", ScriptWhy::BadNumber),
        (
            "start area x 0.0.0.0 0.0.0.0 0 0 65536 0",
            ScriptWhy::BadNumber,
        ),
        ("start area x 0.0.0.0 0.0.0.0 0 0 0", ScriptWhy::BadMove),
        ("start area x 0.0.0.0 0.0.0.0 0 0 0 2", ScriptWhy::BadNumber),
        ("start area x 0.0.0.0 0.0.0.0 0 0 0 0 0", ScriptWhy::BadMove),
        (
            "start area x 0.0.0.0 0.0.0.0 0 0 0 0 dscp",
            ScriptWhy::BadMove,
        ),
        (
            "start area x 0.0.0.0 0.0.0.0 0 0 0 0 dscp=",
            ScriptWhy::BadNumber,
        ),
        (
            "start area x 0.0.0.0 0.0.0.0 0 0 0 0 dscp=64 0",
            ScriptWhy::BadNumber,
        ),
        (
            "start area x 0.0.0.0 0.0.0.0 0 0 0 0 dscp=63 0",
            ScriptWhy::BadMove,
        ),
    ] {
        assert_eq!(rt;
            fault_of(rt.alloc(), &net, text),
            Some(ScriptFault { line: 1, why }),
            "{text:?}"
        );
    }
    Ok(())
}

/// Scripts whose later lines are no moves, with the faulty line and its fault.
const LATER_LINES: [(&str, u64, ScriptWhy); 11] = [
    (
        "start area x 0.0.0.0 0.0.0.0 0 0 0 0\n# caf\u{e9}\njump",
        2,
        ScriptWhy::NotText,
    ),
    (
        "start area x 0.0.0.0 0.0.0.0 0 0 0 0\njump\n\u{7f}",
        2,
        ScriptWhy::BadMove,
    ),
    (
        "start area x 0.0.0.0 0.0.0.0 0 0 0 0\npop\nstart area x 0.0.0.0 0.0.0.0 0 0 0 0",
        3,
        ScriptWhy::BadMove,
    ),
    (
        "start area x 0.0.0.0 0.0.0.0 0 0 0 0\npop 1",
        2,
        ScriptWhy::BadMove,
    ),
    (
        "start area x 0.0.0.0 0.0.0.0 0 0 0 0\n\n\nleave g e0",
        4,
        ScriptWhy::BadMove,
    ),
    (
        "start area x 0.0.0.0 0.0.0.0 0 0 0 0\nenter h e0 more",
        2,
        ScriptWhy::UnknownName,
    ),
    (
        "start area x 0.0.0.0 0.0.0.0 0 0 0 0\nenter g e0 more",
        2,
        ScriptWhy::BadMove,
    ),
    (
        "start area x 0.0.0.0 0.0.0.0 0 0 0 0\ncross x",
        2,
        ScriptWhy::UnknownName,
    ),
    (
        "start area x 0.0.0.0 0.0.0.0 0 0 0 0\ncross g",
        2,
        ScriptWhy::BadMove,
    ),
    (
        "start area x 0.0.0.0 0.0.0.0 0 0 0 0\npush",
        2,
        ScriptWhy::BadMove,
    ),
    (
        "start area x 0.0.0.0 0.0.0.0 0 0 0 0\npush h\npush",
        2,
        ScriptWhy::UnknownName,
    ),
];

#[test]
fn later_lines_are_moves(rt: HostRuntime) -> Result<(), Fail> {
    let net = network(rt.alloc())?;
    for (text, line, why) in LATER_LINES {
        assert_eq!(rt;
            fault_of(rt.alloc(), &net, text),
            Some(ScriptFault { line, why }),
            "{text:?}"
        );
    }
    Ok(())
}

// A start that no packet can have, and each move; with blanks, comments and leading zeros.
const TEXT: &[u8] = b"# a packet\r\n\
    \tstart  out h e1 10.1.0.255 010.2.0.1 047 00053 65535 1 dscp=046\r\n\
    leave\n\
    \n\
    enter g e1\n\
    #pop\n\
    pop\n\
    cross g e0\n\
    push t";

#[test]
fn a_script_is_read(rt: HostRuntime) -> Result<(), Fail> {
    let net = network(rt.alloc())?;
    let script = read_script(rt.alloc(), &net, TEXT)?;
    assert_eq!(rt; script.place, Place::AtOut(2));
    let plain = Header {
        src: 0x0a01_00ff,
        dst: 0x0a02_0001,
        proto: 47,
        a: 53,
        b: 65535,
        est: true,
        dscp: 46,
    };
    assert_eq!(rt; script.plain, plain);
    let moves = [
        Motion::Leave,
        Motion::Enter(1),
        Motion::Pop,
        Motion::Cross(0),
        Motion::Push(0),
    ];
    assert_eq!(rt; script.moves.as_slice(), moves.as_slice());
    Ok(())
}

// The place and the code point of a text's script.
fn start_of(alloc: Global, net: &Network, text: &str) -> Option<(Place, u8)> {
    match read_script(alloc, net, text.as_bytes()) {
        Ok(Script { place, plain, .. }) => Some((place, plain.dscp)),
        Err(_) => None,
    }
}

#[test]
fn places_are_areas_and_both_sides_of_interfaces(rt: HostRuntime) -> Result<(), Fail> {
    let net = network(rt.alloc())?;
    for (text, place, dscp) in [
        ("start area x 0.0.0.0 0.0.0.0 0 0 0 0", Place::AtArea(0), 0),
        (
            "start in g e1 0.0.0.0 0.0.0.0 0 0 0 0 dscp=0",
            Place::AtIn(1),
            0,
        ),
        (
            "start in h e1 0.0.0.0 0.0.0.0 0 0 0 0 dscp=63",
            Place::AtIn(2),
            63,
        ),
        ("start out g e0 0.0.0.0 0.0.0.0 0 0 0 0", Place::AtOut(0), 0),
    ] {
        assert_eq!(rt;
            start_of(rt.alloc(), &net, text),
            Some((place, dscp)),
            "{text:?}"
        );
    }
    Ok(())
}
