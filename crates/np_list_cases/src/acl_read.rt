//! Configurations and the faults of their lines.

use np_acl::Way;
use np_acl_read::{
    Config, ConfigError, ConfigFault, ConfigWhy, Declared, SharedConfig, empty_config,
    line_statement, read_config,
};
use np_space::{Header, Span};
use np_text::Name;
use std::alloc::{AllocError, Global};
use std::process::Abort;
use std::test::Fail;

/// The section of an interface.
const SECTION: &str = "interface e0\n ip access-group 100 in\n";

/// Lines after it, the number of the first faulty one, and its fault.
const FAULTS: [(&str, u64, ConfigWhy); 50] = [
    ("interface", 3, ConfigWhy::BadEntry),
    ("access-list 100", 3, ConfigWhy::BadEntry),
    ("access-list 100 ack", 3, ConfigWhy::BadEntry),
    ("access-list 100 dynamic x", 3, ConfigWhy::Unsupported),
    ("access-list 100 deny tcp any", 3, ConfigWhy::BadEntry),
    (
        "access-list 100 permit ttl any any",
        3,
        ConfigWhy::Unsupported,
    ),
    (
        "access-list 100 permit 256 any any",
        3,
        ConfigWhy::BadNumber,
    ),
    (
        "access-list 100 permit nosuch any any",
        3,
        ConfigWhy::UnknownName,
    ),
    (
        "access-list 100 permit ip any any eq 80",
        3,
        ConfigWhy::BadEntry,
    ),
    (
        "access-list 100 permit tcp any any fragments",
        3,
        ConfigWhy::Unsupported,
    ),
    (
        "access-list 100 permit tcp any any eq nosuch",
        3,
        ConfigWhy::UnknownName,
    ),
    (
        "access-list 100 permit udp any any eq www",
        3,
        ConfigWhy::UnknownName,
    ),
    (
        "access-list 100 permit tcp any any eq 65536",
        3,
        ConfigWhy::BadNumber,
    ),
    (
        "access-list 100 permit tcp any any range 30 20",
        3,
        ConfigWhy::BadRange,
    ),
    (
        "access-list 100 permit tcp any any eq 1 2 3 4 5 6 7 8 9 10 99999",
        3,
        ConfigWhy::BadEntry,
    ),
    (
        "access-list 100 permit tcp any any eq 1 2 3 4 5 6 7 8 9 10 ack",
        3,
        ConfigWhy::Unsupported,
    ),
    (
        "access-list 100 permit icmp any any established",
        3,
        ConfigWhy::UnknownName,
    ),
    (
        "access-list 100 permit icmp any any 8 256",
        3,
        ConfigWhy::BadNumber,
    ),
    (
        "access-list 100 permit udp any any established",
        3,
        ConfigWhy::BadEntry,
    ),
    ("access-list 10 permit host", 3, ConfigWhy::BadEntry),
    ("access-list 10 permit 10.0.0.1 any", 3, ConfigWhy::BadEntry),
    ("ip access-group", 3, ConfigWhy::BadEntry),
    ("ip access-group 100 sideways x", 3, ConfigWhy::BadEntry),
    ("ip access-group 100 in x", 3, ConfigWhy::Unsupported),
    ("ip access-list extended", 3, ConfigWhy::BadEntry),
    ("ip access-list standard A B", 3, ConfigWhy::BadEntry),
    (
        "ip access-list extended L\nip access-group L in",
        4,
        ConfigWhy::BadEntry,
    ),
    ("no access-list 100", 3, ConfigWhy::Negated),
    ("no ip access-list extended L", 3, ConfigWhy::Negated),
    ("no ip access-group 100 in", 3, ConfigWhy::Negated),
    (
        "ip access-list extended L\nno 99999999999",
        4,
        ConfigWhy::Negated,
    ),
    ("ip access-list extended L\n5", 4, ConfigWhy::BadEntry),
    (
        "ip access-list extended L\n5 evaluate x",
        4,
        ConfigWhy::Unsupported,
    ),
    (
        "ip access-list extended L\n0 permit ip any any",
        4,
        ConfigWhy::BadNumber,
    ),
    (
        "ip access-list extended L\n20 permit ip any any\n20 deny ip",
        5,
        ConfigWhy::DuplicateSequence,
    ),
    (
        "ip access-list extended L\n2147483648 permit ip any any",
        4,
        ConfigWhy::BadNumber,
    ),
    (
        "ip access-list extended L\n2147483638 permit ip any any\ndeny ip any any",
        5,
        ConfigWhy::BadNumber,
    ),
    (
        "access-list 100 permit ip any any dscp 64",
        3,
        ConfigWhy::BadNumber,
    ),
    (
        "access-list 100 permit ip any any dscp gold",
        3,
        ConfigWhy::UnknownName,
    ),
    (
        "access-list 100 permit ip any any dscp dscp",
        3,
        ConfigWhy::UnknownName,
    ),
    (
        "access-list 100 permit ip any any dscp ef precedence 5",
        3,
        ConfigWhy::BadEntry,
    ),
    (
        "access-list 100 permit ip any any precedence 5 dscp 99",
        3,
        ConfigWhy::BadEntry,
    ),
    (
        "access-list 100 permit ip any any dscp",
        3,
        ConfigWhy::BadEntry,
    ),
    (
        "access-list 100 permit ip any any precedence 8",
        3,
        ConfigWhy::BadNumber,
    ),
    (
        "access-list 100 permit ip any any precedence ef",
        3,
        ConfigWhy::UnknownName,
    ),
    (
        "access-list 100 permit ip any any dscp tos",
        3,
        ConfigWhy::Unsupported,
    ),
    (
        "access-list 100 permit ip any any log precedence",
        3,
        ConfigWhy::BadEntry,
    ),
    ("access-list 10 permit any dscp ef", 3, ConfigWhy::BadEntry),
    (
        "access-list 100 permit dscp any any",
        3,
        ConfigWhy::UnknownName,
    ),
    (
        "access-list 100 permit tcp any any dscp ef ack",
        3,
        ConfigWhy::Unsupported,
    ),
];

/// Lines after it, a list, and whether the list permits a packet of this source and protocol.
const ANSWERS: [(&str, &str, u32, u8, bool); 20] = [
    ("hostname r\n!\n no shutdown\n\u{fc}", "100", 0, 6, false),
    ("access-list 0100 permit tcp any any log", "100", 0, 6, true),
    ("access-list 100 permit 17 any any", "100", 0, 6, false),
    ("access-list 100 remark nothing here", "100", 0, 6, true),
    (
        "access-list 10 permit 10.0.0.0 0.0.255.255 log-input",
        "10",
        0x0a00_0101,
        6,
        true,
    ),
    (
        "access-list 10 permit 10.0.0.0 0.0.255.255",
        "10",
        0x0a01_0101,
        6,
        false,
    ),
    (
        "access-list 10 permit 10.0.0.7",
        "10",
        0x0a00_0007,
        17,
        true,
    ),
    ("ip access-list extended L", "L", 0, 6, true),
    (
        "ip access-list extended L\n 20 permit ip any any\n 10 deny tcp any any",
        "L",
        0,
        6,
        false,
    ),
    (
        "ip access-list extended L\n 20 permit ip any any\n 10 deny tcp any any",
        "L",
        0,
        17,
        true,
    ),
    (
        "ip access-list extended L\n 20 permit tcp any any\n 5 remark x\n deny ip any any",
        "L",
        0,
        6,
        true,
    ),
    (
        "ip access-list extended L\n description x\n deny ip any any",
        "L",
        0,
        6,
        true,
    ),
    (
        "access-list 100 permit tcp any neq 0 any",
        "100",
        0,
        6,
        false,
    ),
    (
        "access-list 100 permit tcp any lt 1 any range 0 0",
        "100",
        0,
        6,
        true,
    ),
    (
        "access-list 100 permit tcp any eq 1 2 3 4 5 6 7 8 9 0 any log",
        "100",
        0,
        6,
        true,
    ),
    (
        "access-list 100 permit icmp any any echo-reply",
        "100",
        0,
        1,
        true,
    ),
    (
        "access-list 100 permit icmp any any echo log",
        "100",
        0,
        1,
        false,
    ),
    ("access-list 100 permit icmp any any 0 0", "100", 0, 1, true),
    (
        "access-list 199 permit tcp any any\naccess-list 200 permit ip any any",
        "199",
        0,
        17,
        false,
    ),
    (
        "access-list 2699 permit tcp any any\naccess-list 1300 deny any",
        "2699",
        0,
        6,
        true,
    ),
];

/// Options of an entry, and the code points that it names.
const CODE_POINTS: [(&str, u16, u16); 7] = [
    ("deny ip any any dscp ef", 46, 46),
    ("permit ip any any precedence critical", 40, 47),
    ("permit tcp any any established precedence 0 log", 0, 7),
    ("permit tcp any any log dscp 063 established", 63, 63),
    ("permit icmp any any dscp af11", 10, 10),
    ("permit icmp any any 8 dscp cs7 log-input", 56, 56),
    ("permit udp any any eq 53", 0, 63),
];

/// Lines that apply lists: at `e0` list 100 is applied inward before them.
const GROUPS: &str =
    " ip access-group A out\ninterface e1\n ip access-group B in\ninterface e0\n ip access-group C in";

/// Interfaces and ways, and the list that counts there.
const APPLIED: [(&str, Way, Option<&str>); 5] = [
    ("e0", Way::Inward, Some("C")),
    ("e0", Way::Outward, Some("A")),
    ("e1", Way::Inward, Some("B")),
    ("e1", Way::Outward, None),
    ("e2", Way::Inward, None),
];

/// Three lists, of which the second has an entry.
const THREE_LISTS: &str =
    "ip access-list extended L\naccess-list 7 permit any\nip access-list standard A";

/// A header without ports and flag.
fn header(src: u32, proto: u8) -> Header {
    Header {
        src,
        proto,
        ..Header::zeros()
    }
}

/// Reads the section of an interface and then these lines.
fn read_after(alloc: Global, lines: &str) -> Result<Config, ConfigError> {
    let text = format!(in alloc; "{SECTION}{lines}\n")?;
    read_config(alloc, text.as_bytes())
}

/// Expects that a line of this number is refused.
fn expect_fault<R: Abort>(rt: &R, alloc: Global, lines: &str, line: u64, why: ConfigWhy) {
    match read_after(alloc, lines) {
        Err(ConfigError::Fault(fault)) => {
            assert_eq!(rt; fault, ConfigFault { line, why }, "the fault of {lines}");
        }
        _ => panic!(rt; "no fault of {lines}"),
    }
}

/// Whether the list of this name permits a header; false where there is no such list.
fn permits(
    alloc: Global,
    config: &Config,
    name: &str,
    header: &Header,
) -> Result<bool, AllocError> {
    let name = Name::of(alloc, name.as_bytes())?;
    match config.lists.named(&name) {
        Some(list) => Ok(list.permits(header)),
        None => Ok(false),
    }
}

/// The code points of the first entry of list 100.
fn code_points(alloc: Global, config: &Config) -> Result<Option<Span>, AllocError> {
    let name = Name::of(alloc, b"100")?;
    match config.lists.named(&name) {
        Some(list) => Ok(list.as_slice().first().map(|entry| entry.dscp)),
        None => Ok(None),
    }
}

#[test]
fn lines_with_faults(rt: HostRuntime) {
    for (lines, line, why) in FAULTS {
        expect_fault(&rt, rt.alloc(), lines, line, why);
    }
}

/// Whether the list of this name permits a header, where a text has these lines.
fn answer(alloc: Global, lines: &str, list: &str, header: &Header) -> Result<bool, ConfigError> {
    let config = read_after(alloc, lines)?;
    let permitted = permits(alloc, &config, list, header)?;
    Ok(permitted)
}

#[test]
fn lists_with_their_entries(rt: HostRuntime) -> Result<(), Fail> {
    for (lines, list, src, proto, permitted) in ANSWERS {
        let found = answer(rt.alloc(), lines, list, &header(src, proto))?;
        assert_eq!(rt; found, permitted, "{lines}");
    }
    Ok(())
}

#[test]
fn code_points_of_entries(rt: HostRuntime) -> Result<(), Fail> {
    for (entry, low, high) in CODE_POINTS {
        let line = format!(in rt.alloc(); "access-list 100 {entry}")?;
        let config = read_after(rt.alloc(), line.as_str())?;
        assert_eq!(rt;
            code_points(rt.alloc(), &config)?,
            Span::between(low, high),
            "{entry}"
        );
    }
    Ok(())
}

/// Whether this list is applied at an interface, or none is where no list is given.
fn is_applied(config: &Config, interface: &Name, way: Way, list: Option<&str>) -> bool {
    match (config.groups.list_at(interface, way), list) {
        (Some(name), Some(list)) => name.bytes() == list.as_bytes(),
        (None, None) => true,
        _ => false,
    }
}

#[test]
fn the_last_group_counts(rt: HostRuntime) -> Result<(), Fail> {
    let config = read_after(rt.alloc(), GROUPS)?;
    assert_eq!(rt; config.groups.count(Way::Inward), 2);
    assert_eq!(rt; config.groups.count(Way::Outward), 1);
    for (interface, way, list) in APPLIED {
        let name = Name::of(rt.alloc(), interface.as_bytes())?;
        assert_eq!(rt; is_applied(&config, &name, way, list), true, "{interface}");
    }
    Ok(())
}

/// Whether the list at this place has this name.
fn is_named(config: &Config, place: usize, name: &str) -> bool {
    match config.lists.at(place) {
        Some((other, _)) => other.bytes() == name.as_bytes(),
        None => false,
    }
}

/// Expects that the lists have these names, in this order.
fn expect_names<R: Abort>(rt: &R, config: &Config, names: &[&str]) {
    assert_eq!(rt; config.lists.count(), names.len());
    for (place, name) in names.iter().enumerate() {
        assert_eq!(rt; is_named(config, place, name), true, "{name} at {place}");
    }
}

#[test]
fn lists_in_order(rt: HostRuntime) -> Result<(), Fail> {
    let mut config = read_after(rt.alloc(), THREE_LISTS)?;
    expect_names(&rt, &config, &["L", "7", "A"]);
    config.lists.sort_by_name()?;
    expect_names(&rt, &config, &["7", "A", "L"]);
    Ok(())
}

#[test]
fn nothing_is_in_an_empty_configuration(rt: HostRuntime) {
    let empty = empty_config(rt.alloc());
    assert_eq!(rt; empty.lists.count(), 0);
    assert_eq!(rt; empty.groups.count(Way::Inward), 0);
    assert_eq!(rt; empty.groups.count(Way::Outward), 0);
}

#[test]
fn as_many_entries_as_there_may_be(rt: HostRuntime) -> Result<(), Fail> {
    let line = "access-list 100 permit tcp any any\n";
    let text = line.repeat(rt.alloc(), 20_000)?;
    let config = read_config(rt.alloc(), text.as_bytes())?;
    assert_eq!(rt; permits(rt.alloc(), &config, "100", &header(0, 6))?, true);
    let text = line.repeat(rt.alloc(), 20_001)?;
    let fault = ConfigFault {
        line: 20_001,
        why: ConfigWhy::TooManyEntries,
    };
    match read_config(rt.alloc(), text.as_bytes()) {
        Err(ConfigError::Fault(other)) => assert_eq!(rt; other, fault),
        _ => panic!(rt; "no fault"),
    }
    Ok(())
}

/// Adds what a line declares.
fn declare_line(alloc: Global, declared: &mut Declared, line: &str) -> Result<(), AllocError> {
    if let Ok(Some(statement)) = line_statement(alloc, declared, line.as_bytes()) {
        declared.extend(alloc, statement)?;
    }
    Ok(())
}

/// What lines declare, one after another.
fn declared_lines(alloc: Global) -> Result<Declared, AllocError> {
    let mut declared = Declared::new(alloc);
    for line in [
        "access-list 7 permit any",
        "ip access-list extended L",
        " permit ip any any",
        " deny udp any any",
    ] {
        declare_line(alloc, &mut declared, line)?;
    }
    Ok(declared)
}

#[test]
fn entries_line_by_line(rt: HostRuntime) -> Result<(), Fail> {
    let declared = declared_lines(rt.alloc())?;
    for (name, count) in [("7", Some(1)), ("L", Some(2)), ("M", None)] {
        let name = Name::of(rt.alloc(), name.as_bytes())?;
        assert_eq!(rt; declared.entry_count(&name), count);
    }
    Ok(())
}

/// Text with three lists and groups, some of them with entries.
fn lists_and_groups(alloc: Global) -> Result<Config, ConfigError> {
    let text = format!(in alloc;
        "access-list 100 deny udp any any eq 53\n{THREE_LISTS}\n{SECTION}{GROUPS}\n"
    )?;
    read_config(alloc, text.as_bytes())
}

/// Two shares of one configuration.
fn shares(alloc: Global) -> Result<(SharedConfig, SharedConfig), Fail> {
    let one = SharedConfig::of(alloc, lists_and_groups(alloc)?)?;
    let other = one.share()?;
    Ok((one, other))
}

#[test]
fn a_share_has_the_same_lists(rt: HostRuntime) -> Result<(), Fail> {
    let (one, other) = shares(rt.alloc())?;
    drop(one);
    expect_names(&rt, other.get(), &["100", "L", "7", "A"]);
    let udp = Header {
        b: 53,
        ..header(0, 17)
    };
    assert_eq!(rt; permits(rt.alloc(), other.get(), "100", &udp)?, false);
    assert_eq!(rt; permits(rt.alloc(), other.get(), "7", &udp)?, true);
    Ok(())
}

#[test]
fn a_share_has_the_same_groups(rt: HostRuntime) -> Result<(), Fail> {
    let (one, other) = shares(rt.alloc())?;
    for (interface, way, list) in APPLIED {
        let name = Name::of(rt.alloc(), interface.as_bytes())?;
        assert_eq!(rt;
            is_applied(one.get(), &name, way, list),
            true,
            "{interface}"
        );
        assert_eq!(rt;
            is_applied(other.get(), &name, way, list),
            true,
            "{interface}"
        );
    }
    Ok(())
}
