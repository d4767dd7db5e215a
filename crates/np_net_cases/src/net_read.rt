//! Texts of networks: read and written again, and refused.

use np_net_read::{NetError, NetFault, NetWhy, read_net};
use np_net_text::put_net;
use std::test::Fail;

/// Two areas, two ways between them, and an area that only the first device is on.
const TEXT: &[u8] = b"# a comment\n\
    area a 10.1.0.0/16\r\n\
    \tarea b 10.2.3.4,10.3.0.0/16 trusted\n\
    area c none\n\
    device d config d.cfg trusted\n\
    device e\n\
    interface d e0/0:1 a\n\
    interface d e1 b\n\
    interface e e0 b\n\
    interface e e1 c\n\
    free e e1 out\n\
    free d e1 in\n\
    depth 016\n\
    goal a c only or src b not dport 80\n\
    goal a b never and tcp dscp 046\n";

const CANONICAL: &[u8] = b"depth 16\n\
    area a 10.1.0.0/16\n\
    area b 10.2.3.4/32,10.3.0.0/16 trusted\n\
    area c none\n\
    device d config d.cfg trusted\n\
    device e\n\
    interface d e0/0:1 a\n\
    interface d e1 b\n\
    interface e e0 b\n\
    interface e e1 c\n\
    free d e1 in\n\
    free e e1 out\n\
    goal a c only or src 10.2.3.4/32,10.3.0.0/16 not dport 80\n\
    goal a b never and tcp dscp 46\n";

#[test]
fn a_text_is_written_in_its_canonical_form(rt: HostRuntime) -> Result<(), Fail> {
    for text in [TEXT, CANONICAL] {
        let net = read_net(rt.alloc(), text)?;
        let mut out = Vec::new(rt.alloc());
        put_net(rt.alloc(), &net, &mut out)?;
        assert_eq!(rt; out.as_slice(), CANONICAL);
    }
    Ok(())
}

#[test]
fn the_first_faulty_line_counts(rt: HostRuntime) -> Result<(), Fail> {
    for (text, line, why) in [
        ("depth 3\n# caf\u{e9}\n", 2, NetWhy::NotText),
        ("#\nfilter d\nfilter e\n", 2, NetWhy::UnknownStatement),
        ("\n\nsa x esp d e\n", 3, NetWhy::UnknownName),
        ("depth\n", 1, NetWhy::BadShape),
        ("device d trusted x\n", 1, NetWhy::BadShape),
        ("area 1a none\n", 1, NetWhy::BadName),
        ("depth 17\n", 1, NetWhy::BadNumber),
        ("area a 10.0.0.0/33\n", 1, NetWhy::BadNumber),
        ("area a none\narea a none\n", 2, NetWhy::Duplicate),
        ("device d\ninterface d e0 a\n", 2, NetWhy::UnknownName),
        ("area a none\ngoal a a never any\n", 2, NetWhy::SameArea),
        (
            "area a none\narea b none\ngoal a b never dscp 64\n",
            3,
            NetWhy::BadPred,
        ),
        (
            "area a none\narea b none\ngoal a b only src c\n",
            3,
            NetWhy::UnknownName,
        ),
    ] {
        match read_net(rt.alloc(), text.as_bytes()) {
            Err(NetError::Fault(fault)) => assert_eq!(rt;
                fault,
                NetFault { line, why },
                "{text:?}"
            ),
            Err(NetError::Memory(_)) => assert!(rt; false, "memory ran out at {text:?}"),
            Ok(_) => assert!(rt; false, "{text:?} is read"),
        }
    }
    Ok(())
}
