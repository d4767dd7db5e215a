//! The IPsec part of networks' texts: read and written again, and refused.

use np_net_read::{NetError, NetFault, NetWhy, read_net};
use np_net_text::put_net;
use std::alloc::{AllocError, Global};
use std::test::Fail;

/// All six statements, in an order of their own.
const TEXT: &[u8] = b"area in 10.0.0.0/8 trusted\n\
    area out none\n\
    device g trusted\n\
    device h config h.cfg\n\
    interface g e0 in\n\
    interface g e1 out\n\
    interface h e0 out\n\
    sa s1 esp g h\n\
    conf in any\n\
    sa s2 ah h g\n\
    outrule g e1 protect s1 plain src in\n\
    inrule g e1 bypass popped s2 every\n\
    pop g e1 s2\n\
    sa s3 esp-enc h h\n\
    sa s4 esp-null g h\n\
    outrule g e1 discard every\n\
    outrule g e0 bypass under s4\n\
    auth out in tcp\n\
    inrule g e1 discard anymark plain any\n\
    pop h e0 s3\n\
    inrule h e0 discard unmarked under s3\n\
    pop h e0 s1\n\
    goal in out never nothing\n\
    auth in in not src out\n";

const CANONICAL: &[u8] = b"depth 8\n\
    area in 10.0.0.0/8 trusted\n\
    area out none\n\
    device g trusted\n\
    device h config h.cfg\n\
    interface g e0 in\n\
    interface g e1 out\n\
    interface h e0 out\n\
    goal in out never nothing\n\
    sa s1 esp g h\n\
    sa s2 ah h g\n\
    sa s3 esp-enc h h\n\
    sa s4 esp-null g h\n\
    outrule g e0 bypass under s4\n\
    pop g e1 s2\n\
    inrule g e1 bypass popped s2 every\n\
    inrule g e1 discard anymark plain any\n\
    outrule g e1 protect s1 plain src 10.0.0.0/8\n\
    outrule g e1 discard every\n\
    pop h e0 s3\n\
    pop h e0 s1\n\
    inrule h e0 discard unmarked under s3\n\
    conf in any\n\
    auth out in tcp\n\
    auth in in not src none\n";

#[test]
fn all_statements_are_written_in_their_canonical_form(rt: HostRuntime) -> Result<(), Fail> {
    for text in [TEXT, CANONICAL] {
        let net = read_net(rt.alloc(), text)?;
        let mut out = Vec::new(rt.alloc());
        put_net(rt.alloc(), &net, &mut out)?;
        assert_eq!(rt; out.as_slice(), CANONICAL);
    }
    Ok(())
}

/// A network of eleven lines. The association `s` leads from `d` to `e`, `t` back, and `u` from `d`
/// to itself.
const NET: &[u8] = b"area a none\n\
    area b none\n\
    device d\n\
    device e\n\
    interface d x a\n\
    interface d y b\n\
    interface e x b\n\
    sa s esp d e\n\
    sa t ah e d\n\
    sa u esp-null d d\n\
    pop d x t\n";

/// Lines that may stand after those of the network.
const GOOD: [&str; 10] = [
    "sa v esp-enc e e",
    "pop d x u",
    "pop d y t",
    "pop e x s",
    "inrule d x bypass popped u under s",
    "inrule e x discard unmarked under u",
    "outrule d y protect u every",
    "outrule d y protect s plain dst a",
    "auth a a any",
    "conf b not src a",
];

/// Associations and pop rules that are refused after those of the network, and why.
const FAULTY: [(&str, NetWhy); 26] = [
    ("esp v d e", NetWhy::UnknownStatement),
    ("sa", NetWhy::BadShape),
    ("sa 1s esp d e", NetWhy::BadName),
    ("sa none ah d e", NetWhy::BadName),
    ("sa s", NetWhy::Duplicate),
    ("sa v", NetWhy::BadShape),
    ("sa v gre d e", NetWhy::BadShape),
    ("sa v ESP f e", NetWhy::BadShape),
    ("sa v esp", NetWhy::BadShape),
    ("sa v esp f", NetWhy::UnknownName),
    ("sa v esp d", NetWhy::BadShape),
    ("sa v esp d f", NetWhy::UnknownName),
    ("sa v ah d e x", NetWhy::BadShape),
    ("pop", NetWhy::BadShape),
    ("pop f", NetWhy::UnknownName),
    ("pop d", NetWhy::BadShape),
    ("pop d z t", NetWhy::UnknownName),
    ("pop e y s", NetWhy::UnknownName),
    ("pop d y", NetWhy::BadShape),
    ("pop d y v", NetWhy::UnknownName),
    ("pop d y s", NetWhy::WrongEnd),
    ("pop d x s more", NetWhy::WrongEnd),
    ("pop e x t", NetWhy::WrongEnd),
    ("pop d x t", NetWhy::Duplicate),
    ("pop d x t more", NetWhy::Duplicate),
    ("pop d x u more", NetWhy::BadShape),
];

/// Rules and goals that are refused after those of the network, and why.
const FAULTY_RULES: [(&str, NetWhy); 32] = [
    ("inrule d x", NetWhy::BadShape),
    ("inrule d z bypass unmarked every", NetWhy::UnknownName),
    ("inrule d x protect s every", NetWhy::BadShape),
    ("inrule d x bypass", NetWhy::BadShape),
    ("inrule d x bypass marked every", NetWhy::BadShape),
    ("inrule d x bypass popped", NetWhy::BadShape),
    ("inrule d x bypass popped v every", NetWhy::UnknownName),
    ("inrule d x bypass popped s plain", NetWhy::WrongEnd),
    ("inrule e x discard popped t every", NetWhy::WrongEnd),
    ("inrule d x discard popped t", NetWhy::BadShape),
    ("inrule d x discard unmarked any", NetWhy::BadShape),
    ("inrule d x discard anymark plain", NetWhy::BadPred),
    ("inrule d x discard anymark plain any any", NetWhy::BadPred),
    ("inrule d x bypass anymark plain src c", NetWhy::UnknownName),
    ("inrule d x bypass unmarked under", NetWhy::BadShape),
    ("inrule d x bypass unmarked under v", NetWhy::UnknownName),
    ("inrule d x bypass unmarked under s x", NetWhy::BadShape),
    ("inrule d x bypass unmarked every x", NetWhy::BadShape),
    ("outrule d x", NetWhy::BadShape),
    ("outrule f x bypass every", NetWhy::UnknownName),
    ("outrule d x unmarked every", NetWhy::BadShape),
    ("outrule d x protect", NetWhy::BadShape),
    ("outrule d x protect v every", NetWhy::UnknownName),
    ("outrule d x protect t plain", NetWhy::WrongEnd),
    ("outrule e x protect s every", NetWhy::WrongEnd),
    ("outrule d x discard", NetWhy::BadShape),
    ("auth a", NetWhy::BadShape),
    ("auth a c any", NetWhy::UnknownName),
    ("auth a b", NetWhy::BadPred),
    ("conf", NetWhy::BadShape),
    ("conf c", NetWhy::UnknownName),
    ("conf a dport 65536", NetWhy::BadPred),
];

/// What is wrong with these lines after those of the network, if anything is.
fn fault_after(alloc: Global, lines: &str) -> Result<Option<NetFault>, AllocError> {
    let mut text = Vec::new(alloc);
    text.extend_from_slice(NET)?;
    text.extend_from_slice(lines.as_bytes())?;
    match read_net(alloc, text.as_slice()) {
        Ok(_) => Ok(None),
        Err(NetError::Fault(fault)) => Ok(Some(fault)),
        Err(NetError::Memory(error)) => Err(error),
    }
}

#[test]
fn good_lines_are_read(rt: HostRuntime) -> Result<(), Fail> {
    for line in GOOD {
        assert_eq!(rt; fault_after(rt.alloc(), line)?, None, "{line}");
    }
    Ok(())
}

#[test]
fn faulty_associations_and_pop_rules_are_refused(rt: HostRuntime) -> Result<(), Fail> {
    for (line, why) in FAULTY {
        let fault = NetFault { line: 12, why };
        assert_eq!(rt; fault_after(rt.alloc(), line)?, Some(fault), "{line}");
    }
    Ok(())
}

#[test]
fn faulty_rules_and_goals_are_refused(rt: HostRuntime) -> Result<(), Fail> {
    for (line, why) in FAULTY_RULES {
        let fault = NetFault { line: 12, why };
        assert_eq!(rt; fault_after(rt.alloc(), line)?, Some(fault), "{line}");
    }
    Ok(())
}

/// The rules of all interfaces are 4,096 at most, and the network has one.
#[test]
fn a_rule_too_many(rt: HostRuntime) -> Result<(), Fail> {
    let rules = "outrule d x bypass every\n".repeat(rt.alloc(), 4096)?;
    let fault = NetFault {
        line: 4107,
        why: NetWhy::TooMany,
    };
    assert_eq!(rt; fault_after(rt.alloc(), rules.as_str())?, Some(fault));
    Ok(())
}
