//! The names and numbers of protocols, ports and ICMP messages in access lists.

ghost use Rattle.std.specs.Prelude.{◌≡◌, map};
ghost use Rattle.np_acl.specs.Tables as tables;

use crate::kinds::PortNames;
use np_space::Span;
use np_text::number;

/// The protocols by name. `ahp` is the authentication header.
const PROTOCOLS: [(&[u8], u16); 11] = [
    (b"icmp", 1),
    (b"igmp", 2),
    (b"ipinip", 4),
    (b"tcp", 6),
    (b"udp", 17),
    (b"gre", 47),
    (b"esp", 50),
    (b"ahp", 51),
    (b"eigrp", 88),
    (b"ospf", 89),
    (b"pim", 103),
];

/// The ports of TCP by name.
const TCP_PORTS: [(&[u8], u16); 22] = [
    (b"ftp-data", 20),
    (b"ftp", 21),
    (b"telnet", 23),
    (b"smtp", 25),
    (b"whois", 43),
    (b"tacacs", 49),
    (b"domain", 53),
    (b"gopher", 70),
    (b"finger", 79),
    (b"www", 80),
    (b"pop2", 109),
    (b"pop3", 110),
    (b"sunrpc", 111),
    (b"ident", 113),
    (b"nntp", 119),
    (b"bgp", 179),
    (b"irc", 194),
    (b"exec", 512),
    (b"login", 513),
    (b"cmd", 514),
    (b"lpd", 515),
    (b"uucp", 540),
];

/// The ports of UDP by name.
const UDP_PORTS: [(&[u8], u16); 15] = [
    (b"domain", 53),
    (b"bootps", 67),
    (b"bootpc", 68),
    (b"tftp", 69),
    (b"sunrpc", 111),
    (b"ntp", 123),
    (b"netbios-ns", 137),
    (b"netbios-dgm", 138),
    (b"netbios-ss", 139),
    (b"snmp", 161),
    (b"snmptrap", 162),
    (b"isakmp", 500),
    (b"syslog", 514),
    (b"rip", 520),
    (b"non500-isakmp", 4500),
];

/// The types of ICMP by name, each with the code where the name has one.
const ICMP: [(&[u8], (u8, Option<u8>)); 13] = [
    (b"echo-reply", (0, None)),
    (b"unreachable", (3, None)),
    (b"net-unreachable", (3, Some(0))),
    (b"host-unreachable", (3, Some(1))),
    (b"port-unreachable", (3, Some(3))),
    (b"packet-too-big", (3, Some(4))),
    (b"administratively-prohibited", (3, Some(13))),
    (b"source-quench", (4, None)),
    (b"redirect", (5, None)),
    (b"echo", (8, None)),
    (b"time-exceeded", (11, None)),
    (b"ttl-exceeded", (11, Some(0))),
    (b"parameter-problem", (12, None)),
];

/// The code points of differentiated services by name: those of class selectors, assured forwarding
/// and expedited forwarding.
const DSCP: [(&[u8], u8); 21] = [
    (b"default", 0),
    (b"cs1", 8),
    (b"af11", 10),
    (b"af12", 12),
    (b"af13", 14),
    (b"cs2", 16),
    (b"af21", 18),
    (b"af22", 20),
    (b"af23", 22),
    (b"cs3", 24),
    (b"af31", 26),
    (b"af32", 28),
    (b"af33", 30),
    (b"cs4", 32),
    (b"af41", 34),
    (b"af42", 36),
    (b"af43", 38),
    (b"cs5", 40),
    (b"ef", 46),
    (b"cs6", 48),
    (b"cs7", 56),
];

/// The precedences by name.
const PRECEDENCES: [(&[u8], u8); 8] = [
    (b"routine", 0),
    (b"priority", 1),
    (b"immediate", 2),
    (b"flash", 3),
    (b"flash-override", 4),
    (b"critical", 5),
    (b"internet", 6),
    (b"network", 7),
];

/// What the table gives for the word.
fn named<T: Copy>(mut table: &[(&[u8], T)], word: &[u8]) -> Option<T>
    ensures { result ≡ tables.named (map (λ entry. (entry.0.now, entry.1)) table.entry.now) word.now }
{
    while let [entry, rest @ ..] = table {
        if word == entry.0 {
            return Some(entry.1);
        }
        table = rest;
    }
    None
}

/// A number up to `max`, or what the table gives for the word.
fn number_or_named(max: u16, table: &[(&[u8], u16)], word: &[u8]) -> Option<u16>
    ensures { result ≡ tables.number_or_named max (map (λ entry. (entry.0.now, entry.1)) table.now) word.now }
{
    match number(word, u64::from(max)) {
        Some(value) => Some(value as u16),
        None => named(table, word),
    }
}

/// The same of numbers that one byte holds.
fn octet_or_named(max: u8, table: &[(&[u8], u8)], word: &[u8]) -> Option<u8>
    ensures { result ≡ tables.number_or_named max (map (λ entry. (entry.0.now, entry.1)) table.now) word.now }
{
    match number(word, u64::from(max)) {
        Some(value) => Some(value as u8),
        None => named(table, word),
    }
}

/// The protocols that a word of an access list gives: all from 0 to 255 for `ip`, and one for a
/// number up to 255 and for a name. `None` for any other word.
///
/// The protocols' numbers are IANA's, and the names those of Cisco IOS; which of them the table has
/// is this project's choice.
#[tactic(auto, unfolding(crate::specs::Tables::protocol_of, crate::specs::Tables::protocol_table))]
pub fn protocol_of(word: &[u8]) -> Option<Span>
    ensures { result ≡ tables.protocol_of word.now }
{
    if word == b"ip".as_slice() {
        return Some(Span::from_to(0, 255));
    }
    let protocol = number_or_named(255, &PROTOCOLS, word)?;
    Some(Span::only(protocol))
}

/// The port that a word of an access list gives: a number up to 65535, or one of these names.
/// `None` for any other word.
///
/// The ports' numbers are IANA's, and the names those of Cisco IOS; which of them the tables have is
/// this project's choice.
#[tactic(auto, unfolding(crate::specs::Tables::port_of, crate::specs::Tables::tcp_table, crate::specs::Tables::udp_table))]
pub fn port_of(word: &[u8], names: PortNames) -> Option<u16>
    ensures { result ≡ tables.port_of word.now names }
{
    match names {
        PortNames::Tcp => number_or_named(65535, &TCP_PORTS, word),
        PortNames::Udp => number_or_named(65535, &UDP_PORTS, word),
    }
}

/// The ICMP type that a name gives in an access list, and the code where the name has one. `None`
/// for any other word, a number among them.
///
/// The types' and the codes' numbers are those of RFC 792 and of IANA, and the names those of Cisco
/// IOS; which of them the table has, and which of these have a code, is this project's choice.
#[tactic(auto, unfolding(crate::specs::Tables::icmp_of, crate::specs::Tables::icmp_table))]
pub fn icmp_of(word: &[u8]) -> Option<(u8, Option<u8>)>
    ensures { result ≡ tables.icmp_of word.now }
{
    named(&ICMP, word)
}

/// The code point of differentiated services (DSCP) that a word of an access list gives: a number up
/// to 63, or a name. `None` for any other word.
///
/// The names are `default`, `cs1` to `cs7` (RFC 2474), `af11` to `af43` (RFC 2597) and `ef` (RFC
/// 3246); which names the table has is this project's choice.
#[tactic(auto, unfolding(crate::specs::Tables::dscp_of, crate::specs::Tables::dscp_table))]
pub fn dscp_of(word: &[u8]) -> Option<u8>
    ensures { result ≡ tables.dscp_of word.now }
{
    octet_or_named(63, &DSCP, word)
}

/// The precedence that a word of an access list gives: a number up to 7, or a name. `None` for any
/// other word.
///
/// The precedences are those of RFC 791, section 3.1: the upper three bits of the DSCP. Their names
/// are those of Cisco IOS; which names the table has is this project's choice.
#[tactic(auto, unfolding(crate::specs::Tables::precedence_of, crate::specs::Tables::precedence_table))]
pub fn precedence_of(word: &[u8]) -> Option<u8>
    ensures { result ≡ tables.precedence_of word.now }
{
    octet_or_named(7, &PRECEDENCES, word)
}
