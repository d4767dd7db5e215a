//! Predicates, and for which headers they hold.

ghost use Rattle.std.specs.Prelude.{◌≡◌};
ghost use Rattle.np_pred.specs.Meaning.{has_ports, pred_holds};

use crate::dscp::DscpSpan;
use crate::shared_addresses::Addresses;
use np_space::{Header, Span, any_pattern_has};
use sqlite_items::Boxed;

/// A test of a packet's header, of the fields that filters see (Guttman and Herzog, Rigorous
/// automated network security management, 2005).
#[derive(Debug, Drop)]
pub enum Pred {
    /// Holds for every header.
    Any,
    /// Holds for no header.
    Nothing,
    /// The IP protocol has this number (IANA's protocol numbers).
    Proto(u8),
    /// The source address is in one of the patterns.
    Src(Addresses),
    /// The destination address is in one of the patterns.
    Dst(Addresses),
    /// TCP or UDP, with a source port in the span (RFC 9293, RFC 768).
    SrcPort(Span),
    /// TCP or UDP, with a destination port in the span (RFC 9293, RFC 768).
    DstPort(Span),
    /// ICMP, of this type (RFC 792).
    IcmpType(u8),
    /// ICMP, with this code (RFC 792).
    IcmpCode(u8),
    /// The DSCP field is in the span (RFC 2474).
    Dscp(DscpSpan),
    /// The packet belongs to an established TCP connection: ACK or RST is set.
    Established,
    /// The operand doesn't hold.
    Not(Boxed<Pred>),
    /// Both operands hold.
    And(Boxed<Pred>, Boxed<Pred>),
    /// An operand holds.
    Or(Boxed<Pred>, Boxed<Pred>),
}

fn has_ports(header: &Header) -> bool
    ensures { result ≡ has_ports header.now }
{
    header.proto == 6 || header.proto == 17
}

impl Pred {
    /// Whether the predicate holds for the header.
    pub fn holds(&self, header: &Header) -> bool
        ensures { result ≡ pred_holds self.now header.now }
    {
        match self {
            Pred::Any => true,
            Pred::Nothing => false,
            Pred::Proto(number) => header.proto == *number,
            Pred::Src(patterns) => any_pattern_has(patterns.as_slice(), header.src),
            Pred::Dst(patterns) => any_pattern_has(patterns.as_slice(), header.dst),
            Pred::SrcPort(ports) => has_ports(header) && ports.has(header.a),
            Pred::DstPort(ports) => has_ports(header) && ports.has(header.b),
            Pred::IcmpType(number) => header.proto == 1 && header.a == u16::from(*number),
            Pred::IcmpCode(number) => header.proto == 1 && header.b == u16::from(*number),
            Pred::Dscp(span) => span.has(header.dscp),
            Pred::Established => header.est,
            Pred::Not(operand) => !operand.get().holds(header),
            Pred::And(first, second) => first.get().holds(header) && second.get().holds(header),
            Pred::Or(first, second) => first.get().holds(header) || second.get().holds(header),
        }
    }
}
