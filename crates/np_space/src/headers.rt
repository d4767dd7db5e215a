//! A packet's header: which are valid, and their order.

ghost use Rattle.std.specs.Prelude.{◌≡◌};
ghost use Rattle.np_space.specs.Header.{is_valid_header, header_order, numbers_fit};

use std::cmp::Ordering;

/// The header of a packet, as filters see it: fields of IPv4 (RFC 791), of TCP (RFC 9293), of UDP
/// (RFC 768) and of ICMP (RFC 792), and the code point of differentiated services (RFC 2474).
#[derive(Clone, Copy, Debug, PartialEq, Eq)]
pub struct Header {
    /// The source's IPv4 address.
    pub src: u32,
    /// The destination's IPv4 address.
    pub dst: u32,
    /// The number of the IP protocol, as IANA assigns it: 1 for ICMP, 6 for TCP, 17 for UDP.
    pub proto: u8,
    /// The source port for TCP and UDP, the type for ICMP, and 0 for every other protocol.
    pub a: u16,
    /// The destination port for TCP and UDP, the code for ICMP, and 0 for every other protocol.
    pub b: u16,
    /// Whether the packet belongs to an established connection: ACK or RST is set. TCP alone has it.
    pub est: bool,
    /// The differentiated services code point, the upper six bits of the byte that RFC 791 calls the
    /// type of service (RFC 2474). In a valid header it is at most 63.
    pub dscp: u8,
}

impl Header {
    ghost use Rattle.np_space.specs.Header.{zeros};

    /// The header each of whose fields is 0, which stands before every other header.
    pub fn zeros() -> Header
        ensures { result ≡ zeros }
    {
        Header {
            src: 0,
            dst: 0,
            proto: 0,
            a: 0,
            b: 0,
            est: false,
            dscp: 0,
        }
    }
}

/// Whether the header is one that a packet can have: `dscp` is at most 63 (RFC 2474), `est` is set
/// for TCP only, an ICMP type and an ICMP code are below 256 (RFC 792), and `a` and `b` are 0 for a
/// protocol that has neither ports nor a type.
#[tactic(auto, unfolding(crate::specs::Header::is_valid_header))]
pub fn is_valid(h: &Header) -> bool
    ensures { result ≡ is_valid_header h.now }
{
    let _src = h.src;
    let _dst = h.dst;
    let proto = h.proto;
    let a = h.a;
    let b = h.b;
    h.dscp < 64 && (proto == 6 || !h.est) && numbers_fit(proto, a, b)
}

// Whether `a` and `b` are numbers that the protocol knows.
fn numbers_fit(proto: u8, a: u16, b: u16) -> bool
    ensures { result ≡ numbers_fit proto a b }
{
    match proto {
        6 | 17 => true,
        1 => a < 256 && b < 256,
        _ => a == 0 && b == 0,
    }
}

/// The order of headers: by `src`, then `dst`, `proto`, `a`, `b`, `est` and `dscp`, where a header
/// whose `est` isn't set stands before one whose `est` is.
#[tactic(auto, unfolding(crate::specs::Header::header_order))]
pub fn order(x: &Header, y: &Header) -> Ordering
    ensures { result ≡ header_order x.now y.now }
{
    x.src
        .cmp(&y.src)
        .then(x.dst.cmp(&y.dst))
        .then(x.proto.cmp(&y.proto))
        .then(x.a.cmp(&y.a))
        .then(x.b.cmp(&y.b))
        .then(x.est.cmp(&y.est))
        .then(x.dscp.cmp(&y.dscp))
}
