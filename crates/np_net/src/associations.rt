//! The IPsec part of a network: security associations, the tables of the interfaces, and the goals
//! (Guttman and Herzog, Rigorous automated network security management, 2005; RFC 4301).

use crate::network::{AreaId, DevId, SaId};
use np_pred::Pred;
use np_text::Name;
use sqlite_items::Items;

/// The protocol of a security association, and what it gives a packet.
#[derive(Clone, Copy, Debug, PartialEq, Eq)]
pub enum Kind {
    /// Encapsulating Security Payload with encryption and integrity (RFC 4303).
    Esp,
    /// Encapsulating Security Payload with encryption alone (RFC 4303).
    EspEnc,
    /// Encapsulating Security Payload with integrity alone: its encryption is the null algorithm
    /// (RFC 2410, RFC 4303).
    EspNull,
    /// Authentication Header (RFC 4302): integrity, of the outer addresses too.
    Ah,
}

/// A security association, from one device to another (RFC 4301).
#[derive(Debug, Drop)]
pub struct Sa {
    pub name: Name,
    pub kind: Kind,
    pub from: DevId,
    /// The device that removes the association's header. It may be `from`.
    pub to: DevId,
}

/// What a rule asks of a packet's outermost header.
#[derive(Debug, Drop)]
pub enum Match {
    /// There is no association's header, and the predicate holds for the plain one.
    Plain(Pred),
    /// It is that of this association.
    Under(SaId),
    Every,
}

/// What an inward rule asks of the association whose header was removed last at this interface.
#[derive(Clone, Copy, Debug, PartialEq, Eq)]
pub enum MarkTest {
    /// None was removed.
    Unmarked,
    Popped(SaId),
    AnyMark,
}

/// What becomes of a packet that comes in by an interface.
#[derive(Clone, Copy, Debug, PartialEq, Eq)]
pub enum InAction {
    Bypass,
    Discard,
}

/// What becomes of a packet that goes out by an interface.
#[derive(Clone, Copy, Debug, PartialEq, Eq)]
pub enum OutAction {
    /// The association's header is put around it.
    Protect(SaId),
    Bypass,
    Discard,
}

/// A rule on packets that come in by an interface.
#[derive(Debug, Drop)]
pub struct InRule {
    pub action: InAction,
    pub mark: MarkTest,
    pub top: Match,
}

/// A rule on packets that go out by an interface.
#[derive(Debug, Drop)]
pub struct OutRule {
    pub action: OutAction,
    pub top: Match,
}

/// The rules of an interface, each list in the order in which its rules are tried.
#[derive(Debug, Drop)]
pub struct Table {
    /// The associations whose headers are removed here.
    pub pops: Items<SaId>,
    pub ins: Items<InRule>,
    pub outs: Items<OutRule>,
}

/// An IPsec goal.
#[derive(Debug, Drop)]
pub enum IpGoal {
    /// Authentication: a packet of the predicate that is at the area `at` comes from the area `from`.
    Auth {
        from: AreaId,
        at: AreaId,
        pred: Pred,
    },
    /// Confidentiality: no place that isn't trusted sees a packet of the predicate from the area.
    Conf {
        from: AreaId,
        pred: Pred,
    },
}
