//! The entries of access lists.

ghost use Rattle.std.specs.Prelude.{◌≡◌, ◌↔◌, IsTrue, IfOk};

use crate::ports::Ports;
use np_space::{Header, Span, Ternary};
use std::alloc::{AllocError, Global};

/// An entry: which headers it matches, and whether it permits them. A header matches if each field
/// has a value that the entry names (Cisco IOS Security Command Reference, `access-list (IP
/// extended)` and `permit (IP)`). `Entry::any` tests nothing: an entry without words on a field has
/// in it what `any` has.
#[derive(PartialEq, Eq, Drop)]
pub struct Entry {
    /// Whether the headers that match are permitted.
    pub permit: bool,
    /// The protocols: from 0 to 255 for `ip`.
    pub proto: Span,
    /// The source addresses.
    pub src: Ternary,
    /// The destination addresses.
    pub dst: Ternary,
    /// The source ports, or the ICMP types: from 0 to 65535 where none are named.
    pub a: Ports,
    /// The destination ports, or the ICMP codes: from 0 to 65535 where none are named.
    pub b: Ports,
    /// Whether a connection is established, as ACK or RST say: 0 for no and 1 for yes, and so from 0
    /// to 1 without `established`.
    pub est: Span,
    /// The code points of differentiated services (RFC 2474): from 0 to 63 where none is named.
    pub dscp: Span,
}

impl Entry {
    ghost use Rattle.np_acl.specs.Entries.{any_entry, entry_matches};

    /// The entry that tests nothing: it names every value of each field's width.
    pub fn any(alloc: Global, permit: bool) -> Result<Entry, AllocError>
        ensures { IfOk result (λ entry. entry ≡ any_entry permit) }
    {
        let a = Ports::any(alloc)?;
        let b = Ports::any(alloc)?;
        Ok(Entry {
            permit,
            proto: Span::from_to(0, 255),
            src: Ternary::any(),
            dst: Ternary::any(),
            a,
            b,
            est: Span::from_to(0, 1),
            dscp: Span::from_to(0, 63),
        })
    }

    /// The same entry.
    pub fn copy(&self, alloc: Global) -> Result<Entry, AllocError>
        ensures { IfOk result (λ copy. copy ≡ self.now) }
    {
        let a = self.a.copy(alloc)?;
        let b = self.b.copy(alloc)?;
        Ok(Entry {
            permit: self.permit,
            proto: self.proto,
            src: self.src,
            dst: self.dst,
            a,
            b,
            est: self.est,
            dscp: self.dscp,
        })
    }

    /// Whether the entry is `other`: each field is the same. It takes no memory.
    pub fn same_as(&self, other: &Entry) -> bool
        ensures { IsTrue result ↔ (self.now ≡ other.now) }
    {
        self == other
    }

    /// Whether the entry matches the header.
    pub fn matches(&self, h: &Header) -> bool
        ensures { result ≡ entry_matches self.now h.now }
    {
        self.proto.has(u16::from(h.proto))
            && self.src.has(h.src)
            && self.dst.has(h.dst)
            && self.a.has(h.a)
            && self.b.has(h.b)
            && self.est.has(u16::from(h.est))
            && self.dscp.has(u16::from(h.dscp))
    }
}
