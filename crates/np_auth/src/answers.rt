//! What a check of an authentication goal answers.

use np_net::{AreaId, IfId, SaId};
use np_space::Header;

/// The first local rule that doesn't hold, with the first place and the least header that show it.
#[derive(Clone, Copy, Debug, PartialEq, Eq)]
pub enum Broken {
    /// This area of the goal isn't trusted.
    A0Area(AreaId),
    /// The interface is on a trusted area, and its device isn't trusted.
    A0Interface(IfId),
    /// A trusted area other than the goal's has the source of this header, for which the predicate holds.
    A1(AreaId, Header),
    /// A packet that may be forged passes the interface: with the header of this association removed last, or with none
    /// removed, and with this plain header.
    A2(IfId, Option<SaId>, Header),
}

/// Whether the local rules of a goal hold.
#[derive(Clone, Copy, Debug, PartialEq, Eq)]
pub enum Answer {
    Yes,
    No(Broken),
}
