//! Answers on confidentiality goals.

use np_net::{AreaId, IfId, SaId};
use np_space::Header;

/// A local rule that doesn't hold, and where it doesn't.
#[derive(Clone, Copy, Debug, PartialEq, Eq)]
pub enum Broken {
    /// The area that the packets come from isn't trusted.
    K0Area(AreaId),
    /// The interface is on a trusted area and of a device that isn't trusted.
    K0Interface(IfId),
    /// A bare packet with this header goes out to an area that isn't trusted.
    K1(IfId, Header),
    /// A packet goes out to such an area under an association with which it may be readable.
    K2(IfId, SaId),
}

/// The answer on a confidentiality goal.
#[derive(Clone, Copy, Debug, PartialEq, Eq)]
pub enum Answer {
    /// The local rules hold, so no trajectory breaks the goal.
    Yes,
    /// The first rule that doesn't hold.
    No(Broken),
}
