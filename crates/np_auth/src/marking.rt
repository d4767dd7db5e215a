//! Where bare packets pass that may be forged.

use np_atomset::AtomSet;
use np_net::{IfId, SaId};
use sqlite_items::Items;

/// Those of some headers with which a bare packet passes an interface with a mark.
#[derive(Drop)]
pub struct Passage {
    pub interface: IfId,
    /// The association whose header was removed last, if any was.
    pub mark: Option<SaId>,
    /// Member n stands for header n.
    pub passing: AtomSet,
}

/// The passages of a network, of whatever headers: one for each interface of a trusted device and each mark with which a bare
/// packet may be forged there.
#[derive(Drop)]
pub struct Passages {
    /// In the order of the interfaces, and at each in that of the marks, no mark before every association.
    pub list: Items<Passage>,
}
