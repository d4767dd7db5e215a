//! What a script says.

use np_ipsec::{Motion, Place};
use np_space::Header;
use sqlite_items::Items;

/// A packet's start, and what is done with it then.
#[derive(Debug, Drop)]
pub struct Script {
    /// Where the packet starts.
    pub place: Place,
    /// Its plain header. Whether it is one that a packet can have isn't known of a script.
    pub plain: Header,
    /// Its moves, the first one the first.
    pub moves: Items<Motion>,
}
