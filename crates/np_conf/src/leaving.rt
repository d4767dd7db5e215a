//! What leaves the devices of a network bare, and what is put around what doesn't.

use np_atomset::AtomSet;
use np_net::IfId;
use sqlite_items::Items;

/// Those of some headers with which bare packets go out by an interface.
#[derive(Drop)]
pub struct Outlet {
    pub interface: IfId,
    /// Member n stands for header n.
    pub bare: AtomSet,
}

/// What the outward rules of a network do to bare packets, of whatever headers.
#[derive(Drop)]
pub struct Outlets {
    /// One for each interface of a trusted device on an area that isn't trusted, in the order of the interfaces.
    pub ways: Items<Outlet>,
    /// For each association the headers around which some trusted device puts it: a set only where there is such a header and the
    /// association hides nothing.
    pub around: Items<Option<AtomSet>>,
}
