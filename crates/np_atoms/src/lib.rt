//! The atoms of a list of cuts: the classes of the valid headers for which each cut answers the same (Guttman and Herzog
//! 2005, the Atomizer), told by their least members and by which of them each cut has.
#![tactic(auto)]

use np_atomset::AtomSet;
use np_space::Header;
use sqlite_items::Items;

/// The atoms of a list of cuts, numbered from 0 in the order of their least members. Each cut has all headers of an atom,
/// or none of them, so that a cut is a set of atoms.
#[derive(Debug, Drop)]
pub struct Atoms {
    /// The least member of each atom by the order of headers, in ascending order.
    pub leasts: Items<Header>,
    /// The atoms that each cut has, in the order of the cuts: sets of as many atoms as there are least members.
    pub cuts: Items<AtomSet>,
}
