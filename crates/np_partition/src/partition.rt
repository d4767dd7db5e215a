//! A partition of header space.

use crate::shows::Show;
use np_atomset::AtomSet;
use sqlite_items::Items;

/// Classes of headers, numbered from 0: two headers are in one class exactly where each of some tests says the same of both.
///
/// A header that isn't valid is in a class too, and a class may be without headers.
#[derive(Drop)]
pub struct Partition {
    // what the places of the diagram show; those that a test names stand before it
    pub(crate) shows: Items<Show>,
    // the place where each header starts
    pub(crate) root: usize,
    // how many classes there are
    pub(crate) classes: usize,
    // for each test the classes that it has
    pub(crate) sets: Items<AtomSet>,
}
