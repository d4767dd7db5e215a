//! What a line of a configuration declares.

use np_acl::{Entry, ListKind, Way};
use np_text::Name;

/// An entry of a list, with its sequence number.
#[derive(Drop)]
pub struct NumberedEntry {
    pub list: Name,
    /// 1 to 2,147,483,647.
    pub number: u32,
    pub entry: Entry,
}

/// What a line declares.
#[derive(Drop)]
pub enum Statement {
    /// `interface NAME ..`: the section of an interface.
    Interface(Name),
    /// `ip access-list extended NAME` or `ip access-list standard NAME`: the section of a list.
    Section {
        list: Name,
        kind: ListKind,
    },
    /// `access-list N remark ..`
    Remark(Name),
    /// `access-list N ..` with an entry.
    ListEntry(NumberedEntry),
    /// An entry in the section of its list.
    SectionEntry(NumberedEntry),
    /// `ip access-group NAME in` or `ip access-group NAME out`.
    Group {
        interface: Name,
        way: Way,
        list: Name,
    },
    /// Any other line.
    Other,
}
