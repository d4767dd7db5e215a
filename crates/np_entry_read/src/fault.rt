//! What is wrong with a line of a configuration.

/// What is wrong with a line of a configuration, an entry's line among them.
#[derive(Clone, Copy, Debug, PartialEq, Eq)]
pub enum ConfigWhy {
    /// A word is missing or isn't what its place needs, or the line stands outside the section that
    /// it needs.
    BadEntry,
    /// The words ask for something that isn't supported.
    Unsupported,
    /// A word is no name of its table.
    UnknownName,
    /// A number is out of its range.
    BadNumber,
    /// The first port of a range is greater than the last.
    BadRange,
    /// The list has an entry of this sequence number.
    DuplicateSequence,
    /// The line takes away what another one says.
    Negated,
    /// The configuration has 20,000 entries already.
    TooManyEntries,
}
