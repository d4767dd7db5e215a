//! Choices that the lines of access lists make.

/// Whose names a port may have.
#[derive(Clone, Copy, Debug, PartialEq, Eq)]
pub enum PortNames {
    /// Those of TCP.
    Tcp,
    /// Those of UDP.
    Udp,
}

/// Which entries an access list has.
#[derive(Clone, Copy, Debug, PartialEq, Eq)]
pub enum ListKind {
    /// Entries that may test each field of a header.
    Extended,
    /// Entries that test the source address alone.
    Standard,
}

/// The way through an interface in which an access list is applied.
#[derive(Clone, Copy, Debug, PartialEq, Eq)]
pub enum Way {
    /// Into the device: `in` of `ip access-group`.
    Inward,
    /// Out of the device: `out` of `ip access-group`.
    Outward,
}
