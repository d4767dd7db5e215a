//! The limits of a network, each in one place.

/// How many areas, devices, goals, security associations and IPsec goals there may be, each.
pub const DECLARATION_LIMIT: usize = 256;

/// How many interfaces there may be.
pub const INTERFACE_LIMIT: usize = 1024;

/// How many rules all tables together may have.
pub const RULE_LIMIT: usize = 4096;

/// How many headers of associations a packet may have at most.
pub const DEPTH_LIMIT: u8 = 16;

/// How many bytes a name may have at most.
pub const NAME_LIMIT: usize = 64;
