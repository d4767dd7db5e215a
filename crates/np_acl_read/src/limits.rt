//! The limits of a configuration.

/// The entries of one configuration, at most, those of all of its lists together.
pub const ENTRY_LIMIT: usize = 20_000;
