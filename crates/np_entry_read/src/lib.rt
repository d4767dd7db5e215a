//! Entries of access lists from the words after `permit` or `deny`.
#![tactic(auto)]

mod addresses;
mod entries;
mod fault;
pub mod laws;
mod messages;
mod options;
mod ports;
mod spans;
mod words;

pub use entries::entry;
pub use fault::ConfigWhy;
