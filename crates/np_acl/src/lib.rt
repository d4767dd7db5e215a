//! Access lists: entries that match headers, and what the first of them that matches says.
#![tactic(auto)]

mod entries;
mod kinds;
mod lists;
mod ports;
mod tables;

pub use entries::Entry;
pub use kinds::{ListKind, PortNames, Way};
pub use lists::List;
pub use ports::{PortSpan, Ports};
pub use tables::{dscp_of, icmp_of, port_of, precedence_of, protocol_of};
