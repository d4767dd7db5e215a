//! A network's text, and how it is read.
#![tactic(auto)]

mod declared;
mod draft;
mod endings;
mod fault;
mod ipsec_statements;
mod ipsec_words;
mod laws;
mod lines;
mod reading;
mod statement;
mod statements;
mod tables;
mod tokens;

pub use fault::{NetError, NetFault, NetWhy};
pub use laws::tables_are_filters;
pub use reading::read_net;
