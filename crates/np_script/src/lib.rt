//! A trajectory's script: where a packet starts, with which header, and its moves; and how its text
//! is read against a network.
#![tactic(auto)]

mod draft;
mod fault;
mod headers;
mod laws;
mod lines;
mod moves;
mod names;
mod places;
mod reading;
mod script;
mod statement;

pub use fault::{ScriptError, ScriptFault, ScriptWhy};
pub use laws::{script_is_a_start_and_moves, script_words_read_back};
pub use reading::read_script;
pub use script::Script;
