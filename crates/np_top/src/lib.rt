//! The program's commands.
#![tactic(auto)]

mod answers;
mod commands;
mod laws;
mod report;
mod status;
mod top;

pub use laws::one_outcome;
pub use status::Status;
pub use top::{run, run_in};
