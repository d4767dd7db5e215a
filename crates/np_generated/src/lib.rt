//! What the texts of a generated network say.
#![tactic(auto)]

pub mod laws;
mod reading;

pub use reading::{GeneratedInputs, read_generated};
