//! A maximal posture that meets a network's goals, and why its free slots drop what they drop.
#![tactic(auto)]

mod broken;
mod choosing;
mod chosen;
mod dropping;
mod header_laws;
mod laws;
mod opening;

pub use choosing::synthesise;
pub use chosen::{Chosen, Dropped, SynthError};
pub use header_laws::{
    atoms_deny_for_headers, atoms_stand_for_headers, drops_are_unique, synthesised_is_maximal,
    there_is_a_synthesis,
};
pub use laws::{chosen_is_maximal, chosen_is_unique};
