//! The files that a run reads: a network's, the configurations of its devices, and scripts.
#![tactic(auto)]

mod files;
mod halt;
mod inputs;
pub mod laws;
mod noted;
mod plays;

pub use files::load_net;
pub use halt::Halt;
pub use inputs::{Inputs, load_inputs};
pub use noted::{Noted, load_notes};
pub use plays::{Play, load_play};
