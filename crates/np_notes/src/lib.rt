//! What the reading of a configuration passed over and may matter.
#![tactic(auto)]

mod context;
mod group_line;
mod group_notes;
mod kinds;
pub mod laws;
mod line_notes;
mod line_shape;
mod missing;
mod name_set;
mod names;
mod note;
mod passed;
mod shape;
mod shared_name;
mod walk;

pub use note::Note;
pub use passed::{Passed, read_passed};
