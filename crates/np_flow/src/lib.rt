//! Which atoms reach which areas of a network, and by which paths, where each slot lets some atoms cross.
#![tactic(auto)]

mod distances;
mod laws;
mod posture;
mod rounds;
mod shortest;
mod spreading;

pub use laws::each_search_ends;
pub use posture::Posture;
pub use shortest::first_path;
pub use spreading::{Reached, flow};
