//! Packets on their way through a network under attack: where they may start, which motions are steps, and what a script of
//! motions leads to.
//!
//! The model is np_ipsec's, after Guttman and Herzog (Rigorous automated network security management, 2005).
#![tactic(auto)]

mod breaching;
mod judging;
mod laws;
mod replaying;
mod starting;
mod states;
mod stepping;
mod travelling;

pub use laws::{
    motions_lead_to_one_state, replays_have_breaches, scripts_are_replayed_once,
    steps_are_unrefused,
};
pub use replaying::{Replayed, replay};
pub use starting::start;
pub use states::{Illegal, State};
pub use stepping::step;
