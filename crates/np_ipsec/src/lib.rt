//! What the IPsec tables of a network do to a packet, and the model of packets under attack: places, steps, trajectories
//! and what breaks a goal.
//!
//! The rules are RFC 4301's, in the form in which Guttman and Herzog (Rigorous automated network security management, 2005)
//! ask about them. No call takes memory.
#![tactic(auto)]

mod associations;
mod goals;
mod laws;
mod listed;
mod places;
mod tables;

pub use associations::{good, secret, sound};
pub use goals::{first_foreign, goal_pred};
pub use laws::{more_depth_allows_more, plain_headers_stay, steps_stay_inside};
pub use listed::header_at;
pub use places::{Motion, Place, has_source, is_trusted};
pub use tables::{Top, in_action, out_action, pops};
