//! The goals of a network's IPsec part: the cuts that tell apart all that its rules ask, what its rules say of the least headers, and
//! that each goal has an answer.
#![tactic(auto)]

mod asked;
mod cutting;
mod finding;
mod laws;

pub use asked::Findings;
pub use cutting::ipsec_cuts;
pub use finding::findings;
pub use laws::{
    each_auth_goal_has_an_answer, each_conf_goal_has_an_answer, ipsec_cuts_are_respected,
    leasts_serve_the_checks,
};
