//! The local rules of authentication goals: what the tables of a network have to say at each interface, so that no packet can
//! be forged on its way. Where they hold, no trajectory breaks the goal. What the inward rules say of the least headers is found
//! once for all goals (`passages`), which takes memory; a check asks that and no rule, and takes none.
#![tactic(auto)]

mod answers;
mod checking;
mod gathering;
mod laws;
mod marking;

pub use answers::{Answer, Broken};
pub use checking::check_auth;
pub use gathering::passages;
pub use laws::{answers_are_unique, rules_are_sound};
pub use marking::{Passage, Passages};
