//! The local rules of IPsec confidentiality goals: what each interface's table has to say so that no packet can be read on its
//! way.
//!
//! A goal's answer comes from the tables alone, each interface by itself; that it holds for whole trajectories, of any length and
//! depth, is a law. The rules are local in the sense of Guttman and Herzog (Rigorous automated network security management, 2005).
//! What the outward rules say of bare packets with the least headers is found once for all goals (`outlets`), which takes memory; a
//! check takes none.
#![tactic(auto)]

mod answers;
mod checking;
mod gathering;
mod laws;
mod leaving;
mod noting;
mod ways;

pub use answers::{Answer, Broken};
pub use checking::check_conf;
pub use laws::{answers_are_unique, rules_are_sound};
pub use leaving::{Outlet, Outlets};
pub use noting::outlets;
