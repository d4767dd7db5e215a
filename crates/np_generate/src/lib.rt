//! A network and its configurations, as texts, by numbers that are drawn from a seed.
#![tactic(auto)]

mod config_lines;
mod drawing;
mod drawn;
mod generated;
mod net_lines;
mod words;

pub use drawn::{DrawnEntry, DrawnGoal, Protocol};
pub use generated::{Generated, generate};
