//! The verdicts on a network's filtering goals.
#![tactic(auto)]

mod all;
mod cases;
mod flowing;
mod gate;
mod halves;
mod judging;
mod laws;
mod pieces;
mod placing;
mod sources;
mod verdicts;

pub use all::{judge, judge_par};
pub use cases::{Case, case_of};
pub use flowing::flows;
pub use gate::{Gate, NoGate};
pub use laws::{cuts_have_leasts, each_goal_has_a_verdict};
pub use verdicts::Verdict;
