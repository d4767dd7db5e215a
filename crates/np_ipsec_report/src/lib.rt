//! The texts of the reports on replays and on IPsec goals.
#![tactic(auto)]

mod answers;
mod replays;
mod words;

pub use answers::{IpAnswer, put_answers};
pub use replays::put_replay;
