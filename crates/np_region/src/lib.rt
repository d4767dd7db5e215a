//! Stores of regions, which are sets of valid headers, and the store whose regions are lists of
//! blocks.
#![tactic(auto)]

mod block_lists;
mod lists;
mod regions;

pub use block_lists::{BlockList, BlockLists};
pub use regions::Regions;
