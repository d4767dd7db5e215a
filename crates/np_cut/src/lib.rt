//! Regions of access lists and of predicates, and the lists that a network's configurations apply.
#![tactic(auto)]

mod applied;
mod applying;
mod field_blocks;
mod filtering;
mod key_set;
mod keys;
mod list_regions;
mod made_regions;
mod pred_regions;

pub use applied::{Applied, lets};
pub use applying::apply;
pub use filtering::{filter_cuts, with_preds};
pub use list_regions::{entry_region, list_region};
pub use pred_regions::{pred_region, source_region};
