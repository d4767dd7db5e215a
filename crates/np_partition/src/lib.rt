//! Partitions of header space: diagrams whose leaves are the numbers of classes, so that two headers are in one class exactly
//! where some tests say the same of both.
#![tactic(auto)]

mod asking;
mod class_sets;
mod least;
mod listing;
mod node_memo;
mod of_region;
mod of_regions;
mod pair_memo;
mod pairing;
mod partition;
mod places;
mod product;
mod region;
mod shows;

pub use class_sets::sets_at;
pub use partition::Partition;
