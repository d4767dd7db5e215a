//! Atoms: the classes of valid headers that no cut tells apart, as each store of regions finds them. A cut is a region of a
//! store.
#![tactic(auto)]

mod atom_list;
mod atomizer;
mod block_lists;
mod class_atoms;
mod diagrams;
mod splitting;

pub use atomizer::{Atomized, Atomizer};
pub use diagrams::PartitionClasses;
