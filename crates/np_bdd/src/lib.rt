//! The store whose regions are nodes of one ordered reduced decision diagram.
#![tactic(auto)]

mod addresses;
mod combining;
mod diagrams;
mod fields;
mod header_bits;
mod memo;
mod nodes;
mod valid;
mod views;
mod walking;

pub use diagrams::Diagrams;
pub use header_bits::{header_bit, in_widths, with_bit_set};
pub use views::{BITS, Node, View};
