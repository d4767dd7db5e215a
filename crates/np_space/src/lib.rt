//! Packet headers, the patterns and spans that match their fields, the blocks that these make,
//! and the exact algebra of blocks.
#![tactic(auto)]

mod address_lists;
mod algebra;
mod blocks;
mod headers;
mod laws;
mod patterns;
mod spans;
mod valid;

pub use address_lists::any_pattern_has;
pub use algebra::{meet, minus};
pub use blocks::{AddressField, Block};
pub use headers::{Header, is_valid, order};
pub use laws::{
    each_class_has_one_least, leasts_are_unique, order_is_by_bits, order_is_total,
    pattern_is_by_bits, validity_is_by_protocol, without_cuts_one_class,
};
pub use patterns::Ternary;
pub use spans::Span;
pub use valid::valid_blocks;
