//! The words of a text: its lines, the words of a line, numbers and addresses, and names.
#![tactic(auto)]

mod appending;
mod cutting;
mod decimals;
mod dotted;
pub mod laws;
mod names;

pub use appending::put_bytes;
pub use cutting::{Line, LineIter, Word, WordIter, lines, split_once, word_list, words};
pub use decimals::{is_numeral, number, put_number};
pub use dotted::{address, prefix, put_address};
pub use names::Name;
