//! The canonical text of a network, which is read as this network.
#![tactic(auto)]

mod canonical;
mod canonical_ipsec;
mod canonical_words;
mod laws;

pub use canonical::put_net;
pub use canonical_words::put_word;
pub use laws::{canonical_text_is_words, canonical_text_reads_back};
