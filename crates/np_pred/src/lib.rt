//! Predicates on packet headers: their words, their meaning and their canonical text.
#![tactic(auto)]

mod address_lists;
mod area_names;
mod bounds;
mod canonical;
mod dscp;
mod dscp_words;
mod keywords;
mod laws;
mod ports;
mod pred_error;
mod predicate;
mod reading;
mod shared_addresses;
mod words_left;

pub use address_lists::{addresses, put_addresses};
pub use area_names::Areas;
pub use canonical::put_pred;
pub use dscp::DscpSpan;
pub use laws::{
    canonical_text_is_words, canonical_words_read_back, faults_stand_by_first_words,
    prefixes_are_by_bits,
};
pub use pred_error::{PredError, PredFault};
pub use predicate::Pred;
pub use reading::{NESTING_LIMIT, parse};
pub use shared_addresses::Addresses;
