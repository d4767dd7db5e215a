//! The texts of refusals, of notes and of the reports on filtering.
#![tactic(auto)]

mod atoms;
mod laws;
mod notes;
mod refusals;
mod sets;
mod summary;
mod synthesis;
mod verdicts;
mod words;

pub use atoms::put_atoms;
pub use laws::runs_are_maximal;
pub use notes::put_notes;
pub use refusals::{Refusal, put_refusal};
pub use summary::put_summary;
pub use synthesis::{put_chosen, put_unattainable};
pub use verdicts::put_verdicts;
pub use words::{put_header, put_number_word};
