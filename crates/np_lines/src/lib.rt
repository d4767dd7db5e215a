//! What every reader of lines shares, whatever the causes of its faults are: lines are judged one
//! after another, each word by word up to the line's first fault.
#![tactic(auto)]

mod fault;
pub mod laws;
mod line_error;
mod skipping;
mod text_error;
mod words;

pub use fault::LineFault;
pub use line_error::LineError;
pub use skipping::{first_word, is_text, statement_words};
pub use text_error::TextError;
pub use words::{ended, next_word, within};
