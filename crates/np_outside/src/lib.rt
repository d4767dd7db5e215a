//! What a program reads and writes: a shelf of files and a sink for bytes, with a count of the
//! failures of each, so that an answer that blames a device can be held to the device's own count.
//!
//! `MemShelf` and `MemSink` stand in memory, tell all that they hold, and fail where a test has named
//! a call. `FileShelf` and `StdSink` are real files and standard output, and tell only their counts.
#![tactic(auto)]

mod failure;
mod file_shelf;
mod mem_shelf;
mod mem_sink;
mod plan;
mod shelf;
mod sink;
mod std_sink;

pub use failure::Failed;
pub use file_shelf::FileShelf;
pub use mem_shelf::MemShelf;
pub use mem_sink::MemSink;
pub use shelf::{ReadError, Shelf, read_file};
pub use sink::{Sink, write_all};
pub use std_sink::StdSink;
