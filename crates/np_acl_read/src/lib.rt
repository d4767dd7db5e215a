//! A device's configuration: its access lists, and where they are applied, and how they are read.
#![tactic(auto)]

mod config;
mod declared;
mod fault;
mod groups;
pub mod laws;
mod limits;
mod lines;
mod list_entries;
mod numbered;
mod reading;
mod statement;
mod words;

pub use config::{Config, Lists, SharedConfig, empty_config};
pub use declared::{Declared, Section};
pub use fault::{ConfigError, ConfigFault};
pub use groups::Groups;
pub use limits::ENTRY_LIMIT;
pub use lines::line_statement;
pub use np_entry_read::ConfigWhy;
pub use reading::read_config;
pub use statement::{NumberedEntry, Statement};
