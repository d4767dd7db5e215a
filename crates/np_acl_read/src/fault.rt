//! Why a text is no configuration.

use np_entry_read::ConfigWhy;
use np_lines::{LineFault, TextError};

/// The first faulty line of a text, with its first fault in the order of its words.
pub type ConfigFault = LineFault<ConfigWhy>;

/// Why no configuration was read: `Fault` where a line of the text is faulty, with the first such
/// line, and `Memory` where memory ran out.
pub type ConfigError = TextError<ConfigWhy>;
