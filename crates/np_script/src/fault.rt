//! Why a text is no script.

use np_lines::{LineFault, TextError};

/// What is wrong with a line.
#[derive(Clone, Copy, Debug, PartialEq, Eq)]
pub enum ScriptWhy {
    /// It has a byte other than a printable ASCII character, a tab or a carriage return.
    NotText,
    /// It is the first statement and its first word isn't `start`, or the text ends without one.
    NoStart,
    /// Its first word is no move's, another word stands in a keyword's place, or a word is missing or
    /// stands after the statement's end.
    BadMove,
    /// A name isn't one of the network's.
    UnknownName,
    /// A word of the header is no address or no number of its field.
    BadNumber,
}

/// The first faulty line of a text, and its first fault in the order of its words. A text without a
/// start has the fault on the line after its last one.
pub type ScriptFault = LineFault<ScriptWhy>;

/// Why no script was read: `Fault` where a line of the text is faulty, with the first such line, and
/// `Memory` where memory ran out.
pub type ScriptError = TextError<ScriptWhy>;
