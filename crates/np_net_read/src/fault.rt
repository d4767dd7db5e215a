//! Why a text is no network's.

use np_lines::{LineFault, TextError};

/// What is wrong with a line.
#[derive(Clone, Copy, Debug, PartialEq, Eq)]
pub enum NetWhy {
    /// It has a byte other than a printable ASCII character, a tab or a carriage return.
    NotText,
    /// Its first word begins no statement.
    UnknownStatement,
    /// A word is missing, another one stands in a keyword's place, or a word stands after the statement.
    BadShape,
    /// A name that it declares isn't of a name's form.
    BadName,
    /// A depth isn't 1 to 16, or a word of addresses isn't of its form.
    BadNumber,
    /// It declares something again.
    Duplicate,
    /// A name that it uses isn't declared on an earlier line.
    UnknownName,
    /// A limit would be passed.
    TooMany,
    /// The words where a predicate has to stand are none.
    BadPred,
    /// A predicate nests more than 64 deep.
    TooDeep,
    /// A goal names one area twice.
    SameArea,
    /// A security association is used at another device than the one at its end.
    WrongEnd,
}

/// The first faulty line of a text, and its first fault in the order of its words.
pub type NetFault = LineFault<NetWhy>;

/// Why no network was read: `Fault` where a line of the text is faulty, with the first such line,
/// and `Memory` where memory ran out.
pub type NetError = TextError<NetWhy>;
