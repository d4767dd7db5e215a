/// The first faulty line of a text, with a cause of its reader's.
#[derive(Clone, Copy, Debug, PartialEq, Eq)]
pub struct LineFault<W> {
    /// Its number; the first line of a text has number 1.
    pub line: u64,
    /// Its first fault in the order of its words.
    pub why: W,
}
