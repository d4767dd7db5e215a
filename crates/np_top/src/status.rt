//! How a run ends.

/// How a run ended. Its number is the program's exit status.
#[derive(Clone, Copy, Debug, PartialEq, Eq)]
pub enum Status {
    /// 0: the report is written, and all goals hold, all answers are yes, there is no note, or all moves are legal and no
    /// goal is broken; or the atoms, a synthesised posture or a network's canonical text is written.
    Holds,

    /// 1: the report is written, and a goal is violated or can't be attained, an answer is no, there is a note, or a move is
    /// illegal or a goal is broken.
    Fails,

    /// 2: the words fit no command; `usage` is written.
    Usage,

    /// 3: an input file is too long or has a line that is refused; the refusal's line is written.
    Refused,

    /// 4: a file could not be read; nothing is written.
    ReadFault,

    /// 5: the text could not be written whole; a proper prefix of it is written.
    WriteFault,

    /// 6: there was no memory; nothing is written.
    Memory,
}

impl Status {
    ghost use Rattle.std.specs.Prelude.{◌≡◌};
    ghost use Rattle.np_top.specs.Status.{number_of};

    /// The exit status of the program, 0 to 6.
    pub fn number(self) -> u8
        ensures { result ≡ number_of self }
    {
        self as u8
    }
}
