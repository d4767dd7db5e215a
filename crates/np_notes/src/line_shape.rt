//! What notes look at in a line.

ghost use Rattle.std.specs.Prelude.{◌≡◌, Some};
ghost use Rattle.np_acl_read.specs.declared.declared.Section.{Section as SectionAt};
ghost use Rattle.np_notes.specs.ReadLines.{shape_of};
ghost use Rattle.np_notes.specs.Shaping.{shape_in};

use crate::kinds::{Kind, kind_of_line};
use crate::shape::{FirstWords, first_words, is_exit, is_heading, is_indented};
use np_acl_read::Statement;

/// What notes look at in a line.
#[derive(Clone, Copy, Debug)]
pub struct LineShape<'a> {
    /// Its number, from 1 on.
    pub number: u64,
    pub kind: Kind,
    pub indented: bool,
    pub words: FirstWords<'a>,
    /// Whether it is the one word `exit`.
    pub exit: bool,
    /// Whether its words are those that begin a list of another kind.
    pub heading: bool,
}

/// What notes look at in a line of this number that declares this. It takes no memory.
pub fn line_shape<'a>(number: u64, line: &'a [u8], said: &Statement) -> LineShape<'a>
    ensures { (section : SectionAt) → shape_in result ≡ shape_of (record { number = number; bytes = line.now; section = section; said = Some said.now }) }
{
    let words = first_words(line);
    LineShape {
        number,
        kind: kind_of_line(said),
        indented: is_indented(line),
        words,
        exit: is_exit(&words),
        heading: is_heading(line, &words),
    }
}
