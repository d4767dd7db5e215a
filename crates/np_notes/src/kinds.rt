//! The kinds of a configuration's lines.

ghost use Rattle.std.specs.Prelude.{◌≡◌, ℕ, List, None, Some};
ghost use Rattle.np_notes.specs.Kinds.{kind_of};

use np_acl_read::Statement;
use np_lines::first_word;

/// The kind of a line that is accepted.
#[derive(Clone, Copy, Debug, PartialEq, Eq)]
pub enum Kind {
    /// Without words, or a comment.
    Skipped,
    /// `interface NAME ..`
    Interface,
    /// `access-list N ..`
    NumberedList,
    /// `ip access-list extended NAME` or `ip access-list standard NAME`.
    ListSection,
    /// `ip access-group ..`
    Group,
    /// An entry or a remark in the section of its list.
    ListLine,
    /// Any other line, which declares nothing.
    Other,
}

/// The kind of a line that declares nothing of its own: it is skipped, or is a remark of a list.
pub fn silent_kind(line: &[u8]) -> Kind
    ensures { result ≡ kind_of line.now None }
{
    match first_word(line, b'!') {
        Some(_) => Kind::ListLine,
        None => Kind::Skipped,
    }
}

/// The kind of a line that declares this, whatever its words are.
pub fn kind_of_line(said: &Statement) -> Kind
    ensures { (line : List ℕ) → result ≡ kind_of line (Some said.now) }
{
    match said {
        Statement::Interface(_) => Kind::Interface,
        Statement::Section { .. } => Kind::ListSection,
        Statement::Remark(_) => Kind::NumberedList,
        Statement::ListEntry(_) => Kind::NumberedList,
        Statement::SectionEntry(_) => Kind::ListLine,
        Statement::Group { .. } => Kind::Group,
        Statement::Other => Kind::Other,
    }
}
