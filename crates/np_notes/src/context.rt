//! What the lines before a line leave open, beside a section.

ghost use Rattle.std.specs.Prelude.{◌≡◌, ◌&&◌, None, false};
ghost use Rattle.np_notes.specs.Foreign as foreign;
ghost use Rattle.np_notes.specs.Shaping.{foreign_after, shape_in, strayed_after};
ghost use Rattle.np_notes.specs.Kinds as kinds;

use crate::kinds::{Kind, silent_kind};
use crate::line_shape::LineShape;

/// What the lines before a line leave open, beside a section.
#[derive(Clone, Copy, Debug)]
pub struct Context {
    /// A list of another kind than those that are read is open.
    pub foreign: bool,
    /// A line at the margin that declares nothing stands after the one that opened the section.
    pub strayed: bool,
}

/// Whether a line declares nothing, and isn't skipped.
pub fn is_other(kind: Kind) -> bool
    ensures { result ≡ kinds.is_other_kind kind }
{
    match kind {
        Kind::Other => true,
        _ => false,
    }
}

fn is_skipped(kind: Kind) -> bool
    ensures { result ≡ kinds.is_skipped_kind kind }
{
    match kind {
        Kind::Skipped => true,
        _ => false,
    }
}

fn is_interface(kind: Kind) -> bool
    ensures { result ≡ kinds.is_interface_kind kind }
{
    match kind {
        Kind::Interface => true,
        _ => false,
    }
}

/// Whether a line declares nothing and stands at the margin.
fn is_outer(line: &LineShape<'_>) -> bool
    ensures { result ≡ foreign.is_outer (shape_in line.now) }
{
    is_other(line.kind) && !line.indented
}

/// Whether a line goes on with what a line at the margin began: it is skipped, or declares nothing
/// and is indented.
pub fn goes_on(line: &LineShape<'_>) -> bool
    ensures { result ≡ foreign.goes_on (shape_in line.now) }
{
    is_skipped(line.kind) || (is_other(line.kind) && line.indented)
}

fn is_foreign_after(line: &LineShape<'_>, before: bool) -> bool
    ensures { result ≡ foreign_after (shape_in line.now) before }
{
    if goes_on(line) {
        before
    } else {
        is_outer(line) && line.heading
    }
}

fn has_strayed_after(line: &LineShape<'_>, before: bool) -> bool
    ensures { result ≡ strayed_after (shape_in line.now) before }
{
    if is_interface(line.kind) {
        false
    } else {
        is_outer(line) || before
    }
}

impl Context {
    /// The context before any line.
    pub fn new() -> Context
        ensures foreign { result.foreign ≡ false }
        ensures strayed { result.strayed ≡ false }
    {
        Context {
            foreign: false,
            strayed: false,
        }
    }

    /// The context after a line that declares nothing of its own. Only a remark, which stands in a
    /// list, ends a list of another kind.
    pub fn after_silence(&self, line: &[u8]) -> Context
        ensures foreign { result.foreign ≡ (self.now.foreign && kinds.is_skipped_kind (kinds.kind_of line.now None)) }
        ensures strayed { result.strayed ≡ self.now.strayed }
    {
        Context {
            foreign: self.foreign && is_skipped(silent_kind(line)),
            strayed: self.strayed,
        }
    }

    /// The context after a line.
    pub fn after(&self, line: &LineShape<'_>) -> Context
        ensures foreign { result.foreign ≡ foreign_after (shape_in line.now) self.now.foreign }
        ensures strayed { result.strayed ≡ strayed_after (shape_in line.now) self.now.strayed }
    {
        Context {
            foreign: is_foreign_after(line, self.foreign),
            strayed: has_strayed_after(line, self.strayed),
        }
    }
}
