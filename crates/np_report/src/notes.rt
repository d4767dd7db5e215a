//! The notes on a configuration.

ghost use Rattle.std.specs.Prelude.{◌≡◌, ◌∷◌, ◌++◌, [], map, OnOk, OnErr, IfOk};
ghost use Rattle.np_text.specs.Appending.{AppendsFront};
ghost use Rattle.np_net_text.specs.CanonicalText.{line_text, lines_text, spaced};
ghost use Rattle.np_report.specs.Notes as report;
ghost use Rattle.np_report.specs.Notes.{notes_text};

use crate::words::put_number_word;
use np_net_text::put_word;
use np_notes::Note;
use np_text::put_bytes;
use std::alloc::{AllocError, Global};

// Appends the words of what is noted of a line, which end by this word, each after a space.
fn put_at_line(text: &mut Vec<u8>, line: u64, word: &[u8]) -> Result<(), AllocError>
    ensures { OnOk result (text.new.items ≡ text.old.items ++ spaced (report.at_line line (word.now ∷ []))) }
{
    put_word(text, b"line")?;
    put_number_word(text, line)?;
    put_word(text, word)
}

// Appends a word and a name, each after a space.
fn put_named(text: &mut Vec<u8>, word: &[u8], name: &[u8]) -> Result<(), AllocError>
    ensures { OnOk result (text.new.items ≡ text.old.items ++ spaced (word.now ∷ name.now ∷ [])) }
{
    put_word(text, word)?;
    put_word(text, name)
}

// Appends the words of what is noted of a line, which end by this word and a name, each after a space.
fn put_named_at_line(
    text: &mut Vec<u8>,
    line: u64,
    word: &[u8],
    name: &[u8],
) -> Result<(), AllocError>
    ensures { OnOk result (text.new.items ≡ text.old.items ++ spaced (report.at_line line (word.now ∷ name.now ∷ []))) }
{
    put_at_line(text, line, word)?;
    put_word(text, name)
}

// Appends the words of what is noted, each after a space.
fn put_noted(text: &mut Vec<u8>, note: &Note) -> Result<(), AllocError>
    ensures { OnOk result (text.new.items ≡ text.old.items ++ spaced (report.noted_words note.now)) }
{
    match note {
        Note::StrayEntry { line } => put_at_line(text, *line, b"entry"),
        Note::Closes { line, list } => put_named_at_line(text, *line, b"closes", list.bytes()),
        Note::NotModelled { line } => put_at_line(text, *line, b"not-modelled"),
        Note::StrayGroup { line, interface } => {
            put_named_at_line(text, *line, b"stray-group", interface.bytes())
        }
        Note::NoInterface { interface } => put_named(text, b"no-interface", interface.bytes()),
        Note::UnknownInterface { line, interface } => {
            put_named_at_line(text, *line, b"unknown-interface", interface.bytes())
        }
        Note::Undefined { line, list } => {
            put_named_at_line(text, *line, b"undefined", list.bytes())
        }
        Note::Empty { line, list } => put_named_at_line(text, *line, b"empty", list.bytes()),
    }
}

// Appends the line of a note.
fn put_note(text: &mut Vec<u8>, file: &[u8], note: &Note) -> Result<(), AllocError>
    ensures { OnOk result (text.new.items ≡ text.old.items ++ line_text (report.note_words file.now note.now)) }
{
    text.extend_from_slice(b"note")?;
    put_word(text, file)?;
    put_noted(text, note)?;
    text.push(b'\n')?;
    Ok(())
}

// Appends the lines of notes.
fn put_each_note(text: &mut Vec<u8>, file: &[u8], notes: &[Note]) -> Result<(), AllocError>
    ensures { OnOk result (text.new.items ≡ text.old.items ++ lines_text (map (report.note_words file.now) notes.now)) }
{
    for note in notes {
        put_note(text, file, note)?;
    }
    Ok(())
}

// The lines of notes.
#[tactic(auto, using(crate::proofs::TextLaws::lines_appended))]
fn noted(alloc: Global, file: &[u8], notes: &[Note]) -> Result<Vec<u8>, AllocError>
    ensures { IfOk result (λ text. text.items ≡ notes_text file.now notes.now) }
{
    let mut text = Vec::new(alloc);
    put_each_note(&mut text, file, notes)?;
    Ok(text)
}

/// Appends the notes on the configuration in this file: a line for each, in their order.
///
/// Where memory runs out, which alone is an error, a prefix of them may have been appended.
pub fn put_notes(
    alloc: Global,
    out: &mut Vec<u8>,
    file: &[u8],
    notes: &[Note],
) -> Result<(), AllocError>
    ensures ok { OnOk result (out.new.items ≡ out.old.items ++ notes_text file.now notes.now) }
    ensures err { OnErr result (AppendsFront out.old.items out.new.items (notes_text file.now notes.now)) }
{
    // The text is whole before any of it is appended.
    let text = noted(alloc, file, notes)?;
    put_bytes(out, text.as_slice())
}
