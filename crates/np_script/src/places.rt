//! The words of a place.

ghost use Rattle.np_lines.specs.Answers.{Reads, texts};
ghost use Rattle.np_script.specs.Judging as judging;

use crate::fault::ScriptWhy;
use crate::names::{area, interface};
use np_ipsec::Place;
use np_lines::{LineError, next_word};
use np_net::NetNames;
use np_text::Word;
use std::alloc::Global;

/// A place, by its keyword and the words after it.
fn place_by<'a>(
    alloc: Global,
    names: &NetNames,
    keyword: &[u8],
    words: &'a [Word<'a>],
) -> Result<(Place, &'a [Word<'a>]), LineError<ScriptWhy>>
    ensures { Reads result (judging.place_by names.now keyword.now (texts words.now)) }
{
    if keyword == b"area".as_slice() {
        let (area, words) = area(alloc, names, words)?;
        return Ok((Place::AtArea(area), words));
    }
    if keyword == b"in".as_slice() {
        let (interface, words) = interface(alloc, names, words)?;
        return Ok((Place::AtIn(interface), words));
    }
    if keyword == b"out".as_slice() {
        let (interface, words) = interface(alloc, names, words)?;
        return Ok((Place::AtOut(interface), words));
    }
    Err(LineError::Faulty(ScriptWhy::BadMove))
}

/// `area NAME`, `in DEV IF` or `out DEV IF`
#[tactic(auto, unfolding(crate::specs::Judging::place_in))]
pub fn place<'a>(
    alloc: Global,
    names: &NetNames,
    words: &'a [Word<'a>],
) -> Result<(Place, &'a [Word<'a>]), LineError<ScriptWhy>>
    ensures { Reads result (judging.place_in names.now (texts words.now)) }
{
    let (keyword, words) = next_word(words, ScriptWhy::BadMove)?;
    place_by(alloc, names, keyword, words)
}
