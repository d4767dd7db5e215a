//! What a case is given: the words of its command line, and its files.

ghost use Rattle.std.specs.Prelude.{◌≡◌, IfOk};
ghost use Rattle.std.specs.FinMap.{empty};
ghost use Rattle.np_outside.specs.MemShelf.{state};
ghost use Rattle.np_top.specs.Outcome.{texts_of};
ghost use Rattle.np_cases.specs.Given.{texts, with_files, fresh_with};

use np_outside::MemShelf;
use std::alloc::{AllocError, Global};

/// The words of a command line, in their order. It fails only for want of memory.
pub fn words(alloc: Global, words: &[&str]) -> Result<Vec<String>, AllocError>
    ensures { IfOk result (λ owned. texts_of owned.items ≡ texts words.now) }
{
    let mut owned = Vec::new(alloc);
    for word in words {
        owned.push(String::from_str(alloc, word)?)?;
    }
    Ok(owned)
}

/// A shelf with these files, each a name and its text: of two with one name the later counts. No call has been made,
/// and none is to fail. It fails only for want of memory.
pub fn shelf(alloc: Global, files: &[(&str, &str)]) -> Result<MemShelf, AllocError>
    ensures { IfOk result (λ shelf. state shelf ≡ fresh_with (with_files empty files.now)) }
{
    let mut shelf = MemShelf::new(alloc);
    for (name, text) in files {
        shelf.put(name.as_bytes(), text.as_bytes())?;
    }
    Ok(shelf)
}
