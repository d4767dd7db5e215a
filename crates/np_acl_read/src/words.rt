//! Single words of a configuration.

ghost use Rattle.std.specs.Prelude.{◌≡◌};
ghost use Rattle.np_lines.specs.Answers.{Gives};
ghost use Rattle.np_acl_read.specs.Words as judging;

use np_acl::{ListKind, Way};
use np_entry_read::ConfigWhy;
use np_lines::LineError;

/// The way of `in` or `out`.
pub fn way(word: &[u8]) -> Result<Way, LineError<ConfigWhy>>
    ensures { Gives result (judging.way_of word.now) }
{
    if word == b"in".as_slice() {
        return Ok(Way::Inward);
    }
    if word == b"out".as_slice() {
        return Ok(Way::Outward);
    }
    Err(LineError::Faulty(ConfigWhy::BadEntry))
}

/// Whether an entry permits, by its word `permit` or `deny`.
pub fn action(word: &[u8]) -> Option<bool>
    ensures { result ≡ judging.action_of word.now }
{
    if word == b"permit".as_slice() {
        return Some(true);
    }
    if word == b"deny".as_slice() {
        return Some(false);
    }
    None
}

/// The kind of the list of a number. `None` where the number is no list's.
pub fn kind_of_number(number: u64) -> Option<ListKind>
    ensures { result ≡ judging.kind_of_number number }
{
    match number {
        100..=199 | 2000..=2699 => Some(ListKind::Extended),
        1..=99 | 1300..=1999 => Some(ListKind::Standard),
        _ => None,
    }
}
