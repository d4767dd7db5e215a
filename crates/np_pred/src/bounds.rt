//! A number or a span of numbers as a word: `N`, or `N-M`.

ghost use Rattle.std.specs.Prelude.{◌≡◌, ◌++◌, OnOk, OnErr};
ghost use Rattle.np_text.specs.Appending.{AppendsFront};
ghost use Rattle.np_pred.specs.Bounds as spec;
ghost use Rattle.np_pred.specs.Bounds.{bounds_of, bounds_text};

use np_text::{number, put_number, split_once};
use std::alloc::AllocError;

// The two numbers, where the first is at most the second.
fn ordered(low: u64, high: u64) -> Option<(u64, u64)>
    ensures { result ≡ spec.ordered low high }
{
    if low <= high { Some((low, high)) } else { None }
}

/// The first and the last number that a word gives, each at most `max`: one number, or two with a
/// hyphen between them of which the first is at most the second. `None` for any other word.
pub(crate) fn bounds(word: &[u8], max: u64) -> Option<(u64, u64)>
    ensures { result ≡ bounds_of max word.now }
{
    match split_once(word, b'-') {
        None => {
            let only = number(word, max)?;
            Some((only, only))
        }
        Some((low, high)) => ordered(number(low, max)?, number(high, max)?),
    }
}

/// Appends the word of the numbers from `low` to `high`: one number where they are the same.
///
/// Where memory runs out, a part of the word may have been appended.
pub(crate) fn put_bounds(out: &mut Vec<u8>, low: u64, high: u64) -> Result<(), AllocError>
    ensures ok { OnOk result (out.new.items ≡ out.old.items ++ bounds_text low high) }
    ensures err { OnErr result (AppendsFront out.old.items out.new.items (bounds_text low high)) }
{
    if low == high {
        return put_number(out, low);
    }
    put_number(out, low)?;
    out.push(b'-')?;
    put_number(out, high)
}
