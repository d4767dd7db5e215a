//! Lists of prefixes as words.

ghost use Rattle.std.specs.Prelude.{◌≡◌, ◌++◌, ◌∷◌, [], ◌<◌, length, IfOk, IfSome, IfNone, OnOk, OnErr, IsTrue};
ghost use Rattle.std.specs.List.{slice_split, flat_map};
ghost use Rattle.std.specs.Option.{option_map};
ghost use Rattle.np_text.specs.Appending.{AppendsFront};
ghost use Rattle.np_space.specs.Patterns.{is_prefix};
ghost use Rattle.np_pred.specs.Patterns.{is_comma, are_prefixes, pattern_of, patterns_of, addresses_of, prefix_text, addresses_text};

use np_space::Ternary;
use np_text::{prefix, put_address, put_bytes, put_number, split_once};
use sqlite_items::Items;
use std::alloc::{AllocError, Global};

fn pattern(word: &[u8]) -> Option<Ternary>
    ensures pattern { result ≡ pattern_of word.now }
    ensures prefix { IfSome result (λ p. IsTrue (is_prefix p)) }
{
    let (address, length) = prefix(word)?;
    Some(Ternary::prefix(address, length))
}

// What stands before the first comma, and what stands after it. `None` where there is no comma.
fn split_comma(word: &[u8]) -> Option<(&[u8], &[u8])>
    ensures none { IfNone result (slice_split is_comma word.now ≡ word.now ∷ []) }
    ensures parts { IfSome result (λ r. slice_split is_comma word.now ≡ r.0.now ∷ slice_split is_comma r.1.now) }
    ensures shorter { IfSome result (λ r. length r.1.now < length word.now) }
{
    split_once(word, b',')
}

// The prefixes that stand between commas, if each is one.
fn patterns(alloc: Global, word: &[u8]) -> Result<Option<Vec<Ternary>>, AllocError>
    ensures patterns { IfOk result (λ found. option_map (λ v. v.items) found ≡ patterns_of (slice_split is_comma word.now)) }
    ensures prefixes { IfOk result (λ found. IfSome found (λ v. IsTrue (are_prefixes v.items))) }
{
    let mut patterns = Vec::new(alloc);
    let mut rest = word;
    while let Some((part, more)) = split_comma(rest) {
        let Some(next) = pattern(part) else {
            return Ok(None);
        };
        patterns.push(next)?;
        rest = more;
    }
    let Some(last) = pattern(rest) else {
        return Ok(None);
    };
    patterns.push(last)?;
    Ok(Some(patterns))
}

/// The addresses that a word gives: `none`, or prefixes (RFC 4632) joined by commas without blanks.
/// `Ok(None)` for any other word.
#[tactic(auto, unfolding(crate::specs::Patterns::addresses_of))]
pub fn addresses(alloc: Global, word: &[u8]) -> Result<Option<Items<Ternary>>, AllocError>
    ensures addresses { IfOk result (λ found. found ≡ addresses_of word.now) }
    ensures prefixes { IfOk result (λ found. IfSome found (λ patterns. IsTrue (are_prefixes patterns))) }
{
    if word == b"none".as_slice() {
        return Ok(Some(Items::new(alloc)));
    }
    match patterns(alloc, word)? {
        Some(patterns) => Ok(Some(Items::from_vec(patterns))),
        None => Ok(None),
    }
}

// Appends a prefix with its length.
fn put_prefix(out: &mut Vec<u8>, pattern: &Ternary) -> Result<(), AllocError>
    ensures ok { OnOk result (out.new.items ≡ out.old.items ++ prefix_text pattern.now) }
    ensures err { OnErr result (AppendsFront out.old.items out.new.items (prefix_text pattern.now)) }
{
    put_address(out, pattern.value)?;
    out.push(b'/')?;
    put_number(out, u64::from(32 - pattern.wild.count_ones()))
}

// Appends a comma and a prefix.
fn put_next_prefix(out: &mut Vec<u8>, pattern: &Ternary) -> Result<(), AllocError>
    ensures ok { OnOk result (out.new.items ≡ out.old.items ++ 44 ∷ prefix_text pattern.now) }
    ensures err { OnErr result (AppendsFront out.old.items out.new.items (44 ∷ prefix_text pattern.now)) }
{
    out.push(b',')?;
    put_prefix(out, pattern)
}

// Appends prefixes, each after a comma.
fn put_next_prefixes(out: &mut Vec<u8>, patterns: &[Ternary]) -> Result<(), AllocError>
    ensures ok { OnOk result (out.new.items ≡ out.old.items ++ flat_map (λ p. 44 ∷ prefix_text p) patterns.now) }
    ensures err { OnErr result (AppendsFront out.old.items out.new.items (flat_map (λ p. 44 ∷ prefix_text p) patterns.now)) }
{
    for pattern in patterns {
        put_next_prefix(out, pattern)?;
    }
    Ok(())
}

/// Appends a list of prefixes as one word, which [`addresses`] reads: each with its length, or
/// `none` where there is none.
///
/// Where memory runs out, a part of the word may have been appended.
pub fn put_addresses(out: &mut Vec<u8>, patterns: &[Ternary]) -> Result<(), AllocError>
    ensures ok { OnOk result (out.new.items ≡ out.old.items ++ addresses_text patterns.now) }
    ensures err { OnErr result (AppendsFront out.old.items out.new.items (addresses_text patterns.now)) }
{
    let [first, rest @ ..] = patterns else {
        return put_bytes(out, b"none");
    };
    put_prefix(out, first)?;
    put_next_prefixes(out, rest)
}
