ghost use Rattle.std.specs.Prelude.{◌≡◌, ◌≢◌, ◌≤◌, ◌∷◌, [], ◌++◌, length, IfSome, IfNone, OnOk, OnErr};
ghost use Rattle.std.specs.Fmt.{decimal};
ghost use Rattle.std.specs.List.{slice_split};
ghost use Rattle.np_text.specs.Addresses.{is_dot, octet_of, address_of, front_bits, prefix_of, dotted};
ghost use Rattle.np_text.specs.Appending.{AppendsFront};

use crate::cutting::split_once;
use crate::decimals::{number, put_number};
use std::alloc::AllocError;

/// The number of one to three digits, up to 255.
fn octet(part: &[u8]) -> Option<u8>
    ensures { result ≡ octet_of part.now }
{
    if part.len() > 3 {
        return None;
    }
    let value = number(part, 255)?;
    Some(value as u8)
}

/// What stands before the first dot, and what stands after it. `None` where there is no dot.
fn split_dot(word: &[u8]) -> Option<(&[u8], &[u8])>
    ensures none { IfNone result (slice_split is_dot word.now ≡ word.now ∷ []) }
    ensures parts { IfSome result (λ r. slice_split is_dot word.now ≡ r.0.now ∷ slice_split is_dot r.1.now) }
{
    split_once(word, b'.')
}

/// The four parts between dots. `None` where there are more or fewer.
fn four_parts(word: &[u8]) -> Option<(&[u8], &[u8], &[u8], &[u8])>
    ensures none { IfNone result (length (slice_split is_dot word.now) ≢ 4) }
    ensures parts { IfSome result (λ r. slice_split is_dot word.now ≡ r.0.now ∷ r.1.now ∷ r.2.now ∷ r.3.now ∷ []) }
{
    let (first, rest) = split_dot(word)?;
    let (second, rest) = split_dot(rest)?;
    let (third, fourth) = split_dot(rest)?;
    match split_dot(fourth) {
        Some(_) => None,
        None => Some((first, second, third, fourth)),
    }
}

/// The IPv4 address (RFC 791) that a word writes in dotted decimal: four parts of one to three
/// digits, each at most 255, joined by dots. The first part is the high byte. `None` for any other
/// word.
pub fn address(word: &[u8]) -> Option<u32>
    ensures { result ≡ address_of word.now }
{
    let (first, second, third, fourth) = four_parts(word)?;
    let bytes = [octet(first)?, octet(second)?, octet(third)?, octet(fourth)?];
    Some(u32::from_be_bytes(bytes))
}

/// The first `length` bits of an address; the others are 0.
fn front_bits(address: u32, length: u8) -> u32
    requires { length ≤ 32 }
    ensures { result ≡ front_bits address length }
{
    let unit = 1u64 << (32 - length);
    (u64::from(address) / unit * unit) as u32
}

/// The address and the length of a prefix, as CIDR writes it (RFC 4632): an address alone, with
/// length 32, or `address/length` with a length from 0 to 32. Bits past the length are cleared.
/// `None` for any other word.
pub fn prefix(word: &[u8]) -> Option<(u32, u8)>
    ensures { result ≡ prefix_of word.now }
{
    match split_once(word, b'/') {
        None => Some((address(word)?, 32)),
        Some((whole, size)) => {
            let whole = address(whole)?;
            let length = number(size, 32)? as u8;
            Some((front_bits(whole, length), length))
        }
    }
}

/// Appends an IPv4 address (RFC 791) in dotted decimal, without leading zeros.
///
/// Where memory runs out, which alone is an error, a prefix of the text may have been appended.
pub fn put_address(out: &mut Vec<u8>, value: u32) -> Result<(), AllocError>
    ensures ok { OnOk result (out.new.items ≡ out.old.items ++ dotted value) }
    ensures err { OnErr result (AppendsFront out.old.items out.new.items (dotted value)) }
{
    let [first, second, third, fourth] = value.to_be_bytes();
    put_before_dot(out, first)?;
    put_before_dot(out, second)?;
    put_before_dot(out, third)?;
    put_number(out, u64::from(fourth))
}

/// Appends one of the first three numbers of an address, and a dot.
fn put_before_dot(out: &mut Vec<u8>, octet: u8) -> Result<(), AllocError>
    ensures ok { OnOk result (out.new.items ≡ out.old.items ++ (decimal octet ++ 46 ∷ [])) }
    ensures err { OnErr result (AppendsFront out.old.items out.new.items (decimal octet ++ 46 ∷ [])) }
{
    put_number(out, u64::from(octet))?;
    out.push(b'.')?;
    Ok(())
}
