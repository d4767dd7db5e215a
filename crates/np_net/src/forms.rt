//! The forms of names.

ghost use Rattle.std.specs.Prelude.{◌≡◌};
ghost use Rattle.std.specs.List.{list_all};
ghost use Rattle.np_net.specs.Names as names;

use crate::limits::NAME_LIMIT;

fn is_name_byte(byte: u8) -> bool
    ensures { result ≡ names.is_name_byte byte }
{
    byte.is_ascii_alphabetic()
        || byte.is_ascii_digit()
        || byte == b'-'
        || byte == b'_'
        || byte == b'.'
}

fn is_interface_byte(byte: u8) -> bool
    ensures { result ≡ names.is_interface_byte byte }
{
    is_name_byte(byte) || byte == b'/' || byte == b':'
}

fn are_name_bytes(bytes: &[u8]) -> bool
    ensures { result ≡ list_all names.is_name_byte bytes.now }
{
    bytes.iter().all(|byte| is_name_byte(*byte))
}

fn are_interface_bytes(bytes: &[u8]) -> bool
    ensures { result ≡ list_all names.is_interface_byte bytes.now }
{
    bytes.iter().all(|byte| is_interface_byte(*byte))
}

/// Whether a word may name an interface: a letter, and then letters, digits, `/`, `.`, `:`, `-`
/// and `_`, 64 bytes at most in all.
pub fn is_interface_name(word: &[u8]) -> bool
    ensures { result ≡ names.is_interface_name word.now }
{
    let [first, rest @ ..] = word else {
        return false;
    };
    first.is_ascii_alphabetic() && are_interface_bytes(rest) && word.len() <= NAME_LIMIT
}

/// Whether a word has the form of a name.
fn is_named(word: &[u8]) -> bool
    ensures { result ≡ names.is_named_by names.is_name_byte word.now }
{
    let [first, rest @ ..] = word else {
        return false;
    };
    first.is_ascii_alphabetic() && are_name_bytes(rest) && word.len() <= NAME_LIMIT
}

/// Whether a word may name an area, a device or a security association: a letter, and then letters,
/// digits, `-`, `_` and `.`, 64 bytes at most in all. `none` is no name.
pub fn is_name(word: &[u8]) -> bool
    ensures { result ≡ names.is_name word.now }
{
    is_named(word) && word != b"none".as_slice()
}
