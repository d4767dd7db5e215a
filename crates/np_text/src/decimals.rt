ghost use Rattle.std.specs.Prelude.{◌≡◌, ◌+◌, ◌<◌, ◌++◌, OnOk, OnErr};
ghost use Rattle.std.specs.Char.{is_ascii_digit};
ghost use Rattle.std.specs.Fmt.{decimal};
ghost use Rattle.std.specs.List.{list_all};
ghost use Rattle.np_text.specs.Appending.{AppendsFront};
ghost use Rattle.np_text.specs.Numbers.{is_numeral, number_of, with_digit};

use std::alloc::AllocError;

/// The value followed by one more digit. `None` where that is no digit, or past `max`.
fn with_digit(max: u64, value: u64, byte: u8) -> Option<u64>
    ensures { result ≡ with_digit max value byte }
{
    if !byte.is_ascii_digit() {
        return None;
    }
    let more = value.checked_mul(10)?.checked_add(u64::from(byte - b'0'))?;
    if more <= max { Some(more) } else { None }
}

/// The value of a word of decimal digits, of any count and with any leading zeros.
///
/// `None` where the word is empty or has another byte, and where the value is greater than `max`,
/// which may be any number.
pub fn number(word: &[u8], max: u64) -> Option<u64>
    ensures { result ≡ number_of word.now max }
{
    if word.is_empty() {
        return None;
    }
    let mut value = 0;
    for byte in word {
        value = with_digit(max, value, *byte)?;
    }
    Some(value)
}

fn are_digits(word: &[u8]) -> bool
    ensures { result ≡ list_all is_ascii_digit word.now }
{
    word.iter().all(|byte| byte.is_ascii_digit())
}

/// Whether a word is one decimal digit or more, and nothing else.
#[tactic(auto, using(crate::proofs::NumberLaws::all_digits))]
pub fn is_numeral(word: &[u8]) -> bool
    ensures { result ≡ is_numeral word.now }
{
    !word.is_empty() && are_digits(word)
}

/// The digit of a number below ten.
fn digit(value: u64) -> u8
    requires { value < 10 }
    ensures { result ≡ 48 + value }
{
    b'0' + value as u8
}

/// Appends a number in decimal, without leading zeros.
///
/// Where memory runs out, which alone is an error, a prefix of its digits may have been appended.
pub fn put_number(out: &mut Vec<u8>, value: u64) -> Result<(), AllocError>
    ensures ok { OnOk result (out.new.items ≡ out.old.items ++ decimal value) }
    ensures err { OnErr result (AppendsFront out.old.items out.new.items (decimal value)) }
{
    if value < 10 {
        out.push(digit(value))?;
        return Ok(());
    }
    put_number(out, value / 10)?;
    out.push(digit(value % 10))?;
    Ok(())
}
