//! Words and lines that several reports have.

ghost use Rattle.std.specs.Prelude.{◌≡◌, ◌++◌, ◌∷◌, ◌<◌, [], length, codes, OnOk, OnErr};
ghost use Rattle.std.specs.Fmt.{decimal};
ghost use Rattle.std.specs.List.{All};
ghost use Rattle.np_text.specs.Addresses.{dotted};
ghost use Rattle.np_text.specs.Appending.{AppendsFront};
ghost use Rattle.np_space.specs.Flag.{flag_number};
ghost use Rattle.np_net_text.specs.CanonicalText.{line_text, lines_text, spaced};
ghost use Rattle.np_script.specs.Written.{dscp_words, header_words};
ghost use Rattle.np_report.specs.Words.{hop_words, hop_lines};

use np_net::{IfId, Network, device_name, device_of, interface_name};
use np_net_text::put_word;
use np_space::Header;
use np_text::{put_address, put_number};
use std::alloc::AllocError;

/// Appends a number in decimal after a space.
///
/// Where memory runs out, which alone is an error, a prefix of both may have been appended.
pub fn put_number_word(text: &mut Vec<u8>, value: u64) -> Result<(), AllocError>
    ensures ok { OnOk result (text.new.items ≡ text.old.items ++ 32 ∷ decimal value) }
    ensures err { OnErr result (AppendsFront text.old.items text.new.items (32 ∷ decimal value)) }
{
    text.push(b' ')?;
    put_number(text, value)
}

fn flag_number(flag: bool) -> u64
    ensures { result ≡ flag_number flag }
{
    if flag { 1 } else { 0 }
}

// Appends an address after a space.
fn put_address_word(text: &mut Vec<u8>, address: u32) -> Result<(), AllocError>
    ensures ok { OnOk result (text.new.items ≡ text.old.items ++ 32 ∷ dotted address) }
    ensures err { OnErr result (AppendsFront text.old.items text.new.items (32 ∷ dotted address)) }
{
    text.push(b' ')?;
    put_address(text, address)
}

// Appends the word of a code point after a space.
fn put_dscp_word(text: &mut Vec<u8>, dscp: u8) -> Result<(), AllocError>
    ensures ok { OnOk result (text.new.items ≡ text.old.items ++ 32 ∷ (codes "dscp=" ++ decimal dscp)) }
    ensures err { OnErr result (AppendsFront text.old.items text.new.items (32 ∷ (codes "dscp=" ++ decimal dscp))) }
{
    put_word(text, b"dscp=")?;
    put_number(text, u64::from(dscp))
}

// Appends the word of a code point after a space, or nothing where it is 0.
fn put_dscp(text: &mut Vec<u8>, dscp: u8) -> Result<(), AllocError>
    ensures ok { OnOk result (text.new.items ≡ text.old.items ++ spaced (dscp_words dscp)) }
    ensures err { OnErr result (AppendsFront text.old.items text.new.items (spaced (dscp_words dscp))) }
{
    if dscp == 0 {
        Ok(())
    } else {
        put_dscp_word(text, dscp)
    }
}

// Appends the words of a header's addresses and of its protocol, each after a space.
fn put_ends(text: &mut Vec<u8>, src: u32, dst: u32, proto: u8) -> Result<(), AllocError>
    ensures ok { OnOk result (text.new.items ≡ text.old.items ++ spaced (dotted src ∷ dotted dst ∷ decimal proto ∷ [])) }
    ensures err { OnErr result (AppendsFront text.old.items text.new.items (spaced (dotted src ∷ dotted dst ∷ decimal proto ∷ []))) }
{
    put_address_word(text, src)?;
    put_address_word(text, dst)?;
    put_number_word(text, u64::from(proto))
}

// Appends the words of two numbers and a flag, each after a space.
fn put_numbers(text: &mut Vec<u8>, a: u16, b: u16, flag: bool) -> Result<(), AllocError>
    ensures ok { OnOk result (text.new.items ≡ text.old.items ++ spaced (decimal a ∷ decimal b ∷ decimal (flag_number flag) ∷ [])) }
    ensures err { OnErr result (AppendsFront text.old.items text.new.items (spaced (decimal a ∷ decimal b ∷ decimal (flag_number flag) ∷ []))) }
{
    put_number_word(text, u64::from(a))?;
    put_number_word(text, u64::from(b))?;
    put_number_word(text, flag_number(flag))
}

/// Appends the words of a header, each after a space.
///
/// Where memory runs out, which alone is an error, a prefix of them may have been appended.
pub fn put_header(text: &mut Vec<u8>, h: &Header) -> Result<(), AllocError>
    ensures ok { OnOk result (text.new.items ≡ text.old.items ++ spaced (header_words h.now)) }
    ensures err { OnErr result (AppendsFront text.old.items text.new.items (spaced (header_words h.now))) }
{
    put_ends(text, h.src, h.dst, h.proto)?;
    put_numbers(text, h.a, h.b, h.est)?;
    put_dscp(text, h.dscp)
}

// Appends the line of a hop.
fn put_hop(text: &mut Vec<u8>, net: &Network, hop: (IfId, IfId)) -> Result<(), AllocError>
    requires { hop.0 < length net.now.interfaces }
    ensures { OnOk result (text.new.items ≡ text.old.items ++ line_text (hop_words net.now hop)) }
{
    let (inward, outward) = hop;
    text.extend_from_slice(b"hop")?;
    put_word(text, device_name(net, device_of(net, inward)))?;
    put_word(text, interface_name(net, inward))?;
    put_word(text, interface_name(net, outward))?;
    text.push(b'\n')?;
    Ok(())
}

// Appends the lines of hops.
pub(crate) fn put_hops(
    text: &mut Vec<u8>,
    net: &Network,
    hops: &[(IfId, IfId)],
) -> Result<(), AllocError>
    requires { All (λ hop. (hop.0 < length net.now.interfaces) × (hop.1 < length net.now.interfaces)) hops.now }
    ensures { OnOk result (text.new.items ≡ text.old.items ++ lines_text (hop_lines net.now hops.now)) }
{
    for hop in hops {
        put_hop(text, net, *hop)?;
    }
    Ok(())
}
