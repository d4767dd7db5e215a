//! The canonical text of predicates.

ghost use Rattle.std.specs.Prelude.{◌≡◌, ◌++◌, ◌∷◌, [], OnOk, OnErr, IsTrue, codes};
ghost use Rattle.std.specs.Fmt.{decimal};
ghost use Rattle.std.specs.List.{join_with_byte};
ghost use Rattle.np_text.specs.Appending.{AppendsFront};
ghost use Rattle.np_pred.specs.Canonical.{protocol_words, pred_text, written};
ghost use Rattle.np_pred.specs.Forms.{has_prefixes};
ghost use Rattle.np_pred.specs.Patterns.{addresses_text};
ghost use Rattle.np_pred.specs.Dscp.{dscp_text};
ghost use Rattle.np_pred.specs.Ports.{ports_text};

use crate::address_lists::put_addresses;
use crate::dscp::DscpSpan;
use crate::dscp_words::put_dscp_span;
use crate::ports::put_ports;
use crate::predicate::Pred;
use np_space::{Span, Ternary};
use np_text::{put_bytes, put_number};
use std::alloc::AllocError;

// Appends a word with a space after it, and a number.
fn put_with_number(out: &mut Vec<u8>, word: &[u8], value: u8) -> Result<(), AllocError>
    ensures ok { OnOk result (out.new.items ≡ out.old.items ++ (word.now ++ decimal value)) }
    ensures err { OnErr result (AppendsFront out.old.items out.new.items (word.now ++ decimal value)) }
{
    put_bytes(out, word)?;
    put_number(out, u64::from(value))
}

// Appends a word with a space after it, and a list of prefixes.
fn put_with_addresses(
    out: &mut Vec<u8>,
    word: &[u8],
    patterns: &[Ternary],
) -> Result<(), AllocError>
    ensures ok { OnOk result (out.new.items ≡ out.old.items ++ (word.now ++ addresses_text patterns.now)) }
    ensures err { OnErr result (AppendsFront out.old.items out.new.items (word.now ++ addresses_text patterns.now)) }
{
    put_bytes(out, word)?;
    put_addresses(out, patterns)
}

// Appends a word with a space after it, and a span of ports.
fn put_with_ports(out: &mut Vec<u8>, word: &[u8], ports: &Span) -> Result<(), AllocError>
    ensures ok { OnOk result (out.new.items ≡ out.old.items ++ (word.now ++ ports_text ports.now)) }
    ensures err { OnErr result (AppendsFront out.old.items out.new.items (word.now ++ ports_text ports.now)) }
{
    put_bytes(out, word)?;
    put_ports(out, ports)
}

// Appends a word with a space after it, and a span of DSCP values.
fn put_with_dscp(out: &mut Vec<u8>, word: &[u8], span: &DscpSpan) -> Result<(), AllocError>
    ensures ok { OnOk result (out.new.items ≡ out.old.items ++ (word.now ++ dscp_text span.now)) }
    ensures err { OnErr result (AppendsFront out.old.items out.new.items (word.now ++ dscp_text span.now)) }
{
    put_bytes(out, word)?;
    put_dscp_span(out, span)
}

// Appends the words of a protocol.
#[tactic(auto, unfolding(crate::specs::Canonical::protocol_words))]
fn put_protocol(out: &mut Vec<u8>, number: u8) -> Result<(), AllocError>
    ensures ok { OnOk result (out.new.items ≡ out.old.items ++ join_with_byte 32 (protocol_words number)) }
    ensures err { OnErr result (AppendsFront out.old.items out.new.items (join_with_byte 32 (protocol_words number))) }
{
    match number {
        1 => put_bytes(out, b"icmp"),
        6 => put_bytes(out, b"tcp"),
        17 => put_bytes(out, b"udp"),
        _ => put_with_number(out, b"proto ", number),
    }
}

// Appends the words of a predicate, operand by operand.
fn put_words(out: &mut Vec<u8>, p: &Pred) -> Result<(), AllocError>
    ensures ok { OnOk result (out.new.items ≡ out.old.items ++ written p.now) }
    ensures err { OnErr result (AppendsFront out.old.items out.new.items (written p.now)) }
{
    match p {
        Pred::Any => put_bytes(out, b"any"),
        Pred::Nothing => put_bytes(out, b"nothing"),
        Pred::Proto(number) => put_protocol(out, *number),
        Pred::Src(patterns) => put_with_addresses(out, b"src ", patterns.as_slice()),
        Pred::Dst(patterns) => put_with_addresses(out, b"dst ", patterns.as_slice()),
        Pred::SrcPort(ports) => put_with_ports(out, b"sport ", ports),
        Pred::DstPort(ports) => put_with_ports(out, b"dport ", ports),
        Pred::IcmpType(number) => put_with_number(out, b"type ", *number),
        Pred::IcmpCode(number) => put_with_number(out, b"code ", *number),
        Pred::Dscp(span) => put_with_dscp(out, b"dscp ", span),
        Pred::Established => put_bytes(out, b"established"),
        Pred::Not(operand) => {
            put_bytes(out, b"not ")?;
            put_words(out, operand.get())
        }
        Pred::And(first, second) => {
            put_bytes(out, b"and ")?;
            put_words(out, first.get())?;
            put_bytes(out, b" ")?;
            put_words(out, second.get())
        }
        Pred::Or(first, second) => {
            put_bytes(out, b"or ")?;
            put_words(out, first.get())?;
            put_bytes(out, b" ")?;
            put_words(out, second.get())
        }
    }
}

/// Appends the canonical words of a predicate, joined by one space. The names of areas are gone:
/// their prefixes stand in their place, each with its length.
///
/// Where memory runs out, a part of the text may have been appended.
#[tactic(auto, using(crate::proofs::CanonicalLaws::written_is_text))]
pub fn put_pred(out: &mut Vec<u8>, p: &Pred) -> Result<(), AllocError>
    requires { IsTrue (has_prefixes p.now) }
    ensures ok { OnOk result (out.new.items ≡ out.old.items ++ pred_text p.now) }
    ensures err { OnErr result (AppendsFront out.old.items out.new.items (pred_text p.now)) }
{
    put_words(out, p)
}
