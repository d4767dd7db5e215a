//! Blocks that test a field or two of valid headers. Each other field is as in the block of everything.

ghost use Rattle.std.specs.Prelude.{◌≡◌, ◌==◌, ◌&&◌, ◌≤◌, ℕ, Bool};
ghost use Rattle.np_space.specs.Block.{block_has, fields_have};
ghost use Rattle.np_space.specs.Flag.{flag_number};
ghost use Rattle.np_space.specs.Span.{span_has};
ghost use Rattle.np_space.specs.declared.headers.Header.{Header};
ghost use Rattle.np_cut.specs.FieldTests.{TestsOnValid};

use np_space::{Block, Span, Ternary};

// One protocol.
fn protocol(number: u8) -> Span
    ensures high { result.high ≤ 255 }
    ensures has { (x : ℕ) → span_has result x ≡ (x == number) }
{
    Span::only(u16::from(number))
}

// The span of the flag where it is set.
fn set_flag() -> Span
    ensures high { result.high ≤ 1 }
    ensures has { (e : Bool) → span_has result (flag_number e) ≡ e }
{
    Span { low: 1, high: 1 }
}

// The block with these fields.
#[allow(clippy::too_many_arguments)]
fn block_of(
    src: Ternary,
    dst: Ternary,
    proto: Span,
    a: Span,
    b: Span,
    est: Span,
    dscp: Span,
) -> Block
    requires proto { proto.high ≤ 255 }
    requires est { est.high ≤ 1 }
    requires dscp { dscp.high ≤ 63 }
    ensures { (h : Header) → block_has result h ≡ fields_have src dst proto a b est dscp h }
{
    Block {
        src,
        dst,
        proto,
        a,
        b,
        est,
        dscp,
    }
}

/// The headers of a protocol.
pub fn of_protocol(number: u8) -> Block
    ensures { TestsOnValid result (λ h. h.proto == number) }
{
    let all = Block::everything();
    let proto = protocol(number);
    block_of(all.src, all.dst, proto, all.a, all.b, all.est, all.dscp)
}

/// The headers of a protocol with a source port, or a type, in the span.
pub fn of_first_number(number: u8, a: Span) -> Block
    ensures { TestsOnValid result (λ h. h.proto == number && span_has a h.a) }
{
    let all = Block::everything();
    let proto = protocol(number);
    block_of(all.src, all.dst, proto, a, all.b, all.est, all.dscp)
}

/// The headers of a protocol with a destination port, or a code, in the span.
pub fn of_second_number(number: u8, b: Span) -> Block
    ensures { TestsOnValid result (λ h. h.proto == number && span_has b h.b) }
{
    let all = Block::everything();
    let proto = protocol(number);
    block_of(all.src, all.dst, proto, all.a, b, all.est, all.dscp)
}

/// The headers of established connections.
pub fn of_established() -> Block
    ensures { TestsOnValid result (λ h. h.est) }
{
    let all = Block::everything();
    let set = set_flag();
    block_of(all.src, all.dst, all.proto, all.a, all.b, set, all.dscp)
}

/// The headers with a code point in the span.
pub fn of_code_points(dscp: Span) -> Block
    requires { dscp.high ≤ 63 }
    ensures { TestsOnValid result (λ h. span_has dscp h.dscp) }
{
    let all = Block::everything();
    block_of(all.src, all.dst, all.proto, all.a, all.b, all.est, dscp)
}
