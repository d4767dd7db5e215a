//! Blocks of headers: a pattern or a span for each field.

ghost use Rattle.std.specs.Prelude.{◌≡◌, ◌≤◌};

use crate::headers::Header;
use crate::patterns::Ternary;
use crate::spans::Span;

/// The headers each of whose fields is in the field's pattern or span, valid or not. A block has
/// at least one header.
#[derive(Clone, Copy, Debug, PartialEq, Eq)]
pub struct Block {
    /// The source addresses.
    pub src: Ternary,
    /// The destination addresses.
    pub dst: Ternary,
    /// The protocols, at most 255.
    pub proto: Span,
    /// The source ports, or the types.
    pub a: Span,
    /// The destination ports, or the codes.
    pub b: Span,
    /// Whether a connection is established: 0 for no and 1 for yes.
    pub est: Span,
    /// The differentiated services code points, at most 63.
    pub dscp: Span,
    ghost proto_width: { proto.high ≤ 255 },
    ghost est_width: { est.high ≤ 1 },
    ghost dscp_width: { dscp.high ≤ 63 },
}

/// A field of a header that is an address, so that a block has a pattern for it.
#[derive(Clone, Copy, Debug, PartialEq, Eq)]
pub enum AddressField {
    /// The source.
    Src,
    /// The destination.
    Dst,
}

// A field of a block that has a span.
#[derive(Clone, Copy)]
pub(crate) enum SpanField {
    Proto,
    A,
    B,
    Est,
    Dscp,
}

impl Block {
    ghost use Rattle.std.specs.Prelude.{ℕ, ◌&&◌};
    ghost use Rattle.np_space.specs.Header.{IsLeast, has_widths};
    ghost use Rattle.np_space.specs.Ternary.{ternary_has};
    ghost use Rattle.np_space.specs.Block.{everything, block_has, address_of, address_number, span_of, has_with_address, has_with_span};
    ghost use Rattle.np_space.specs.declared.headers.Header.{Header};

    /// The block of the headers whose fields are of their widths: all addresses, the protocols to 255,
    /// all numbers in `a` and `b`, `est` set or not, and the code points to 63.
    pub fn everything() -> Block
        ensures is { result ≡ everything }
        ensures has { (h : Header) → block_has result h ≡ has_widths h }
    {
        let any = Ternary::any();
        let numbers = Span::from_to(0, u16::MAX);
        Block {
            src: any,
            dst: any,
            proto: Span::from_to(0, 255),
            a: numbers,
            b: numbers,
            est: Span::from_to(0, 1),
            dscp: Span::from_to(0, 63),
        }
    }

    /// The block of the headers whose address of this kind is in the pattern, and whose other fields are
    /// of their widths.
    #[tactic(auto, using(crate::proofs::AlgebraLemmas::address_alone))]
    pub fn of_address(field: AddressField, pattern: Ternary) -> Block
        ensures { (h : Header) → block_has result h ≡ (has_widths h && ternary_has pattern (address_number field h)) }
    {
        Block::everything().with_address(field, pattern)
    }

    /// Whether each field of the header is in the field's pattern or span; `est` counts as 0 or 1.
    #[tactic(auto, unfolding(crate::specs::Block::block_has))]
    pub fn has(&self, h: &Header) -> bool
        ensures { result ≡ block_has self.now h.now }
    {
        self.src.has(h.src)
            && self.dst.has(h.dst)
            && self.proto.has(u16::from(h.proto))
            && self.a.has(h.a)
            && self.b.has(h.b)
            && self.est.has(u16::from(h.est))
            && self.dscp.has(u16::from(h.dscp))
    }

    /// The least header that the block has, by `order`, valid or not.
    pub fn least(&self) -> Header
        ensures { IsLeast (block_has self.now) result }
    {
        Header {
            src: self.src.value,
            dst: self.dst.value,
            proto: self.proto.low as u8,
            a: self.a.low,
            b: self.b.low,
            est: self.est.low == 1,
            dscp: self.dscp.low as u8,
        }
    }

    // The field's pattern.
    pub(crate) fn address(&self, field: AddressField) -> Ternary
        ensures { result ≡ address_of field self.now }
    {
        match field {
            AddressField::Src => self.src,
            AddressField::Dst => self.dst,
        }
    }

    // The field's span.
    pub(crate) fn span(&self, field: SpanField) -> Span
        ensures { result ≡ span_of field self.now }
    {
        match field {
            SpanField::Proto => self.proto,
            SpanField::A => self.a,
            SpanField::B => self.b,
            SpanField::Est => self.est,
            SpanField::Dscp => self.dscp,
        }
    }

    // The block with another pattern in the field.
    #[tactic(auto, unfolding(crate::specs::Block::block_has, crate::specs::Block::has_with_address))]
    pub(crate) fn with_address(&self, field: AddressField, pattern: Ternary) -> Block
        ensures { (h : Header) → block_has result h ≡ has_with_address field pattern self.now h }
    {
        let mut block = *self;
        match field {
            AddressField::Src => block.src = pattern,
            AddressField::Dst => block.dst = pattern,
        }
        block
    }

    // The block with a span in the field that reaches no further than its own.
    #[tactic(auto, unfolding(crate::specs::Block::block_has, crate::specs::Block::has_with_span))]
    pub(crate) fn with_span(&self, field: SpanField, span: Span) -> Block
        requires { span.high ≤ (span_of field self.now).high }
        ensures { (h : Header) → block_has result h ≡ has_with_span field span self.now h }
    {
        let mut block = *self;
        match field {
            SpanField::Proto => block.proto = span,
            SpanField::A => block.a = span,
            SpanField::B => block.b = span,
            SpanField::Est => block.est = span,
            SpanField::Dscp => block.dscp = span,
        }
        block
    }
}
