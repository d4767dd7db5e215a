//! The bits of a header, each by its number.

ghost use Rattle.std.specs.Prelude.{◌≡◌, ◌<◌};
ghost use Rattle.np_space.specs.Bit.{has_bit};
ghost use Rattle.np_space.specs.Header.{HasWidths, has_widths};
ghost use Rattle.np_bdd.specs.Views.{bits_of_header};
ghost use Rattle.np_bdd.specs.Walking.{IsWithBit};

use np_space::Header;

/// Whether the fields of the header are of their widths. Only `dscp` can be too great for its own.
pub fn in_widths(h: &Header) -> bool
    ensures { result ≡ has_widths h.now }
{
    let _src = h.src;
    let _dst = h.dst;
    let _proto = h.proto;
    let _a = h.a;
    let _b = h.b;
    h.dscp < 64
}

/// The bit of the header: bit 0 is the highest of `src`, and bit 110 the lowest of `dscp`.
#[tactic(auto, using(crate::proofs::HeaderBits::header_places))]
pub fn header_bit(h: &Header, bit: u8) -> bool
    requires { bit < 111 }
    ensures { result ≡ bits_of_header h.now bit }
{
    match bit {
        0..=31 => has_bit(h.src, 31 - bit),
        32..=63 => has_bit(h.dst, 63 - bit),
        64..=71 => has_bit(h.proto as u32, 71 - bit),
        72..=87 => has_bit(h.a as u32, 87 - bit),
        88..=103 => has_bit(h.b as u32, 103 - bit),
        104 => h.est,
        _ => has_bit(h.dscp as u32, 110 - bit),
    }
}

/// The header with the bit set.
#[tactic(auto, using(crate::proofs::SetBits::field_sets))]
pub fn with_bit_set(h: Header, bit: u8) -> Header
    requires bit { bit < 111 }
    requires widths { HasWidths h }
    ensures { IsWithBit h result bit }
{
    match bit {
        0..=31 => Header {
            src: h.src | 1 << (31 - bit),
            ..h
        },
        32..=63 => Header {
            dst: h.dst | 1 << (63 - bit),
            ..h
        },
        64..=71 => Header {
            proto: h.proto | 1 << (71 - bit),
            ..h
        },
        72..=87 => Header {
            a: h.a | 1 << (87 - bit),
            ..h
        },
        88..=103 => Header {
            b: h.b | 1 << (103 - bit),
            ..h
        },
        104 => Header { est: true, ..h },
        _ => Header {
            dscp: h.dscp | 1 << (110 - bit),
            ..h
        },
    }
}

/// Whether the number has the bit that stands for 2 to the power of `i`.
#[tactic(auto, unfolding(np_space::specs::Bit::has_bit), using(std::proofs::lemmas::Nat::Bits::shr_and_one))]
pub(crate) fn has_bit(n: u32, i: u8) -> bool
    requires { i < 32 }
    ensures { result ≡ has_bit n i }
{
    (n >> i) & 1 == 1
}
