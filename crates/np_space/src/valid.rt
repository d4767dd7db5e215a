//! The valid headers, as blocks.

ghost use Rattle.std.specs.Prelude.{◌≡◌, ◌≤◌, map};
ghost use Rattle.np_space.specs.Flag.{flag_number};
ghost use Rattle.np_space.specs.Header.{is_valid_header};
ghost use Rattle.np_space.specs.Block.{block_numbers, anywhere, valid_table, count_having, any_has, AreDisjoint};
ghost use Rattle.np_space.specs.declared.headers.Header.{Header};

use crate::blocks::Block;
use crate::patterns::Ternary;
use crate::spans::Span;

// Any addresses and code points, the protocols from `first` to `last`, and the numbers up to `most`
// in `a` and `b` and up to `flags` in `est`.
fn block_anywhere(first: u8, last: u8, most: u16, flags: u16) -> Block
    requires ordered { first ≤ last }
    requires flags { flags ≤ 1 }
    ensures { block_numbers result ≡ anywhere first last most flags }
{
    let any = Ternary::any();
    let numbers = Span { low: 0, high: most };
    Block {
        src: any,
        dst: any,
        proto: Span {
            low: u16::from(first),
            high: u16::from(last),
        },
        a: numbers,
        b: numbers,
        est: Span {
            low: 0,
            high: flags,
        },
        dscp: Span { low: 0, high: 63 },
    }
}

/// The seven blocks of the valid headers, of which no two have a header in common: with any
/// addresses and any code point the protocols 0; 1 with types and codes up to 255; 2 to 5; 6 with any
/// ports and `est`; 7 to 16; 17 with any ports; 18 to 255. The protocols' numbers are IANA's.
pub fn valid_blocks() -> [Block; 7]
    ensures listed { map block_numbers result ≡ valid_table }
    ensures once { (h : Header) → count_having result h ≡ flag_number (is_valid_header h) }
    ensures together { (h : Header) → any_has result h ≡ is_valid_header h }
    ensures disjoint { AreDisjoint result }
{
    [
        block_anywhere(0, 0, 0, 0),
        block_anywhere(1, 1, 255, 0),
        block_anywhere(2, 5, 0, 0),
        block_anywhere(6, 6, u16::MAX, 1),
        block_anywhere(7, 16, 0, 0),
        block_anywhere(17, 17, u16::MAX, 0),
        block_anywhere(18, 255, 0, 0),
    ]
}
