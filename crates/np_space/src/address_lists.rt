//! Lists of patterns.

ghost use Rattle.std.specs.Prelude.{◌≡◌};
ghost use Rattle.np_space.specs.Patterns.{any_pattern_has};

use crate::patterns::Ternary;

/// Whether one of the patterns has the address.
pub fn any_pattern_has(patterns: &[Ternary], address: u32) -> bool
    ensures { result ≡ any_pattern_has patterns.now address }
{
    patterns.iter().any(|pattern| pattern.has(address))
}
