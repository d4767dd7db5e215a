//! Patterns of 32 bits: an address and a wildcard.

ghost use Rattle.std.specs.Prelude.{◌≡◌, ◌<◌, ◌^◌, bit_and};

/// The numbers that agree with `value` on each bit that isn't set in `wild`. This is the address
/// and wildcard of Cisco's access lists (Cisco IOS, command `access-list`; Guttman and Herzog 2005);
/// the wild bits need not be next to each other.
#[derive(Clone, Copy, Debug, PartialEq, Eq)]
pub struct Ternary {
    /// The bits to agree with; 0 on each wild bit.
    pub value: u32,
    /// The bits that may be anything.
    pub wild: u32,
    ghost cleared: { bit_and value wild ≡ 0 },
    ghost value_width: { value < 2 ^ 32 },
    ghost wild_width: { wild < 2 ^ 32 },
}

impl Ternary {
    ghost use Rattle.std.specs.Prelude.{ℕ, ◌+◌, ◌≤◌, ◌≢◌, ◌&&◌, ◌==◌, nat_lt, IfSome, IsTrue};
    ghost use Rattle.np_space.specs.Bit.{has_bit};
    ghost use Rattle.np_space.specs.Flag.{flag_number, some_has};
    ghost use Rattle.np_space.specs.Ternary.{ternary_has, pattern_has, IsNarrower, SameBit};
    ghost use Rattle.np_space.specs.Patterns.{any_address, host, is_prefix, pattern, prefix_pattern};

    /// Every address.
    pub fn any() -> Ternary
        ensures is { result ≡ any_address }
        ensures has { (x : ℕ) → ternary_has result x ≡ nat_lt x (2 ^ 32) }
    {
        Ternary {
            value: 0,
            wild: u32::MAX,
        }
    }

    /// One address.
    pub fn host(address: u32) -> Ternary
        ensures is { result ≡ host address }
        ensures has { (x : ℕ) → ternary_has result x ≡ x == address }
    {
        Ternary::of(address, 0)
    }

    /// The addresses that have the first `length` bits of the address: a prefix, as RFC 4632 writes it.
    /// The length is at most 32.
    pub fn prefix(address: u32, length: u8) -> Ternary
        requires { length ≤ 32 }
        ensures is { result ≡ prefix_pattern address length }
        ensures prefix { IsTrue (is_prefix result) }
    {
        let unit = 1u64 << (32 - length);
        Ternary {
            value: (u64::from(address) / unit * unit) as u32,
            wild: (unit - 1) as u32,
        }
    }

    /// The pattern of this value and these wild bits, whatever the value has there.
    pub fn of(value: u32, wild: u32) -> Ternary
        ensures is { result ≡ pattern value wild }
        ensures exact { (x : ℕ) → ternary_has result x ≡ pattern_has value wild x }
        ensures wild { result.wild ≡ wild }
    {
        Ternary {
            value: value & !wild,
            wild,
        }
    }

    /// Whether the number agrees with the value on each bit that isn't wild.
    pub fn has(&self, x: u32) -> bool
        ensures { result ≡ ternary_has self.now x }
    {
        x & !self.wild == self.value
    }

    // The common numbers, if there are any.
    pub(crate) fn meet(&self, other: &Ternary) -> Option<Ternary>
        ensures exact { (x : ℕ) → some_has ternary_has result x ≡ (ternary_has self.now x && ternary_has other.now x) }
        ensures narrower { IfSome result (λ common. IsNarrower common self.now) }
    {
        let fixed = !(self.wild | other.wild);
        if (self.value ^ other.value) & fixed != 0 {
            return None;
        }
        Some(Ternary {
            value: self.value | other.value,
            wild: self.wild & other.wild,
        })
    }

    // Fixes a bit that is wild here and not in the narrower pattern, as it is fixed there. Gives the
    // numbers that this takes away.
    pub(crate) fn fix(&mut self, narrower: &Ternary, bit: u32) -> Option<Ternary>
        requires bit { bit < 32 }
        requires narrower { IsNarrower narrower.now self.old }
        ensures narrower { IsNarrower narrower.now self.new }
        ensures fixed { SameBit self.new narrower.now bit }
        ensures others { (i : ℕ) → i ≢ bit → SameBit self.new self.old i }
        ensures exact { (x : ℕ) → flag_number (ternary_has self.old x) ≡ flag_number (ternary_has self.new x) + flag_number (some_has ternary_has result x) }
    {
        let mask = 1 << bit;
        if self.wild & !narrower.wild & mask == 0 {
            return None;
        }
        let wild = self.wild & !mask;
        let taken = Ternary {
            value: self.value | (!narrower.value & mask),
            wild,
        };
        *self = Ternary {
            value: self.value | (narrower.value & mask),
            wild,
        };
        Some(taken)
    }
}
