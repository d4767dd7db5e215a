//! Spans of numbers: ports, protocols, types and codes.

ghost use Rattle.std.specs.Prelude.{◌≡◌, ◌≤◌, ◌<◌, ◌^◌};

/// The numbers from `low` to `high`, both among them: there is at least one.
#[derive(Clone, Copy, Debug, PartialEq, Eq)]
pub struct Span {
    /// The least number.
    pub low: u16,
    /// The greatest number.
    pub high: u16,
    ghost ordered: { low ≤ high },
    ghost width: { high < 2 ^ 16 },
}

impl Span {
    ghost use Rattle.std.specs.Prelude.{ℕ, ◌+◌, ◌&&◌, ◌==◌, is_some, IfSome, nat_lt};
    ghost use Rattle.np_space.specs.Flag.{flag_number, some_has};
    ghost use Rattle.np_space.specs.Span.{span_has, span_from, span_between, IsPartOf};

    /// The numbers from `low` to `high`. Where `low` is greater, `high` alone.
    pub fn from_to(low: u16, high: u16) -> Span
        ensures { result ≡ span_from low high }
    {
        Span {
            low: low.min(high),
            high,
        }
    }

    /// One number.
    pub fn only(number: u16) -> Span
        ensures is { result ≡ span_from number number }
        ensures has { (x : ℕ) → span_has result x ≡ x == number }
    {
        Span::from_to(number, number)
    }

    /// The numbers from `low` to `high`, if there are any: `None` exactly where `low` is greater.
    pub fn between(low: u16, high: u16) -> Option<Span>
        ensures { result ≡ span_between low high }
    {
        if low <= high {
            Some(Span::from_to(low, high))
        } else {
            None
        }
    }

    /// Whether the number is in the span.
    pub fn has(&self, x: u16) -> bool
        ensures { result ≡ span_has self.now x }
    {
        self.low <= x && x <= self.high
    }

    // The common numbers, if there are any.
    pub(crate) fn meet(&self, other: &Span) -> Option<Span>
        ensures exact { (x : ℕ) → some_has span_has result x ≡ (span_has self.now x && span_has other.now x) }
        ensures part { IfSome result (λ common. IsPartOf common self.now) }
    {
        let low = self.low.max(other.low);
        let high = self.high.min(other.high);
        if low <= high {
            Some(Span { low, high })
        } else {
            None
        }
    }

    // The numbers of the span that lie below a part of it.
    pub(crate) fn below(&self, part: &Span) -> Option<Span>
        requires { IsPartOf part.now self.now }
        ensures exact { (x : ℕ) → some_has span_has result x ≡ (span_has self.now x && nat_lt x part.now.low) }
        ensures some { is_some result ≡ nat_lt self.now.low part.now.low }
        ensures part { IfSome result (λ rest. IsPartOf rest self.now) }
    {
        if self.low < part.low {
            Some(Span {
                low: self.low,
                high: part.low - 1,
            })
        } else {
            None
        }
    }

    // The numbers of the span that lie above a part of it.
    pub(crate) fn above(&self, part: &Span) -> Option<Span>
        requires { IsPartOf part.now self.now }
        ensures exact { (x : ℕ) → some_has span_has result x ≡ (span_has self.now x && nat_lt part.now.high x) }
        ensures some { is_some result ≡ nat_lt part.now.high self.now.high }
        ensures part { IfSome result (λ rest. IsPartOf rest self.now) }
    {
        if part.high < self.high {
            Some(Span {
                low: part.high + 1,
                high: self.high,
            })
        } else {
            None
        }
    }
}
