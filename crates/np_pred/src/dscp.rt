//! Spans of the DSCP field.

ghost use Rattle.std.specs.Prelude.{◌≡◌, ◌≤◌};

use np_space::Span;

/// Values of the DSCP field (RFC 2474) from `low` to `high`, both among them: there is at least one.
#[derive(Clone, Copy, Debug, PartialEq, Eq)]
pub struct DscpSpan {
    /// The least value.
    pub low: u8,
    /// The greatest value, at most 63.
    pub high: u8,
    ghost ordered: { low ≤ high },
    ghost width: { high ≤ 63 },
}

impl DscpSpan {
    ghost use Rattle.np_pred.specs.Dscp.{dscp_has};

    /// Whether the value is in the span.
    pub fn has(&self, value: u8) -> bool
        ensures { result ≡ dscp_has self.now value }
    {
        self.low <= value && value <= self.high
    }

    /// The same numbers as a span of numbers of any size.
    pub fn span(&self) -> Span
        ensures low { result.low ≡ self.now.low }
        ensures high { result.high ≡ self.now.high }
    {
        Span {
            low: u16::from(self.low),
            high: u16::from(self.high),
        }
    }
}
