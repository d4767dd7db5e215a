//! Spans of the DSCP field as words.

ghost use Rattle.std.specs.Prelude.{◌≡◌, ◌++◌, ◌≤◌, OnOk, OnErr};
ghost use Rattle.np_text.specs.Appending.{AppendsFront};
ghost use Rattle.np_pred.specs.Dscp as spec;
ghost use Rattle.np_pred.specs.Dscp.{dscp_span_of, dscp_text};

use crate::bounds::{bounds, put_bounds};
use crate::dscp::DscpSpan;
use std::alloc::AllocError;

// The values from `low` to `high`.
fn dscp_span_from(low: u8, high: u8) -> DscpSpan
    requires ordered { low ≤ high }
    requires width { high ≤ 63 }
    ensures { result ≡ spec.dscp_span_from low high }
{
    DscpSpan { low, high }
}

/// The values that a word gives: one, or the first and the last of several with a hyphen between
/// them, each at most 63. `None` for any other word.
pub(crate) fn dscp_span(word: &[u8]) -> Option<DscpSpan>
    ensures { result ≡ dscp_span_of word.now }
{
    let (low, high) = bounds(word, 63)?;
    Some(dscp_span_from(low as u8, high as u8))
}

/// Appends a span of values as a word.
pub(crate) fn put_dscp_span(out: &mut Vec<u8>, span: &DscpSpan) -> Result<(), AllocError>
    ensures ok { OnOk result (out.new.items ≡ out.old.items ++ dscp_text span.now) }
    ensures err { OnErr result (AppendsFront out.old.items out.new.items (dscp_text span.now)) }
{
    put_bounds(out, u64::from(span.low), u64::from(span.high))
}
