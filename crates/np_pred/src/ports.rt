//! Spans of ports as words.

ghost use Rattle.std.specs.Prelude.{◌≡◌, ◌++◌, OnOk, OnErr};
ghost use Rattle.np_text.specs.Appending.{AppendsFront};
ghost use Rattle.np_pred.specs.Ports.{ports_of, ports_text};

use crate::bounds::{bounds, put_bounds};
use np_space::Span;
use std::alloc::AllocError;

/// The ports that a word gives: a port, or the first and the last of several with a hyphen between
/// them. `None` for any other word.
pub(crate) fn ports(word: &[u8]) -> Option<Span>
    ensures { result ≡ ports_of word.now }
{
    let (low, high) = bounds(word, 65_535)?;
    Some(Span::from_to(low as u16, high as u16))
}

/// Appends a span of ports as a word.
pub(crate) fn put_ports(out: &mut Vec<u8>, ports: &Span) -> Result<(), AllocError>
    ensures ok { OnOk result (out.new.items ≡ out.old.items ++ ports_text ports.now) }
    ensures err { OnErr result (AppendsFront out.old.items out.new.items (ports_text ports.now)) }
{
    put_bounds(out, u64::from(ports.low), u64::from(ports.high))
}
