//! The ports, types or codes of an entry.

ghost use Rattle.std.specs.Prelude.{◌≡◌, ◌↔◌, [], ◌∷◌, ◌++◌, IsTrue, IfOk, IfErr, OnOk, OnErr};
ghost use Rattle.np_acl.specs.Spans.{any_number};

use np_space::Span;
use smallvec::SmallVec;
use std::alloc::{AllocError, AllocFailed, Global};
use std::marker::Model;

/// A span of ports, types or codes in `Ports`.
#[derive(PartialEq, Eq, Drop)]
pub struct PortSpan {
    span: Span,
}

impl Model for PortSpan {
    ghost use Rattle.np_space.specs.declared.spans.Span.{Span};

    ghost Value = { Span };

    ghost view = { λ p. p.span };

    ghost inverse = { λ s. record { span = s } };
}

// What stands in a place that isn't in use.
impl Default for PortSpan {
    fn default() -> PortSpan {
        PortSpan {
            span: Span { low: 0, high: 0 },
        }
    }
}

impl PortSpan {
    /// The span.
    pub fn span(&self) -> Span
        ensures { result ≡ self.now }
    {
        self.span
    }
}

/// Spans of numbers, in the order in which they were added. Up to two take no memory.
#[derive(Drop)]
pub struct Ports {
    spans: SmallVec<PortSpan, 2, Global>,
}

impl Model for Ports {
    ghost use Rattle.std.specs.Prelude.{List};
    ghost use Rattle.np_space.specs.declared.spans.Span.{Span};

    ghost Value = { List Span };

    ghost view = { λ p. p.spans.items };
}

/// Ports are equal where they are the same spans in the same order.
impl PartialEq for Ports {
    ghost use Rattle.std.specs.Cmp.{partial_equiv_from_equiv};
    ghost use Rattle.np_acl.specs.Same.{equal_ports, equal_ports-equiv};

    ghost eq = { equal_ports };

    ghost laws = { partial_equiv_from_equiv equal_ports-equiv };

    fn eq(&self, other: &Ports) -> bool {
        self.as_slice() == other.as_slice()
    }
}

impl Eq for Ports {
    ghost use Rattle.np_acl.specs.Same.{equal_ports-equiv};

    ghost laws = { equal_ports-equiv };
}

impl Ports {
    ghost use Rattle.np_acl.specs.Entries.{ports_have};

    /// No spans, which have no number.
    pub fn new(alloc: Global) -> Ports
        ensures { result ≡ [] }
    {
        Ports {
            spans: SmallVec::new(alloc),
        }
    }

    /// One span.
    pub fn of(alloc: Global, span: Span) -> Result<Ports, AllocError>
        ensures { IfOk result (λ ports. ports ≡ span ∷ []) }
    {
        let mut ports = Ports::new(alloc);
        ports.push(span)?;
        Ok(ports)
    }

    /// The span of every number, from 0 to 65535.
    pub fn any(alloc: Global) -> Result<Ports, AllocError>
        ensures { IfOk result (λ ports. ports ≡ any_number ∷ []) }
    {
        Ports::of(alloc, Span::from_to(0, 65535))
    }

    /// Adds a span at the end. Where memory runs out, the spans stay as they were.
    pub fn push(&mut self, span: Span) -> Result<(), AllocError>
        ensures ok { OnOk result (self.new ≡ self.old ++ span ∷ []) }
        ensures err { OnErr result (self.new ≡ self.old) }
    {
        self.spans.push(PortSpan { span })?;
        Ok(())
    }

    /// The spans in their order.
    pub fn as_slice(&self) -> &[PortSpan]
        ensures { result.now ≡ self.now }
    {
        self.spans.as_slice()
    }

    /// Whether some span has the number.
    pub fn has(&self, x: u16) -> bool
        ensures { result ≡ ports_have self.now x }
    {
        self.spans.as_slice().iter().any(|part| part.span().has(x))
    }

    /// Whether these are the spans of `other`, in the same order. It takes no memory.
    pub fn same_as(&self, other: &Ports) -> bool
        ensures { IsTrue result ↔ (self.now ≡ other.now) }
    {
        self == other
    }

    /// The same spans.
    pub fn copy(&self, alloc: Global) -> Result<Ports, AllocError>
        ensures { IfOk result (λ copy. copy ≡ self.now) }
    {
        let mut copy = Ports::new(alloc);
        for part in self.as_slice() {
            copy.push(part.span())?;
        }
        Ok(copy)
    }

    /// The spans as a `Vec`. More than two move there without memory being taken; where there is none
    /// for fewer, the spans come back.
    pub fn into_vec(self) -> Result<Vec<PortSpan>, AllocFailed<Ports>>
        ensures ok { IfOk result (λ spans. spans.items ≡ self) }
        ensures err { IfErr result (λ failed. failed.value ≡ self) }
    {
        match self.spans.into_vec() {
            Ok(spans) => Ok(spans),
            Err(failed) => Err(AllocFailed {
                value: Ports {
                    spans: failed.value,
                },
            }),
        }
    }
}
