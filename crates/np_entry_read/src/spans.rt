//! The numbers and addresses that an entry tests.

ghost use Rattle.std.specs.Prelude.{◌≡◌, ◌∷◌, [], ◌≤◌, ◌<◌, ◌++◌, IfOk, OnOk, map, fold};
ghost use Rattle.std.specs.List.{flat_map};
ghost use Rattle.np_space.specs.Span.{span_from};
ghost use Rattle.np_entry_read.specs.Spans as tested;

use np_acl::Ports;
use np_space::Span;
use std::alloc::{AllocError, Global};

/// One port, type or code, as those of an entry.
pub fn one_number(alloc: Global, number: u16) -> Result<Ports, AllocError>
    ensures { IfOk result (λ ports. ports ≡ tested.only number ∷ []) }
{
    Ports::of(alloc, Span::only(number))
}

/// The ports from one to another.
pub fn from_to(alloc: Global, low: u16, high: u16) -> Result<Ports, AllocError>
    ensures { IfOk result (λ ports. ports ≡ span_from low high ∷ []) }
{
    Ports::of(alloc, Span::from_to(low, high))
}

/// The ports below one.
pub fn below(alloc: Global, port: u16) -> Result<Ports, AllocError>
    ensures { IfOk result (λ ports. ports ≡ tested.below port) }
{
    if port > 0 {
        Ports::of(alloc, Span::from_to(0, port - 1))
    } else {
        Ok(Ports::new(alloc))
    }
}

/// The ports above one.
pub fn above(alloc: Global, port: u16) -> Result<Ports, AllocError>
    ensures { IfOk result (λ ports. ports ≡ tested.above port) }
{
    if port < u16::MAX {
        Ports::of(alloc, Span::from_to(port + 1, u16::MAX))
    } else {
        Ok(Ports::new(alloc))
    }
}

/// These ports, each as a span.
pub fn each(alloc: Global, ports: &[u16]) -> Result<Ports, AllocError>
    ensures { IfOk result (λ spans. spans ≡ map tested.only ports.now) }
{
    let mut spans = Ports::new(alloc);
    for port in ports {
        spans.push(Span::only(*port))?;
    }
    Ok(spans)
}

/// Adds what is left of a span without a number.
fn push_without(spans: &mut Ports, span: Span, number: u16) -> Result<(), AllocError>
    ensures { OnOk result (spans.new ≡ spans.old ++ tested.span_without number span) }
{
    if !span.has(number) {
        return spans.push(span);
    }
    if span.low < number {
        spans.push(Span::from_to(span.low, number - 1))?;
    }
    if number < span.high {
        spans.push(Span::from_to(number + 1, span.high))?;
    }
    Ok(())
}

/// Spans without a number.
fn without(alloc: Global, spans: &Ports, number: u16) -> Result<Ports, AllocError>
    ensures { IfOk result (λ left. left ≡ tested.spans_without spans.now number) }
{
    let mut left = Ports::new(alloc);
    for part in spans.as_slice() {
        push_without(&mut left, part.span(), number)?;
    }
    Ok(left)
}

/// The ports other than these.
pub fn all_but(alloc: Global, ports: &[u16]) -> Result<Ports, AllocError>
    ensures { IfOk result (λ spans. spans ≡ tested.all_but ports.now) }
{
    let mut spans = Ports::any(alloc)?;
    for port in ports {
        spans = without(alloc, &spans, *port)?;
    }
    Ok(spans)
}

/// The flag of an entry that asks for established connections, or doesn't ask.
pub fn flag(established: bool) -> Span
    ensures { result ≡ tested.flag_test established }
{
    if established {
        Span::only(1)
    } else {
        Span::from_to(0, 1)
    }
}

/// The code points of a precedence, which is their upper three bits.
pub fn precedence_span(precedence: u8) -> Span
    ensures { result ≡ tested.precedence_span precedence }
{
    let first = 8 * u16::from(precedence);
    Span::from_to(first, first + 7)
}
