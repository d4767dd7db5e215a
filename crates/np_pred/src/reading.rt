//! Predicates from words.

ghost use Rattle.std.specs.Prelude.{◌≡◌, IfOk, IsTrue};
ghost use Rattle.np_text.specs.Numbers.{number_of};
ghost use Rattle.np_pred.specs.declared.predicate.Pred.TheVariants as pred;
ghost use Rattle.np_pred.specs.Areas.{AreaList};
ghost use Rattle.np_pred.specs.Forms.{IsWellFormed, IsBegunWell};
ghost use Rattle.np_pred.specs.Patterns.{are_prefixes};
ghost use Rattle.np_pred.specs.Reading as reading;
ghost use Rattle.np_lines.specs.Answers.{texts};
ghost use Rattle.np_pred.specs.Reading.{Gives, GivesBefore, rest_of, sources_of, argument_of, argument_at, begun_at, pred_at, pred_of};

use crate::address_lists::addresses;
use crate::area_names::Areas;
use crate::dscp::DscpSpan;
use crate::dscp_words::dscp_span;
use crate::keywords::{Field, Operator, constant_named, field_named, operator_named};
use crate::ports::ports;
use crate::pred_error::{PredError, PredFault};
use crate::predicate::Pred;
use crate::shared_addresses::Addresses;
use crate::words_left::Left;
use np_space::Span;
use np_text::{Word, number};
use sqlite_items::Boxed;
use std::alloc::{AllocError, Global};

/// How deep a predicate may nest: the whole counts as 1.
pub const NESTING_LIMIT: usize = 64;

/// What a word begins.
pub(crate) enum Begun {
    /// A predicate that is whole.
    Whole(Pred),
    /// An operator, whose operands follow.
    Open(Operator),
}

// Whether a word is an area's name.
fn is_area_name(word: &[u8]) -> bool
    ensures { result ≡ reading.is_area_name word.now }
{
    match word {
        [first, ..] => first.is_ascii_alphabetic() && word != b"none".as_slice(),
        [] => false,
    }
}

// The addresses that the word at this position gives.
#[tactic(auto, unfolding(crate::specs::Reading::sources_of))]
fn sources(alloc: Global, areas: &Areas, at: usize, word: &[u8]) -> Result<Addresses, PredError>
    ensures read { Gives result (sources_of areas.now at word.now) }
    ensures prefixes { IfOk result (λ patterns. IsTrue (are_prefixes patterns)) }
{
    if is_area_name(word) {
        return match areas.sources(alloc, word)? {
            Some(sources) => Ok(sources),
            None => Err(PredError::Fault(PredFault::UnknownArea(at))),
        };
    }
    match addresses(alloc, word)? {
        Some(sources) => Ok(Addresses::of(alloc, sources)?),
        None => Err(PredError::Fault(PredFault::BadWord(at))),
    }
}

// The number of a protocol, a type or a code.
fn octet(at: usize, word: &[u8]) -> Result<u8, PredError>
    ensures { Gives result (reading.octet_of at word.now) }
{
    match number(word, 255) {
        Some(value) => Ok(value as u8),
        None => Err(PredError::Fault(PredFault::BadWord(at))),
    }
}

fn port_span(at: usize, word: &[u8]) -> Result<Span, PredError>
    ensures { Gives result (reading.port_span_of at word.now) }
{
    match ports(word) {
        Some(span) => Ok(span),
        None => Err(PredError::Fault(PredFault::BadWord(at))),
    }
}

fn dscp_values(at: usize, word: &[u8]) -> Result<DscpSpan, PredError>
    ensures { Gives result (reading.dscp_values_of at word.now) }
{
    match dscp_span(word) {
        Some(span) => Ok(span),
        None => Err(PredError::Fault(PredFault::BadWord(at))),
    }
}

// The predicate of a field and the word at this position.
#[tactic(auto, unfolding(crate::specs::Reading::argument_of))]
fn argument(
    alloc: Global,
    areas: &Areas,
    field: Field,
    at: usize,
    word: &[u8],
) -> Result<Pred, PredError>
    ensures read { Gives result (argument_of areas.now field at word.now) }
    ensures formed { IfOk result (IsWellFormed 1) }
{
    match field {
        Field::Proto => Ok(Pred::Proto(octet(at, word)?)),
        Field::Src => Ok(Pred::Src(sources(alloc, areas, at, word)?)),
        Field::Dst => Ok(Pred::Dst(sources(alloc, areas, at, word)?)),
        Field::SrcPort => Ok(Pred::SrcPort(port_span(at, word)?)),
        Field::DstPort => Ok(Pred::DstPort(port_span(at, word)?)),
        Field::IcmpType => Ok(Pred::IcmpType(octet(at, word)?)),
        Field::IcmpCode => Ok(Pred::IcmpCode(octet(at, word)?)),
        Field::Dscp => Ok(Pred::Dscp(dscp_values(at, word)?)),
    }
}

// The predicate of a field, whose value is the next word.
#[tactic(auto, unfolding(crate::specs::Reading::argument_at))]
fn next_argument(
    alloc: Global,
    areas: &Areas,
    field: Field,
    left: &mut Left<'_>,
) -> Result<Pred, PredError>
    ensures read { GivesBefore result (rest_of left.new) (argument_at areas.now field (rest_of left.old)) }
    ensures formed { IfOk result (IsWellFormed 1) }
{
    let at = left.at;
    let word = left.next_word()?;
    argument(alloc, areas, field, at, word)
}

// What the next word begins.
#[tactic(auto, unfolding(crate::specs::Reading::begun_at))]
fn begin(alloc: Global, areas: &Areas, left: &mut Left<'_>) -> Result<Begun, PredError>
    ensures read { GivesBefore result (rest_of left.new) (begun_at areas.now (rest_of left.old)) }
    ensures formed { IfOk result IsBegunWell }
{
    let at = left.at;
    let word = left.next_word()?;
    if let Some(pred) = constant_named(word) {
        return Ok(Begun::Whole(pred));
    }
    if let Some(field) = field_named(word) {
        return Ok(Begun::Whole(next_argument(alloc, areas, field, left)?));
    }
    match operator_named(word) {
        Some(operator) => Ok(Begun::Open(operator)),
        None => Err(PredError::Fault(PredFault::BadWord(at))),
    }
}

// The fault of the next word where no level is left.
#[tactic(auto, unfolding(crate::specs::Reading::pred_at))]
fn too_deep(left: &Left<'_>) -> PredError
    ensures { (areas : AreaList) → reading.FailsAs result (pred_at areas 0 (rest_of left.now)) }
{
    if left.words.is_empty() {
        PredError::Fault(PredFault::Unfinished)
    } else {
        PredError::Fault(PredFault::TooDeep(left.at))
    }
}

fn negated(alloc: Global, operand: Pred) -> Result<Pred, AllocError>
    ensures { IfOk result (λ p. p ≡ pred.Not operand) }
{
    Ok(Pred::Not(Boxed::new(alloc, operand)?))
}

fn both(alloc: Global, first: Pred, second: Pred) -> Result<Pred, AllocError>
    ensures { IfOk result (λ p. p ≡ pred.And first second) }
{
    let first = Boxed::new(alloc, first)?;
    Ok(Pred::And(first, Boxed::new(alloc, second)?))
}

fn either(alloc: Global, first: Pred, second: Pred) -> Result<Pred, AllocError>
    ensures { IfOk result (λ p. p ≡ pred.Or first second) }
{
    let first = Boxed::new(alloc, first)?;
    Ok(Pred::Or(first, Boxed::new(alloc, second)?))
}

// The predicate at the front of the words, with so many levels of nesting left.
fn predicate(
    alloc: Global,
    areas: &Areas,
    left: &mut Left<'_>,
    levels: usize,
) -> Result<Pred, PredError>
    ensures read { GivesBefore result (rest_of left.new) (pred_at areas.now levels (rest_of left.old)) }
    ensures formed { IfOk result (IsWellFormed levels) }
{
    if levels == 0 {
        return Err(too_deep(left));
    }
    match begin(alloc, areas, left)? {
        Begun::Whole(pred) => Ok(pred),
        Begun::Open(Operator::Not) => {
            let operand = predicate(alloc, areas, left, levels - 1)?;
            Ok(negated(alloc, operand)?)
        }
        Begun::Open(Operator::And) => {
            let first = predicate(alloc, areas, left, levels - 1)?;
            let second = predicate(alloc, areas, left, levels - 1)?;
            Ok(both(alloc, first, second)?)
        }
        Begun::Open(Operator::Or) => {
            let first = predicate(alloc, areas, left, levels - 1)?;
            let second = predicate(alloc, areas, left, levels - 1)?;
            Ok(either(alloc, first, second)?)
        }
    }
}

/// The predicate that the words are, all of them, where `areas` has the areas that they name. It
/// nests at most 64 deep, the whole counted as 1.
///
/// Any other words are a fault, and the first word at which no predicate can go on decides: it is
/// `TooDeep` where it should begin a predicate at nesting 65, `BadWord` where it begins none or
/// isn't the argument that its place needs, `UnknownArea` where it is an area's name that `areas`
/// hasn't, and `Extra` where it stands after the whole. Where words are missing at the end, they
/// are `Unfinished`. `Memory` may come at any time.
#[tactic(auto, unfolding(crate::specs::Reading::pred_of))]
pub fn parse(alloc: Global, words: &[Word<'_>], areas: &Areas) -> Result<Pred, PredError>
    ensures read { Gives result (pred_of areas.now (texts words.now)) }
    ensures formed { IfOk result (IsWellFormed 64) }
{
    let mut left = Left::all(words);
    let pred = predicate(alloc, areas, &mut left, NESTING_LIMIT)?;
    if left.words.is_empty() {
        Ok(pred)
    } else {
        Err(PredError::Fault(PredFault::Extra(left.at)))
    }
}
