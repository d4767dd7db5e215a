//! The words that begin a predicate.

ghost use Rattle.std.specs.Prelude.{◌≡◌, IfSome};
ghost use Rattle.np_pred.specs.Forms.{IsWellFormed};
ghost use Rattle.np_pred.specs.Keywords as keywords;

use crate::predicate::Pred;

/// A field of a header that a predicate's first word names, whose value is the next word.
#[derive(Clone, Copy, Debug)]
pub enum Field {
    Proto,
    Src,
    Dst,
    SrcPort,
    DstPort,
    IcmpType,
    IcmpCode,
    Dscp,
}

/// What joins the predicates that follow its word.
#[derive(Clone, Copy, Debug)]
pub enum Operator {
    Not,
    And,
    Or,
}

/// The predicate that a word alone gives.
#[tactic(auto, unfolding(crate::specs::Keywords::constant_of))]
pub fn constant_named(word: &[u8]) -> Option<Pred>
    ensures pred { result ≡ keywords.constant_of word.now }
    ensures formed { IfSome result (IsWellFormed 1) }
{
    if word == b"any".as_slice() {
        return Some(Pred::Any);
    }
    if word == b"nothing".as_slice() {
        return Some(Pred::Nothing);
    }
    if word == b"icmp".as_slice() {
        return Some(Pred::Proto(1));
    }
    if word == b"tcp".as_slice() {
        return Some(Pred::Proto(6));
    }
    if word == b"udp".as_slice() {
        return Some(Pred::Proto(17));
    }
    if word == b"established".as_slice() {
        return Some(Pred::Established);
    }
    None
}

/// The field that a word names.
#[tactic(auto, unfolding(crate::specs::Keywords::field_of))]
pub fn field_named(word: &[u8]) -> Option<Field>
    ensures { result ≡ keywords.field_of word.now }
{
    if word == b"proto".as_slice() {
        return Some(Field::Proto);
    }
    if word == b"src".as_slice() {
        return Some(Field::Src);
    }
    if word == b"dst".as_slice() {
        return Some(Field::Dst);
    }
    if word == b"sport".as_slice() {
        return Some(Field::SrcPort);
    }
    if word == b"dport".as_slice() {
        return Some(Field::DstPort);
    }
    if word == b"type".as_slice() {
        return Some(Field::IcmpType);
    }
    if word == b"code".as_slice() {
        return Some(Field::IcmpCode);
    }
    if word == b"dscp".as_slice() {
        return Some(Field::Dscp);
    }
    None
}

/// The operator that a word names.
#[tactic(auto, unfolding(crate::specs::Keywords::operator_of))]
pub fn operator_named(word: &[u8]) -> Option<Operator>
    ensures { result ≡ keywords.operator_of word.now }
{
    if word == b"not".as_slice() {
        return Some(Operator::Not);
    }
    if word == b"and".as_slice() {
        return Some(Operator::And);
    }
    if word == b"or".as_slice() {
        return Some(Operator::Or);
    }
    None
}
