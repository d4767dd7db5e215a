//! How what the rules say is found, as far as the goals ask for it.

ghost use Rattle.std.specs.Prelude.{◌≡◌, false, true, IfOk, MatchOption};
ghost use Rattle.std.specs.List.{list_any};
ghost use Rattle.np_auth.specs.Passages.{ArePassages};
ghost use Rattle.np_conf.specs.Outlets.{AreOutlets};
ghost use Rattle.np_ipgoals.specs.Findings.{AreFindings, is_auth, is_conf};

use crate::asked::Findings;
use np_auth::{Passages, passages};
use np_conf::{Outlets, outlets};
use np_net::{IpGoal, Network};
use np_space::Header;
use std::alloc::{AllocError, Global};

/// Whether a goal is on authentication.
fn is_auth(goal: &IpGoal) -> bool
    ensures { result ≡ is_auth goal.now }
{
    match goal {
        IpGoal::Auth { .. } => true,
        IpGoal::Conf { .. } => false,
    }
}

/// Whether a goal is on confidentiality.
fn is_conf(goal: &IpGoal) -> bool
    ensures { result ≡ is_conf goal.now }
{
    match goal {
        IpGoal::Auth { .. } => false,
        IpGoal::Conf { .. } => true,
    }
}

/// Whether some goal is on authentication.
fn has_auth(goals: &[IpGoal]) -> bool
    ensures { result ≡ list_any is_auth goals.now }
{
    goals.iter().any(|goal| is_auth(goal))
}

/// Whether some goal is on confidentiality.
fn has_conf(goals: &[IpGoal]) -> bool
    ensures { result ≡ list_any is_conf goals.now }
{
    goals.iter().any(|goal| is_conf(goal))
}

/// The passages of a network, if some goal is on authentication.
fn needed_passages(
    alloc: Global,
    net: &Network,
    leasts: &[Header],
) -> Result<Option<Passages>, AllocError>
    ensures { IfOk result (λ found. MatchOption found (list_any is_auth net.now.ipgoals ≡ false) (λ passages. (list_any is_auth net.now.ipgoals ≡ true) × ArePassages net.now leasts.now passages)) }
{
    if !has_auth(net.ipgoals.as_slice()) {
        return Ok(None);
    }
    Ok(Some(passages(alloc, net, leasts)?))
}

/// The outlets of a network, if some goal is on confidentiality.
fn needed_outlets(
    alloc: Global,
    net: &Network,
    leasts: &[Header],
) -> Result<Option<Outlets>, AllocError>
    ensures { IfOk result (λ found. MatchOption found (list_any is_conf net.now.ipgoals ≡ false) (λ outlets. (list_any is_conf net.now.ipgoals ≡ true) × AreOutlets net.now leasts.now outlets)) }
{
    if !has_conf(net.ipgoals.as_slice()) {
        return Ok(None);
    }
    Ok(Some(outlets(alloc, net, leasts)?))
}

/// What the rules of a network say of the least headers, as far as its goals ask for it: the passages where some goal is on
/// authentication, and the outlets where some goal is on confidentiality. Fails only for want of memory.
pub fn findings(alloc: Global, net: &Network, leasts: &[Header]) -> Result<Findings, AllocError>
    ensures { IfOk result (λ found. AreFindings net.now leasts.now found) }
{
    let passages = needed_passages(alloc, net, leasts)?;
    let outlets = needed_outlets(alloc, net, leasts)?;
    Ok(Findings { passages, outlets })
}
