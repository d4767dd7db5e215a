//! What the inward rules of a network let pass of some headers, found once for all goals.

ghost use Rattle.std.specs.Prelude.{◌≡◌, ◌+◌, ◌<◌, ◌↔◌, None, Some, ℕ, length, slice_index_or, true, IfOk, IfSome, IsTrue, OnOk};
ghost use Rattle.np_space.specs.Header.{zeros};
ghost use Rattle.np_net.specs.Path as path;
ghost use Rattle.np_ipsec.specs.Tables as tables;
ghost use Rattle.np_auth.specs.Rules.{IsForgeable};
ghost use Rattle.np_auth.specs.Passages.{ArePassages, ArePassing, AreUpTo, is_bypass, mark_after};

use crate::marking::{Passage, Passages};
use np_atomset::AtomSet;
use np_ipsec::{Place, Top, in_action, is_trusted, pops, sound};
use np_net::{IfId, InAction, Network, SaId, area_of};
use np_space::Header;
use sqlite_items::Items;
use std::alloc::{AllocError, Global};

/// Whether a bare packet with this header passes an interface with this mark.
fn passes(net: &Network, i: IfId, mark: Option<SaId>, h: &Header) -> bool
    requires { i < length net.now.interfaces }
    ensures { result ≡ is_bypass (tables.in_action_of net.now i (Top.Plain h.now) mark) }
{
    match in_action(net, i, &Top::Plain(*h), mark) {
        InAction::Bypass => true,
        InAction::Discard => false,
    }
}

/// Those of the headers with which a bare packet passes an interface with this mark.
fn passing(
    alloc: Global,
    net: &Network,
    headers: &[Header],
    i: IfId,
    mark: Option<SaId>,
) -> Result<AtomSet, AllocError>
    requires { i < length net.now.interfaces }
    ensures { IfOk result (λ set. ArePassing net.now headers.now i mark set) }
{
    let mut set = AtomSet::new(alloc, headers.len())?;
    for n in 0..headers.len() {
        if passes(net, i, mark, &headers[n]) {
            set.insert(n);
        }
    }
    Ok(set)
}

/// Whether a packet with this mark may be forged: it has none and comes from an area that isn't trusted, or an association
/// that isn't sound was around it.
fn is_forgeable(net: &Network, i: IfId, mark: Option<SaId>) -> bool
    requires interface { i < length net.now.interfaces }
    requires mark { IfSome mark (λ k. k < length net.now.sas) }
    ensures { IsTrue result ↔ IsForgeable net.now i mark }
{
    match mark {
        None => !is_trusted(net, Place::AtArea(area_of(net, i))),
        Some(k) => pops(net, i, k) && !sound(net, k),
    }
}

/// Adds the passage of a mark at an interface of a trusted device, if a packet with it may be forged.
#[tactic(auto, using(crate::proofs::PassageLaws::mark_skipped))]
fn add_mark(
    alloc: Global,
    net: &Network,
    headers: &[Header],
    i: IfId,
    mark: Option<SaId>,
    list: &mut Items<Passage>,
) -> Result<(), AllocError>
    requires interface { i < length net.now.interfaces }
    requires mark { IfSome mark (λ k. k < length net.now.sas) }
    requires device { tables.is_trusted_device net.now (path.device_of net.now.interfaces i) ≡ true }
    requires before { AreUpTo net.now headers.now i mark list.old }
    ensures { OnOk result (AreUpTo net.now headers.now i (mark_after mark) list.new) }
{
    if !is_forgeable(net, i, mark) {
        return Ok(());
    }
    let passing = passing(alloc, net, headers, i, mark)?;
    list.push(Passage {
        interface: i,
        mark,
        passing,
    })?;
    Ok(())
}

/// Adds the passages of the associations that are removed at an interface of a trusted device.
fn add_popped(
    alloc: Global,
    net: &Network,
    headers: &[Header],
    i: IfId,
    list: &mut Items<Passage>,
) -> Result<(), AllocError>
    requires interface { i < length net.now.interfaces }
    requires device { tables.is_trusted_device net.now (path.device_of net.now.interfaces i) ≡ true }
    requires before { AreUpTo net.now headers.now i (Some 0) list.old }
    ensures { OnOk result (AreUpTo net.now headers.now i (Some (length net.now.sas)) list.new) }
{
    for k in 0..net.sas.len() {
        add_mark(alloc, net, headers, i, Some(k as SaId), list)?;
    }
    Ok(())
}

/// Adds the passages of an interface.
#[tactic(auto, using(crate::proofs::PassageLaws::interface_untrusted, crate::proofs::PassageLaws::interface_done))]
fn add_interface(
    alloc: Global,
    net: &Network,
    headers: &[Header],
    i: IfId,
    list: &mut Items<Passage>,
) -> Result<(), AllocError>
    requires interface { i < length net.now.interfaces }
    requires before { AreUpTo net.now headers.now i None list.old }
    ensures { OnOk result (AreUpTo net.now headers.now (i + 1) None list.new) }
{
    if !is_trusted(net, Place::AtIn(i)) {
        return Ok(());
    }
    add_mark(alloc, net, headers, i, None, list)?;
    add_popped(alloc, net, headers, i, list)?;
    Ok(())
}

/// The passages of a network, of these headers: each interface is asked about each of them once with each mark with which a bare
/// packet may be forged there. Takes memory for one set at most for each interface and for each pop rule. Fails only for want of
/// memory.
#[tactic(auto, using(crate::proofs::PassageLaws::none_yet, crate::proofs::PassageLaws::all_done))]
pub fn passages(alloc: Global, net: &Network, headers: &[Header]) -> Result<Passages, AllocError>
    ensures { IfOk result (λ passages. ArePassages net.now headers.now passages) }
{
    let mut list = Items::new(alloc);
    for i in 0..net.interfaces.len() {
        add_interface(alloc, net, headers, i as IfId, &mut list)?;
    }
    Ok(Passages { list })
}
