//! What the outward rules of a network do to bare packets with some headers, found once for all goals.

ghost use Rattle.std.specs.Prelude.{◌≡◌, ◌+◌, ◌<◌, ◌≤◌, None, Some, ℕ, length, replicate, slice_index_or, slice_set, true, if◌then◌else◌, IfOk, IfSome, OnOk};
ghost use Rattle.np_space.specs.Header.{zeros};
ghost use Rattle.np_ipsec.specs.Tables.{out_action_of};
ghost use Rattle.np_conf.specs.Outlets.{AreAroundTo, AreBare, AreBareTo, AreOutlets, AreWaysTo, is_bypass, set_or, with_member};

use crate::gathering::put_by;
use crate::leaving::{Outlet, Outlets};
use crate::ways::{is_of_trusted, is_way_out};
use np_atomset::AtomSet;
use np_ipsec::{Top, out_action};
use np_net::{IfId, Network, OutAction, SaId};
use np_space::Header;
use sqlite_items::Items;
use std::alloc::{AllocError, Global};

/// The set, or where there is none one of so many headers without members.
fn set_or_new(alloc: Global, slot: Option<AtomSet>, size: usize) -> Result<AtomSet, AllocError>
    requires { IfSome slot (λ set. length set ≡ size) }
    ensures value { IfOk result (λ set. set ≡ set_or size slot) }
    ensures size { IfOk result (λ set. length set ≡ size) }
{
    match slot {
        Some(set) => Ok(set),
        None => AtomSet::new(alloc, size),
    }
}

/// Makes `n` a member of the set of an association, which is made of `size` headers where there is none.
fn add_member(
    alloc: Global,
    around: &mut [Option<AtomSet>],
    k: SaId,
    n: usize,
    size: usize,
) -> Result<(), AllocError>
    requires association { k < length around.old }
    requires header { n < size }
    requires sizes { IfSome (slice_index_or around.old k None) (λ set. length set ≡ size) }
    ensures { OnOk result (around.new ≡ slice_set around.old k (with_member size (slice_index_or around.old k None) n)) }
{
    let slot = around[k as usize].take();
    let mut set = set_or_new(alloc, slot, size)?;
    set.insert(n);
    around[k as usize] = Some(set);
    Ok(())
}

/// Makes `n` a member where a packet goes on as it is.
fn note_bare(action: OutAction, n: usize, bare: &mut AtomSet)
    requires { n < length bare.old }
    ensures { bare.new ≡ (if is_bypass action then slice_set bare.old n true else bare.old) }
{
    if matches!(action, OutAction::Bypass) {
        bare.insert(n);
    }
}

/// Notes what is put around bare packets with the header at a place, at an interface of a trusted device.
#[tactic(auto, using(crate::proofs::NotingLaws::header_added, crate::proofs::NotingLaws::header_skipped))]
fn note_around(
    alloc: Global,
    net: &Network,
    headers: &[Header],
    i: IfId,
    n: usize,
    action: OutAction,
    around: &mut [Option<AtomSet>],
) -> Result<(), AllocError>
    requires interface { i < length net.now.interfaces }
    requires header { n < length headers.now }
    requires action { action ≡ out_action_of net.now i (Top.Plain (slice_index_or headers.now n zeros)) }
    requires before { AreAroundTo net.now headers.now i n around.old }
    ensures { OnOk result (AreAroundTo net.now headers.now i (n + 1) around.new) }
{
    match put_by(net, i, &Top::Plain(headers[n]), action) {
        Some(k) => add_member(alloc, around, k, n, headers.len()),
        None => Ok(()),
    }
}

/// Notes what an interface of a trusted device does to bare packets with each of the headers, and gives those that go on as they
/// are. Each is asked about once.
fn note_all(
    alloc: Global,
    net: &Network,
    headers: &[Header],
    i: IfId,
    around: &mut [Option<AtomSet>],
) -> Result<AtomSet, AllocError>
    requires interface { i < length net.now.interfaces }
    requires before { AreAroundTo net.now headers.now i 0 around.old }
    ensures bare { IfOk result (λ set. AreBare net.now headers.now i set) }
    ensures around { OnOk result (AreAroundTo net.now headers.now (i + 1) 0 around.new) }
{
    let mut bare = AtomSet::new(alloc, headers.len())?;
    for n in 0..headers.len() {
        let action = out_action(net, i, &Top::Plain(headers[n]));
        note_bare(action, n, &mut bare);
        note_around(alloc, net, headers, i, n, action, around)?;
    }
    Ok(bare)
}

/// Notes what an interface does, and adds its outlet if it is a way out.
fn note_interface(
    alloc: Global,
    net: &Network,
    headers: &[Header],
    i: IfId,
    ways: &mut Items<Outlet>,
    around: &mut [Option<AtomSet>],
) -> Result<(), AllocError>
    requires interface { i < length net.now.interfaces }
    requires ways { AreWaysTo net.now headers.now i ways.old }
    requires around { AreAroundTo net.now headers.now i 0 around.old }
    ensures ways { OnOk result (AreWaysTo net.now headers.now (i + 1) ways.new) }
    ensures around { OnOk result (AreAroundTo net.now headers.now (i + 1) 0 around.new) }
{
    if !is_of_trusted(net, i) {
        return Ok(());
    }
    let bare = note_all(alloc, net, headers, i, around)?;
    if is_way_out(net, i) {
        ways.push(Outlet { interface: i, bare })?;
    }
    Ok(())
}

/// A place for the set of each association, without any set.
fn no_sets(alloc: Global, count: usize) -> Result<Vec<Option<AtomSet>>, AllocError>
    ensures { IfOk result (λ sets. sets.items ≡ replicate count None) }
{
    let mut sets = Vec::new(alloc);
    for _ in 0..count {
        sets.push(None)?;
    }
    Ok(sets)
}

/// Notes what each interface does, one after another.
fn note_interfaces(
    alloc: Global,
    net: &Network,
    headers: &[Header],
    around: &mut [Option<AtomSet>],
) -> Result<Items<Outlet>, AllocError>
    requires { AreAroundTo net.now headers.now 0 0 around.old }
    ensures ways { IfOk result (λ ways. AreWaysTo net.now headers.now (length net.now.interfaces) ways) }
    ensures around { OnOk result (AreAroundTo net.now headers.now (length net.now.interfaces) 0 around.new) }
{
    let mut ways = Items::new(alloc);
    for i in 0..net.interfaces.len() {
        note_interface(alloc, net, headers, i as IfId, &mut ways, around)?;
    }
    Ok(ways)
}

/// The outlets of a network, of these headers: each interface of a trusted device is asked about each of them once. Takes memory
/// for one set at most for each interface and for each association that its outward rules put around packets. Fails only for
/// want of memory.
#[tactic(auto, using(crate::proofs::NotingLaws::all_noted, crate::proofs::NotingLaws::none_noted))]
pub fn outlets(alloc: Global, net: &Network, headers: &[Header]) -> Result<Outlets, AllocError>
    ensures { IfOk result (λ outlets. AreOutlets net.now headers.now outlets) }
{
    let mut around = no_sets(alloc, net.sas.len())?;
    let ways = note_interfaces(alloc, net, headers, around.as_mut_slice())?;
    Ok(Outlets {
        ways,
        around: Items::from_vec(around),
    })
}
