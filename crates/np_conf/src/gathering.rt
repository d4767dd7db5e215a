//! The associations under which an own packet may be readable: those that hide nothing and that trusted devices put around bare
//! own packets, and around packets under one of them.

ghost use Rattle.std.specs.Prelude.{◌≡◌, ◌↔◌, ℕ, ◌^◌, ◌<◌, ◌≤◌, None, length, slice_index_or, IfNone, IfSome, IsTrue};
ghost use Rattle.np_space.specs.Header.{zeros};
ghost use Rattle.np_net.specs.declared.associations.OutAction.TheVariants as outs;
ghost use Rattle.np_ipsec.specs.Alike.{AreLeastsFor, KeepsAlike};
ghost use Rattle.np_ipsec.specs.Tables.{out_action_of};
ghost use Rattle.np_conf.specs.Outlets.{AreOutlets, IsAround, PutsAt, PutsBefore};
ghost use Rattle.np_conf.specs.Sets.{Adds, IsAroundBefore, IsEmpty, IsLeft, IsReadableSet, PutsAround, PutsOwn, is_own};

use crate::leaving::Outlets;
use crate::ways::is_of_trusted;
use np_atomset::AtomSet;
use np_ipsec::{Top, has_source, out_action, secret};
use np_net::{AreaId, DECLARATION_LIMIT, IfId, Network, OutAction, SaId};
use np_pred::Pred;
use np_space::Header;

/// Whether a header is of the predicate and has a source of the area.
pub(crate) fn is_own(net: &Network, from: AreaId, pred: &Pred, h: &Header) -> bool
    requires { from < length net.now.areas }
    ensures { result ≡ is_own net.now from pred.now h.now }
{
    pred.holds(h) && has_source(net, from, h)
}

/// The association, if any, of an outward action of a network.
fn protection(net: &Network, i: IfId, top: &Top, action: OutAction) -> Option<SaId>
    requires interface { i < length net.now.interfaces }
    requires action { action ≡ out_action_of net.now i top.now }
    ensures none { IfNone result ((k : ℕ) → action ≡ outs.Protect k → ⊥) }
    ensures some { IfSome result (λ k. action ≡ outs.Protect k) }
    ensures within { IfSome result (λ k. k < length net.now.sas) }
{
    // What is known of every network says that its rules name associations that there are.
    let _ = &net.sas;
    match action {
        OutAction::Protect(k) => Some(k),
        OutAction::Bypass | OutAction::Discard => None,
    }
}

/// The association that hides nothing and that a trusted device puts around packets with this outermost header, at an interface
/// whose rules say this of them.
pub(crate) fn put_by(net: &Network, i: IfId, top: &Top, action: OutAction) -> Option<SaId>
    requires interface { i < length net.now.interfaces }
    requires action { action ≡ out_action_of net.now i top.now }
    ensures none { IfNone result ((k : ℕ) → PutsAt net.now top.now i k → ⊥) }
    ensures some { IfSome result (λ k. PutsAt net.now top.now i k) }
    ensures within { IfSome result (λ k. k < length net.now.sas) }
{
    if !is_of_trusted(net, i) {
        return None;
    }
    match protection(net, i, top, action) {
        Some(k) if !secret(net, k) => Some(k),
        _ => None,
    }
}

/// The association that hides nothing and that a trusted device puts around packets with this outermost header, at an interface.
fn put_at(net: &Network, i: IfId, top: &Top) -> Option<SaId>
    requires { i < length net.now.interfaces }
    ensures none { IfNone result ((k : ℕ) → PutsAt net.now top.now i k → ⊥) }
    ensures some { IfSome result (λ k. PutsAt net.now top.now i k) }
    ensures within { IfSome result (λ k. k < length net.now.sas) }
{
    put_by(net, i, top, out_action(net, i, top))
}

/// Adds the one that is put around packets with this outermost header at an interface.
fn add_at(net: &Network, i: IfId, top: &Top, set: &mut [bool])
    requires place { i < length net.now.interfaces }
    requires room { length net.now.sas ≤ length set.old }
    ensures { Adds (PutsAt net.now top.now i) set.old set.new }
{
    if let Some(k) = put_at(net, i, top) {
        set[k as usize] = true;
    }
}

/// Adds those that are put around packets with this outermost header.
#[tactic(auto, using(crate::proofs::SetLaws::added_more))]
fn add_all(net: &Network, top: &Top, set: &mut [bool])
    requires { length net.now.sas ≤ length set.old }
    ensures { Adds (PutsBefore net.now top.now (length net.now.interfaces)) set.old set.new }
{
    for i in 0..net.interfaces.len() {
        add_at(net, i as IfId, top, set);
    }
}

/// Whether the header at a place is one around which an association is put.
fn is_around(around: &[Option<AtomSet>], k: usize, n: usize) -> bool
    requires association { k < length around.now }
    requires sizes { IfSome (slice_index_or around.now k None) (λ set. n < length set) }
    ensures { IsTrue result ↔ IsAround around.now n k }
{
    match &around[k] {
        Some(set) => set.has(n),
        None => false,
    }
}

/// Adds the associations that are put around packets with the header at a place.
#[tactic(auto, using(crate::proofs::SetLaws::added_next, crate::proofs::SetLaws::added_not))]
fn add_around(around: &[Option<AtomSet>], n: usize, set: &mut [bool])
    requires sizes { (k : ℕ) → IfSome (slice_index_or around.now k None) (λ set. n < length set) }
    requires room { length around.now ≤ length set.old }
    ensures { Adds (IsAroundBefore around.now n (length around.now)) set.old set.new }
{
    for k in 0..around.len() {
        if is_around(around, k, n) {
            set[k] = true;
        }
    }
}

/// Adds those that are put around bare packets with the header at a place, if it is an own one.
fn add_own(
    net: &Network,
    leasts: &[Header],
    outlets: &Outlets,
    from: AreaId,
    pred: &Pred,
    n: usize,
    set: &mut [bool],
)
    requires from { from < length net.now.areas }
    requires outlets { AreOutlets net.now leasts.now outlets.now }
    requires header { n < length leasts.now }
    requires room { length net.now.sas ≤ length set.old }
    ensures { Adds (PutsOwn net.now from pred.now (slice_index_or leasts.now n zeros)) set.old set.new }
{
    if is_own(net, from, pred, &leasts[n]) {
        add_around(outlets.around.as_slice(), n, set);
    }
}

/// Adds those that are put around bare packets with one of these headers, an own one.
#[tactic(auto, using(crate::proofs::SetLaws::added_header))]
fn add_firsts(
    net: &Network,
    leasts: &[Header],
    outlets: &Outlets,
    from: AreaId,
    pred: &Pred,
    set: &mut [bool],
)
    requires from { from < length net.now.areas }
    requires outlets { AreOutlets net.now leasts.now outlets.now }
    requires room { length net.now.sas ≤ length set.old }
    ensures { Adds (PutsAround net.now from pred.now leasts.now (length leasts.now)) set.old set.new }
{
    for n in 0..leasts.len() {
        add_own(net, leasts, outlets, from, pred, n, set);
    }
}

/// The first association of the set that isn't done.
fn next_left(set: &[bool], done: &[bool]) -> Option<SaId>
    requires same { length set.now ≡ length done.now }
    requires few { length set.now ≤ 2 ^ 16 }
    ensures none { IfNone result ((k : ℕ) → IsLeft set.now done.now k → ⊥) }
    ensures some { IfSome result (λ k. IsLeft set.now done.now k) }
{
    for k in 0..set.len() {
        if set[k] && !done[k] {
            return Some(k as SaId);
        }
    }
    None
}

/// Adds to an empty set the associations that hide nothing and that are put around bare own packets, and then those that are put
/// around packets under one of the set, until each of the set is done. Each is asked about once.
#[tactic(auto, using(crate::proofs::SetLaws::gathered_first, crate::proofs::SetLaws::gathered_more, crate::proofs::SetLaws::gathered_all, crate::proofs::SetLaws::fewer_left))]
fn gather(
    net: &Network,
    leasts: &[Header],
    outlets: &Outlets,
    from: AreaId,
    pred: &Pred,
    set: &mut [bool],
    done: &mut [bool],
)
    requires from { from < length net.now.areas }
    requires goal { KeepsAlike net.now pred.now }
    requires leasts { AreLeastsFor net.now leasts.now }
    requires outlets { AreOutlets net.now leasts.now outlets.now }
    requires room { length net.now.sas ≤ length set.old }
    requires same { length set.old ≡ length done.old }
    requires few { length set.old ≤ 2 ^ 16 }
    requires no_set { IsEmpty set.old }
    requires no_done { IsEmpty done.old }
    ensures { IsReadableSet net.now from pred.now set.new }
{
    add_firsts(net, leasts, outlets, from, pred, set);
    'adding: while let Some(k) = next_left(set, done) {
        done[k as usize] = true;
        add_all(net, &Top::Under(k), set);
    }
}

/// A set without associations.
fn empty_set() -> [bool; DECLARATION_LIMIT]
    ensures { IsEmpty result }
{
    [false; DECLARATION_LIMIT]
}

/// The associations under which an own packet may be readable.
pub(crate) fn readable_set(
    net: &Network,
    leasts: &[Header],
    outlets: &Outlets,
    from: AreaId,
    pred: &Pred,
) -> [bool; DECLARATION_LIMIT]
    requires from { from < length net.now.areas }
    requires goal { KeepsAlike net.now pred.now }
    requires leasts { AreLeastsFor net.now leasts.now }
    requires outlets { AreOutlets net.now leasts.now outlets.now }
    ensures { IsReadableSet net.now from pred.now result }
{
    let _ = &net.sas;
    let mut set = empty_set();
    let mut done = empty_set();
    gather(net, leasts, outlets, from, pred, &mut set, &mut done);
    set
}
