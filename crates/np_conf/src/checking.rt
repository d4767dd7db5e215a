//! The check of a confidentiality goal's local rules.

ghost use Rattle.std.specs.Prelude.{◌≡◌, ◌↔◌, ℕ, ◌^◌, ◌<◌, ◌≤◌, length, IfNone, IfSome, IsTrue};
ghost use Rattle.np_space.specs.Header.{IsLeastOf};
ghost use Rattle.np_space.specs.declared.headers.Header.{Header as Head};
ghost use Rattle.np_ipsec.specs.Alike.{AreLeastsFor, KeepsAlike};
ghost use Rattle.np_ipsec.specs.Searching.{FindsFirst, FindsListed, IsFirst};
ghost use Rattle.np_ipsec.specs.Tables.{out_action_of};
ghost use Rattle.np_ipsec.specs.Trajectories.{IsSafe};
ghost use Rattle.np_conf.specs.Answers.{IsAnswer, IsAnswerTo, IsConf, KeepsRules, LetsSomeBare, ipgoal_at};
ghost use Rattle.np_conf.specs.Outlets as outlets;
ghost use Rattle.np_conf.specs.Outlets.{AreOutlets, is_bypass, outlet_at};
ghost use Rattle.np_conf.specs.Rules.{LetsOutBare};
ghost use Rattle.np_conf.specs.Sets.{FindsOutlet, IsOwnIn, LetsOutListed, LetsSomeListed};

use crate::answers::{Answer, Broken};
use crate::gathering::{is_own, readable_set};
use crate::leaving::{Outlet, Outlets};
use crate::ways::is_way_out;
use np_atomset::AtomSet;
use np_ipsec::{Place, Top, first_foreign, header_at, is_trusted, out_action};
use np_net::{AreaId, IfId, IpGoal, Network, OutAction, SaId};
use np_pred::Pred;
use np_space::Header;

/// Whether packets with this outermost header go on as they are where they are to go out by an interface.
fn passes(net: &Network, i: IfId, top: &Top) -> bool
    requires { i < length net.now.interfaces }
    ensures { result ≡ is_bypass (out_action_of net.now i top.now) }
{
    matches!(out_action(net, i, top), OutAction::Bypass)
}

/// The outlet at a place of the list.
fn outlet_at(list: &[Outlet], n: usize) -> &Outlet
    requires { n < length list.now }
    ensures { result.now ≡ outlet_at list.now n }
{
    &list[n]
}

/// Whether the header at a place is in the set, and an own one.
fn is_own_in(
    bare: &AtomSet,
    net: &Network,
    from: AreaId,
    pred: &Pred,
    leasts: &[Header],
    n: usize,
) -> bool
    requires from { from < length net.now.areas }
    requires place { n < length leasts.now }
    requires size { length bare.now ≡ length leasts.now }
    ensures { IsTrue result ↔ IsOwnIn bare.now net.now from pred.now leasts.now n }
{
    bare.has(n) && is_own(net, from, pred, &header_at(leasts, n))
}

/// The first header of the set that is an own one.
fn first_bare(
    bare: &AtomSet,
    net: &Network,
    from: AreaId,
    pred: &Pred,
    leasts: &[Header],
) -> Option<Header>
    requires from { from < length net.now.areas }
    requires size { length bare.now ≡ length leasts.now }
    ensures { FindsListed (IsOwnIn bare.now net.now from pred.now leasts.now) leasts.now result }
{
    let start = bare.first()?;
    for n in start..leasts.len() {
        if is_own_in(bare, net, from, pred, leasts, n) {
            return Some(header_at(leasts, n));
        }
    }
    None
}

/// The first of the outlets where an own header goes out bare, and the first such header there.
fn first_outlet(
    list: &[Outlet],
    net: &Network,
    from: AreaId,
    pred: &Pred,
    leasts: &[Header],
) -> Option<(IfId, Header)>
    requires from { from < length net.now.areas }
    requires sizes { (m : ℕ) → m < length list.now → length (outlets.outlet_at list.now m).bare ≡ length leasts.now }
    ensures { FindsOutlet list.now net.now from pred.now leasts.now result }
{
    for m in 0..list.len() {
        let outlet = outlet_at(list, m);
        if let Some(h) = first_bare(&outlet.bare, net, from, pred, leasts) {
            return Some((outlet.interface, h));
        }
    }
    None
}

/// The first interface where a bare own packet goes out, and the least header there.
fn bare(
    net: &Network,
    leasts: &[Header],
    outlets: &Outlets,
    from: AreaId,
    pred: &Pred,
) -> Option<(IfId, Header)>
    requires from { from < length net.now.areas }
    requires goal { KeepsAlike net.now pred.now }
    requires leasts { AreLeastsFor net.now leasts.now }
    requires outlets { AreOutlets net.now leasts.now outlets.now }
    ensures none { IfNone result ((i : ℕ) (h : Head) → LetsOutBare net.now from pred.now i h → ⊥) }
    ensures first { IfSome result (λ found. IsFirst (LetsSomeBare net.now from pred.now) found.0) }
    ensures least { IfSome result (λ found. IsLeastOf (LetsOutBare net.now from pred.now found.0) found.1) }
{
    first_outlet(outlets.ways.as_slice(), net, from, pred, leasts)
}

/// The first association of the set under which a packet goes out at an interface.
fn under_at(net: &Network, set: &[bool], i: IfId) -> Option<SaId>
    requires place { i < length net.now.interfaces }
    requires few { length set.now ≤ 2 ^ 16 }
    ensures { FindsFirst (LetsOutListed net.now set.now i) result }
{
    if !is_way_out(net, i) {
        return None;
    }
    for k in 0..set.len() {
        if set[k] && passes(net, i, &Top::Under(k as SaId)) {
            return Some(k as SaId);
        }
    }
    None
}

/// The first interface where a packet goes out under an association of the set, and the first such association there.
fn under(net: &Network, set: &[bool]) -> Option<(IfId, SaId)>
    requires { length set.now ≤ 2 ^ 16 }
    ensures none { IfNone result ((i k : ℕ) → LetsOutListed net.now set.now i k → ⊥) }
    ensures first { IfSome result (λ found. IsFirst (LetsSomeListed net.now set.now) found.0) }
    ensures least { IfSome result (λ found. IsFirst (LetsOutListed net.now set.now found.0) found.1) }
{
    for i in 0..net.interfaces.len() {
        if let Some(k) = under_at(net, set, i as IfId) {
            return Some((i as IfId, k));
        }
    }
    None
}

/// The answer for packets of a predicate from an area.
fn check(net: &Network, leasts: &[Header], outlets: &Outlets, from: AreaId, pred: &Pred) -> Answer
    requires from { from < length net.now.areas }
    requires goal { KeepsAlike net.now pred.now }
    requires leasts { AreLeastsFor net.now leasts.now }
    requires outlets { AreOutlets net.now leasts.now outlets.now }
    ensures { IsAnswer net.now from pred.now result }
{
    if !is_trusted(net, Place::AtArea(from)) {
        return Answer::No(Broken::K0Area(from));
    }
    if let Some(i) = first_foreign(net) {
        return Answer::No(Broken::K0Interface(i));
    }
    if let Some((i, h)) = bare(net, leasts, outlets, from, pred) {
        return Answer::No(Broken::K1(i, h));
    }
    match under(net, &readable_set(net, leasts, outlets, from, pred)) {
        Some((i, k)) => Answer::No(Broken::K2(i, k)),
        None => Answer::Yes,
    }
}

/// Whether the local rules of a confidentiality goal hold, and else the first that doesn't, with its first place. Where they hold,
/// no trajectory of any depth breaks the goal.
///
/// `goal` is the number, from 0, of a confidentiality goal of the network. `leasts` has the least header of each class of those
/// that no rule, no goal and no area tells apart, and `outlets` are the network's, of these headers: so no rule is asked about a
/// bare packet again. Takes no memory.
#[tactic(auto, using(crate::proofs::AnswerLaws::yes_exactly))]
pub fn check_conf(net: &Network, leasts: &[Header], outlets: &Outlets, goal: usize) -> Answer
    requires goal { goal < length net.now.ipgoals }
    requires conf { IsConf (ipgoal_at net.now goal) }
    requires leasts { AreLeastsFor net.now leasts.now }
    requires outlets { AreOutlets net.now leasts.now outlets.now }
    ensures answer { IsAnswerTo net.now (ipgoal_at net.now goal) result }
    ensures yes { (result ≡ Answer.Yes) ↔ KeepsRules net.now (ipgoal_at net.now goal) }
    ensures safe { result ≡ Answer.Yes → (depth : ℕ) → IsSafe net.now depth (ipgoal_at net.now goal) }
{
    match &net.ipgoals.as_slice()[goal] {
        IpGoal::Conf { from, pred } => check(net, leasts, outlets, *from, pred),
        IpGoal::Auth { .. } => unreachable!(),
    }
}
