//! The check of an authentication goal's local rules, rule by rule.

ghost use Rattle.std.specs.Prelude.{◌≡◌, ◌<◌, ◌↔◌, ℕ, length, IsTrue, MatchOption};
ghost use Rattle.np_pred.specs.declared.predicate.Pred.{Pred as Predicate};
ghost use Rattle.np_net.specs.declared.associations.IpGoal.TheVariants as goals;
ghost use Rattle.np_ipsec.specs.Alike.{AreLeastsFor, KeepsAlike};
ghost use Rattle.np_ipsec.specs.Searching.{Finds, FindsListed};
ghost use Rattle.np_ipsec.specs.Trajectories.{IsSafe};
ghost use Rattle.np_auth.specs.Rules.{AuthRules, HasSourceToo};
ghost use Rattle.np_auth.specs.Answers.{AreBothTrusted, HoldsA1, HoldsA2, IsAnswer, IsAuth, IsAuthGoal, IsFirstForged, IsFirstSource, IsFirstUntrusted};
ghost use Rattle.np_auth.specs.Passages as passages;
ghost use Rattle.np_auth.specs.Passages.{ArePassages, passage_at};
ghost use Rattle.np_auth.specs.Searches.{FindsPassage, IsMeantIn, IsSentAt, is_sent};

use crate::answers::{Answer, Broken};
use crate::marking::{Passage, Passages};
use np_atomset::AtomSet;
use np_ipsec::{Place, first_foreign, has_source, header_at, is_trusted};
use np_net::{AreaId, IfId, IpGoal, Network, SaId};
use np_pred::Pred;
use np_space::Header;

/// The first area of a goal that isn't trusted.
fn first_untrusted(net: &Network, from: AreaId, here: AreaId) -> Option<AreaId>
    requires from_in { from < length net.now.areas }
    requires here_in { here < length net.now.areas }
    ensures { MatchOption result (AreBothTrusted net.now from here) (λ a. IsFirstUntrusted net.now from here a) }
{
    if !is_trusted(net, Place::AtArea(from)) {
        Some(from)
    } else if !is_trusted(net, Place::AtArea(here)) {
        Some(here)
    } else {
        None
    }
}

/// Whether an area sends packets with this header, and the predicate holds for it.
fn is_sent(net: &Network, pred: &Pred, a: AreaId, h: &Header) -> bool
    requires { a < length net.now.areas }
    ensures { result ≡ is_sent net.now pred.now a h.now }
{
    pred.holds(h) && has_source(net, a, h)
}

/// The first of these headers for which the predicate holds and whose source an area has.
fn first_sent(net: &Network, leasts: &[Header], pred: &Pred, a: AreaId) -> Option<Header>
    requires { a < length net.now.areas }
    ensures { FindsListed (IsSentAt net.now pred.now a leasts.now) leasts.now result }
{
    for n in 0..leasts.len() {
        let h = header_at(leasts, n);
        if is_sent(net, pred, a, &h) {
            return Some(h);
        }
    }
    None
}

/// The least header for which the predicate holds and whose source an area has, if the area is trusted and isn't the one
/// that such packets come from.
fn source_at(
    net: &Network,
    leasts: &[Header],
    from: AreaId,
    pred: &Pred,
    a: AreaId,
) -> Option<Header>
    requires area { a < length net.now.areas }
    requires leasts { AreLeastsFor net.now leasts.now }
    requires goal { KeepsAlike net.now pred.now }
    ensures { Finds (HasSourceToo net.now from pred.now a) result }
{
    if a == from || !is_trusted(net, Place::AtArea(a)) {
        return None;
    }
    first_sent(net, leasts, pred, a)
}

/// The first area where the rule on sources doesn't hold, with the least header there.
fn first_source(
    net: &Network,
    leasts: &[Header],
    from: AreaId,
    pred: &Pred,
) -> Option<(AreaId, Header)>
    requires leasts { AreLeastsFor net.now leasts.now }
    requires goal { KeepsAlike net.now pred.now }
    ensures { MatchOption result (HoldsA1 net.now from pred.now) (λ found. IsFirstSource net.now from pred.now found.0 found.1) }
{
    for a in 0..net.areas.len() {
        if let Some(h) = source_at(net, leasts, from, pred, a as AreaId) {
            return Some((a as AreaId, h));
        }
    }
    None
}

/// The passage at a place of the list.
fn passage_at(list: &[Passage], n: usize) -> &Passage
    requires { n < length list.now }
    ensures { result.now ≡ passage_at list.now n }
{
    &list[n]
}

/// Whether the header at a place is in the set, and the predicate holds for it.
fn is_meant(set: &AtomSet, leasts: &[Header], pred: &Pred, n: usize) -> bool
    requires place { n < length leasts.now }
    requires size { length set.now ≡ length leasts.now }
    ensures { IsTrue result ↔ IsMeantIn set.now leasts.now pred.now n }
{
    set.has(n) && pred.holds(&header_at(leasts, n))
}

/// The first header of the set for which the predicate holds.
fn first_passed(set: &AtomSet, leasts: &[Header], pred: &Pred) -> Option<Header>
    requires { length set.now ≡ length leasts.now }
    ensures { FindsListed (IsMeantIn set.now leasts.now pred.now) leasts.now result }
{
    let start = set.first()?;
    for n in start..leasts.len() {
        if is_meant(set, leasts, pred, n) {
            return Some(header_at(leasts, n));
        }
    }
    None
}

/// The first of the passages where a packet of the predicate passes, with the first such packet's header.
fn first_passage(
    list: &[Passage],
    leasts: &[Header],
    pred: &Pred,
) -> Option<(IfId, Option<SaId>, Header)>
    requires { (m : ℕ) → m < length list.now → length (passages.passage_at list.now m).passing ≡ length leasts.now }
    ensures { FindsPassage list.now leasts.now pred.now result }
{
    for m in 0..list.len() {
        let passage = passage_at(list, m);
        if let Some(h) = first_passed(&passage.passing, leasts, pred) {
            return Some((passage.interface, passage.mark, h));
        }
    }
    None
}

/// The first interface that a packet that may be forged passes, with the first mark there and the least such packet's header.
fn first_forged(
    net: &Network,
    leasts: &[Header],
    passages: &Passages,
    pred: &Pred,
) -> Option<(IfId, Option<SaId>, Header)>
    requires leasts { AreLeastsFor net.now leasts.now }
    requires passages { ArePassages net.now leasts.now passages.now }
    requires goal { KeepsAlike net.now pred.now }
    ensures { MatchOption result (HoldsA2 net.now pred.now) (λ found. IsFirstForged net.now pred.now found.0 found.1 found.2) }
{
    let _ = net;
    first_passage(passages.list.as_slice(), leasts, pred)
}

/// Whether the local rules hold of a goal with these areas and this predicate.
fn answer(
    net: &Network,
    leasts: &[Header],
    passages: &Passages,
    from: AreaId,
    here: AreaId,
    pred: &Pred,
) -> Answer
    requires from_in { from < length net.now.areas }
    requires here_in { here < length net.now.areas }
    requires leasts { AreLeastsFor net.now leasts.now }
    requires passages { ArePassages net.now leasts.now passages.now }
    requires goal { KeepsAlike net.now pred.now }
    ensures { IsAnswer net.now from here pred.now result }
{
    if let Some(a) = first_untrusted(net, from, here) {
        return Answer::No(Broken::A0Area(a));
    }
    if let Some(i) = first_foreign(net) {
        return Answer::No(Broken::A0Interface(i));
    }
    if let Some((a, h)) = first_source(net, leasts, from, pred) {
        return Answer::No(Broken::A1(a, h));
    }
    if let Some((i, mark, h)) = first_forged(net, leasts, passages, pred) {
        return Answer::No(Broken::A2(i, mark, h));
    }
    Answer::Yes
}

/// Whether the local rules of an authentication goal hold; if not, the first one that doesn't, with the first place and the
/// least header that show it. Where they hold, no trajectory of any depth breaks the goal.
///
/// `goal` is the number, from 0, of an authentication goal of the network. `leasts` has the least header of each class of those
/// that no rule, no goal and no area tells apart, and `passages` are the network's, of these headers: so no rule is asked again.
/// Takes no memory.
pub fn check_auth(net: &Network, leasts: &[Header], passages: &Passages, goal: usize) -> Answer
    requires within { goal < length net.now.ipgoals }
    requires auth { IsAuth net.now goal }
    requires leasts { AreLeastsFor net.now leasts.now }
    requires passages { ArePassages net.now leasts.now passages.now }
    ensures answer { (from here : ℕ) (pred : Predicate) → IsAuthGoal net.now goal from here pred → IsAnswer net.now from here pred result }
    ensures yes { (from here : ℕ) (pred : Predicate) → IsAuthGoal net.now goal from here pred → (result ≡ Answer.Yes) ↔ AuthRules net.now from here pred }
    ensures safe { (from here : ℕ) (pred : Predicate) → IsAuthGoal net.now goal from here pred → result ≡ Answer.Yes → (depth : ℕ) → IsSafe net.now depth (goals.Auth from here pred) }
{
    match &net.ipgoals.as_slice()[goal] {
        IpGoal::Auth { from, at, pred } => answer(net, leasts, passages, *from, *at, pred),
        IpGoal::Conf { .. } => unreachable!(),
    }
}
