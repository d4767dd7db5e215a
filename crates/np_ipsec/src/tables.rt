//! What the tables of a network say of a packet: which associations' headers are removed, and what becomes of the packet.

ghost use Rattle.std.specs.Prelude.{◌≡◌, ◌<◌, ◌&&◌, length};
ghost use Rattle.std.specs.List.{find};
ghost use Rattle.std.specs.Option.{option_copied};
ghost use Rattle.np_ipsec.specs.Tables.{fits_mark, fits_top, has_pop, in_action_by, in_action_of, out_action_by, out_action_of, table_at};

use np_net::{IfId, InAction, InRule, MarkTest, Match, Network, OutAction, OutRule, SaId, Table};
use np_space::Header;

/// The outermost header of a packet.
#[derive(Clone, Copy, Debug)]
pub enum Top {
    /// No association's header is around it, so that its own, plain one is outermost.
    Plain(Header),
    /// The header of this association.
    Under(SaId),
}

/// Whether a rule's match fits the outermost header.
fn fits_top(rule: &Match, top: &Top) -> bool
    ensures { result ≡ fits_top rule.now top.now }
{
    match (rule, top) {
        (Match::Plain(pred), Top::Plain(h)) => pred.holds(h),
        (Match::Under(n), Top::Under(k)) => k == n,
        (Match::Every, _) => true,
        _ => false,
    }
}

/// Whether a rule's mark fits the association whose header was removed last, or that none was.
fn fits_mark(test: MarkTest, mark: Option<SaId>) -> bool
    ensures { result ≡ fits_mark test mark }
{
    match (test, mark) {
        (MarkTest::Unmarked, None) => true,
        (MarkTest::Popped(n), Some(k)) => k == n,
        (MarkTest::AnyMark, _) => true,
        _ => false,
    }
}

/// The first inward rule that fits.
fn first_in<'a>(rules: &'a [InRule], top: &Top, mark: Option<SaId>) -> Option<&'a InRule>
    ensures { option_copied result ≡ find (λ rule. fits_mark rule.mark mark && fits_top rule.top top.now) rules.now }
{
    rules.iter().find(|rule| fits_mark(rule.mark, mark) && fits_top(&rule.top, top))
}

/// The first outward rule that fits.
fn first_out<'a>(rules: &'a [OutRule], top: &Top) -> Option<&'a OutRule>
    ensures { option_copied result ≡ find (λ rule. fits_top rule.top top.now) rules.now }
{
    rules.iter().find(|rule| fits_top(&rule.top, top))
}

/// What the first inward rule that fits does.
fn in_action_by(rules: &[InRule], top: &Top, mark: Option<SaId>) -> InAction
    ensures { result ≡ in_action_by rules.now top.now mark }
{
    match first_in(rules, top, mark) {
        Some(rule) => rule.action,
        None => InAction::Discard,
    }
}

/// What the first outward rule that fits does.
fn out_action_by(rules: &[OutRule], top: &Top) -> OutAction
    ensures { result ≡ out_action_by rules.now top.now }
{
    match first_out(rules, top) {
        Some(rule) => rule.action,
        None => OutAction::Discard,
    }
}

/// The table of an interface.
fn table_at(net: &Network, i: IfId) -> &Table
    requires { i < length net.now.interfaces }
    ensures { result.now ≡ table_at net.now i }
{
    &net.tables.as_slice()[i as usize]
}

/// Whether a rule of an interface removes the headers of an association from packets that come in there, as the destination
/// of a tunnel does with what is for it (RFC 4301).
pub fn pops(net: &Network, i: IfId, sa: SaId) -> bool
    requires { i < length net.now.interfaces }
    ensures { result ≡ has_pop net.now i sa }
{
    table_at(net, i).pops.as_slice().iter().any(|n| *n == sa)
}

/// What becomes of a packet that came in by an interface, by its outermost header and the association whose header was removed
/// last. The first rule that fits decides, as in an ordered policy database (RFC 4301); where none does, the packet is discarded.
pub fn in_action(net: &Network, i: IfId, top: &Top, mark: Option<SaId>) -> InAction
    requires { i < length net.now.interfaces }
    ensures { result ≡ in_action_of net.now i top.now mark }
{
    in_action_by(table_at(net, i).ins.as_slice(), top, mark)
}

/// What becomes of a packet that is to go out by an interface, by its outermost header. The first rule that fits decides, as in
/// an ordered policy database (RFC 4301); where none does, the packet is discarded.
pub fn out_action(net: &Network, i: IfId, top: &Top) -> OutAction
    requires { i < length net.now.interfaces }
    ensures { result ≡ out_action_of net.now i top.now }
{
    out_action_by(table_at(net, i).outs.as_slice(), top)
}
