//! The lines of the IPsec part of the canonical text.

ghost use Rattle.std.specs.Prelude.{◌≡◌, ◌++◌, ◌∷◌, ℕ, length, OnOk};
ghost use Rattle.std.specs.List.{AllByRecursion, flat_map};
ghost use Rattle.np_net.specs.Network.{AreTables, IsInRule, IsIpGoal, IsMatch, IsOutRule, IsTable};
ghost use Rattle.np_net_text.specs.Canonical as canonical;
ghost use Rattle.np_net_text.specs.CanonicalText.{line_text, lines_text, spaced};

use crate::canonical_words::{put_place, put_pred_words, put_word};
use np_net::{
    InAction, InRule, Interface, IpGoal, Kind, MarkTest, Match, Network, OutAction, OutRule, Sa,
    SaId, Table, area_name, device_name, sa_name,
};
use std::alloc::AllocError;

fn kind_word(kind: Kind) -> &'static [u8]
    ensures { result.now ≡ canonical.kind_word kind }
{
    match kind {
        Kind::Esp => b"esp",
        Kind::EspEnc => b"esp-enc",
        Kind::EspNull => b"esp-null",
        Kind::Ah => b"ah",
    }
}

// Appends the line of a security association.
fn put_sa(out: &mut Vec<u8>, net: &Network, sa: &Sa) -> Result<(), AllocError>
    ensures { OnOk result (out.new.items ≡ out.old.items ++ line_text (canonical.sa_words net.now sa.now)) }
{
    out.extend_from_slice(b"sa")?;
    put_word(out, sa.name.bytes())?;
    put_word(out, kind_word(sa.kind))?;
    put_word(out, device_name(net, sa.from))?;
    put_word(out, device_name(net, sa.to))?;
    out.push(b'\n')?;
    Ok(())
}

// Appends the lines of security associations.
fn put_sas(out: &mut Vec<u8>, net: &Network, sas: &[Sa]) -> Result<(), AllocError>
    ensures { OnOk result (out.new.items ≡ out.old.items ++ flat_map (λ sa. line_text (canonical.sa_words net.now sa)) sas.now) }
{
    for sa in sas {
        put_sa(out, net, sa)?;
    }
    Ok(())
}

// Appends the words of a match, each after a space.
fn put_match(out: &mut Vec<u8>, net: &Network, top: &Match) -> Result<(), AllocError>
    requires { IsMatch net.now.sas top.now }
    ensures { OnOk result (out.new.items ≡ out.old.items ++ spaced (canonical.match_words net.now top.now)) }
{
    match top {
        Match::Plain(pred) => {
            put_word(out, b"plain")?;
            put_pred_words(out, pred)
        }
        Match::Under(sa) => {
            put_word(out, b"under")?;
            put_word(out, sa_name(net, *sa))
        }
        Match::Every => put_word(out, b"every"),
    }
}

// Appends the words of a mark, each after a space.
fn put_mark(out: &mut Vec<u8>, net: &Network, mark: MarkTest) -> Result<(), AllocError>
    ensures { OnOk result (out.new.items ≡ out.old.items ++ spaced (canonical.mark_words net.now mark)) }
{
    match mark {
        MarkTest::Unmarked => put_word(out, b"unmarked"),
        MarkTest::Popped(sa) => {
            put_word(out, b"popped")?;
            put_word(out, sa_name(net, sa))
        }
        MarkTest::AnyMark => put_word(out, b"anymark"),
    }
}

fn in_action_word(action: InAction) -> &'static [u8]
    ensures { result.now ≡ canonical.in_action_word action }
{
    match action {
        InAction::Bypass => b"bypass",
        InAction::Discard => b"discard",
    }
}

// Appends the words of an outward action, each after a space.
fn put_out_action(out: &mut Vec<u8>, net: &Network, action: OutAction) -> Result<(), AllocError>
    ensures { OnOk result (out.new.items ≡ out.old.items ++ spaced (canonical.out_action_words net.now action)) }
{
    match action {
        OutAction::Protect(sa) => {
            put_word(out, b"protect")?;
            put_word(out, sa_name(net, sa))
        }
        OutAction::Bypass => put_word(out, b"bypass"),
        OutAction::Discard => put_word(out, b"discard"),
    }
}

// Appends the line of a pop rule.
fn put_pop(
    out: &mut Vec<u8>,
    net: &Network,
    interface: &Interface,
    sa: SaId,
) -> Result<(), AllocError>
    ensures { OnOk result (out.new.items ≡ out.old.items ++ line_text (canonical.pop_words net.now interface.now sa)) }
{
    out.extend_from_slice(b"pop")?;
    put_place(out, net, interface)?;
    put_word(out, sa_name(net, sa))?;
    out.push(b'\n')?;
    Ok(())
}

// Appends the lines of pop rules.
fn put_pops(
    out: &mut Vec<u8>,
    net: &Network,
    interface: &Interface,
    pops: &[SaId],
) -> Result<(), AllocError>
    ensures { OnOk result (out.new.items ≡ out.old.items ++ flat_map (λ sa. line_text (canonical.pop_words net.now interface.now sa)) pops.now) }
{
    for sa in pops {
        put_pop(out, net, interface, *sa)?;
    }
    Ok(())
}

// Appends the line of an inward rule.
fn put_in_rule(
    out: &mut Vec<u8>,
    net: &Network,
    interface: &Interface,
    rule: &InRule,
) -> Result<(), AllocError>
    requires { IsInRule net.now.sas interface.now.device rule.now }
    ensures { OnOk result (out.new.items ≡ out.old.items ++ line_text (canonical.in_rule_words net.now interface.now rule.now)) }
{
    out.extend_from_slice(b"inrule")?;
    put_place(out, net, interface)?;
    put_word(out, in_action_word(rule.action))?;
    put_mark(out, net, rule.mark)?;
    put_match(out, net, &rule.top)?;
    out.push(b'\n')?;
    Ok(())
}

// Appends the lines of inward rules.
fn put_in_rules(
    out: &mut Vec<u8>,
    net: &Network,
    interface: &Interface,
    rules: &[InRule],
) -> Result<(), AllocError>
    requires { AllByRecursion (λ rule. IsInRule net.now.sas interface.now.device rule) rules.now }
    ensures { OnOk result (out.new.items ≡ out.old.items ++ flat_map (λ rule. line_text (canonical.in_rule_words net.now interface.now rule)) rules.now) }
{
    for rule in rules {
        put_in_rule(out, net, interface, rule)?;
    }
    Ok(())
}

// Appends the line of an outward rule.
fn put_out_rule(
    out: &mut Vec<u8>,
    net: &Network,
    interface: &Interface,
    rule: &OutRule,
) -> Result<(), AllocError>
    requires { IsOutRule net.now.sas interface.now.device rule.now }
    ensures { OnOk result (out.new.items ≡ out.old.items ++ line_text (canonical.out_rule_words net.now interface.now rule.now)) }
{
    out.extend_from_slice(b"outrule")?;
    put_place(out, net, interface)?;
    put_out_action(out, net, rule.action)?;
    put_match(out, net, &rule.top)?;
    out.push(b'\n')?;
    Ok(())
}

// Appends the lines of outward rules.
fn put_out_rules(
    out: &mut Vec<u8>,
    net: &Network,
    interface: &Interface,
    rules: &[OutRule],
) -> Result<(), AllocError>
    requires { AllByRecursion (λ rule. IsOutRule net.now.sas interface.now.device rule) rules.now }
    ensures { OnOk result (out.new.items ≡ out.old.items ++ flat_map (λ rule. line_text (canonical.out_rule_words net.now interface.now rule)) rules.now) }
{
    for rule in rules {
        put_out_rule(out, net, interface, rule)?;
    }
    Ok(())
}

// Appends the lines of the rules of an interface.
fn put_table(
    out: &mut Vec<u8>,
    net: &Network,
    interface: &Interface,
    table: &Table,
) -> Result<(), AllocError>
    requires { IsTable net.now.sas interface.now.device table.now }
    ensures { OnOk result (out.new.items ≡ out.old.items ++ lines_text (canonical.table_lines net.now interface.now table.now)) }
{
    put_pops(out, net, interface, table.pops.as_slice())?;
    put_in_rules(out, net, interface, table.ins.as_slice())?;
    put_out_rules(out, net, interface, table.outs.as_slice())
}

// Appends the lines of the rules of interfaces, each of which has the next of the tables.
fn put_rules(
    out: &mut Vec<u8>,
    net: &Network,
    interfaces: &[Interface],
    tables: &[Table],
) -> Result<(), AllocError>
    requires { AreTables net.now.sas interfaces.now tables.now }
    ensures { OnOk result (out.new.items ≡ out.old.items ++ lines_text (canonical.rule_lines net.now interfaces.now tables.now)) }
{
    let mut left = tables;
    for interface in interfaces {
        let [table, rest @ ..] = left else {
            return Ok(());
        };
        put_table(out, net, interface, table)?;
        left = rest;
    }
    Ok(())
}

// Appends the line of an IPsec goal.
fn put_ipgoal(out: &mut Vec<u8>, net: &Network, goal: &IpGoal) -> Result<(), AllocError>
    requires { IsIpGoal (length net.now.areas) goal.now }
    ensures { OnOk result (out.new.items ≡ out.old.items ++ line_text (canonical.ipgoal_words net.now goal.now)) }
{
    match goal {
        IpGoal::Auth { from, at, pred } => {
            out.extend_from_slice(b"auth")?;
            put_word(out, area_name(net, *from))?;
            put_word(out, area_name(net, *at))?;
            put_pred_words(out, pred)?;
        }
        IpGoal::Conf { from, pred } => {
            out.extend_from_slice(b"conf")?;
            put_word(out, area_name(net, *from))?;
            put_pred_words(out, pred)?;
        }
    }
    out.push(b'\n')?;
    Ok(())
}

// Appends the lines of IPsec goals.
fn put_ipgoals(out: &mut Vec<u8>, net: &Network, goals: &[IpGoal]) -> Result<(), AllocError>
    requires { AllByRecursion (λ goal. IsIpGoal (length net.now.areas) goal) goals.now }
    ensures { OnOk result (out.new.items ≡ out.old.items ++ flat_map (λ goal. line_text (canonical.ipgoal_words net.now goal)) goals.now) }
{
    for goal in goals {
        put_ipgoal(out, net, goal)?;
    }
    Ok(())
}

/// Appends the lines of the IPsec part.
pub fn put_ipsec(out: &mut Vec<u8>, net: &Network) -> Result<(), AllocError>
    ensures { OnOk result (out.new.items ≡ out.old.items ++ lines_text (canonical.ipsec_lines net.now)) }
{
    put_sas(out, net, net.sas.as_slice())?;
    put_rules(out, net, net.interfaces.as_slice(), net.tables.as_slice())?;
    put_ipgoals(out, net, net.ipgoals.as_slice())
}
