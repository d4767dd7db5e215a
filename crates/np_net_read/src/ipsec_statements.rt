//! The statements of the IPsec part (RFC 4301), each without its first word.

ghost use Rattle.std.specs.Prelude.{◌≡◌, ◌<◌, IfOk, OnOk, length};
ghost use Rattle.np_lines.specs.Answers.{Gives, texts};
ghost use Rattle.np_net.specs.Limits.{rule_limit};
ghost use Rattle.np_net.specs.Network.{IsIpGoal};
ghost use Rattle.np_net_read.specs.Drafting.{IsDraft};
ghost use Rattle.np_net_read.specs.Fitting.{Fits};
ghost use Rattle.np_net_read.specs.Judging as judging;
ghost use Rattle.np_net_read.specs.Tables.{rule_total};

use crate::draft::Draft;
use crate::endings::predicate;
use crate::fault::NetWhy;
use crate::ipsec_words::{
    in_action, kind, new_pop, next_area, next_device, next_ending, next_interface, next_mark,
    next_out_action, top,
};
use crate::statement::Statement;
use np_lines::{LineError, ended, next_word, within};
use np_net::{DECLARATION_LIMIT, InRule, IpGoal, OutRule, RULE_LIMIT, Sa};
use np_text::Word;
use std::alloc::Global;

/// `sa NAME KIND DEV DEV`
#[tactic(auto, unfolding(crate::specs::Judging::sa_says))]
pub fn sa(alloc: Global, draft: &Draft, words: &[Word<'_>]) -> Result<Statement, LineError<NetWhy>>
    requires { IsDraft draft.now }
    ensures says { Gives result (judging.sa_says draft.now.declared (texts words.now)) }
    ensures fits { IfOk result (λ s. Fits draft.now.declared s) }
{
    let (name, words) = next_word(words, NetWhy::BadShape)?;
    let name = draft.new_sa(alloc, name)?;
    let (word, words) = next_word(words, NetWhy::BadShape)?;
    let kind = kind(word)?;
    let (from, words) = next_device(alloc, draft, words)?;
    let (to, words) = next_device(alloc, draft, words)?;
    let to = ended(words, to, NetWhy::BadShape)?;
    let sa = Sa {
        name,
        kind,
        from,
        to,
    };
    within(
        DECLARATION_LIMIT,
        draft.declared.sas.len(),
        Statement::Sa(sa),
        NetWhy::TooMany,
    )
}

/// A rule, where there is room for it among those of all interfaces.
fn new_rule(draft: &Draft, rule: Statement) -> Result<Statement, LineError<NetWhy>>
    requires { IsDraft draft.now }
    ensures says { Gives result (judging.rule_says draft.now.declared rule) }
    ensures same { IfOk result (λ s. s ≡ rule) }
    ensures room { OnOk result (rule_total draft.now.declared.tables < rule_limit) }
{
    within(RULE_LIMIT, draft.rules, rule, NetWhy::TooMany)
}

/// `pop DEV IF SA`
#[tactic(auto, unfolding(crate::specs::Judging::pop_says))]
pub fn pop(alloc: Global, draft: &Draft, words: &[Word<'_>]) -> Result<Statement, LineError<NetWhy>>
    requires { IsDraft draft.now }
    ensures says { Gives result (judging.pop_says draft.now.declared (texts words.now)) }
    ensures fits { IfOk result (λ s. Fits draft.now.declared s) }
{
    let (interface, words) = next_interface(alloc, draft, words)?;
    let (sa, words) = next_ending(alloc, draft, interface, words)?;
    let sa = new_pop(draft, interface, sa)?;
    let sa = ended(words, sa, NetWhy::BadShape)?;
    new_rule(draft, Statement::Pop { interface, sa })
}

/// `inrule DEV IF ACTION MARK MATCH`
#[tactic(auto, unfolding(crate::specs::Judging::inrule_says))]
pub fn in_rule(
    alloc: Global,
    draft: &Draft,
    words: &[Word<'_>],
) -> Result<Statement, LineError<NetWhy>>
    requires { IsDraft draft.now }
    ensures says { Gives result (judging.inrule_says draft.now.declared (texts words.now)) }
    ensures fits { IfOk result (λ s. Fits draft.now.declared s) }
{
    let (interface, words) = next_interface(alloc, draft, words)?;
    let (word, words) = next_word(words, NetWhy::BadShape)?;
    let action = in_action(word)?;
    let (mark, words) = next_mark(alloc, draft, interface, words)?;
    let top = top(alloc, draft, words)?;
    let rule = InRule { action, mark, top };
    new_rule(draft, Statement::InRule { interface, rule })
}

/// `outrule DEV IF ACTION MATCH`
#[tactic(auto, unfolding(crate::specs::Judging::outrule_says))]
pub fn out_rule(
    alloc: Global,
    draft: &Draft,
    words: &[Word<'_>],
) -> Result<Statement, LineError<NetWhy>>
    requires { IsDraft draft.now }
    ensures says { Gives result (judging.outrule_says draft.now.declared (texts words.now)) }
    ensures fits { IfOk result (λ s. Fits draft.now.declared s) }
{
    let (interface, words) = next_interface(alloc, draft, words)?;
    let (action, words) = next_out_action(alloc, draft, interface, words)?;
    let top = top(alloc, draft, words)?;
    let rule = OutRule { action, top };
    new_rule(draft, Statement::OutRule { interface, rule })
}

/// An IPsec goal, where there is room for it.
fn ipgoal(draft: &Draft, goal: IpGoal) -> Result<Statement, LineError<NetWhy>>
    requires { IsIpGoal (length draft.now.declared.areas) goal }
    ensures says { Gives result (judging.ipgoal_says draft.now.declared goal) }
    ensures fits { IfOk result (λ s. Fits draft.now.declared s) }
{
    within(
        DECLARATION_LIMIT,
        draft.declared.ipgoals.len(),
        Statement::IpGoal(goal),
        NetWhy::TooMany,
    )
}

/// `auth AREA AREA PRED`
#[tactic(auto, unfolding(crate::specs::Judging::auth_says))]
pub fn auth(
    alloc: Global,
    draft: &Draft,
    words: &[Word<'_>],
) -> Result<Statement, LineError<NetWhy>>
    requires { IsDraft draft.now }
    ensures says { Gives result (judging.auth_says draft.now.declared (texts words.now)) }
    ensures fits { IfOk result (λ s. Fits draft.now.declared s) }
{
    let (from, words) = next_area(alloc, draft, words)?;
    let (at, words) = next_area(alloc, draft, words)?;
    let pred = predicate(alloc, draft, words)?;
    ipgoal(draft, IpGoal::Auth { from, at, pred })
}

/// `conf AREA PRED`
#[tactic(auto, unfolding(crate::specs::Judging::conf_says))]
pub fn conf(
    alloc: Global,
    draft: &Draft,
    words: &[Word<'_>],
) -> Result<Statement, LineError<NetWhy>>
    requires { IsDraft draft.now }
    ensures says { Gives result (judging.conf_says draft.now.declared (texts words.now)) }
    ensures fits { IfOk result (λ s. Fits draft.now.declared s) }
{
    let (from, words) = next_area(alloc, draft, words)?;
    let pred = predicate(alloc, draft, words)?;
    ipgoal(draft, IpGoal::Conf { from, pred })
}
