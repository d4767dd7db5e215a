//! The report on the IPsec goals.

ghost use Rattle.std.specs.Prelude.{◌≡◌, ◌∷◌, ◌++◌, ◌<◌, [], length, codes, if◌then◌else◌, OnOk, OnErr, IfOk};
ghost use Rattle.std.specs.Fmt.{decimal};
ghost use Rattle.std.specs.List.{All};
ghost use Rattle.np_text.specs.Appending.{AppendsFront};
ghost use Rattle.np_net.specs.Naming as naming;
ghost use Rattle.np_net_text.specs.CanonicalText.{line_text, lines_text, spaced};
ghost use Rattle.np_script.specs.Written.{header_words, interface_words};
ghost use Rattle.np_ipsec_report.specs.Answers as report;
ghost use Rattle.np_ipsec_report.specs.Answers.{answers_text, HasAuthPlaces, HasConfPlaces, HasPlaces};

use crate::words::put_interface;
use np_auth::{Answer as AuthAnswer, Broken as AuthBroken};
use np_conf::{Answer as ConfAnswer, Broken as ConfBroken};
use np_net::{AreaId, IfId, Network, SaId, area_name, sa_name};
use np_net_text::put_word;
use np_report::{put_header, put_number_word};
use np_space::Header;
use np_text::put_bytes;
use std::alloc::{AllocError, Global};

/// The answer on an IPsec goal of either kind.
#[derive(Clone, Copy, Debug, PartialEq, Eq)]
pub enum IpAnswer {
    Auth(AuthAnswer),
    Conf(ConfAnswer),
}

// ---- broken rules

// Appends the words of a rule and of the area that breaks it, each after a space.
fn put_area(text: &mut Vec<u8>, net: &Network, rule: &[u8], area: AreaId) -> Result<(), AllocError>
    ensures { OnOk result (text.new.items ≡ text.old.items ++ spaced (rule.now ∷ codes "area" ∷ naming.area_name net.now area ∷ [])) }
{
    put_word(text, rule)?;
    put_word(text, b"area")?;
    put_word(text, area_name(net, area))
}

// Appends the words of a rule and of the interface that breaks it, each after a space.
fn put_foreign(text: &mut Vec<u8>, net: &Network, rule: &[u8], id: IfId) -> Result<(), AllocError>
    requires { id < length net.now.interfaces }
    ensures { OnOk result (text.new.items ≡ text.old.items ++ spaced (rule.now ∷ codes "interface" ∷ interface_words net.now id)) }
{
    put_word(text, rule)?;
    put_word(text, b"interface")?;
    put_interface(text, net, id)
}

// Appends the words of the area that has a source, and of the header with it, each after a space.
fn put_source(
    text: &mut Vec<u8>,
    net: &Network,
    area: AreaId,
    header: &Header,
) -> Result<(), AllocError>
    ensures { OnOk result (text.new.items ≡ text.old.items ++ spaced (codes "A1" ∷ codes "area" ∷ naming.area_name net.now area ∷ header_words header.now)) }
{
    put_area(text, net, b"A1", area)?;
    put_header(text, header)
}

// Appends the words of a mark that lets a forged packet pass, each after a space.
fn put_mark(text: &mut Vec<u8>, net: &Network, mark: Option<SaId>) -> Result<(), AllocError>
    ensures { OnOk result (text.new.items ≡ text.old.items ++ spaced (report.forged_words net.now mark)) }
{
    let Some(id) = mark else {
        return put_word(text, b"unmarked");
    };
    put_word(text, b"popped")?;
    put_word(text, sa_name(net, id))
}

// Appends the words of the interface that a forged packet passes, each after a space.
fn put_forged(
    text: &mut Vec<u8>,
    net: &Network,
    id: IfId,
    mark: Option<SaId>,
    header: &Header,
) -> Result<(), AllocError>
    requires { id < length net.now.interfaces }
    ensures { OnOk result (text.new.items ≡ text.old.items ++ spaced (codes "A2" ∷ (interface_words net.now id ++ (report.forged_words net.now mark ++ header_words header.now)))) }
{
    put_word(text, b"A2")?;
    put_interface(text, net, id)?;
    put_mark(text, net, mark)?;
    put_header(text, header)
}

// Appends the words of the interface that a bare packet passes, each after a space.
fn put_bare(text: &mut Vec<u8>, net: &Network, id: IfId, header: &Header) -> Result<(), AllocError>
    requires { id < length net.now.interfaces }
    ensures { OnOk result (text.new.items ≡ text.old.items ++ spaced (codes "K1" ∷ (interface_words net.now id ++ header_words header.now))) }
{
    put_word(text, b"K1")?;
    put_interface(text, net, id)?;
    put_header(text, header)
}

// Appends the words of the interface that a packet passes under an association, each after a space.
fn put_under(text: &mut Vec<u8>, net: &Network, id: IfId, sa: SaId) -> Result<(), AllocError>
    requires { id < length net.now.interfaces }
    ensures { OnOk result (text.new.items ≡ text.old.items ++ spaced (codes "K2" ∷ (interface_words net.now id ++ codes "under" ∷ naming.sa_name net.now sa ∷ []))) }
{
    put_word(text, b"K2")?;
    put_interface(text, net, id)?;
    put_word(text, b"under")?;
    put_word(text, sa_name(net, sa))
}

// Appends the words of a broken rule of authentication, each after a space.
fn put_auth_broken(text: &mut Vec<u8>, net: &Network, broken: &AuthBroken) -> Result<(), AllocError>
    requires { HasAuthPlaces net.now broken.now }
    ensures { OnOk result (text.new.items ≡ text.old.items ++ spaced (report.auth_broken_words net.now broken.now)) }
{
    match broken {
        AuthBroken::A0Area(area) => put_area(text, net, b"A0", *area),
        AuthBroken::A0Interface(id) => put_foreign(text, net, b"A0", *id),
        AuthBroken::A1(area, header) => put_source(text, net, *area, header),
        AuthBroken::A2(id, mark, header) => put_forged(text, net, *id, *mark, header),
    }
}

// Appends the words of a broken rule of confidentiality, each after a space.
fn put_conf_broken(text: &mut Vec<u8>, net: &Network, broken: &ConfBroken) -> Result<(), AllocError>
    requires { HasConfPlaces net.now broken.now }
    ensures { OnOk result (text.new.items ≡ text.old.items ++ spaced (report.conf_broken_words net.now broken.now)) }
{
    match broken {
        ConfBroken::K0Area(area) => put_area(text, net, b"K0", *area),
        ConfBroken::K0Interface(id) => put_foreign(text, net, b"K0", *id),
        ConfBroken::K1(id, header) => put_bare(text, net, *id, header),
        ConfBroken::K2(id, sa) => put_under(text, net, *id, *sa),
    }
}

// ---- answers

// Appends the words of an answer, after its kind, each after a space.
fn put_words(text: &mut Vec<u8>, net: &Network, answer: &IpAnswer) -> Result<(), AllocError>
    requires { HasPlaces net.now answer.now }
    ensures { OnOk result (text.new.items ≡ text.old.items ++ spaced (report.answer_words net.now answer.now)) }
{
    match answer {
        IpAnswer::Auth(AuthAnswer::Yes) => put_yes(text, b"auth"),
        IpAnswer::Auth(AuthAnswer::No(broken)) => {
            put_no(text, b"auth")?;
            put_auth_broken(text, net, broken)
        }
        IpAnswer::Conf(ConfAnswer::Yes) => put_yes(text, b"conf"),
        IpAnswer::Conf(ConfAnswer::No(broken)) => {
            put_no(text, b"conf")?;
            put_conf_broken(text, net, broken)
        }
    }
}

// Appends the words of a goal's kind and of the answer yes, each after a space.
fn put_yes(text: &mut Vec<u8>, kind: &[u8]) -> Result<(), AllocError>
    ensures { OnOk result (text.new.items ≡ text.old.items ++ spaced (kind.now ∷ codes "yes" ∷ [])) }
{
    put_word(text, kind)?;
    put_word(text, b"yes")
}

// The same of the answer no.
fn put_no(text: &mut Vec<u8>, kind: &[u8]) -> Result<(), AllocError>
    ensures { OnOk result (text.new.items ≡ text.old.items ++ spaced (kind.now ∷ codes "no" ∷ [])) }
{
    put_word(text, kind)?;
    put_word(text, b"no")
}

// Appends the line of the goal of this number.
fn put_answer(
    text: &mut Vec<u8>,
    net: &Network,
    number: u64,
    answer: &IpAnswer,
) -> Result<(), AllocError>
    requires { HasPlaces net.now answer.now }
    ensures { OnOk result (text.new.items ≡ text.old.items ++ line_text (codes "ipgoal" ∷ decimal number ∷ report.answer_words net.now answer.now)) }
{
    text.extend_from_slice(b"ipgoal")?;
    put_number_word(text, number)?;
    put_words(text, net, answer)?;
    text.push(b'\n')?;
    Ok(())
}

// Appends the lines of goals, of which the first has number 1.
fn put_goals(text: &mut Vec<u8>, net: &Network, answers: &[IpAnswer]) -> Result<(), AllocError>
    requires { All (HasPlaces net.now) answers.now }
    ensures { OnOk result (text.new.items ≡ text.old.items ++ lines_text (report.answer_lines net.now 1 answers.now)) }
{
    for n in 0..answers.len() {
        put_answer(text, net, n as u64 + 1, &answers[n])?;
    }
    Ok(())
}

fn is_yes(answer: &IpAnswer) -> bool
    ensures { result ≡ report.is_yes answer.now }
{
    match answer {
        IpAnswer::Auth(AuthAnswer::Yes) | IpAnswer::Conf(ConfAnswer::Yes) => true,
        IpAnswer::Auth(AuthAnswer::No(_)) | IpAnswer::Conf(ConfAnswer::No(_)) => false,
    }
}

fn all_yes(answers: &[IpAnswer]) -> bool
    ensures { result ≡ report.all_yes answers.now }
{
    answers.iter().all(|answer| is_yes(answer))
}

// The last word: whether all answers are yes.
fn last_word(all: bool) -> &'static [u8]
    ensures { result.now ≡ if all then codes "yes" else codes "no" }
{
    if all { b"yes" } else { b"no" }
}

// The report on goals.
fn answers_report(alloc: Global, net: &Network, answers: &[IpAnswer]) -> Result<Vec<u8>, AllocError>
    requires { All (HasPlaces net.now) answers.now }
    ensures { IfOk result (λ text. text.items ≡ answers_text net.now answers.now) }
{
    let mut text = Vec::new(alloc);
    put_goals(&mut text, net, answers)?;
    text.extend_from_slice(last_word(all_yes(answers)))?;
    text.push(b'\n')?;
    Ok(text)
}

/// Appends the report on a network's IPsec goals: each goal's answer, with what shows the rule that is
/// broken, and a last line that says whether all answers are yes.
///
/// Where memory runs out, which alone is an error, a prefix of it may have been appended.
pub fn put_answers(
    alloc: Global,
    out: &mut Vec<u8>,
    net: &Network,
    answers: &[IpAnswer],
) -> Result<(), AllocError>
    requires { All (HasPlaces net.now) answers.now }
    ensures ok { OnOk result (out.new.items ≡ out.old.items ++ answers_text net.now answers.now) }
    ensures err { OnErr result (AppendsFront out.old.items out.new.items (answers_text net.now answers.now)) }
{
    // The text is whole before any of it is appended.
    let text = answers_report(alloc, net, answers)?;
    put_bytes(out, text.as_slice())
}
