//! The commands' texts, each with the status that goes with it.

ghost use Rattle.std.specs.Prelude.{◌≡◌, ◌<◌, [], ℕ, length, slice_index_or, IfOk, if◌then◌else◌};
ghost use Rattle.std.specs.List.{All};
ghost use Rattle.np_net_text.specs.Canonical.{net_text};
ghost use Rattle.np_report.specs.Atoms.{atoms_text};
ghost use Rattle.np_report.specs.Verdicts.{HasInterfaces, is_holding, verdicts_text};
ghost use Rattle.np_report.specs.Verdicts as verdict_texts;
ghost use Rattle.np_report.specs.Summary.{summary_text};
ghost use Rattle.np_report.specs.Synthesis.{AreInOrder, HopsWithin, chosen_text, unattainable_text};
ghost use Rattle.np_traj.specs.States.{IsStateOf};
ghost use Rattle.np_ipsec_report.specs.Answers.{answers_text, HasPlaces};
ghost use Rattle.np_ipsec_report.specs.Answers as answer_texts;
ghost use Rattle.np_ipsec_report.specs.Replays.{replay_text};
ghost use Rattle.np_load.specs.Loading.{noted_in};
ghost use Rattle.np_top.specs.Notes.{IsNotesReport, last_line};
ghost use Rattle.np_top.specs.Report.{verdicts_status};
ghost use Rattle.np_top.specs.Trace.{replay_status};

use crate::status::Status;
use np_atoms::Atoms;
use np_auth::Answer as AuthAnswer;
use np_conf::Answer as ConfAnswer;
use np_cut::Applied;
use np_goals::Verdict;
use np_ipsec_report::{IpAnswer, put_answers, put_replay};
use np_load::Noted;
use np_net::{Network, Path};
use np_net_text::put_net;
use np_report::{put_atoms, put_chosen, put_summary, put_unattainable, put_verdicts};
use np_space::Header;
use np_synth::Chosen;
use np_traj::Replayed;
use sqlite_items::Items;
use std::alloc::{AllocError, Global};

/// A text, and how the run ends once it is written.
#[derive(Drop)]
pub struct Answer {
    pub text: Items<u8>,
    pub status: Status,
}

/// The canonical text of a network.
pub fn canonical(alloc: Global, net: &Network) -> Result<Answer, AllocError>
    ensures text { IfOk result (λ answer. answer.text ≡ net_text net.now) }
    ensures status { IfOk result (λ answer. answer.status ≡ Status.Holds) }
{
    let mut text = Vec::new(alloc);
    put_net(alloc, net, &mut text)?;
    Ok(Answer {
        text: Items::from_vec(text),
        status: Status::Holds,
    })
}

/// The report on atoms.
pub fn atoms_report(
    alloc: Global,
    net: &Network,
    applied: &Applied<'_>,
    atoms: &Atoms,
) -> Result<Answer, AllocError>
    requires sets { (k : ℕ) → k < length atoms.now.cuts → length (slice_index_or atoms.now.cuts k []) ≡ length atoms.now.leasts }
    ensures text { IfOk result (λ answer. answer.text ≡ atoms_text net.now applied.now.names atoms.now.cuts atoms.now.leasts) }
    ensures status { IfOk result (λ answer. answer.status ≡ Status.Holds) }
{
    let mut text = Vec::new(alloc);
    put_atoms(alloc, &mut text, net, applied, atoms)?;
    Ok(Answer {
        text: Items::from_vec(text),
        status: Status::Holds,
    })
}

/// Whether a verdict is that the goal holds.
fn holds(verdict: &Verdict) -> bool
    ensures { result ≡ is_holding verdict.now }
{
    match verdict {
        Verdict::Holds => true,
        Verdict::Violated { .. } => false,
    }
}

/// Whether all goals hold.
fn all_hold(verdicts: &[Verdict]) -> bool
    ensures { result ≡ verdict_texts.all_hold verdicts.now }
{
    verdicts.iter().all(|verdict| holds(verdict))
}

/// The status that goes with verdicts.
fn verdicts_status(verdicts: &[Verdict]) -> Status
    ensures { result ≡ verdicts_status verdicts.now }
{
    if all_hold(verdicts) {
        Status::Holds
    } else {
        Status::Fails
    }
}

/// The report on verdicts.
pub fn verdicts_report(
    alloc: Global,
    net: &Network,
    verdicts: &[Verdict],
) -> Result<Answer, AllocError>
    requires { All (HasInterfaces net.now.interfaces) verdicts.now }
    ensures text { IfOk result (λ answer. answer.text ≡ verdicts_text net.now verdicts.now) }
    ensures status { IfOk result (λ answer. answer.status ≡ verdicts_status verdicts.now) }
{
    let mut text = Vec::new(alloc);
    put_verdicts(alloc, &mut text, net, verdicts)?;
    Ok(Answer {
        text: Items::from_vec(text),
        status: verdicts_status(verdicts),
    })
}

/// The last line of a report on notes: whether there is none.
fn last_line(clean: bool) -> &'static [u8]
    ensures { result.now ≡ last_line clean }
{
    if clean { b"clean\n" } else { b"notes\n" }
}

/// The report on notes.
pub fn notes_report(noted: Noted) -> Result<Answer, AllocError>
    ensures { IfOk result (λ answer. IsNotesReport (noted_in noted) answer.text answer.status) }
{
    let Noted { mut text, clean } = noted;
    text.extend_from_slice(last_line(clean))?;
    let status = if clean { Status::Holds } else { Status::Fails };
    Ok(Answer {
        text: Items::from_vec(text),
        status,
    })
}

/// The summary of the report on verdicts, with this seed and so many atoms.
pub fn summary_report(
    alloc: Global,
    seed: u32,
    net: &Network,
    atoms: usize,
    verdicts: &[Verdict],
) -> Result<Answer, AllocError>
    ensures text { IfOk result (λ answer. answer.text ≡ summary_text seed net.now atoms verdicts.now) }
    ensures status { IfOk result (λ answer. answer.status ≡ verdicts_status verdicts.now) }
{
    let mut text = Vec::new(alloc);
    put_summary(alloc, &mut text, seed, net, atoms, verdicts)?;
    Ok(Answer {
        text: Items::from_vec(text),
        status: verdicts_status(verdicts),
    })
}

/// The report on a chosen posture.
pub fn chosen_report(
    alloc: Global,
    net: &Network,
    leasts: &[Header],
    chosen: &Chosen,
) -> Result<Answer, AllocError>
    requires sets { length chosen.now.posture.slots ≡ length net.now.free }
    requires order { AreInOrder net.now.interfaces (length leasts.now) (length net.now.goals) chosen.now.dropped }
    ensures text { IfOk result (λ answer. answer.text ≡ chosen_text net.now leasts.now chosen.now.posture.slots chosen.now.dropped) }
    ensures status { IfOk result (λ answer. answer.status ≡ Status.Holds) }
{
    let mut text = Vec::new(alloc);
    put_chosen(alloc, &mut text, net, leasts, chosen)?;
    Ok(Answer {
        text: Items::from_vec(text),
        status: Status::Holds,
    })
}

/// The report on goals that can't be attained.
pub fn unattainable_report(
    alloc: Global,
    net: &Network,
    goal: usize,
    header: &Header,
    path: &Path,
) -> Result<Answer, AllocError>
    requires goal { goal < length net.now.goals }
    requires hops { HopsWithin net.now.interfaces path.now.hops }
    ensures text { IfOk result (λ answer. answer.text ≡ unattainable_text net.now goal header.now path.now.hops) }
    ensures status { IfOk result (λ answer. answer.status ≡ Status.Fails) }
{
    let mut text = Vec::new(alloc);
    put_unattainable(alloc, &mut text, net, goal, header, path)?;
    Ok(Answer {
        text: Items::from_vec(text),
        status: Status::Fails,
    })
}

/// The report on a replay.
pub fn replay_report<const N: usize>(
    alloc: Global,
    net: &Network,
    replay: &Replayed<N>,
) -> Result<Answer, AllocError>
    requires states { All (λ s. IsStateOf net.now s) replay.now.states }
    requires breaches { All (λ breach. breach.0 < length net.now.ipgoals) replay.now.breaches }
    ensures text { IfOk result (λ answer. answer.text ≡ replay_text net.now replay.now.states replay.now.stop replay.now.breaches) }
    ensures status { IfOk result (λ answer. answer.status ≡ replay_status replay.now.stop replay.now.breaches) }
{
    let mut text = Vec::new(alloc);
    put_replay(alloc, &mut text, net, replay)?;
    let status = if replay.stop.is_none() && replay.breaches.is_empty() {
        Status::Holds
    } else {
        Status::Fails
    };
    Ok(Answer {
        text: Items::from_vec(text),
        status,
    })
}

/// Whether an answer on an IPsec goal is yes.
fn is_yes(answer: &IpAnswer) -> bool
    ensures { result ≡ answer_texts.is_yes answer.now }
{
    match answer {
        IpAnswer::Auth(AuthAnswer::Yes) | IpAnswer::Conf(ConfAnswer::Yes) => true,
        IpAnswer::Auth(AuthAnswer::No(_)) | IpAnswer::Conf(ConfAnswer::No(_)) => false,
    }
}

/// Whether all are.
fn all_yes(answers: &[IpAnswer]) -> bool
    ensures { result ≡ answer_texts.all_yes answers.now }
{
    answers.iter().all(|answer| is_yes(answer))
}

/// The report on IPsec goals.
pub fn answers_report(
    alloc: Global,
    net: &Network,
    answers: &[IpAnswer],
) -> Result<Answer, AllocError>
    requires { All (HasPlaces net.now) answers.now }
    ensures text { IfOk result (λ answer. answer.text ≡ answers_text net.now answers.now) }
    ensures status { IfOk result (λ answer. answer.status ≡ (if answer_texts.all_yes answers.now then Status.Holds else Status.Fails)) }
{
    let mut text = Vec::new(alloc);
    put_answers(alloc, &mut text, net, answers)?;
    let status = if all_yes(answers) {
        Status::Holds
    } else {
        Status::Fails
    };
    Ok(Answer {
        text: Items::from_vec(text),
        status,
    })
}
