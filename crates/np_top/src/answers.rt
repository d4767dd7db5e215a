//! The answers to the commands.

ghost use Rattle.std.specs.Prelude.{◌≡◌, ◌≢◌, ◌<◌, ℕ, Some, IfOk, IsErrOf, length, slice_get};
ghost use Rattle.np_outside.specs.Counts.{Rose};
ghost use Rattle.np_outside.specs.Files.{Files};
ghost use Rattle.np_space.specs.Classes.{AreLeasts};
ghost use Rattle.np_region.specs.Keeping.{KeepsRegions};
ghost use Rattle.np_pred.specs.declared.predicate.Pred.{Pred as Predicate};
ghost use Rattle.np_net.specs.declared.associations.IpGoal.{IpGoal as Aim};
ghost use Rattle.np_auth.specs.Answers as auth;
ghost use Rattle.np_auth.specs.Answers.{IsAuth, IsAuthGoal};
ghost use Rattle.np_conf.specs.Answers as conf;
ghost use Rattle.np_conf.specs.Answers.{IsConf, ipgoal_at};
ghost use Rattle.np_atoms.specs.Atoms.{AreAtoms};
ghost use Rattle.np_cut.specs.Applying.{applied_of};
ghost use Rattle.np_cut.specs.FilterCuts.{filter_tests};
ghost use Rattle.np_ipgoals.specs.Cuts.{ipsec_tests};
ghost use Rattle.np_ipgoals.specs.Findings.{AreFindings};
ghost use Rattle.np_goals.specs.Cases.{IsCaseOf};
ghost use Rattle.np_top.specs.declared.answers.Fault.TheVariants as faults;
ghost use Rattle.np_top.specs.Commands.{command_in};
ghost use Rattle.np_load.specs.declared.halt.Halt.{Halt as Ended};
ghost use Rattle.np_load.specs.declared.halt.Halt.TheVariants as halts;
ghost use Rattle.np_load.specs.Keeping.{KeepsShelf};
ghost use Rattle.np_load.specs.Loading.{inputs_in, noted_in, play_in};
ghost use Rattle.np_top.specs.Replying.{Replies};
ghost use Rattle.np_top.specs.Generated.{IsGenReport, IsSummaryReport};
ghost use Rattle.np_top.specs.Outcome.{IsAnswerTo, IsAtomsReportOn, IsCheckReportOn, IsSynthesisReportOn, IsTraceReportOn, HasFiles, ReadsFiles};
ghost use Rattle.np_top.specs.Ipsec.{AreRightAnswers, IsIpsecReport, IsRightAnswer};
ghost use Rattle.np_top.specs.Synthesis.{IsSynthesisReport};
ghost use Rattle.np_top.specs.Trace.{IsTraceReport};
ghost use Rattle.np_script.specs.Fitting.{Fits};
ghost use Rattle.np_top.specs.Show.{IsCanonical};
ghost use Rattle.np_top.specs.Notes.{IsNotesReport};
ghost use Rattle.np_top.specs.Status.{IsSettled};

use crate::commands::Command;
use crate::report::{
    Answer, answers_report, atoms_report, canonical, chosen_report, notes_report, replay_report,
    summary_report, unattainable_report, verdicts_report,
};
use crate::status::Status;
use np_acl_read::SharedConfig;
use np_atomizer::Atomizer;
use np_atoms::Atoms;
use np_auth::{Answer as AuthAnswer, check_auth};
use np_conf::{Answer as ConfAnswer, check_conf};
use np_cut::{Applied, apply, filter_cuts};
use np_generated::{GeneratedInputs, read_generated};
use np_goals::{Case, Gate, case_of, judge_par};
use np_ipgoals::{Findings, findings, ipsec_cuts};
use np_ipsec_report::IpAnswer;
use np_load::{Halt, Inputs, Noted, Play, load_inputs, load_net, load_notes, load_play};
use np_net::{IpGoal, Network};
use np_outside::Shelf;
use np_script::Script;
use np_space::Header;
use np_synth::{SynthError, synthesise};
use np_traj::replay;
use sqlite_items::Items;
use std::alloc::{AllocError, Global};
use std::thread::Threads;

/// Why nothing is written.
#[derive(Clone, Copy)]
pub enum Fault {
    /// A file could not be read.
    Read,

    /// There was no memory.
    Memory,
}

/// The atoms of a network's filter cuts.
fn filter_atoms<G: Atomizer>(
    alloc: Global,
    store: &mut G,
    net: &Network,
    applied: &Applied<'_>,
) -> Result<Atoms, AllocError>
    ensures kept { KeepsRegions G.fits G.has_header store.old store.new }
    ensures atoms { IfOk result (λ atoms. AreAtoms (filter_tests applied.now.lists net.now.goals) atoms) }
{
    let cuts = filter_cuts(alloc, store, net, applied)?;
    Ok(store.atomize(alloc, cuts.as_slice())?.atoms)
}

/// What the judging of a network's goals needs: what crosses its slots by the configurations of its devices, and what its
/// goals forbid.
fn case_by<G: Atomizer>(
    alloc: Global,
    store: &mut G,
    net: &Network,
    configs: Vec<SharedConfig>,
) -> Result<Case, AllocError>
    ensures kept { KeepsRegions G.fits G.has_header store.old store.new }
    ensures case { IfOk result (λ case. IsCaseOf net.now.interfaces net.now.goals (applied_of net.now.interfaces configs.items) case) }
{
    let applied = apply(alloc, net, configs.as_slice())?;
    let atoms = filter_atoms(alloc, store, net, &applied)?;
    case_of(alloc, net, &applied, atoms)
}

/// The answer to `check`: the report on the goals, which so many workers judge at most.
fn check<R: Threads + Sync, G: Atomizer, T: Gate + Sync>(
    rt: &R,
    alloc: Global,
    store: &mut G,
    inputs: Inputs,
    workers: usize,
    gate: &T,
) -> Result<Answer, AllocError>
    ensures report { IfOk result (λ answer. IsCheckReportOn (inputs_in inputs) answer.text answer.status) }
    ensures settled { IfOk result (λ answer. IsSettled answer.status × (answer.status ≢ Status.Usage)) }
    ensures kept { KeepsRegions G.fits G.has_header store.old store.new }
{
    let Inputs { net, configs } = inputs;
    let case = case_by(alloc, store, &net, configs)?;
    let verdicts = judge_par(rt, alloc, &net, &case, workers, gate)?;
    Ok(verdicts_report(alloc, &net, verdicts.as_slice())?)
}

/// The summary of the report on the goals, of this network and these configurations.
fn summary<R: Threads + Sync, G: Atomizer, T: Gate + Sync>(
    rt: &R,
    alloc: Global,
    store: &mut G,
    seed: u32,
    net: &Network,
    configs: Vec<SharedConfig>,
    workers: usize,
    gate: &T,
) -> Result<Answer, AllocError>
    ensures report { IfOk result (λ answer. IsSummaryReport seed net.now configs.items answer.text answer.status) }
    ensures settled { IfOk result (λ answer. IsSettled answer.status × (answer.status ≢ Status.Usage)) }
    ensures kept { KeepsRegions G.fits G.has_header store.old store.new }
{
    let case = case_by(alloc, store, net, configs)?;
    let verdicts = judge_par(rt, alloc, net, &case, workers, gate)?;
    Ok(summary_report(alloc, seed, net, case.leasts.len(), verdicts.as_slice())?)
}

/// The answer to `gen`: the summary for the network and the configurations of a seed.
fn generated<R: Threads + Sync, G: Atomizer, T: Gate + Sync>(
    rt: &R,
    alloc: Global,
    store: &mut G,
    seed: u32,
    workers: usize,
    gate: &T,
) -> Result<Answer, AllocError>
    ensures report { IfOk result (λ answer. IsGenReport seed answer.text answer.status) }
    ensures settled { IfOk result (λ answer. IsSettled answer.status × (answer.status ≢ Status.Usage)) }
    ensures kept { KeepsRegions G.fits G.has_header store.old store.new }
{
    let inputs = read_generated(alloc, seed)?;
    let GeneratedInputs { net, configs } = inputs;
    summary(rt, alloc, store, seed, &net, configs, workers, gate)
}

/// The answer to `atoms`: the report on the atoms.
fn atoms<G: Atomizer>(alloc: Global, store: &mut G, inputs: Inputs) -> Result<Answer, AllocError>
    ensures report { IfOk result (λ answer. IsAtomsReportOn (inputs_in inputs) answer.text answer.status) }
    ensures settled { IfOk result (λ answer. IsSettled answer.status × (answer.status ≢ Status.Usage)) }
    ensures kept { KeepsRegions G.fits G.has_header store.old store.new }
{
    let Inputs { net, configs } = inputs;
    let applied = apply(alloc, &net, configs.as_slice())?;
    let atoms = filter_atoms(alloc, store, &net, &applied)?;
    Ok(atoms_report(alloc, &net, &applied, &atoms)?)
}

/// What is written of a synthesis for a network, by the configurations of its devices.
fn synthesis<G: Atomizer>(
    alloc: Global,
    store: &mut G,
    net: &Network,
    configs: Vec<SharedConfig>,
) -> Result<Answer, Halt>
    ensures report { IfOk result (λ answer. IsSynthesisReport net.now configs.items answer.text answer.status) }
    ensures memory { (halt : Ended) → IsErrOf result halt → halt ≡ halts.Memory }
    ensures kept { KeepsRegions G.fits G.has_header store.old store.new }
{
    // What is known of every network says how many slots it has.
    let _ = &net.free;
    let case = case_by(alloc, store, net, configs)?;
    match synthesise(alloc, net, &case) {
        Ok(chosen) => Ok(chosen_report(alloc, net, case.leasts.as_slice(), &chosen)?),
        Err(SynthError::Unattainable { goal, header, path }) => {
            Ok(unattainable_report(alloc, net, goal, &header, &path)?)
        }
        Err(SynthError::Memory) => Err(Halt::Memory),
    }
}

/// The answer to `synth`: the report on a synthesis.
fn synth<G: Atomizer>(alloc: Global, store: &mut G, inputs: Inputs) -> Result<Answer, Halt>
    ensures report { IfOk result (λ answer. IsSynthesisReportOn (inputs_in inputs) answer.text answer.status) }
    ensures settled { IfOk result (λ answer. IsSettled answer.status × (answer.status ≢ Status.Usage)) }
    ensures memory { (halt : Ended) → IsErrOf result halt → halt ≡ halts.Memory }
    ensures kept { KeepsRegions G.fits G.has_header store.old store.new }
{
    let Inputs { net, configs } = inputs;
    synthesis(alloc, store, &net, configs)
}

/// The report on a replay at the depth `N`, which is the network's.
fn trace_at<const N: usize>(
    alloc: Global,
    net: &Network,
    script: &Script,
) -> Result<Answer, AllocError>
    requires depth { net.now.depth ≡ N }
    requires fits { Fits net.now script.now }
    ensures { IfOk result (λ answer. IsTraceReport net.now script.now answer.text answer.status) }
{
    // What is known of every network bounds its depth.
    let _ = &net.ipgoals;
    let replay = replay::<N>(alloc, net, script)?;
    replay_report(alloc, net, &replay)
}

/// The report on a replay at the network's depth, which is one of these.
macro_rules! trace_by_depth {
    ($alloc:expr, $net:expr, $script:expr; $($depth:literal)*) => {
        match $net.depth {
            $($depth => trace_at::<$depth>($alloc, $net, $script),)*
            _ => unreachable!(),
        }
    };
}

/// The report on a replay.
fn trace_script(alloc: Global, net: &Network, script: &Script) -> Result<Answer, AllocError>
    requires { Fits net.now script.now }
    ensures { IfOk result (λ answer. IsTraceReport net.now script.now answer.text answer.status) }
{
    trace_by_depth!(alloc, net, script; 1 2 3 4 5 6 7 8 9 10 11 12 13 14 15 16)
}

/// The answer to `trace`: the report on a replay.
#[tactic(auto, using(crate::proofs::TraceLaws::trace_settled))]
fn trace(alloc: Global, play: Play) -> Result<Answer, AllocError>
    requires { Fits play.net play.script }
    ensures report { IfOk result (λ answer. IsTraceReportOn (play_in play) answer.text answer.status) }
    ensures settled { IfOk result (λ answer. IsSettled answer.status × (answer.status ≢ Status.Usage)) }
{
    let Play { net, script } = play;
    trace_script(alloc, &net, &script)
}

/// The answer on an authentication goal.
#[tactic(auto, using(np_ipgoals::proofs::RespectLaws::leasts_serve, crate::proofs::IpsecAnswers::auth_asked))]
fn auth_answer(net: &Network, leasts: &[Header], found: &Findings, k: usize) -> AuthAnswer
    requires goal { k < length net.now.ipgoals }
    requires auth { IsAuth net.now k }
    requires leasts { AreLeasts (ipsec_tests net.now) leasts.now }
    requires found { AreFindings net.now leasts.now found.now }
    ensures { (from here : ℕ) (pred : Predicate) → IsAuthGoal net.now k from here pred → auth.IsAnswer net.now from here pred result }
{
    match &found.passages {
        Some(passages) => check_auth(net, leasts, passages, k),
        None => unreachable!(),
    }
}

/// The answer on a confidentiality goal.
#[tactic(auto, using(np_ipgoals::proofs::RespectLaws::leasts_serve, crate::proofs::IpsecAnswers::conf_asked))]
fn conf_answer(net: &Network, leasts: &[Header], found: &Findings, k: usize) -> ConfAnswer
    requires goal { k < length net.now.ipgoals }
    requires conf { IsConf (ipgoal_at net.now k) }
    requires leasts { AreLeasts (ipsec_tests net.now) leasts.now }
    requires found { AreFindings net.now leasts.now found.now }
    ensures { conf.IsAnswerTo net.now (ipgoal_at net.now k) result }
{
    match &found.outlets {
        Some(outlets) => check_conf(net, leasts, outlets, k),
        None => unreachable!(),
    }
}

/// The answer on an IPsec goal.
fn ip_answer(net: &Network, leasts: &[Header], found: &Findings, k: usize) -> IpAnswer
    requires goal { k < length net.now.ipgoals }
    requires leasts { AreLeasts (ipsec_tests net.now) leasts.now }
    requires found { AreFindings net.now leasts.now found.now }
    ensures right { (goal : Aim) → slice_get net.now.ipgoals k ≡ Some goal → IsRightAnswer net.now goal result }
{
    match &net.ipgoals.as_slice()[k] {
        IpGoal::Auth { .. } => IpAnswer::Auth(auth_answer(net, leasts, found, k)),
        IpGoal::Conf { .. } => IpAnswer::Conf(conf_answer(net, leasts, found, k)),
    }
}

/// The answers on all of them, in their order.
fn ip_answers(
    alloc: Global,
    net: &Network,
    leasts: &[Header],
) -> Result<Items<IpAnswer>, AllocError>
    requires { AreLeasts (ipsec_tests net.now) leasts.now }
    ensures { IfOk result (λ answers. AreRightAnswers net.now net.now.ipgoals answers) }
{
    let found = findings(alloc, net, leasts)?;
    let mut answers = Items::new(alloc);
    for k in 0..net.ipgoals.len() {
        answers.push(ip_answer(net, leasts, &found, k))?;
    }
    Ok(answers)
}

/// The least headers of the classes that no rule, no IPsec goal and no area tells apart.
fn ip_leasts<G: Atomizer>(
    alloc: Global,
    store: &mut G,
    net: &Network,
) -> Result<Items<Header>, AllocError>
    ensures kept { KeepsRegions G.fits G.has_header store.old store.new }
    ensures leasts { IfOk result (λ leasts. AreLeasts (ipsec_tests net.now) leasts) }
{
    let cuts = ipsec_cuts(alloc, store, net)?;
    Ok(store.atomize(alloc, cuts.as_slice())?.atoms.leasts)
}

/// The answer to `ipsec`: the report on the IPsec goals.
#[tactic(auto, using(crate::proofs::IpsecLaws::ipsec_settled))]
fn ipsec<G: Atomizer>(alloc: Global, store: &mut G, net: Network) -> Result<Answer, AllocError>
    ensures report { IfOk result (λ answer. IsIpsecReport net answer.text answer.status) }
    ensures settled { IfOk result (λ answer. IsSettled answer.status × (answer.status ≢ Status.Usage)) }
    ensures kept { KeepsRegions G.fits G.has_header store.old store.new }
{
    let leasts = ip_leasts(alloc, store, &net)?;
    let answers = ip_answers(alloc, &net, leasts.as_slice())?;
    answers_report(alloc, &net, answers.as_slice())
}

/// The answer to `show`: the network's canonical text.
fn show(alloc: Global, net: Network) -> Result<Answer, AllocError>
    ensures report { IfOk result (λ answer. IsCanonical net answer.text answer.status) }
    ensures settled { IfOk result (λ answer. IsSettled answer.status × (answer.status ≢ Status.Usage)) }
{
    Ok(canonical(alloc, &net)?)
}

/// The answer to `notes`: what the readings of the configurations passed over and may matter.
fn notes(noted: Noted) -> Result<Answer, AllocError>
    ensures report { IfOk result (λ answer. IsNotesReport (noted_in noted) answer.text answer.status) }
    ensures settled { IfOk result (λ answer. IsSettled answer.status × (answer.status ≢ Status.Usage)) }
{
    Ok(notes_report(noted)?)
}

/// The answer to a command over files that are not refused.
fn answer<R: Threads + Sync, G: Atomizer, S: Shelf, T: Gate + Sync>(
    rt: &R,
    alloc: Global,
    store: &mut G,
    shelf: &mut S,
    command: Command,
    gate: &T,
) -> Result<Answer, Halt>
    ensures says { (files : Files) → S.files shelf.old ≡ Some files → Replies result (IsAnswerTo files (command_in command.entry)) }
    ensures settled { IfOk result (λ answer. IsSettled answer.status × (answer.status ≢ Status.Usage)) }

    ensures failed { IsErrOf result halts.ReadFault → Rose (S.faults shelf.old) (S.faults shelf.new) × ReadsFiles (command_in command.entry) }
    ensures broken { IsErrOf result halts.ReadFault → (files : Files) → S.files shelf.old ≡ Some files →
        HasFiles files (command_in command.entry) → Rose (S.breaks shelf.old) (S.breaks shelf.new) }
    ensures shelf { KeepsShelf S.files S.cap S.faults S.breaks shelf.old shelf.new }
    ensures store { KeepsRegions G.fits G.has_header store.old store.new }
{
    match command {
        Command::Check(file, workers) => {
            let inputs = load_inputs(alloc, shelf, file)?;
            Ok(check(rt, alloc, store, inputs, workers, gate)?)
        }
        Command::Atoms(file) => {
            let inputs = load_inputs(alloc, shelf, file)?;
            Ok(atoms(alloc, store, inputs)?)
        }
        Command::Synth(file) => {
            let inputs = load_inputs(alloc, shelf, file)?;
            synth(alloc, store, inputs)
        }
        Command::Ipsec(file) => {
            let net = load_net(alloc, shelf, file)?;
            Ok(ipsec(alloc, store, net)?)
        }
        Command::Trace(file, script) => {
            let play = load_play(alloc, shelf, file, script)?;
            Ok(trace(alloc, play)?)
        }
        Command::Show(file) => {
            let net = load_net(alloc, shelf, file)?;
            Ok(show(alloc, net)?)
        }
        Command::Notes(file) => {
            let noted = load_notes(alloc, shelf, file)?;
            Ok(notes(noted)?)
        }
        Command::Gen(seed, workers) => Ok(generated(rt, alloc, store, seed, workers, gate)?),
    }
}

/// What is written for a command: its answer, or the line that refuses a file.
pub fn respond<R: Threads + Sync, G: Atomizer, S: Shelf, T: Gate + Sync>(
    rt: &R,
    alloc: Global,
    store: &mut G,
    shelf: &mut S,
    command: Command,
    gate: &T,
) -> Result<Answer, Fault>
    ensures ok { IfOk result (λ answer. (files : Files) → S.files shelf.old ≡ Some files →
        IsAnswerTo files (command_in command.entry) answer.text answer.status) }
    ensures settled { IfOk result (λ answer. IsSettled answer.status × (answer.status ≢ Status.Usage)) }

    ensures failed { IsErrOf result Fault.Read → Rose (S.faults shelf.old) (S.faults shelf.new) × ReadsFiles (command_in command.entry) }
    ensures broken { IsErrOf result Fault.Read → (files : Files) → S.files shelf.old ≡ Some files →
        HasFiles files (command_in command.entry) → Rose (S.breaks shelf.old) (S.breaks shelf.new) }
    ensures shelf { KeepsShelf S.files S.cap S.faults S.breaks shelf.old shelf.new }
    ensures store { KeepsRegions G.fits G.has_header store.old store.new }
{
    match answer(rt, alloc, store, shelf, command, gate) {
        Ok(answer) => Ok(answer),
        Err(Halt::Refused(text)) => Ok(Answer {
            text,
            status: Status::Refused,
        }),
        Err(Halt::ReadFault) => Err(Fault::Read),
        Err(Halt::Memory) => Err(Fault::Memory),
    }
}
