//! Goals that several threads judge.

ghost use Rattle.std.specs.Prelude.{IfOk};
ghost use Rattle.np_goals.specs.Cases.{HasSizes};

use crate::given::{shelf, words};
use crate::networks::RING;
use crate::runs::{ROOM, compare, expect};
use np_atomizer::Atomizer;
use np_cut::{apply, filter_cuts};
use np_goals::{Case, Gate, NoGate, Verdict, case_of, judge, judge_par};
use np_net::{AreaId, IfId, Network};
use np_net_read::read_net;
use np_outside::MemSink;
use np_region::BlockLists;
use np_top::run_in;
use std::alloc::{AllocError, Global};
use std::process::Abort;
use std::sync::atomic::{AtomicBool, AtomicU64, Ordering};
use std::test::Fail;
use std::thread::Threads;

/// How often a thread looks whether the other one has come, where there is another one.
const MANY_TURNS: u32 = 200_000_000;

/// The same where there is none.
const FEW_TURNS: u32 = 1_000;

/// Two areas and a device between them, with a goal from each.
const BOTH_WAYS: &str = "area a none
area b none
device r
interface r e0 a
interface r e1 b
goal a b never tcp
goal b a never udp
";

/// The report on them.
const BOTH_WAYS_REPORT: &[u8] =
    b"goal 1 violated 0.0.0.0 0.0.0.0 6 0 0 0\nhop r e0 e1\ngoal 2 violated 0.0.0.0 0.0.0.0 17 0 0 0\nhop r e1 e0\nfails\n";

/// Three areas around a device. Goals begin at the third, the first and the second one, and at two of these again.
const FROM_EACH: &str = "area a none
area b none
area c none
device r
interface r e0 a
interface r e1 b
interface r e2 c
goal c a never tcp
goal a b never tcp
goal c b never udp
goal b a never udp
goal a c never udp
";

/// The report on the ring.
const RING_REPORT: &str =
    "goal 1 violated 0.0.0.0 0.0.0.0 6 0 0 0\nhop r e0 e1\ngoal 2 violated 0.0.0.0 0.0.0.0 17 0 0 0\nhop r e1 e2\ngoal 3 holds\nfails\n";

/// A gate at which the threads that judge the goals of two areas wait for each other.
#[derive(Drop)]
struct Meeting {
    turns: u32,
    first: AtomicBool,
    second: AtomicBool,
    first_saw: AtomicBool,
    second_saw: AtomicBool,
}

impl Meeting {
    /// Each thread waits for so many turns.
    fn new(turns: u32) -> Meeting {
        Meeting {
            turns,
            first: AtomicBool::new(false),
            second: AtomicBool::new(false),
            first_saw: AtomicBool::new(false),
            second_saw: AtomicBool::new(false),
        }
    }

    /// Whether each thread saw that the other one had come.
    fn took_place(&self) -> bool {
        self.first_saw.load(Ordering::SeqCst) && self.second_saw.load(Ordering::SeqCst)
    }
}

/// Whether the flag is set within so many turns.
fn comes(flag: &AtomicBool, turns: u32) -> bool {
    for _turn in 0..turns {
        if flag.load(Ordering::SeqCst) {
            return true;
        }
    }
    false
}

impl Gate for Meeting {
    fn enter(&self, source: AreaId) {
        if source == 0 {
            self.first.store(true, Ordering::SeqCst);
            self.first_saw
                .store(comes(&self.second, self.turns), Ordering::SeqCst);
        } else {
            self.second.store(true, Ordering::SeqCst);
            self.second_saw
                .store(comes(&self.first, self.turns), Ordering::SeqCst);
        }
    }
}

/// A gate that keeps with which areas one thread comes, in their order, as the digits of a number: 1 for the first area
/// of the network.
#[derive(Drop)]
struct Visits {
    digits: AtomicU64,
}

impl Gate for Visits {
    fn enter(&self, source: AreaId) {
        let digit = u64::from(source).wrapping_add(1);
        let digits = self.digits.load(Ordering::SeqCst);
        self.digits.store(
            digits.wrapping_mul(10).wrapping_add(digit),
            Ordering::SeqCst,
        );
    }
}

/// The case of a network without configurations.
fn case<G: Atomizer>(alloc: Global, store: &mut G, net: &Network) -> Result<Case, AllocError>
    ensures { IfOk result (λ case. HasSizes net.now.interfaces net.now.goals case) }
{
    let configs = Vec::new(alloc);
    let applied = apply(alloc, net, configs.as_slice())?;
    let cuts = filter_cuts(alloc, store, net, &applied)?;
    let atoms = store.atomize(alloc, cuts.as_slice())?.atoms;
    case_of(alloc, net, &applied, atoms)
}

/// The protocol of a header that breaks a goal, and the interfaces of its path's one hop.
type Found = Option<(u8, IfId, IfId)>;

fn crossing(proto: u8, hops: &[(IfId, IfId)]) -> Found {
    match hops {
        [(from, to)] => Some((proto, *from, *to)),
        _ => None,
    }
}

fn found(verdict: &Verdict) -> Found {
    match verdict {
        Verdict::Holds => None,
        Verdict::Violated { header, path } => crossing(header.proto, path.hops.as_slice()),
    }
}

/// How many goals there are, and what was found of the first three.
fn three(verdicts: &[Verdict]) -> (usize, Found, Found, Found) {
    match verdicts {
        [first, second, third] => (3, found(first), found(second), found(third)),
        _ => (verdicts.len(), None, None, None),
    }
}

/// What there is to find of the goals of the ring.
const OF_RING: (usize, Found, Found, Found) = (3, Some((6, 0, 1)), Some((17, 1, 2)), None);

/// What is found of the goals of the ring without threads.
fn of_ring_alone(alloc: Global) -> Result<(usize, Found, Found, Found), Fail> {
    let net = read_net(alloc, RING.as_bytes())?;
    let mut store = BlockLists::new(alloc);
    let case = case(alloc, &mut store, &net)?;
    let verdicts = judge(alloc, &net, &case)?;
    Ok(three(verdicts.as_slice()))
}

/// What so many workers find of the goals of the ring.
fn of_ring<R: Threads + Sync>(
    rt: &R,
    alloc: Global,
    workers: usize,
) -> Result<(usize, Found, Found, Found), Fail> {
    let net = read_net(alloc, RING.as_bytes())?;
    let mut store = BlockLists::new(alloc);
    let case = case(alloc, &mut store, &net)?;
    let verdicts = judge_par(rt, alloc, &net, &case, workers, &NoGate)?;
    Ok(three(verdicts.as_slice()))
}

#[test]
fn each_number_of_workers(rt: HostRuntime) -> Result<(), Fail> {
    for workers in [1, 2, 3, 64] {
        assert_eq!(rt; of_ring(&rt, rt.alloc(), workers)?, OF_RING);
    }
    Ok(())
}

#[test]
fn without_threads(rt: HostRuntime) -> Result<(), Fail> {
    assert_eq!(rt; of_ring_alone(rt.alloc())?, OF_RING);
    Ok(())
}

/// Runs `check net` over the ring by this number of workers.
fn expect_by<R: Threads + Sync + Abort>(rt: &R, alloc: Global, workers: &str) -> Result<(), Fail> {
    let line = ["check", "net", workers];
    expect(rt, alloc, workers, &line, &[("net", RING)], RING_REPORT, 1)
}

#[test]
fn each_number_of_workers_of_a_run(rt: HostRuntime) -> Result<(), Fail> {
    for workers in ["1", "2", "3", "64"] {
        expect_by(&rt, rt.alloc(), workers)?;
    }
    Ok(())
}

/// How many verdicts so many workers give on a network without configurations, watched by this gate.
fn judged<R: Threads + Sync, T: Gate + Sync>(
    rt: &R,
    alloc: Global,
    text: &str,
    workers: usize,
    gate: &T,
) -> Result<usize, Fail> {
    let net = read_net(alloc, text.as_bytes())?;
    let mut store = BlockLists::new(alloc);
    let case = case(alloc, &mut store, &net)?;
    let verdicts = judge_par(rt, alloc, &net, &case, workers, gate)?;
    Ok(verdicts.len())
}

#[test]
fn two_threads_at_once(rt: HostRuntime) -> Result<(), Fail> {
    let meeting = Meeting::new(MANY_TURNS);
    assert_eq!(rt; judged(&rt, rt.alloc(), BOTH_WAYS, 2, &meeting)?, 2);
    assert!(rt; meeting.took_place());
    Ok(())
}

#[test]
fn one_worker_judges_alone(rt: HostRuntime) -> Result<(), Fail> {
    let meeting = Meeting::new(FEW_TURNS);
    assert_eq!(rt; judged(&rt, rt.alloc(), BOTH_WAYS, 1, &meeting)?, 2);
    assert!(rt; !meeting.took_place());
    Ok(())
}

#[test]
fn one_worker_comes_with_each_area_once(rt: HostRuntime) -> Result<(), Fail> {
    let visits = Visits {
        digits: AtomicU64::new(0),
    };
    assert_eq!(rt; judged(&rt, rt.alloc(), FROM_EACH, 1, &visits)?, 5);
    assert_eq!(rt; visits.digits.load(Ordering::SeqCst), 312);
    Ok(())
}

/// Runs these words over the network with a goal each way, watched by this gate, and expects its report.
fn expect_both_ways<R: Threads + Sync + Abort, T: Gate + Sync>(
    rt: &R,
    alloc: Global,
    line: &[&str],
    gate: &T,
) -> Result<(), Fail> {
    let words = words(alloc, line)?;
    let mut files = shelf(alloc, &[("net", BOTH_WAYS)])?;
    let mut sink = MemSink::new(alloc, ROOM)?;
    let mut store = BlockLists::new(alloc);
    let status = run_in(
        rt,
        alloc,
        &mut store,
        words.as_slice(),
        &mut files,
        &mut sink,
        gate,
    );
    compare(
        rt,
        "goals each way",
        &sink,
        status.number(),
        BOTH_WAYS_REPORT,
        1,
    );
    Ok(())
}

#[test]
fn two_threads_at_once_in_a_run(rt: HostRuntime) -> Result<(), Fail> {
    let meeting = Meeting::new(MANY_TURNS);
    expect_both_ways(&rt, rt.alloc(), &["check", "net", "2"], &meeting)?;
    assert!(rt; meeting.took_place());
    Ok(())
}

#[test]
fn one_worker_alone_in_a_run(rt: HostRuntime) -> Result<(), Fail> {
    let meeting = Meeting::new(FEW_TURNS);
    expect_both_ways(&rt, rt.alloc(), &["check", "net"], &meeting)?;
    assert!(rt; !meeting.took_place());
    Ok(())
}
