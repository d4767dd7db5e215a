//! Calls of the shelf and of the sink that fail, one in each run.

use crate::given::shelf;
use crate::networks::{TCP_DENIED, applied, filtered};
use crate::runs::{compare, expect_over, status};
use np_outside::{MemShelf, MemSink};
use std::alloc::{AllocError, Global};
use std::process::Abort;
use std::test::Fail;
use std::thread::Threads;

/// The report where the goal's packets are denied.
const HELD: &[u8] = b"goal 1 holds\nholds\n";

/// How many bytes a read gives at most, or 0 for no limit, and the calls of a run: the begin and the last read of each of
/// two files, and the reads that give their 122 and 104 bytes.
const STEPS: [(usize, u64); 4] = [(0, 6), (1, 230), (7, 37), (4096, 6)];

/// The write of at most 8 bytes that is to fail, what is taken before it, and the status. The report has three such pieces.
const WRITES: [(u64, &[u8], u8); 4] = [
    (1, b"", 5),
    (2, b"goal 1 h", 5),
    (3, b"goal 1 holds\nhol", 5),
    (4, HELD, 0),
];

/// A shelf with two areas between which TCP is denied, of which a read gives at most so many bytes.
fn held(alloc: Global, most: usize) -> Result<MemShelf, AllocError> {
    let net = filtered(alloc, "never tcp")?;
    let config = applied(alloc, TCP_DENIED)?;
    let mut files = shelf(alloc, &[("net", net.as_str()), ("r.cfg", config.as_str())])?;
    if most > 0 {
        files.set_step(most);
    }
    Ok(files)
}

/// The same shelf, of which this call is to fail.
fn failing_at(alloc: Global, most: usize, call: u64) -> Result<MemShelf, AllocError> {
    let mut files = held(alloc, most)?;
    files.fail_at(call)?;
    Ok(files)
}

/// Expects no text of a run in which this call fails, and the report of a second run over the same shelf.
fn expect_failing<R: Threads + Sync + Abort>(
    rt: &R,
    alloc: Global,
    most: usize,
    call: u64,
) -> Result<(), Fail> {
    let mut files = failing_at(alloc, most, call)?;
    expect_over(
        rt,
        alloc,
        "a failure",
        &["check", "net"],
        &mut files,
        b"",
        4,
    )?;
    assert_eq!(rt;
        files.faults(),
        1,
        "the failures of call {call} at step {most}"
    );
    expect_over(
        rt,
        alloc,
        "a second run",
        &["check", "net"],
        &mut files,
        HELD,
        0,
    )?;
    assert_eq!(rt;
        files.faults(),
        1,
        "the failures after call {call} at step {most}"
    );
    Ok(())
}

/// Expects that a run makes so many calls and no more: each of them is made to fail, and then the one after them.
fn expect_each_failing<R: Threads + Sync + Abort>(
    rt: &R,
    alloc: Global,
    most: usize,
    calls: u64,
) -> Result<(), Fail> {
    for before in 0..calls {
        expect_failing(rt, alloc, most, before + 1)?;
    }
    let mut files = failing_at(alloc, most, calls.saturating_add(1))?;
    expect_over(
        rt,
        alloc,
        "no failure",
        &["check", "net"],
        &mut files,
        HELD,
        0,
    )?;
    assert_eq!(rt;
        files.faults(),
        0,
        "the failures after {calls} calls at step {most}"
    );
    Ok(())
}

#[test]
fn each_call_of_the_shelf(rt: HostRuntime) -> Result<(), Fail> {
    for (most, calls) in STEPS {
        expect_each_failing(&rt, rt.alloc(), most, calls)?;
    }
    Ok(())
}

/// Runs `check net` into a sink, and compares the text that it has taken and the status.
fn expect_taken<R: Threads + Sync + Abort>(
    rt: &R,
    alloc: Global,
    sink: &mut MemSink,
    text: &[u8],
    number: u8,
) -> Result<(), Fail> {
    let mut files = held(alloc, 0)?;
    let status = status(rt, alloc, &["check", "net"], &mut files, sink)?;
    compare(rt, "a sink that fails", &*sink, status, text, number);
    Ok(())
}

/// The same of a sink that takes at most 8 bytes at once, and whose write of this number fails.
fn expect_written<R: Threads + Sync + Abort>(
    rt: &R,
    alloc: Global,
    call: u64,
    text: &[u8],
    number: u8,
) -> Result<(), Fail> {
    let mut sink = MemSink::new(alloc, 64)?;
    sink.set_step(8);
    sink.fail_at(call)?;
    expect_taken(rt, alloc, &mut sink, text, number)
}

#[test]
fn each_write(rt: HostRuntime) -> Result<(), Fail> {
    for (call, text, number) in WRITES {
        expect_written(&rt, rt.alloc(), call, text, number)?;
    }
    Ok(())
}

#[test]
fn room_for_five_bytes(rt: HostRuntime) -> Result<(), Fail> {
    let mut sink = MemSink::new(rt.alloc(), 5)?;
    expect_taken(&rt, rt.alloc(), &mut sink, b"goal ", 5)
}

#[test]
fn a_configuration_that_is_not_there(rt: HostRuntime) -> Result<(), Fail> {
    let net = filtered(rt.alloc(), "never tcp")?;
    let mut files = shelf(rt.alloc(), &[("net", net.as_str())])?;
    expect_over(
        &rt,
        rt.alloc(),
        "a missing file",
        &["check", "net"],
        &mut files,
        b"",
        4,
    )
}

/// A shelf with three devices between the same areas, whose configurations deny TCP. The first and the third have one in the
/// same file.
fn held_by_three(alloc: Global) -> Result<MemShelf, AllocError> {
    let net = filtered(
        alloc,
        "never tcp\ndevice s config s.cfg\ninterface s e0 out\ninterface s e1 lan\n\
         device t config r.cfg\ninterface t e0 out\ninterface t e1 lan",
    )?;
    let config = applied(alloc, TCP_DENIED)?;
    shelf(
        alloc,
        &[
            ("net", net.as_str()),
            ("r.cfg", config.as_str()),
            ("s.cfg", config.as_str()),
        ],
    )
}

/// Expects this report on these files, of which each is read once: the begin, the read and the last read of each, and no
/// more. A tenth call would fail.
fn expect_read_once<R: Threads + Sync + Abort>(
    rt: &R,
    alloc: Global,
    case: &str,
    line: &[&str],
    text: &[u8],
    number: u8,
) -> Result<(), Fail> {
    let mut files = held_by_three(alloc)?;
    files.fail_at(10)?;
    expect_over(rt, alloc, case, line, &mut files, text, number)?;
    assert_eq!(rt; files.faults(), 0);
    Ok(())
}

#[test]
fn a_file_of_two_devices_is_read_once(rt: HostRuntime) -> Result<(), Fail> {
    let notes =
        b"note r.cfg no-interface e1\nnote s.cfg no-interface e1\nnote r.cfg no-interface e1\nnotes\n";
    expect_read_once(&rt, rt.alloc(), "its check", &["check", "net"], HELD, 0)?;
    expect_read_once(&rt, rt.alloc(), "its notes", &["notes", "net"], notes, 1)
}
