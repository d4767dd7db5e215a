//! How a case is run.

use crate::given::{shelf, words};
use crate::networks::{applied, filtered};
use np_atomizer::Atomizer;
use np_goals::NoGate;
use np_outside::{MemShelf, MemSink};
use np_region::BlockLists;
use np_top::{run, run_in};
use std::alloc::{AllocError, Global};
use std::process::Abort;
use std::test::Fail;
use std::thread::Threads;

/// Room for the text of any case.
pub(crate) const ROOM: usize = 65_536;

/// The number of the status of a run of these words over a shelf and a sink.
pub(crate) fn status<R: Threads + Sync>(
    rt: &R,
    alloc: Global,
    line: &[&str],
    shelf: &mut MemShelf,
    sink: &mut MemSink,
) -> Result<u8, AllocError> {
    let words = words(alloc, line)?;
    Ok(run(rt, alloc, words.as_slice(), shelf, sink).number())
}

/// The same with this store of regions.
fn status_in<R: Threads + Sync, G: Atomizer>(
    rt: &R,
    alloc: Global,
    store: &mut G,
    line: &[&str],
    shelf: &mut MemShelf,
    sink: &mut MemSink,
) -> Result<u8, AllocError> {
    let words = words(alloc, line)?;
    Ok(run_in(rt, alloc, store, words.as_slice(), shelf, sink, &NoGate).number())
}

/// Compares what a run gave with the text and the status that it has to give.
pub(crate) fn compare<R: Abort>(
    rt: &R,
    case: &str,
    sink: &MemSink,
    status: u8,
    text: &[u8],
    number: u8,
) {
    assert_eq!(rt; status, number, "the status of {case}");
    assert_eq!(rt; sink.bytes(), text, "the text of {case}");
}

/// Runs these words over a shelf, and compares the text and the status.
pub(crate) fn expect_over<R: Threads + Sync + Abort>(
    rt: &R,
    alloc: Global,
    case: &str,
    line: &[&str],
    shelf: &mut MemShelf,
    text: &[u8],
    number: u8,
) -> Result<(), Fail> {
    let mut sink = MemSink::new(alloc, ROOM)?;
    let status = status(rt, alloc, line, shelf, &mut sink)?;
    compare(rt, case, &sink, status, text, number);
    Ok(())
}

/// The same with this store of regions.
pub(crate) fn expect_in<R: Threads + Sync + Abort, G: Atomizer>(
    rt: &R,
    alloc: Global,
    store: &mut G,
    case: &str,
    line: &[&str],
    files: &[(&str, &str)],
    text: &str,
    number: u8,
) -> Result<(), Fail> {
    let mut shelf = shelf(alloc, files)?;
    let mut sink = MemSink::new(alloc, ROOM)?;
    let status = status_in(rt, alloc, store, line, &mut shelf, &mut sink)?;
    compare(rt, case, &sink, status, text.as_bytes(), number);
    Ok(())
}

/// Runs these words over these files, with the store that `run` makes.
pub(crate) fn expect_by_diagrams<R: Threads + Sync + Abort>(
    rt: &R,
    alloc: Global,
    case: &str,
    line: &[&str],
    files: &[(&str, &str)],
    text: &str,
    number: u8,
) -> Result<(), Fail> {
    let mut shelf = shelf(alloc, files)?;
    expect_over(rt, alloc, case, line, &mut shelf, text.as_bytes(), number)
}

/// The same, and again with block lists as the store.
pub(crate) fn expect<R: Threads + Sync + Abort>(
    rt: &R,
    alloc: Global,
    case: &str,
    line: &[&str],
    files: &[(&str, &str)],
    text: &str,
    number: u8,
) -> Result<(), Fail> {
    expect_by_diagrams(rt, alloc, case, line, files, text, number)?;
    let mut store = BlockLists::new(alloc);
    expect_in(rt, alloc, &mut store, case, line, files, text, number)
}

/// Runs a command over a network with a configuration in the file of this name.
pub(crate) fn expect_report<R: Threads + Sync + Abort>(
    rt: &R,
    alloc: Global,
    command: &str,
    net: &str,
    file: &str,
    config: &str,
    text: &str,
    number: u8,
) -> Result<(), Fail> {
    let files = [("net", net), (file, config)];
    expect(rt, alloc, net, &[command, "net"], &files, text, number)
}

/// Runs `check` over a network with a configuration in the file of this name: as it is, and by seven workers.
pub(crate) fn expect_checked<R: Threads + Sync + Abort>(
    rt: &R,
    alloc: Global,
    net: &str,
    file: &str,
    config: &str,
    text: &str,
    number: u8,
) -> Result<(), Fail> {
    let files = [("net", net), (file, config)];
    expect(rt, alloc, net, &["check", "net"], &files, text, number)?;
    expect(rt, alloc, net, &["check", "net", "7"], &files, text, number)
}

/// The same over two areas with this goal, and with these lines of the configuration of the device between them.
pub(crate) fn expect_checked_between<R: Threads + Sync + Abort>(
    rt: &R,
    alloc: Global,
    goal: &str,
    lines: &str,
    text: &str,
    number: u8,
) -> Result<(), Fail> {
    let net = filtered(alloc, goal)?;
    let config = applied(alloc, lines)?;
    expect_checked(
        rt,
        alloc,
        net.as_str(),
        "r.cfg",
        config.as_str(),
        text,
        number,
    )
}

/// Runs a command over two areas with this goal, and with these lines of the configuration of the device between them.
pub(crate) fn expect_between<R: Threads + Sync + Abort>(
    rt: &R,
    alloc: Global,
    command: &str,
    goal: &str,
    lines: &str,
    text: &str,
    number: u8,
) -> Result<(), Fail> {
    let net = filtered(alloc, goal)?;
    let config = applied(alloc, lines)?;
    expect_report(
        rt,
        alloc,
        command,
        net.as_str(),
        "r.cfg",
        config.as_str(),
        text,
        number,
    )
}
