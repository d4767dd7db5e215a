//! `gen NUMBER` and `gen NUMBER WORKERS`.

use crate::runs::expect_by_diagrams;
use std::alloc::Global;
use std::process::Abort;
use std::test::Fail;
use std::thread::Threads;

/// The report on the network of the seed 1, as `checks/generated.py` works it out: it asks each class of packets by itself.
const FIRST: &str =
    "gen 1\nareas 16 devices 24 interfaces 48 goals 16\natoms 726\nviolated 16\nhops 50\n";

/// Seeds, and the same reports on their networks.
const REPORTS: [(&str, &str); 4] = [
    (
        "0",
        "gen 0\nareas 16 devices 24 interfaces 48 goals 16\natoms 321\nviolated 16\nhops 39\n",
    ),
    ("1", FIRST),
    (
        "2",
        "gen 2\nareas 16 devices 24 interfaces 48 goals 16\natoms 414\nviolated 16\nhops 50\n",
    ),
    (
        "4294967295",
        "gen 4294967295\nareas 16 devices 24 interfaces 48 goals 16\natoms 420\nviolated 16\nhops 45\n",
    ),
];

/// Runs `gen` for a seed.
fn expect_of<R: Threads + Sync + Abort>(
    rt: &R,
    alloc: Global,
    seed: &str,
    text: &str,
) -> Result<(), Fail> {
    expect_by_diagrams(rt, alloc, seed, &["gen", seed], &[], text, 1)
}

/// Runs it for the seed 1, by this number of workers.
fn expect_by<R: Threads + Sync + Abort>(rt: &R, alloc: Global, workers: &str) -> Result<(), Fail> {
    let line = ["gen", "1", workers];
    expect_by_diagrams(rt, alloc, workers, &line, &[], FIRST, 1)
}

#[test]
fn several_seeds(rt: HostRuntime) -> Result<(), Fail> {
    for (seed, text) in REPORTS {
        expect_of(&rt, rt.alloc(), seed, text)?;
    }
    Ok(())
}

#[test]
fn each_number_of_workers(rt: HostRuntime) -> Result<(), Fail> {
    for workers in ["1", "7", "64"] {
        expect_by(&rt, rt.alloc(), workers)?;
    }
    Ok(())
}
