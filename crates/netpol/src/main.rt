//! `netpol`: what all packet filters of a network do together. The words after its name are a command over files.
//!
//! The exit status is that of the run, 0 to 6. Where the words can't be had from the system nothing is written, and the
//! status is 6 for want of memory, and 7 for any other cause, as a word that isn't UTF-8.
#![tactic(auto)]

ghost use Rattle.std.specs.Prelude.{◌≡◌, IfOk, OnErr, ◌⊎◌};
ghost use Rattle.np_top.specs.Status.{number_of};

use np_outside::{FileShelf, StdSink};
use np_top::{Status, run};
use std::alloc::AllocError;
use std::env;
use std::io::{self, ErrorKind};
use std::process::ExitCode;

/// The exit status where there was no memory for the words.
const MEMORY: u8 = 6;

/// The exit status where the words can't be had.
const NO_WORDS: u8 = 7;

/// The words after the program's name.
fn words(rt: &HostRuntime) -> Result<Vec<String>, io::Error> {
    let words = env::args(rt)?.skip(1).collect(rt.alloc());
    words.map_err(|error: AllocError| io::Error::from(error))
}

/// The exit status where the words couldn't be had.
fn number_without_words(cause: ErrorKind) -> u8
    ensures { (result ≡ 6) ⊎ (result ≡ 7) }
{
    if cause == ErrorKind::OutOfMemory {
        MEMORY
    } else {
        NO_WORDS
    }
}

/// The exit status of the process: that of the run, where there was one.
fn exit_number(ended: Result<Status, ErrorKind>) -> u8
    ensures ran { IfOk ended (λ status. result ≡ number_of status) }
    ensures no_words { OnErr ended ((result ≡ 6) ⊎ (result ≡ 7)) }
{
    match ended {
        Ok(status) => status.number(),
        Err(cause) => number_without_words(cause),
    }
}

fn main(rt: HostRuntime) -> ExitCode {
    let ended = match words(&rt) {
        Ok(words) => {
            let mut shelf = FileShelf::new(&rt);
            let mut sink = StdSink::new(&rt);
            Ok(run(&rt, rt.alloc(), words.as_slice(), &mut shelf, &mut sink))
        }
        Err(error) => Err(error.kind()),
    };
    ExitCode::from(exit_number(ended))
}
