//! Whole runs over files and a sink in memory. Each worked case is a line of a table.
#![tactic(auto)]

mod given;

pub use given::{shelf, words};

#[cfg(test)]
mod atoms;
#[cfg(test)]
mod check;
#[cfg(test)]
mod cuts;
#[cfg(test)]
mod failing;
#[cfg(test)]
mod generated;
#[cfg(test)]
mod hostile;
#[cfg(test)]
mod ipsec;
#[cfg(test)]
mod judging;
#[cfg(test)]
mod networks;
#[cfg(test)]
mod notes;
#[cfg(test)]
mod refusals;
#[cfg(test)]
mod runs;
#[cfg(test)]
mod show;
#[cfg(test)]
mod synth;
#[cfg(test)]
mod trace;
