//! Tests of the stores of regions, each of which passes the same ones, and of the
//! atoms, the lists and the predicates over them.
#![tactic(auto)]

#[cfg(test)]
mod addresses;
#[cfg(test)]
mod atoms;
#[cfg(test)]
mod cut;
#[cfg(test)]
mod diagrams;
#[cfg(test)]
mod region;
