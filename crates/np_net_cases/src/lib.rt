//! Tests of the layer of networks: predicates, networks and their texts.
#![tactic(auto)]

#[cfg(test)]
mod ipsec_read;
#[cfg(test)]
mod net;
#[cfg(test)]
mod net_read;
#[cfg(test)]
mod pred;
#[cfg(test)]
mod scripts;
