//! Tests of the layer of access lists: entries and configurations.
#![tactic(auto)]

#[cfg(test)]
mod acl;
#[cfg(test)]
mod acl_read;
