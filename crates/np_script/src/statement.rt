//! The statements of a script's text.

use np_ipsec::{Motion, Place};
use np_space::Header;

/// Where a packet starts, and its plain header.
#[derive(Clone, Copy, Debug)]
pub struct Start {
    pub place: Place,
    pub plain: Header,
}

/// What a line says. Each name that it uses stands for its place in the network.
#[derive(Clone, Copy, Debug)]
pub enum Statement {
    /// `start PLACE HEADER`
    Begin(Start),
    /// `enter DEV IF`, `pop`, `cross DEV IF`, `push SA` or `leave`
    Move(Motion),
}
