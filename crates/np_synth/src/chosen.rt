//! What is synthesised.

ghost use Rattle.std.specs.Prelude.{◌≡◌};
ghost use Rattle.np_synth.specs.declared.chosen.SynthError.TheVariants as errors;

use np_flow::Posture;
use np_net::Path;
use np_space::Header;
use sqlite_items::Items;
use std::alloc::{AllocError, AllocFailed};

/// Why a free slot doesn't let an atom cross.
#[derive(Debug, Drop)]
pub struct Dropped {
    /// The slot, which is free.
    pub slot: usize,
    /// The atom, from 0.
    pub atom: usize,
    /// The first goal, from 0, that is broken once the slot lets this atom cross as well.
    pub goal: usize,
    /// The first path of that goal that carries the atom then.
    pub path: Path,
}

/// A maximal posture, and what its free slots drop.
#[derive(Drop)]
pub struct Chosen {
    pub posture: Posture,
    /// By slot and then by atom.
    pub dropped: Items<Dropped>,
}

/// Why no posture is synthesised.
#[derive(Debug, Drop)]
pub enum SynthError {
    /// A goal is broken although all free slots are shut.
    Unattainable {
        /// The first such goal, from 0.
        goal: usize,
        /// The least header that breaks it.
        header: Header,
        /// The first of its paths.
        path: Path,
    },
    /// There was no memory.
    Memory,
}

impl From<AllocError> for SynthError {
    ghost from_gives = { λ _ e. e ≡ errors.Memory };

    fn from(_e: AllocError) -> SynthError {
        SynthError::Memory
    }
}

impl<T: Drop> From<AllocFailed<T>> for SynthError {
    ghost from_gives = { λ _ e. e ≡ errors.Memory };

    fn from(_e: AllocFailed<T>) -> SynthError {
        SynthError::Memory
    }
}
