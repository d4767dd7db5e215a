//! Why a run ends before its report.

ghost use Rattle.std.specs.Prelude.{◌≡◌};
ghost use Rattle.np_load.specs.declared.halt.Halt.TheVariants as halts;

use sqlite_items::Items;
use std::alloc::{AllocError, AllocFailed};

/// Why a run ends before its report.
#[derive(Drop)]
pub enum Halt {
    /// A file is refused; this is the line that says so.
    Refused(Items<u8>),

    /// A file could not be read.
    ReadFault,

    /// There was no memory.
    Memory,
}

impl From<AllocError> for Halt {
    ghost from_gives = { λ _ e. e ≡ halts.Memory };

    fn from(_e: AllocError) -> Halt {
        Halt::Memory
    }
}

impl<T: Drop> From<AllocFailed<T>> for Halt {
    ghost from_gives = { λ _ e. e ≡ halts.Memory };

    fn from(_e: AllocFailed<T>) -> Halt {
        Halt::Memory
    }
}
