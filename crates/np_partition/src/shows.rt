//! What stands at the places of a partition diagram.

ghost use Rattle.std.specs.Prelude.{◌≡◌};
ghost use Rattle.np_partition.specs.Diagram.{bit_of};

use np_bdd::BITS;

/// What a place of a diagram shows.
#[derive(Clone, Copy, Debug, PartialEq, Eq)]
pub(crate) enum Show {
    /// The class of the headers that come here.
    Class(usize),
    /// One bit of the header says which place decides; both stand before this one.
    Test { bit: u8, low: usize, high: usize },
}

impl Show {
    /// The bit that is tested, and one past the last where none is.
    pub(crate) fn bit(&self) -> u8
        ensures { result ≡ bit_of self.now }
    {
        match self {
            Show::Class(_) => BITS,
            Show::Test { bit, .. } => *bit,
        }
    }
}
