//! The nodes of a diagram, and what each of them shows.

/// A node of a store's diagram. It is a region of that store.
#[derive(Clone, Copy, Debug, PartialEq, Eq, Hash)]
pub struct Node {
    /// The place of the node's view in the list of the store's views; the first one is place 0.
    pub at: usize,
}

/// What a node shows.
#[derive(Clone, Copy, Debug, PartialEq, Eq, Hash)]
pub enum View {
    /// The header isn't in the region.
    No,
    /// The header is in the region.
    Yes,
    /// One bit of the header says which node decides.
    Test {
        /// The bit, from 0, the highest of `src`, to 110, the lowest of `dscp`.
        bit: u8,
        /// The node that decides where the bit is 0.
        low: Node,
        /// The node that decides where the bit is 1.
        high: Node,
    },
}

/// The node of `No`.
pub(crate) const NO: Node = Node { at: 0 };

/// The node of `Yes`.
pub(crate) const YES: Node = Node { at: 1 };

/// The number of bits of a header.
pub const BITS: u8 = 111;

impl View {
    ghost use Rattle.std.specs.Prelude.{◌≡◌};
    ghost use Rattle.np_bdd.specs.Diagram.{bit_of};

    /// The bit that the view tests, and one past the last where it tests none.
    pub(crate) fn bit(&self) -> u8
        ensures { result ≡ bit_of self.now }
    {
        match self {
            View::No | View::Yes => BITS,
            View::Test { bit, .. } => *bit,
        }
    }
}
