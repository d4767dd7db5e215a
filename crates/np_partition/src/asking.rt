//! What a partition says.

ghost use Rattle.std.specs.Prelude.{◌≡◌, ◌<◌, length};
ghost use Rattle.np_bdd.specs.Views.{bits_of_header};
ghost use Rattle.np_partition.specs.Diagram.{class_at, IsDiagram};
ghost use Rattle.np_partition.specs.Partition.{class_of};

use crate::partition::Partition;
use crate::shows::Show;
use np_atomset::AtomSet;
use np_bdd::header_bit;
use np_space::Header;

// The class to which the header's bits lead from the place.
fn class_from(shows: &[Show], root: usize, h: &Header) -> usize
    requires diagram { IsDiagram shows.now }
    requires there { root < length shows.now }
    ensures { result ≡ class_at (bits_of_header h.now) shows.now root }
{
    let mut at = root;
    'bits: loop {
        match shows[at] {
            Show::Class(n) => return n,
            Show::Test { bit, low, high } => at = if header_bit(h, bit) { high } else { low },
        }
    }
}

impl Partition {
    /// The class that the header is in, whether it is valid or not, without memory and in at most 111 steps. For a
    /// partition of some tests it is below `classes` where the header's fields are of their widths: `dscp` is at most 63.
    pub fn class_of(&self, h: &Header) -> usize
        requires diagram { IsDiagram self.now.shows }
        requires there { self.now.root < length self.now.shows }
        ensures { result ≡ class_of self.now h.now }
    {
        class_from(self.shows.as_slice(), self.root, h)
    }

    /// How many classes there are, those without headers among them.
    pub fn classes(&self) -> usize
        ensures { result ≡ self.now.classes }
    {
        self.classes
    }

    /// How many places its diagram has, those that no header comes by among them. It is there to be timed and measured.
    pub fn places(&self) -> usize
        ensures { result ≡ length self.now.shows }
    {
        self.shows.len()
    }

    /// For each test, in their order, the classes whose headers it has.
    pub fn sets(&self) -> &[AtomSet]
        ensures { result.now ≡ self.now.sets }
    {
        self.sets.as_slice()
    }
}
