//! What a store owes that cuts header space into atoms.

ghost use Rattle.std.specs.Prelude.{◌≡◌, ℕ, ◌<◌, ◌==◌, ◌&&◌, IfOk, length};
ghost use Rattle.np_space.specs.Header.{is_valid_header, IsValid};
ghost use Rattle.np_space.specs.declared.headers.Header.{Header};
ghost use Rattle.np_region.specs.Keeping.{KeepsRegions, EachFits, tests_of};
ghost use Rattle.np_atoms.specs.Atoms.{AreAtoms};
ghost use Rattle.np_atomizer.specs.Numbers.{AreNumbers};

use np_atoms::Atoms;
use np_region::Regions;
use np_space::Header;
use std::alloc::{AllocError, Global};

/// The atoms of a list of cuts, and what keeps which of them each header is in.
#[derive(Drop)]
pub struct Atomized<C> {
    /// The atoms.
    pub atoms: Atoms,
    /// Which atom each header is in, for the store that made it.
    pub classes: C,
}

/// A store of regions that cuts the valid headers into atoms.
pub trait Atomizer: Regions {
    /// What keeps which atom each header is in. It owns what it needs, and serves every store of its kind, whatever
    /// becomes of the store that made it.
    type Classes: Drop;

    /// Whether they are the classes of some cuts' atoms.
    ghost are_classes: { Self.Classes → Type 0 };

    /// How many atoms there are.
    ghost count: { Self.Classes → ℕ };

    /// The number of the atom that has the header.
    ghost atom_number: { Self.Classes → Header → ℕ };

    /// The atoms of the cuts (Guttman and Herzog 2005, the Atomizer): the classes of the valid headers for which each cut
    /// answers the same, in the order of their least members. Without cuts it is one atom, of all valid headers. Each cut
    /// must fit the store. Fails only for want of memory.
    fn atomize(
        &mut self,
        alloc: Global,
        cuts: &[Self::R],
    ) -> Result<Atomized<Self::Classes>, AllocError>
        requires { EachFits Self.fits self.old cuts.now }
        ensures kept { KeepsRegions Self.fits Self.has_header self.old self.new }
        ensures atoms { IfOk result (λ r. AreAtoms (tests_of Self.has_header self.old cuts.now) r.atoms) }
        ensures classes { IfOk result (λ r. are_classes r.classes) }
        ensures count { IfOk result (λ r. count r.classes ≡ length r.atoms.leasts) }
        ensures numbers { IfOk result (λ r. AreNumbers (tests_of Self.has_header self.old cuts.now) r.atoms.leasts (atom_number r.classes)) };

    /// The number of the atom that has the header. Needs a valid header, and classes that a store of this kind made.
    fn atom_of(&self, classes: &Self::Classes, h: &Header) -> usize
        requires classes { are_classes classes.now }
        requires valid { IsValid h.now }
        ensures { result ≡ atom_number classes.now h.now };

    /// The region of atom n, which has exactly the atom's headers. Needs n below the number of atoms, and classes that a
    /// store of this kind made. Fails only for want of memory.
    fn region(
        &mut self,
        alloc: Global,
        classes: &Self::Classes,
        n: usize,
    ) -> Result<Self::R, AllocError>
        requires classes { are_classes classes.now }
        requires within { n < count classes.now }
        ensures kept { KeepsRegions Self.fits Self.has_header self.old self.new }
        ensures fits { IfOk result (λ x. Self.fits self.new x) }
        ensures exact { IfOk result (λ x. (h : Header) → Self.has_header self.new x h ≡ (is_valid_header h && (atom_number classes.now h == n))) };
}
