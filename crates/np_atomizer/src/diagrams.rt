//! The atoms of cuts that are nodes of a diagram: the classes of a partition of header space.

ghost use Rattle.std.specs.Prelude.{◌≡◌, ◌<◌, ◌∷◌, IfOk, Bool, List, drop, length};
ghost use Rattle.np_space.specs.Header.{is_valid_header};
ghost use Rattle.np_space.specs.declared.headers.Header.{Header};
ghost use Rattle.np_region.specs.Keeping.{KeepsRegions, EachFits, tests_of};
ghost use Rattle.np_bdd.specs.Diagram.{IsRegion};
ghost use Rattle.np_bdd.specs.Views.{node_has};
ghost use Rattle.np_partition.specs.Partition.{IsPartition};
ghost use Rattle.np_partition.specs.Product.{sets_at};
ghost use Rattle.np_atomizer.specs.ClassAtoms.{TellsValid, AreClassAtoms, AreRead};

use crate::atom_list::{Atom, in_order, least_members, regions};
use crate::atomizer::{Atomized, Atomizer};
use crate::class_atoms::{listed, number_at, places};
use np_atoms::Atoms;
use np_atomset::AtomSet;
use np_bdd::{Diagrams, Node};
use np_partition::{Partition, sets_at};
use np_region::Regions;
use np_space::Header;
use sqlite_items::Items;
use std::alloc::{AllocError, Global};

/// The classes of a partition by some cuts, and which atom each of them is.
#[derive(Drop)]
pub struct PartitionClasses {
    partition: Partition,
    // the class of each atom
    classes: Vec<usize>,
    // for each class the number of the atom that it is, and 0 where it is none
    numbers: Vec<usize>,
}

impl PartitionClasses {
    /// How many places the diagram of the partition has. It is there to be timed and measured.
    pub fn places(&self) -> usize
        ensures { result ≡ length self.now.partition.shows }
    {
        self.partition.places()
    }
}

// The atoms of a partition's classes, in the order of their least members. Its first test is whether a header is valid.
fn atoms_of(alloc: Global, partition: &Partition) -> Result<Vec<Atom<usize>>, AllocError>
    requires { TellsValid partition.now }
    ensures { IfOk result (λ v. (tests : List (Header → Bool)) → IsPartition (is_valid_header ∷ tests) partition.now → AreClassAtoms partition.now tests v.items) }
{
    let leasts = partition.least_members(alloc)?;
    let atoms = listed(alloc, &partition.sets()[0], leasts.as_slice())?;
    Ok(in_order(atoms))
}

// All sets but the first.
fn after_first(sets: &[AtomSet]) -> &[AtomSet]
    requires { 0 < length sets.now }
    ensures { result.now ≡ drop 1 sets.now }
{
    &sets[1..]
}

// For each cut the atoms that it has, by the classes of the atoms.
fn cuts_of(
    alloc: Global,
    partition: &Partition,
    classes: &[usize],
) -> Result<Items<AtomSet>, AllocError>
    requires { TellsValid partition.now }
    ensures { IfOk result (λ sets. sets ≡ sets_at (drop 1 partition.now.sets) classes.now) }
{
    sets_at(alloc, after_first(partition.sets()), classes)
}

// The atoms of a partition's classes, and what keeps them. Its first test is whether a header is valid, and the others are
// those of the cuts.
fn read(alloc: Global, partition: Partition) -> Result<Atomized<PartitionClasses>, AllocError>
    requires { TellsValid partition }
    ensures { IfOk result (λ r. (tests : List (Header → Bool)) → IsPartition (is_valid_header ∷ tests) partition → AreRead tests r) }
{
    let atoms = atoms_of(alloc, &partition)?;
    let leasts = Items::from_vec(least_members(alloc, &atoms)?);
    let classes = regions(alloc, atoms)?;
    let cuts = cuts_of(alloc, &partition, &classes)?;
    let numbers = places(alloc, partition.classes(), &classes)?;
    Ok(Atomized {
        atoms: Atoms { leasts, cuts },
        classes: PartitionClasses {
            partition,
            classes,
            numbers,
        },
    })
}

// The partition by whether a header is valid, and by the cuts.
fn partition_of(alloc: Global, store: &mut Diagrams, cuts: &[Node]) -> Result<Partition, AllocError>
    requires { EachFits IsRegion store.old cuts.now }
    ensures kept { KeepsRegions IsRegion node_has store.old store.new }
    ensures partition { IfOk result (IsPartition (is_valid_header ∷ tests_of node_has store.old cuts.now)) }
{
    let whole = store.whole()?;
    let valid = Partition::of_region(alloc, store, whole)?;
    let cuts = Partition::of_regions(alloc, store, cuts)?;
    let both = Partition::with(alloc, &valid, &cuts)?;
    Ok(both)
}

/// It makes the partition of header space by the cuts, one pass over whose diagram tells the least member of each class, sorts
/// the atoms, and looks at each atom once for each cut. The classes are the partition with the atoms' numbers: `atom_of` follows
/// the header's bits, and `region` makes a node for each place of the diagram at most.
impl Atomizer for Diagrams {
    ghost use Rattle.std.specs.Prelude.{length};
    ghost use Rattle.np_atomizer.specs.ClassAtoms.{number_of_class, KeepsAtoms};

    type Classes = PartitionClasses;

    ghost are_classes = { λ c. KeepsAtoms c };

    ghost count = { λ c. length c.classes.items };

    ghost atom_number = { λ c h. number_of_class c h };

    fn atomize(
        &mut self,
        alloc: Global,
        cuts: &[Node],
    ) -> Result<Atomized<PartitionClasses>, AllocError> {
        let partition = partition_of(alloc, self, cuts)?;
        read(alloc, partition)
    }

    fn atom_of(&self, classes: &PartitionClasses, h: &Header) -> usize {
        number_at(&classes.numbers, classes.partition.class_of(h))
    }

    fn region(
        &mut self,
        alloc: Global,
        classes: &PartitionClasses,
        n: usize,
    ) -> Result<Node, AllocError> {
        let class = classes.classes.as_slice()[n];
        classes.partition.region(alloc, self, class)
    }
}
