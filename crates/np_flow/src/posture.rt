//! What crosses the slots of a network.

ghost use Rattle.std.specs.Prelude.{◌≡◌, IfOk};

use np_atomset::AtomSet;
use sqlite_items::Items;
use std::alloc::{AllocError, Global};

/// For each slot of a network the set of atoms that cross it (Guttman and Herzog 2005, posture). Slot
/// `2 * i` is interface `i` inward, and slot `2 * i + 1` is interface `i` outward.
#[derive(Debug, Drop)]
pub struct Posture {
    pub slots: Items<AtomSet>,
}

impl Posture {
    /// A second posture with the same sets. Fails only for want of memory.
    pub fn copy(&self, alloc: Global) -> Result<Posture, AllocError>
        ensures { IfOk result (λ posture. posture.slots ≡ self.now.slots) }
    {
        let mut slots = Items::new(alloc);
        for set in self.slots.as_slice() {
            slots.push(set.copy(alloc)?)?;
        }
        Ok(Posture { slots })
    }
}
