//! The least header of each class.

ghost use Rattle.std.specs.Prelude.{◌≡◌, ◌+◌, ◌<◌, length, IfOk};
ghost use Rattle.np_space.specs.Header.{HasWidths};
ghost use Rattle.np_space.specs.declared.headers.Header.{Header};
ghost use Rattle.np_partition.specs.Least.{lesser, IsOffered};

use crate::partition::Partition;
use crate::shows::Show;
use np_bdd::with_bit_set;
use np_space::{Header, order};
use sqlite_items::Items;
use std::alloc::{AllocError, Global};

// The lesser of the header that was kept, if there is one, and another.
#[tactic(auto, unfolding(np_space::specs::Header::header_le))]
fn lesser(kept: Option<Header>, x: Header) -> Header
    ensures { result ≡ lesser kept x }
{
    match kept {
        Some(y) if order(&y, &x).is_le() => y,
        _ => x,
    }
}

// Puts the header into the slot, unless a lesser one is there.
fn offer(slots: &mut [Option<Header>], n: usize, x: Header)
    requires { n < length slots.old }
    ensures { IsOffered n x slots.old slots.new }
{
    slots[n] = Some(lesser(slots[n], x));
}

impl Partition {
    ghost use Rattle.np_partition.specs.Diagram.{IsDiagram};
    ghost use Rattle.np_partition.specs.Partition.{class_of, AreLeastMembers};
    ghost use Rattle.np_partition.specs.Least.{AreFree, AreHandedOn};

    /// The least header of each class by `order`, whether it is valid or not, and `None` for a class
    /// without headers.
    ///
    /// It takes one pass over the diagram, with one comparison for each way out of a place.
    ///
    /// # Errors
    ///
    /// `AllocError` if there is no memory for a header for each place and each class.
    pub fn least_members(&self, alloc: Global) -> Result<Items<Option<Header>>, AllocError>
        requires diagram { IsDiagram self.now.shows }
        requires there { self.now.root < length self.now.shows }
        requires within { (h : Header) → HasWidths h → class_of self.now h < self.now.classes }
        ensures { IfOk result (AreLeastMembers self.now) }
    {
        let mut places = vec![in alloc; None; self.shows.len()]?;
        let mut leasts = vec![in alloc; None; self.classes]?;
        self.hand_on_all(places.as_mut_slice(), leasts.as_mut_slice());
        Ok(Items::from_vec(leasts))
    }

    // Hands the header of zeros, which comes to the root, on to the classes, from the last place to the
    // first, so that a place has all that comes to it before its own is handed on.
    fn hand_on_all(&self, places: &mut [Option<Header>], leasts: &mut [Option<Header>])
        requires diagram { IsDiagram self.now.shows }
        requires there { self.now.root < length self.now.shows }
        requires within { (h : Header) → HasWidths h → class_of self.now h < self.now.classes }
        requires places { AreFree (length self.now.shows) places.old }
        requires leasts { AreFree self.now.classes leasts.old }
        ensures { AreLeastMembers self.now leasts.new }
    {
        offer(places, self.root, Header::zeros());
        let mut at = self.shows.len();
        while at > 0 {
            at -= 1;
            self.hand_on(at, places, leasts);
        }
    }

    // Hands the header of a place on: to the class that the place shows, or to both places that its test
    // leads to, with the tested bit set for the one where it is 1.
    fn hand_on(&self, at: usize, places: &mut [Option<Header>], leasts: &mut [Option<Header>])
        requires diagram { IsDiagram self.now.shows }
        requires within { (h : Header) → HasWidths h → class_of self.now h < self.now.classes }
        requires there { at < length self.now.shows }
        requires handed { AreHandedOn self.now (1 + at) places.old leasts.old }
        ensures { AreHandedOn self.now at places.new leasts.new }
    {
        let Some(x) = places[at] else {
            return;
        };
        match self.shows.as_slice()[at] {
            Show::Class(n) => offer(leasts, n, x),
            Show::Test { bit, low, high } => {
                offer(places, low, x);
                offer(places, high, with_bit_set(x, bit));
            }
        }
    }
}
