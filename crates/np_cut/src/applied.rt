//! The access lists that a network's configurations apply, and where.

ghost use Rattle.std.specs.Prelude.{◌≡◌, ◌<◌, length};

use np_acl::List;
use np_net::DevId;
use np_space::Header;
use np_text::Name;
use sqlite_items::Items;
use std::marker::Model;

/// The lists that configurations apply.
///
/// It is known that each place in `at` has a list, and that `names` has as many items as `lists`.
#[derive(Drop)]
pub struct Applied<'a> {
    /// The lists that are applied at some slot, in the order of the first slot of each, where they stand in
    /// the configurations.
    pub lists: Vec<&'a List>,
    /// The device and the name of each list.
    pub names: Items<(DevId, Name)>,
    /// For each slot the place of the list that is applied there. Slot `2 * i` is interface `i`
    /// inward, and slot `2 * i + 1` is interface `i` outward.
    pub at: Items<Option<usize>>,
}

impl<'a> Model for Applied<'a> {
    ghost use Rattle.std.specs.Prelude.{map};
    ghost use Rattle.np_cut.specs.AppliedLists.{AppliedLists, IsApplied};

    ghost Value = { AppliedLists };

    ghost view = { λ applied. record {
      lists = map (λ list. list.now) applied.lists.items;
      names = applied.names;
      at = applied.at;
    } };

    ghost invariant = { λ applied. IsApplied record {
      lists = map (λ list. list.now) applied.lists.items;
      names = applied.names;
      at = applied.at;
    } };
}

ghost use Rattle.np_cut.specs.AppliedLists.{applied_lets};

/// Whether a slot lets a header cross: what the list that is applied there permits, and everything
/// where there is none.
pub fn lets(applied: &Applied<'_>, slot: usize, h: &Header) -> bool
    requires { slot < length applied.now.at }
    ensures { result ≡ applied_lets applied.now slot h.now }
{
    match applied.at.as_slice()[slot] {
        Some(place) => applied.lists.as_slice()[place].permits(h),
        None => true,
    }
}
