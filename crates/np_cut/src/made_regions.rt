//! Regions of addresses that were made before, so that an area that predicates name again and again is
//! made once.

ghost use Rattle.std.specs.Prelude.{◌≡◌, ◌↔◌, IsTrue, IfSome, OnOk, IfOk};
ghost use Rattle.np_region.specs.Keeping.{KeepsRegions};
ghost use Rattle.np_cut.specs.Making.{AreMade, IsOfAddresses};

use np_pred::Addresses;
use np_region::Regions;
use np_space::{AddressField, Ternary};
use std::alloc::{AllocError, Global};

/// From how many patterns on a region is kept. One of fewer is soon made.
const MANY: usize = 16;

/// How many regions are kept at most; all are forgotten when there would be more. So a look-up takes a bounded
/// number of steps, where predicates name ever other addresses.
const KEPT: usize = 1024;

/// A region, and the addresses of which it was made.
#[derive(Drop)]
pub struct Made<R> {
    pub field: AddressField,
    pub addresses: Addresses,
    pub region: R,
}

fn are_same(patterns: &[Ternary], others: &[Ternary]) -> bool
    ensures { IsTrue result ↔ (patterns.now ≡ others.now) }
{
    patterns == others
}

// The region of these addresses, where it was made before.
fn made_before<'a, S: Regions>(
    _store: &S,
    made: &'a [Made<S::R>],
    field: AddressField,
    patterns: &[Ternary],
) -> Option<&'a S::R>
    requires { AreMade S.fits S.has_header _store.now made.now }
    ensures { IfSome result (λ x. IsOfAddresses S.fits S.has_header field patterns.now _store.now x.now) }
{
    for one in made {
        if one.field == field && are_same(one.addresses.as_slice(), patterns) {
            return Some(&one.region);
        }
    }
    None
}

// Forgets all regions where there are as many as may be kept.
fn make_room<S: Regions>(_store: &S, made: &mut Vec<Made<S::R>>)
    requires { AreMade S.fits S.has_header _store.now made.old.items }
    ensures { AreMade S.fits S.has_header _store.now made.new.items }
{
    if made.len() >= KEPT {
        made.clear();
    }
}

// Makes the region of these addresses, and keeps it.
fn make<S: Regions>(
    store: &mut S,
    made: &mut Vec<Made<S::R>>,
    field: AddressField,
    addresses: &Addresses,
) -> Result<S::R, AllocError>
    requires { AreMade S.fits S.has_header store.old made.old.items }
    ensures kept { KeepsRegions S.fits S.has_header store.old store.new }
    ensures region { IfOk result (IsOfAddresses S.fits S.has_header field addresses.now store.new) }
    ensures made { OnOk result (AreMade S.fits S.has_header store.new made.new.items) }
{
    make_room(store, made);
    let region = store.of_addresses(field, addresses.as_slice())?;
    let copy = store.copy(&region)?;
    made.push(Made {
        field,
        addresses: addresses.share()?,
        region: copy,
    })?;
    Ok(region)
}

/// Exactly the valid headers whose address of this kind is in one of the patterns. Where there are many, the
/// region is kept among those that were made before, and is a copy of the one that is there; no clause says
/// so. Fails only for want of memory.
pub fn address_region<S: Regions>(
    store: &mut S,
    made: &mut Vec<Made<S::R>>,
    field: AddressField,
    addresses: &Addresses,
) -> Result<S::R, AllocError>
    requires { AreMade S.fits S.has_header store.old made.old.items }
    ensures kept { KeepsRegions S.fits S.has_header store.old store.new }
    ensures region { IfOk result (IsOfAddresses S.fits S.has_header field addresses.now store.new) }
    ensures made { OnOk result (AreMade S.fits S.has_header store.new made.new.items) }
{
    let patterns = addresses.as_slice();
    if patterns.len() < MANY {
        return store.of_addresses(field, patterns);
    }
    match made_before(store, made.as_slice(), field, patterns) {
        Some(region) => store.copy(region),
        None => make(store, made, field, addresses),
    }
}
