//! Applying the configurations of a network's devices.

ghost use Rattle.std.specs.Prelude.{◌≡◌, ◌<◌, ◌*◌, ℕ, length, map, IfOk};
ghost use Rattle.std.specs.List.{AllByRecursion};
ghost use Rattle.np_net.specs.Distinct.{AreDistinct, same_place};
ghost use Rattle.np_cut.specs.Applying.{AreThere, place_in, applied_by_keys, applied_of, slot_lets};
ghost use Rattle.np_cut.specs.AppliedLists.{applied_lets};
ghost use Rattle.np_space.specs.declared.headers.Header.{Header};

use crate::applied::Applied;
use crate::key_set::{KeySet, copy_key, set_of_keys};
use crate::keys::{keys_of_slots, lists_of_keys};
use np_acl_read::SharedConfig;
use np_net::{DevId, Network};
use np_text::Name;
use sqlite_items::Items;
use std::alloc::{AllocError, Global};

fn copy_keys(alloc: Global, keys: &[(DevId, Name)]) -> Result<Items<(DevId, Name)>, AllocError>
    ensures { IfOk result (λ copies. copies ≡ keys.now) }
{
    let mut copies = Items::new(alloc);
    for key in keys {
        copies.push(copy_key(alloc, key)?)?;
    }
    Ok(copies)
}

// The places of slots' keys.
fn places_of_keys(
    alloc: Global,
    set: &KeySet,
    keys: &[Option<(DevId, Name)>],
) -> Result<Items<Option<usize>>, AllocError>
    ensures { IfOk result (λ at. at ≡ map (place_in set.now) keys.now) }
{
    let mut at = Items::new(alloc);
    for key in keys {
        at.push(set.place(key))?;
    }
    Ok(at)
}

// What configurations apply, by the keys of the slots.
fn applied_with<'a>(
    alloc: Global,
    configs: &'a [SharedConfig],
    keys: &[Option<(DevId, Name)>],
) -> Result<Applied<'a>, AllocError>
    requires { AreThere configs.now keys.now }
    ensures { IfOk result (λ applied. applied ≡ applied_by_keys configs.now keys.now) }
{
    let set = set_of_keys(alloc, keys)?;
    let lists = lists_of_keys(alloc, configs, set.as_slice())?;
    let names = copy_keys(alloc, set.as_slice())?;
    let at = places_of_keys(alloc, &set, keys)?;
    Ok(Applied { lists, names, at })
}

/// The lists that configurations apply at the slots of a network, as its filtering posture (Guttman and
/// Herzog 2005): one configuration for each device, in the order of the devices. Fails only for want of memory.
/// Time and memory are linear in the slots and their names; no list is copied, so it doesn't matter how large
/// the configurations are.
pub fn apply<'a>(
    alloc: Global,
    net: &Network,
    configs: &'a [SharedConfig],
) -> Result<Applied<'a>, AllocError>
    ensures made { IfOk result (λ applied. applied ≡ applied_of net.now.interfaces configs.now) }
    ensures lets { IfOk result (λ applied. (slot : ℕ) → slot < 2 * length net.now.interfaces → (h : Header) → applied_lets applied slot h ≡ slot_lets net.now.interfaces configs.now slot h) }
    ensures slots { IfOk result (λ applied. length applied.at ≡ 2 * length net.now.interfaces) }
    ensures devices { IfOk result (λ applied. AllByRecursion (λ name. name.0 < length net.now.devices) applied.names) }
    ensures once { IfOk result (λ applied. AreDistinct same_place applied.names) }
{
    let keys = keys_of_slots(alloc, net.interfaces.as_slice(), configs, net.free.len())?;
    applied_with(alloc, configs, keys.as_slice())
}
