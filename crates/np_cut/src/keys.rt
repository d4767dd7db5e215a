//! The lists of configurations by their devices and names, and which of them slots apply.

ghost use Rattle.std.specs.Prelude.{◌≡◌, ◌<◌, ◌/◌, ◌*◌, length, map, IfOk, IsSome, is_some};
ghost use Rattle.std.specs.List.{AllByRecursion, range_with_len};
ghost use Rattle.std.specs.Option.{option_copied};
ghost use Rattle.np_cut.specs.Applying as applying;

use np_acl::{List, Way};
use np_acl_read::{Config, Lists, SharedConfig};
use np_net::{DevId, Interface};
use np_text::Name;
use std::alloc::{AllocError, Global};

// Whether a list is defined and has entries.
fn has_entries(lists: &Lists, name: &Name) -> bool
    ensures { result ≡ is_some (applying.list_with_entries lists.now name.now) }
{
    match lists.named(name) {
        Some(list) => !list.as_slice().is_empty(),
        None => false,
    }
}

// A device and a list's name, where the list is defined and has entries.
fn named_key(
    alloc: Global,
    lists: &Lists,
    device: DevId,
    name: &Name,
) -> Result<Option<(DevId, Name)>, AllocError>
    ensures { IfOk result (λ key. key ≡ applying.named_key lists.now device name.now) }
{
    if has_entries(lists, name) {
        let name = name.copy(alloc)?;
        Ok(Some((device, name)))
    } else {
        Ok(None)
    }
}

// The device and the name of the list that its configuration applies at an interface.
fn key_in(
    alloc: Global,
    config: &Config,
    device: DevId,
    interface: &Name,
    way: Way,
) -> Result<Option<(DevId, Name)>, AllocError>
    ensures { IfOk result (λ key. key ≡ applying.key_in config.now device interface.now way) }
{
    match config.groups.list_at(interface, way) {
        Some(name) => named_key(alloc, &config.lists, device, name),
        None => Ok(None),
    }
}

fn slot_way(slot: usize) -> Way
    ensures { result ≡ applying.slot_way slot }
{
    if slot % 2 == 0 {
        Way::Inward
    } else {
        Way::Outward
    }
}

// The device and the name of the list that is applied at a slot.
#[tactic(auto, using(crate::proofs::KeyLaws::no_key))]
fn key_of_slot(
    alloc: Global,
    interfaces: &[Interface],
    configs: &[SharedConfig],
    slot: usize,
) -> Result<Option<(DevId, Name)>, AllocError>
    requires { slot / 2 < length interfaces.now }
    ensures { IfOk result (λ key. key ≡ applying.slot_key interfaces.now configs.now slot) }
{
    let interface = &interfaces[slot / 2];
    let way = slot_way(slot);
    match configs.get(usize::from(interface.device)) {
        Some(config) => key_in(alloc, config.get(), interface.device, &interface.name, way),
        None => Ok(None),
    }
}

/// The device and the name of the list that is applied at each of so many slots.
pub(crate) fn keys_of_slots(
    alloc: Global,
    interfaces: &[Interface],
    configs: &[SharedConfig],
    slots: usize,
) -> Result<Vec<Option<(DevId, Name)>>, AllocError>
    requires { slots ≡ 2 * length interfaces.now }
    ensures { IfOk result (λ keys. keys.items ≡ map (applying.slot_key interfaces.now configs.now) (range_with_len 0 slots)) }
{
    let mut keys = Vec::new(alloc);
    for slot in 0..slots {
        keys.push(key_of_slot(alloc, interfaces, configs, slot)?)?;
    }
    Ok(keys)
}

// The list of a device and a name in the device's configuration, if there is one.
fn list_there<'a>(configs: &'a [SharedConfig], key: &(DevId, Name)) -> Option<&'a List>
    ensures { option_copied result ≡ applying.list_there configs.now key.now }
{
    match configs.get(usize::from(key.0)) {
        Some(config) => config.get().lists.named(&key.1),
        None => None,
    }
}

// That list, where it is known to be there.
fn list_of_key<'a>(configs: &'a [SharedConfig], key: &(DevId, Name)) -> &'a List
    requires { IsSome (applying.list_there configs.now key.now) }
    ensures { result.now ≡ applying.key_list configs.now key.now }
{
    match list_there(configs, key) {
        Some(list) => list,
        None => unreachable!(),
    }
}

/// The lists of keys in their configurations.
pub(crate) fn lists_of_keys<'a>(
    alloc: Global,
    configs: &'a [SharedConfig],
    keys: &[(DevId, Name)],
) -> Result<Vec<&'a List>, AllocError>
    requires { AllByRecursion (λ key. IsSome (applying.list_there configs.now key)) keys.now }
    ensures { IfOk result (λ lists. map (λ list. list.now) lists.items ≡ map (applying.key_list configs.now) keys.now) }
{
    let mut lists = Vec::new(alloc);
    for n in 0..keys.len() {
        lists.push(list_of_key(configs, &keys[n]))?;
    }
    Ok(lists)
}
