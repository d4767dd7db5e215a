//! Reading a run's files, one after another.

ghost use Rattle.std.specs.Prelude.{◌≡◌, ◌<◌, ℕ, Some, Ok, length, is_some, IsTrue, IfOk, IfSome, IsErrOf, IsSome};
ghost use Rattle.std.specs.List.{list_any, position};
ghost use Rattle.np_outside.specs.Counts.{Rose};
ghost use Rattle.np_outside.specs.Files.{Files};
ghost use Rattle.np_load.specs.Inputs.{empty, device_says, configs_say, inputs_of};
ghost use Rattle.np_load.specs.Keeping.{KeepsShelf};
ghost use Rattle.np_load.specs.Loaded.{AreLoaded, names_file};
ghost use Rattle.np_load.specs.Loading.{Loads, LoadsAs, inputs_in};
ghost use Rattle.np_load.specs.Saying.{config_says};

use crate::files::{load_config_file, load_net};
use crate::halt::Halt;
use np_acl_read::{SharedConfig, empty_config};
use np_net::{Device, Network};
use np_outside::Shelf;
use np_text::Name;
use std::alloc::{AllocError, Global};

/// What all files of a run declare: a network, and the configurations of its devices in their order. Devices that
/// name the same file have shares of one configuration.
#[derive(Drop)]
pub struct Inputs {
    pub net: Network,
    pub configs: Vec<SharedConfig>,
}

/// The configuration of a device without a file.
fn no_config(alloc: Global) -> Result<SharedConfig, AllocError>
    ensures { IfOk result (λ config. config ≡ empty) }
{
    SharedConfig::of(alloc, empty_config(alloc))
}

/// Whether the device's configuration is in this file.
fn names_file(device: &Device, file: &Name) -> bool
    ensures { result ≡ names_file file.now device.now }
{
    match &device.config {
        Some(own) => file == own,
        None => false,
    }
}

/// The place of the first of the devices whose configuration is in this file. `None` where there is
/// none.
fn first_with(devices: &[Device], file: &Name) -> Option<usize>
    ensures first { result ≡ position (names_file file.now) devices.now }
    ensures within { IfSome result (λ place. place < length devices.now) }
{
    devices.iter().position(|device| names_file(device, file))
}

/// A share of the configuration of the first of these devices whose configuration is in this file.
/// `None` where there is none.
fn share_of(
    devices: &[Device],
    configs: &[SharedConfig],
    file: &Name,
) -> Result<Option<SharedConfig>, AllocError>
    requires { length configs.now ≡ length devices.now }
    ensures found { IfOk result (λ share. is_some share ≡ list_any (names_file file.now) devices.now) }
    ensures says { IfOk result (λ share. IfSome share (λ config. (files : Files) → AreLoaded files devices.now configs.now → config_says files file.now ≡ Some (Ok config))) }
{
    match first_with(devices, file) {
        Some(place) => Ok(Some(configs[place].share()?)),
        None => Ok(None),
    }
}

/// The configuration in a file. Where one of the devices before has its configuration in the same
/// file, this is a share of it, and the file isn't read again.
fn load_file_once<S: Shelf>(
    alloc: Global,
    shelf: &mut S,
    before: &[Device],
    configs: &[SharedConfig],
    file: &Name,
) -> Result<SharedConfig, Halt>
    requires as_many { length configs.now ≡ length before.now }
    requires loaded { (files : Files) → S.files shelf.old ≡ Some files → AreLoaded files before.now configs.now }
    ensures says { (files : Files) → S.files shelf.old ≡ Some files → Loads result (config_says files file.now) }
    ensures once { IsTrue (list_any (names_file file.now) before.now) → shelf.new ≡ shelf.old }

    ensures failed { IsErrOf result Halt.ReadFault → Rose (S.faults shelf.old) (S.faults shelf.new) }
    ensures broken { IsErrOf result Halt.ReadFault → (files : Files) → S.files shelf.old ≡ Some files →
        IsSome (config_says files file.now) → Rose (S.breaks shelf.old) (S.breaks shelf.new) }
    ensures kept { KeepsShelf S.files S.cap S.faults S.breaks shelf.old shelf.new }
{
    match share_of(before, configs, file)? {
        Some(config) => Ok(config),
        None => load_config_file(alloc, shelf, file.bytes()),
    }
}

/// A device's configuration, where those of the devices before are loaded; without a file it is empty.
fn load_config<S: Shelf>(
    alloc: Global,
    shelf: &mut S,
    before: &[Device],
    configs: &[SharedConfig],
    device: &Device,
) -> Result<SharedConfig, Halt>
    requires as_many { length configs.now ≡ length before.now }
    requires loaded { (files : Files) → S.files shelf.old ≡ Some files → AreLoaded files before.now configs.now }
    ensures says { (files : Files) → S.files shelf.old ≡ Some files → Loads result (device_says files device.now) }

    ensures failed { IsErrOf result Halt.ReadFault → Rose (S.faults shelf.old) (S.faults shelf.new) }
    ensures broken { IsErrOf result Halt.ReadFault → (files : Files) → S.files shelf.old ≡ Some files →
        IsSome (device_says files device.now) → Rose (S.breaks shelf.old) (S.breaks shelf.new) }
    ensures kept { KeepsShelf S.files S.cap S.faults S.breaks shelf.old shelf.new }
{
    match &device.config {
        Some(file) => load_file_once(alloc, shelf, before, configs, file),
        None => Ok(no_config(alloc)?),
    }
}

/// The configurations of the devices, in their order. A file that several of them name is read once.
fn load_configs<S: Shelf>(
    alloc: Global,
    shelf: &mut S,
    devices: &[Device],
) -> Result<Vec<SharedConfig>, Halt>
    ensures says { (files : Files) → S.files shelf.old ≡ Some files → LoadsAs (λ configs. configs.items) result (configs_say files devices.now) }

    ensures failed { IsErrOf result Halt.ReadFault → Rose (S.faults shelf.old) (S.faults shelf.new) }
    ensures broken { IsErrOf result Halt.ReadFault → (files : Files) → S.files shelf.old ≡ Some files →
        IsSome (configs_say files devices.now) → Rose (S.breaks shelf.old) (S.breaks shelf.new) }
    ensures kept { KeepsShelf S.files S.cap S.faults S.breaks shelf.old shelf.new }
{
    let mut configs = Vec::new(alloc);
    for device in devices {
        let before = &devices[..configs.len()];
        let config = load_config(alloc, shelf, before, configs.as_slice(), device)?;
        configs.push(config)?;
    }
    Ok(configs)
}

/// Reads the network's file, and then the configuration of each device in the order of the devices.
/// A file that several devices name is read once, for the first of them.
///
/// Ends as `load_net` does, at the first file that is refused or can't be read.
pub fn load_inputs<S: Shelf>(alloc: Global, shelf: &mut S, file: &[u8]) -> Result<Inputs, Halt>
    ensures says { (files : Files) → S.files shelf.old ≡ Some files → LoadsAs inputs_in result (inputs_of files file.now) }

    ensures failed { IsErrOf result Halt.ReadFault → Rose (S.faults shelf.old) (S.faults shelf.new) }
    ensures broken { IsErrOf result Halt.ReadFault → (files : Files) → S.files shelf.old ≡ Some files →
        IsSome (inputs_of files file.now) → Rose (S.breaks shelf.old) (S.breaks shelf.new) }
    ensures kept { KeepsShelf S.files S.cap S.faults S.breaks shelf.old shelf.new }
{
    let net = load_net(alloc, shelf, file)?;
    let configs = load_configs(alloc, shelf, net.devices.as_slice())?;
    Ok(Inputs { net, configs })
}
