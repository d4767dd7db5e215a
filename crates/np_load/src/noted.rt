//! Reading a run's files, for what the readings of its configurations passed over.

ghost use Rattle.std.specs.Prelude.{◌≡◌, ◌≤◌, ℕ, List, Some, Ok, IfErr, IfOk, IfSome, IsErrOf, IsSome, OnOk, length};
ghost use Rattle.std.specs.List.{All};
ghost use Rattle.np_outside.specs.Counts.{Rose};
ghost use Rattle.np_outside.specs.Files.{Files};
ghost use Rattle.np_net.specs.Limits.{declaration_limit};
ghost use Rattle.np_notes.specs.NameNotes.{interfaces_of};
ghost use Rattle.np_notes.specs.Notes.{notes_of};
ghost use Rattle.np_notes.specs.ReadLines.{read_lines};
ghost use Rattle.np_notes.specs.Walked.{HasPassed};
ghost use Rattle.np_load.specs.declared.halt.Halt.TheVariants as halts;
ghost use Rattle.np_load.specs.Keeping.{KeepsShelf};
ghost use Rattle.np_load.specs.Loading.{AreReadOf, Halts, IsReadOf, LoadsAs, device_notes_say, noted_in, notes_say};
ghost use Rattle.np_load.specs.Noting.{file_noted, is_clean, noted_in_file, noted_of, nothing};
ghost use Rattle.np_load.specs.Noting as noting;
ghost use Rattle.np_load.specs.Saying.{and_then, config_says};

use crate::files::{config_halt, load_bytes, load_net};
use crate::halt::Halt;
use np_net::{DevId, Device, Network};
use np_notes::{Note, Passed, read_passed};
use np_outside::Shelf;
use np_report::put_notes;
use np_text::Name;
use std::alloc::{AllocError, Global};

/// What the readings of configurations passed over and may matter.
#[derive(Drop)]
pub struct Noted {
    /// A line for each note.
    pub text: Vec<u8>,
    /// Whether there is none.
    pub clean: bool,
}

/// No notes.
fn nothing(alloc: Global) -> Noted
    ensures { noted_in result ≡ nothing }
{
    Noted {
        text: Vec::new(alloc),
        clean: true,
    }
}

/// Whether there is no note.
fn is_clean(notes: &[Note]) -> bool
    ensures { result ≡ is_clean notes.now }
{
    notes.is_empty()
}

/// The notes on the configuration in this file, as they are written.
fn written(alloc: Global, file: &[u8], notes: &[Note]) -> Result<Noted, AllocError>
    ensures { IfOk result (λ noted. noted_in noted ≡ noted_in_file file.now notes.now) }
{
    let mut text = Vec::new(alloc);
    put_notes(alloc, &mut text, file, notes)?;
    Ok(Noted {
        text,
        clean: is_clean(notes),
    })
}

impl Noted {
    /// Adds other notes after these.
    fn add(&mut self, more: Noted) -> Result<(), AllocError>
        ensures { OnOk result (noted_in self.new ≡ noting.noted_after (noted_in self.old) (noted_in more)) }
    {
        self.text.extend_from_slice(more.text.as_slice())?;
        self.clean = self.clean && more.clean;
        Ok(())
    }
}

/// The notes on a configuration as that of a device, by what its reading passed over.
#[tactic(auto, using(crate::proofs::NotedLaws::both_noted))]
fn notes_on(
    alloc: Global,
    net: &Network,
    device: DevId,
    file: &[u8],
    passed: &Passed,
) -> Result<Noted, AllocError>
    ensures { IfOk result (λ noted. (bytes : List ℕ) → HasPassed passed.now (read_lines bytes) → noted_in noted ≡ noted_in_file file.now (notes_of (interfaces_of net.now device) bytes)) }
{
    let names = passed.name_notes(alloc, net, device)?;
    let mut noted = written(alloc, file, passed.line_notes())?;
    noted.add(written(alloc, file, names.as_slice())?)?;
    Ok(noted)
}

/// A configuration's file that was read: its name, and what its reading passed over.
#[derive(Drop)]
pub(crate) struct ReadFile {
    file: Name,
    passed: Passed,
}

/// Reads the configuration in a file.
fn load_read<S: Shelf>(alloc: Global, shelf: &mut S, file: &[u8]) -> Result<ReadFile, Halt>
    ensures read { IfOk result (λ read. read.file ≡ file.now × ((files : Files) → S.files shelf.old ≡ Some files → IsReadOf files read)) }
    ensures halts { IfErr result (λ halt. (files : Files) → S.files shelf.old ≡ Some files → Halts halt (config_says files file.now)) }

    ensures failed { IsErrOf result halts.ReadFault → Rose (S.faults shelf.old) (S.faults shelf.new) }
    ensures broken { IsErrOf result halts.ReadFault → (files : Files) → S.files shelf.old ≡ Some files →
        IsSome (config_says files file.now) → Rose (S.breaks shelf.old) (S.breaks shelf.new) }
    ensures kept { KeepsShelf S.files S.cap S.faults S.breaks shelf.old shelf.new }
{
    let bytes = load_bytes(alloc, shelf, file)?;
    match read_passed(alloc, bytes.as_slice()) {
        Ok(passed) => Ok(ReadFile {
            file: Name::of(alloc, file)?,
            passed,
        }),
        Err(error) => Err(config_halt(alloc, file, error)?),
    }
}

/// The file of this name, where it is among those that were read.
fn read_before<'a>(read: &'a [ReadFile], file: &[u8]) -> Option<&'a ReadFile>
    ensures file { IfSome result (λ one. one.now.file ≡ file.now) }
    ensures read { IfSome result (λ one. (files : Files) → All (IsReadOf files) read.now → IsReadOf files one.now) }
{
    for one in read {
        if one.file.bytes() == file {
            return Some(one);
        }
    }
    None
}

/// The notes on the configuration that a file declares for a device, where the file wasn't read before.
/// It is kept with those that were read.
fn load_new_notes<S: Shelf>(
    alloc: Global,
    shelf: &mut S,
    net: &Network,
    device: DevId,
    file: &[u8],
    read: &mut Vec<ReadFile>,
) -> Result<Noted, Halt>
    ensures says { (files : Files) → S.files shelf.old ≡ Some files →
        LoadsAs noted_in result (and_then (config_says files file.now) (λ config. Some (Ok (file_noted files net.now device file.now)))) }
    ensures read { OnOk result ((files : Files) → S.files shelf.old ≡ Some files → AreReadOf files read.old.items → AreReadOf files read.new.items) }

    ensures failed { IsErrOf result halts.ReadFault → Rose (S.faults shelf.old) (S.faults shelf.new) }
    ensures broken { IsErrOf result halts.ReadFault → (files : Files) → S.files shelf.old ≡ Some files →
        IsSome (config_says files file.now) → Rose (S.breaks shelf.old) (S.breaks shelf.new) }
    ensures kept { KeepsShelf S.files S.cap S.faults S.breaks shelf.old shelf.new }
{
    let one = load_read(alloc, shelf, file)?;
    let noted = notes_on(alloc, net, device, file, &one.passed)?;
    read.push(one)?;
    Ok(noted)
}

/// The notes on the configuration that a file declares for a device. A file that was read before isn't read again.
fn load_file_notes<S: Shelf>(
    alloc: Global,
    shelf: &mut S,
    net: &Network,
    device: DevId,
    file: &[u8],
    read: &mut Vec<ReadFile>,
) -> Result<Noted, Halt>
    ensures says { (files : Files) → S.files shelf.old ≡ Some files → AreReadOf files read.old.items →
        LoadsAs noted_in result (and_then (config_says files file.now) (λ config. Some (Ok (file_noted files net.now device file.now)))) }
    ensures read { OnOk result ((files : Files) → S.files shelf.old ≡ Some files → AreReadOf files read.old.items → AreReadOf files read.new.items) }

    ensures failed { IsErrOf result halts.ReadFault → Rose (S.faults shelf.old) (S.faults shelf.new) }
    ensures broken { IsErrOf result halts.ReadFault → (files : Files) → S.files shelf.old ≡ Some files →
        IsSome (config_says files file.now) → Rose (S.breaks shelf.old) (S.breaks shelf.new) }
    ensures kept { KeepsShelf S.files S.cap S.faults S.breaks shelf.old shelf.new }
{
    match read_before(read.as_slice(), file) {
        Some(one) => Ok(notes_on(alloc, net, device, file, &one.passed)?),
        None => load_new_notes(alloc, shelf, net, device, file, read),
    }
}

/// The notes on a device's configuration; none without a file.
fn load_device_notes<S: Shelf>(
    alloc: Global,
    shelf: &mut S,
    net: &Network,
    n: DevId,
    device: &Device,
    read: &mut Vec<ReadFile>,
) -> Result<Noted, Halt>
    ensures says { (files : Files) → S.files shelf.old ≡ Some files → AreReadOf files read.old.items → LoadsAs noted_in result (device_notes_say files net.now n device.now) }
    ensures read { OnOk result ((files : Files) → S.files shelf.old ≡ Some files → AreReadOf files read.old.items → AreReadOf files read.new.items) }

    ensures failed { IsErrOf result halts.ReadFault → Rose (S.faults shelf.old) (S.faults shelf.new) }
    ensures broken { IsErrOf result halts.ReadFault → (files : Files) → S.files shelf.old ≡ Some files →
        IsSome (device_notes_say files net.now n device.now) → Rose (S.breaks shelf.old) (S.breaks shelf.new) }
    ensures kept { KeepsShelf S.files S.cap S.faults S.breaks shelf.old shelf.new }
{
    match &device.config {
        Some(file) => load_file_notes(alloc, shelf, net, n, file.bytes(), read),
        None => Ok(nothing(alloc)),
    }
}

/// The notes on the configurations of the devices, in their order.
fn load_each_notes<S: Shelf>(
    alloc: Global,
    shelf: &mut S,
    net: &Network,
    devices: &[Device],
    read: &mut Vec<ReadFile>,
) -> Result<Noted, Halt>
    requires { length devices.now ≤ declaration_limit }
    ensures says { (files : Files) → S.files shelf.old ≡ Some files → AreReadOf files read.old.items → LoadsAs noted_in result (notes_say files net.now 0 devices.now) }

    ensures failed { IsErrOf result halts.ReadFault → Rose (S.faults shelf.old) (S.faults shelf.new) }
    ensures broken { IsErrOf result halts.ReadFault → (files : Files) → S.files shelf.old ≡ Some files → AreReadOf files read.old.items →
        IsSome (notes_say files net.now 0 devices.now) → Rose (S.breaks shelf.old) (S.breaks shelf.new) }
    ensures kept { KeepsShelf S.files S.cap S.faults S.breaks shelf.old shelf.new }
{
    let mut noted = nothing(alloc);
    for n in 0..devices.len() {
        let more = load_device_notes(alloc, shelf, net, n as DevId, &devices[n], read)?;
        noted.add(more)?;
    }
    Ok(noted)
}

/// The notes on the configurations of a network's devices.
#[tactic(auto, using(crate::proofs::NotedLaws::none_read))]
fn load_all_notes<S: Shelf>(alloc: Global, shelf: &mut S, net: &Network) -> Result<Noted, Halt>
    ensures says { (files : Files) → S.files shelf.old ≡ Some files → LoadsAs noted_in result (notes_say files net.now 0 net.now.devices) }

    ensures failed { IsErrOf result halts.ReadFault → Rose (S.faults shelf.old) (S.faults shelf.new) }
    ensures broken { IsErrOf result halts.ReadFault → (files : Files) → S.files shelf.old ≡ Some files →
        IsSome (notes_say files net.now 0 net.now.devices) → Rose (S.breaks shelf.old) (S.breaks shelf.new) }
    ensures kept { KeepsShelf S.files S.cap S.faults S.breaks shelf.old shelf.new }
{
    let mut read = Vec::new(alloc);
    load_each_notes(alloc, shelf, net, net.devices.as_slice(), &mut read)
}

/// Reads the network's file, and then the configuration of each device in the order of the devices,
/// for what the readings of the configurations passed over and may matter.
///
/// It ends as `load_inputs` does, at the first file that is refused or can't be read. A file that
/// several devices name is read once, for the first of them.
pub fn load_notes<S: Shelf>(alloc: Global, shelf: &mut S, file: &[u8]) -> Result<Noted, Halt>
    ensures says { (files : Files) → S.files shelf.old ≡ Some files → LoadsAs noted_in result (noted_of files file.now) }

    ensures failed { IsErrOf result halts.ReadFault → Rose (S.faults shelf.old) (S.faults shelf.new) }
    ensures broken { IsErrOf result halts.ReadFault → (files : Files) → S.files shelf.old ≡ Some files →
        IsSome (noted_of files file.now) → Rose (S.breaks shelf.old) (S.breaks shelf.new) }
    ensures kept { KeepsShelf S.files S.cap S.faults S.breaks shelf.old shelf.new }
{
    let net = load_net(alloc, shelf, file)?;
    load_all_notes(alloc, shelf, &net)
}
