//! Reading one file: a network's, a device's configuration, or a script.

ghost use Rattle.std.specs.Prelude.{◌≡◌, ◌≤◌, ◌<◌, ℕ, Some, IfOk, IsErrOf, IsSome, IsSomeAnd, List, length, vec_len};
ghost use Rattle.std.specs.FinMap.{get};
ghost use Rattle.np_outside.specs.Counts.{Rose};
ghost use Rattle.np_outside.specs.Files.{Files};
ghost use Rattle.np_script.specs.Fitting.{Fits};
ghost use Rattle.np_report.specs.declared.refusals.Refusal.TheVariants as refusals;
ghost use Rattle.np_report.specs.Refusals.{refusal_text};
ghost use Rattle.np_load.specs.declared.halt.Halt.TheVariants as halts;
ghost use Rattle.np_load.specs.Keeping.{KeepsShelf};
ghost use Rattle.np_load.specs.Limits.{file_limit};
ghost use Rattle.np_load.specs.Loading.{Loads, HaltsBy};
ghost use Rattle.np_load.specs.Saying.{net_says, config_says, script_says};

use crate::halt::Halt;
use np_acl_read::{ConfigError, SharedConfig, read_config};
use np_net::Network;
use np_net_read::{NetError, read_net};
use np_outside::{ReadError, Shelf, read_file};
use np_report::{Refusal, put_refusal};
use np_script::{Script, ScriptError, read_script};
use sqlite_items::Items;
use std::alloc::{AllocError, Global};

/// The bytes that a file may have.
const FILE_LIMIT: usize = 16_777_216;

/// The halt for a file that is refused.
fn refused(alloc: Global, file: &[u8], why: &Refusal) -> Result<Halt, AllocError>
    ensures { IfOk result (λ halt. halt ≡ halts.Refused (refusal_text file.now why.now)) }
{
    let mut text = Vec::new(alloc);
    put_refusal(alloc, &mut text, file, why)?;
    Ok(Halt::Refused(Items::from_vec(text)))
}

/// The bytes of a file that isn't too long.
pub(crate) fn load_bytes<S: Shelf>(
    alloc: Global,
    shelf: &mut S,
    file: &[u8],
) -> Result<Vec<u8>, Halt>
    ensures ok { IfOk result (λ bytes. (files : Files) → S.files shelf.old ≡ Some files → get files file.now ≡ Some bytes.items) }
    ensures within { IfOk result (λ bytes. vec_len bytes ≤ file_limit) }
    ensures refused { (text : List ℕ) → IsErrOf result (Halt.Refused text) → (files : Files) → S.files shelf.old ≡ Some files →
        (text ≡ refusal_text file.now refusals.TooLong) × IsSomeAnd (get files file.now) (λ bytes. file_limit < length bytes) }

    ensures failed { IsErrOf result Halt.ReadFault → Rose (S.faults shelf.old) (S.faults shelf.new) }
    ensures broken { IsErrOf result Halt.ReadFault → (files : Files) → S.files shelf.old ≡ Some files →
        IsSome (get files file.now) → Rose (S.breaks shelf.old) (S.breaks shelf.new) }
    ensures kept { KeepsShelf S.files S.cap S.faults S.breaks shelf.old shelf.new }
{
    match read_file(alloc, shelf, file, FILE_LIMIT) {
        Ok(bytes) => Ok(bytes),
        Err(ReadError::TooLong) => Err(refused(alloc, file, &Refusal::TooLong)?),
        Err(ReadError::Failed) => Err(Halt::ReadFault),
        Err(ReadError::Memory(_)) => Err(Halt::Memory),
    }
}

/// Why a text is no network's: its fault as the line that is written.
fn net_halt(alloc: Global, file: &[u8], error: NetError) -> Result<Halt, AllocError>
    ensures { IfOk result (λ halt. HaltsBy refusals.Net file.now error halt) }
{
    match error {
        NetError::Fault(fault) => refused(alloc, file, &Refusal::Net(fault)),
        NetError::Memory(_) => Ok(Halt::Memory),
    }
}

/// Why a text is no configuration: its fault as the line that is written.
pub(crate) fn config_halt(
    alloc: Global,
    file: &[u8],
    error: ConfigError,
) -> Result<Halt, AllocError>
    ensures { IfOk result (λ halt. HaltsBy refusals.Config file.now error halt) }
{
    match error {
        ConfigError::Fault(fault) => refused(alloc, file, &Refusal::Config(fault)),
        ConfigError::Memory(_) => Ok(Halt::Memory),
    }
}

/// Why a text is no script: its fault as the line that is written.
fn script_halt(alloc: Global, file: &[u8], error: ScriptError) -> Result<Halt, AllocError>
    ensures { IfOk result (λ halt. HaltsBy refusals.Script file.now error halt) }
{
    match error {
        ScriptError::Fault(fault) => refused(alloc, file, &Refusal::Script(fault)),
        ScriptError::Memory(_) => Ok(Halt::Memory),
    }
}

/// The network that a file declares.
///
/// Ends with `Refused` where the file has more than 16,777,216 bytes or a line that is refused, with `ReadFault` where a
/// call of the shelf fails, and with `Memory` where memory does.
pub fn load_net<S: Shelf>(alloc: Global, shelf: &mut S, file: &[u8]) -> Result<Network, Halt>
    ensures says { (files : Files) → S.files shelf.old ≡ Some files → Loads result (net_says files file.now) }

    ensures failed { IsErrOf result Halt.ReadFault → Rose (S.faults shelf.old) (S.faults shelf.new) }
    ensures broken { IsErrOf result Halt.ReadFault → (files : Files) → S.files shelf.old ≡ Some files →
        IsSome (net_says files file.now) → Rose (S.breaks shelf.old) (S.breaks shelf.new) }
    ensures kept { KeepsShelf S.files S.cap S.faults S.breaks shelf.old shelf.new }
{
    let bytes = load_bytes(alloc, shelf, file)?;
    match read_net(alloc, bytes.as_slice()) {
        Ok(net) => Ok(net),
        Err(error) => Err(net_halt(alloc, file, error)?),
    }
}

/// The configuration that a file declares.
pub(crate) fn load_config_file<S: Shelf>(
    alloc: Global,
    shelf: &mut S,
    file: &[u8],
) -> Result<SharedConfig, Halt>
    ensures says { (files : Files) → S.files shelf.old ≡ Some files → Loads result (config_says files file.now) }

    ensures failed { IsErrOf result Halt.ReadFault → Rose (S.faults shelf.old) (S.faults shelf.new) }
    ensures broken { IsErrOf result Halt.ReadFault → (files : Files) → S.files shelf.old ≡ Some files →
        IsSome (config_says files file.now) → Rose (S.breaks shelf.old) (S.breaks shelf.new) }
    ensures kept { KeepsShelf S.files S.cap S.faults S.breaks shelf.old shelf.new }
{
    let bytes = load_bytes(alloc, shelf, file)?;
    match read_config(alloc, bytes.as_slice()) {
        Ok(config) => Ok(SharedConfig::of(alloc, config)?),
        Err(error) => Err(config_halt(alloc, file, error)?),
    }
}

/// The script that a file has for a network.
pub(crate) fn load_script<S: Shelf>(
    alloc: Global,
    shelf: &mut S,
    net: &Network,
    file: &[u8],
) -> Result<Script, Halt>
    ensures says { (files : Files) → S.files shelf.old ≡ Some files → Loads result (script_says files net.now file.now) }
    ensures fits { IfOk result (λ script. Fits net.now script) }

    ensures failed { IsErrOf result Halt.ReadFault → Rose (S.faults shelf.old) (S.faults shelf.new) }
    ensures broken { IsErrOf result Halt.ReadFault → (files : Files) → S.files shelf.old ≡ Some files →
        IsSome (script_says files net.now file.now) → Rose (S.breaks shelf.old) (S.breaks shelf.new) }
    ensures kept { KeepsShelf S.files S.cap S.faults S.breaks shelf.old shelf.new }
{
    let bytes = load_bytes(alloc, shelf, file)?;
    match read_script(alloc, net, bytes.as_slice()) {
        Ok(script) => Ok(script),
        Err(error) => Err(script_halt(alloc, file, error)?),
    }
}
