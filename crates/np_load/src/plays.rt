//! Reading the files of a replay: a network's, and then a script for it.

ghost use Rattle.std.specs.Prelude.{◌≡◌, ℕ, Some, IfOk, IsErrOf, IsSome};
ghost use Rattle.np_outside.specs.Counts.{Rose};
ghost use Rattle.np_outside.specs.Files.{Files};
ghost use Rattle.np_script.specs.Fitting.{Fits};
ghost use Rattle.np_load.specs.declared.halt.Halt.TheVariants as halts;
ghost use Rattle.np_load.specs.Inputs.{play_of};
ghost use Rattle.np_load.specs.Keeping.{KeepsShelf};
ghost use Rattle.np_load.specs.Loading.{Loads, LoadsAs, HaltsBy, play_in};
ghost use Rattle.np_load.specs.Saying.{script_says};

use crate::files::{load_net, load_script};
use crate::halt::Halt;
use np_net::Network;
use np_outside::Shelf;
use np_script::Script;
use std::alloc::Global;

/// A network, and a script for it.
#[derive(Drop)]
pub struct Play {
    pub net: Network,
    pub script: Script,
}

/// Reads the network's file, and then the script's.
///
/// Ends as `load_net` does, at the first file that is refused or can't be read.
pub fn load_play<S: Shelf>(
    alloc: Global,
    shelf: &mut S,
    file: &[u8],
    script: &[u8],
) -> Result<Play, Halt>
    ensures says { (files : Files) → S.files shelf.old ≡ Some files → LoadsAs play_in result (play_of files file.now script.now) }
    ensures fits { IfOk result (λ play. Fits play.net play.script) }

    ensures failed { IsErrOf result halts.ReadFault → Rose (S.faults shelf.old) (S.faults shelf.new) }
    ensures broken { IsErrOf result halts.ReadFault → (files : Files) → S.files shelf.old ≡ Some files →
        IsSome (play_of files file.now script.now) → Rose (S.breaks shelf.old) (S.breaks shelf.new) }
    ensures kept { KeepsShelf S.files S.cap S.faults S.breaks shelf.old shelf.new }
{
    let net = load_net(alloc, shelf, file)?;
    let script = load_script(alloc, shelf, &net, script)?;
    Ok(Play { net, script })
}
