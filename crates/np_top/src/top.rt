//! A whole run, from its words to the bytes that it writes.

ghost use Rattle.std.specs.Prelude.{◌≡◌, ◌≢◌, ◌≤◌, ◌⊎◌, ℕ, List, Some, IsSome, IsNone};
ghost use Rattle.np_outside.specs.Counts.{Rose};
ghost use Rattle.np_outside.specs.Files.{Files};
ghost use Rattle.np_load.specs.Keeping.{KeepsShelf};
ghost use Rattle.np_region.specs.Keeping.{KeepsRegions};
ghost use Rattle.np_top.specs.Commands.{command_in, command_of};
ghost use Rattle.np_top.specs.Outcome.{texts_of, AcceptsFiles, AreAccepted, AreOfFiles, HasFiles, ReadsFiles, IsAnswerTo, IsMaximalOutcome, IsMaximalFor, IsSafeFor, IsSafeOutcome, IsCleanFor, IsCleanOutcome, IsTrajectoryFor, IsTrajectoryOutcome, IsOutcome, IsDefined};
ghost use Rattle.np_top.specs.Report.{usage_text};
ghost use Rattle.np_top.specs.Status.{IsReport, IsSettled, IsUnlessFault};
ghost use Rattle.np_top.specs.Written.{Took, TookPrefix};

use crate::answers::{Fault, respond};
use crate::commands::{Command, parse};
use crate::status::Status;
use np_atomizer::Atomizer;
use np_bdd::Diagrams;
use np_goals::{Gate, NoGate};
use np_outside::{Shelf, Sink, write_all};
use std::alloc::Global;
use std::thread::Threads;

/// Writes a text, and answers the status that goes with it.
fn write<K: Sink>(sink: &mut K, text: &[u8], status: Status) -> Status
    ensures written { (result ≡ status) × Took (K.taken sink.old) (K.taken sink.new) text.now ⊎
        (result ≡ Status.WriteFault) × TookPrefix (K.taken sink.old) (K.taken sink.new) text.now × Rose (K.faults sink.old) (K.faults sink.new) }
    ensures grows { K.faults sink.old ≤ K.faults sink.new }
    ensures cap { K.cap sink.new ≡ K.cap sink.old }
    ensures room { K.room sink.new ≡ K.room sink.old }
{
    match write_all(sink, text) {
        Ok(()) => status,
        Err(_) => Status::WriteFault,
    }
}

/// Runs a command over the files of the shelf, and writes its text to the sink.
fn run_command<R: Threads + Sync, G: Atomizer, S: Shelf, K: Sink, T: Gate + Sync>(
    rt: &R,
    alloc: Global,
    store: &mut G,
    command: Command,
    shelf: &mut S,
    sink: &mut K,
    gate: &T,
) -> Status
    ensures outcome { IsSettled result → (files : Files) → S.files shelf.old ≡ Some files →
        (text : List ℕ) × IsAnswerTo files (command_in command.entry) text result × Took (K.taken sink.old) (K.taken sink.new) text }
    ensures only { (files : Files) (text : List ℕ) (status : Status) → S.files shelf.old ≡ Some files →
        IsAnswerTo files (command_in command.entry) text status → IsUnlessFault status result }
    ensures usage { result ≢ Status.Usage }

    ensures read_fault { result ≡ Status.ReadFault → Rose (S.faults shelf.old) (S.faults shelf.new)
        × ReadsFiles (command_in command.entry) × (K.taken sink.new ≡ K.taken sink.old) }
    ensures read_break { result ≡ Status.ReadFault → (files : Files) → S.files shelf.old ≡ Some files →
        HasFiles files (command_in command.entry) → Rose (S.breaks shelf.old) (S.breaks shelf.new) }

    ensures write_fault { result ≡ Status.WriteFault → Rose (K.faults sink.old) (K.faults sink.new) }
    ensures write_prefix { result ≡ Status.WriteFault → (files : Files) → S.files shelf.old ≡ Some files →
        (text : List ℕ) × (status : Status) × IsAnswerTo files (command_in command.entry) text status × TookPrefix (K.taken sink.old) (K.taken sink.new) text }

    ensures memory { result ≡ Status.Memory → K.taken sink.new ≡ K.taken sink.old }
    ensures faultless { (Rose (S.faults shelf.old) (S.faults shelf.new) → ⊥) → (Rose (K.faults sink.old) (K.faults sink.new) → ⊥) →
        IsSettled result ⊎ (result ≡ Status.Memory) }
    ensures complete { (files : Files) → S.files shelf.old ≡ Some files → AcceptsFiles files (command_in command.entry) →
        (Rose (S.breaks shelf.old) (S.breaks shelf.new) → ⊥) → (Rose (K.faults sink.old) (K.faults sink.new) → ⊥) →
        IsReport result × ((text : List ℕ) × IsAnswerTo files (command_in command.entry) text result × Took (K.taken sink.old) (K.taken sink.new) text) ⊎ (result ≡ Status.Memory) }

    ensures maximal { result ≡ Status.Holds → (files : Files) → S.files shelf.old ≡ Some files →
        (text : List ℕ) × IsMaximalFor files (command_in command.entry) text × Took (K.taken sink.old) (K.taken sink.new) text }
    ensures trajectory { IsReport result → (files : Files) → S.files shelf.old ≡ Some files →
        (text : List ℕ) × IsTrajectoryFor files (command_in command.entry) text × Took (K.taken sink.old) (K.taken sink.new) text }
    ensures safe { IsReport result → (files : Files) → S.files shelf.old ≡ Some files →
        (text : List ℕ) × IsSafeFor files (command_in command.entry) text × Took (K.taken sink.old) (K.taken sink.new) text }
    ensures clean { result ≡ Status.Holds → (files : Files) → S.files shelf.old ≡ Some files → IsCleanFor files (command_in command.entry) }

    ensures shelf { KeepsShelf S.files S.cap S.faults S.breaks shelf.old shelf.new }
    ensures faults_cap { K.cap sink.new ≡ K.cap sink.old }
    ensures room { K.room sink.new ≡ K.room sink.old }
    ensures faults_grow { K.faults sink.old ≤ K.faults sink.new }
    ensures store { KeepsRegions G.fits G.has_header store.old store.new }
{
    match respond(rt, alloc, store, shelf, command, gate) {
        Ok(answer) => write(sink, answer.text.as_slice(), answer.status),
        Err(Fault::Read) => Status::ReadFault,
        Err(Fault::Memory) => Status::Memory,
    }
}

/// Runs the command that the words name, without the program's name, over the files of the shelf, with this store of
/// regions, and writes its text to the sink. The regions of the store stay as they are.
///
/// The commands are those of [`run`], which makes a store of its own and lets nobody watch. Where goals are judged, the
/// gate is told of each area at which goals begin, by the thread that judges these goals. No clause says this; a test
/// shows that two workers come to the gate at a time.
pub fn run_in<R: Threads + Sync, G: Atomizer, S: Shelf, K: Sink, T: Gate + Sync>(
    rt: &R,
    alloc: Global,
    store: &mut G,
    words: &[String],
    shelf: &mut S,
    sink: &mut K,
    gate: &T,
) -> Status
    // With status 0 to 3 the text written and the status are the outcome of the words and the files.
    ensures outcome { IsSettled result → (files : Files) → S.files shelf.old ≡ Some files →
        (text : List ℕ) × IsOutcome (texts_of words.now) files text result × Took (K.taken sink.old) (K.taken sink.new) text }
    // Where they have an outcome, no other status comes than its own, unless a device or memory fails.
    ensures only { (files : Files) (text : List ℕ) (status : Status) → S.files shelf.old ≡ Some files →
        IsOutcome (texts_of words.now) files text status → IsUnlessFault status result }

    // `Usage` comes exactly where the words fit no command, unless the write fails.
    ensures usage { result ≡ Status.Usage → IsNone (command_of (texts_of words.now)) × Took (K.taken sink.old) (K.taken sink.new) usage_text }
    ensures usage_only { IsNone (command_of (texts_of words.now)) →
        (result ≡ Status.Usage) ⊎ (result ≡ Status.WriteFault) × TookPrefix (K.taken sink.old) (K.taken sink.new) usage_text }

    // A fault of reading comes only where the shelf's faults rose, for a command that reads a file, and nothing was
    // written. Where the needed files are there, it comes only where the shelf's breaks rose too.
    ensures read_fault { result ≡ Status.ReadFault → Rose (S.faults shelf.old) (S.faults shelf.new)
        × AreOfFiles (texts_of words.now) × (K.taken sink.new ≡ K.taken sink.old) }
    ensures read_break { result ≡ Status.ReadFault → (files : Files) → S.files shelf.old ≡ Some files →
        IsDefined (texts_of words.now) files → Rose (S.breaks shelf.old) (S.breaks shelf.new) }

    // A fault of writing comes only where the sink's faults rose, and a proper prefix of the outcome's text was written.
    ensures write_fault { result ≡ Status.WriteFault → Rose (K.faults sink.old) (K.faults sink.new) }
    ensures write_prefix { result ≡ Status.WriteFault → (files : Files) → S.files shelf.old ≡ Some files →
        (text : List ℕ) × (status : Status) × IsOutcome (texts_of words.now) files text status × TookPrefix (K.taken sink.old) (K.taken sink.new) text }

    // Want of memory comes only for a command, and nothing was written.
    ensures memory { result ≡ Status.Memory → IsSome (command_of (texts_of words.now)) × (K.taken sink.new ≡ K.taken sink.old) }

    // Without a fault of a device the status is 0 to 3, or memory failed.
    ensures faultless { (Rose (S.faults shelf.old) (S.faults shelf.new) → ⊥) → (Rose (K.faults sink.old) (K.faults sink.new) → ⊥) →
        IsSettled result ⊎ (result ≡ Status.Memory) }

    // Completeness: where the words fit a command, all its files are there, within their limit and in their grammars, and
    // neither the shelf's breaks nor the sink's faults rose, the outcome's text is written, with its status, 0 or 1, or
    // memory failed.
    ensures complete { (files : Files) → S.files shelf.old ≡ Some files → AreAccepted (texts_of words.now) files →
        (Rose (S.breaks shelf.old) (S.breaks shelf.new) → ⊥) → (Rose (K.faults sink.old) (K.faults sink.new) → ⊥) →
        IsReport result × ((text : List ℕ) × IsOutcome (texts_of words.now) files text result × Took (K.taken sink.old) (K.taken sink.new) text) ⊎ (result ≡ Status.Memory) }

    // Where a synthesis ends with status 0, what was written is the text of a maximal posture: no valid header breaks a goal in
    // it, and letting one valid header cross a free slot that doesn't let it cross breaks one.
    ensures maximal { result ≡ Status.Holds → (files : Files) → S.files shelf.old ≡ Some files →
        (text : List ℕ) × IsMaximalOutcome (texts_of words.now) files text × Took (K.taken sink.old) (K.taken sink.new) text }
    // Where the report on a replay is written, its states are a trajectory of the network's depth and of every larger one, and
    // none of its breaches is of a goal whose local rules hold.
    ensures trajectory { IsReport result → (files : Files) → S.files shelf.old ≡ Some files →
        (text : List ℕ) × IsTrajectoryOutcome (texts_of words.now) files text × Took (K.taken sink.old) (K.taken sink.new) text }
    // Where the report on IPsec goals is written, no state of any trajectory of any depth breaks a goal whose answer is yes.
    ensures safe { IsReport result → (files : Files) → S.files shelf.old ≡ Some files →
        (text : List ℕ) × IsSafeOutcome (texts_of words.now) files text × Took (K.taken sink.old) (K.taken sink.new) text }
    // Where `notes` ends with status 0, in each configuration each line that looks like an entry, outside of lists of other
    // kinds, is an entry of a list; each line that applies a list stands in its interface's section; and each applied list is
    // there and has entries.
    ensures clean { result ≡ Status.Holds → (files : Files) → S.files shelf.old ≡ Some files → IsCleanOutcome (texts_of words.now) files }

    // What the shelf and the sink tell stays, and their counts do not fall.
    ensures files { S.files shelf.new ≡ S.files shelf.old }
    ensures breaks_cap { S.cap shelf.new ≡ S.cap shelf.old }
    ensures grows { S.faults shelf.old ≤ S.faults shelf.new }
    ensures breaks_grow { S.breaks shelf.old ≤ S.breaks shelf.new }
    ensures faults_cap { K.cap sink.new ≡ K.cap sink.old }
    ensures room { K.room sink.new ≡ K.room sink.old }
    ensures faults_grow { K.faults sink.old ≤ K.faults sink.new }

    ensures store { KeepsRegions G.fits G.has_header store.old store.new }
{
    let Some(command) = parse(words) else {
        return write(sink, b"usage\n", Status::Usage);
    };
    run_command(rt, alloc, store, command, shelf, sink, gate)
}

/// Runs the command that the words name, without the program's name, over the files of the shelf, and writes its text
/// to the sink.
///
/// `check NET` and `check NET WORKERS` read the file NET and then the configuration of each of its devices, and write a
/// verdict on each goal. WORKERS is a number from 1 to 64, and 1 where it is left out: the goals are judged by so many
/// threads at most, and what is written is the same for each number.
/// `atoms NET` reads the same files, and writes the atoms of the network's filter cuts, with what each cut says of each.
/// `synth NET` reads the same files, and writes a maximal posture that meets the goals, with what its free slots drop and
/// why; or the first goal that is broken even with all free slots shut.
/// `ipsec NET` reads the file NET, and writes for each IPsec goal whether its local rules hold, or the first that doesn't.
/// `trace NET SCRIPT` reads the file NET and then the file SCRIPT, and writes what becomes of the script's packet: its states as
/// far as its moves are legal, why one isn't, and which IPsec goals are broken.
/// `show NET` reads the file NET, and writes the canonical text of the network that it declares.
/// `notes NET` reads the files that `check NET` reads, and writes what the reading of each configuration passed over and may
/// matter, a line for each; its last line is `clean` where there is nothing.
/// `gen NUMBER` and `gen NUMBER WORKERS` read no file, and write the summary of the report on the network of the seed
/// NUMBER, from 0 to 4,294,967,295: its sizes, how many atoms its filter cuts have, how many goals are violated, and how
/// many hops the report has. WORKERS is as for `check`.
pub fn run<R: Threads + Sync, S: Shelf, K: Sink>(
    rt: &R,
    alloc: Global,
    words: &[String],
    shelf: &mut S,
    sink: &mut K,
) -> Status
    // With status 0 to 3 the text written and the status are the outcome of the words and the files.
    ensures outcome { IsSettled result → (files : Files) → S.files shelf.old ≡ Some files →
        (text : List ℕ) × IsOutcome (texts_of words.now) files text result × Took (K.taken sink.old) (K.taken sink.new) text }
    // Where they have an outcome, no other status comes than its own, unless a device or memory fails.
    ensures only { (files : Files) (text : List ℕ) (status : Status) → S.files shelf.old ≡ Some files →
        IsOutcome (texts_of words.now) files text status → IsUnlessFault status result }

    // `Usage` comes exactly where the words fit no command, unless the write fails.
    ensures usage { result ≡ Status.Usage → IsNone (command_of (texts_of words.now)) × Took (K.taken sink.old) (K.taken sink.new) usage_text }
    ensures usage_only { IsNone (command_of (texts_of words.now)) →
        (result ≡ Status.Usage) ⊎ (result ≡ Status.WriteFault) × TookPrefix (K.taken sink.old) (K.taken sink.new) usage_text }

    // A fault of reading comes only where the shelf's faults rose, for a command that reads a file, and nothing was
    // written. Where the needed files are there, it comes only where the shelf's breaks rose too.
    ensures read_fault { result ≡ Status.ReadFault → Rose (S.faults shelf.old) (S.faults shelf.new)
        × AreOfFiles (texts_of words.now) × (K.taken sink.new ≡ K.taken sink.old) }
    ensures read_break { result ≡ Status.ReadFault → (files : Files) → S.files shelf.old ≡ Some files →
        IsDefined (texts_of words.now) files → Rose (S.breaks shelf.old) (S.breaks shelf.new) }

    // A fault of writing comes only where the sink's faults rose, and a proper prefix of the outcome's text was written.
    ensures write_fault { result ≡ Status.WriteFault → Rose (K.faults sink.old) (K.faults sink.new) }
    ensures write_prefix { result ≡ Status.WriteFault → (files : Files) → S.files shelf.old ≡ Some files →
        (text : List ℕ) × (status : Status) × IsOutcome (texts_of words.now) files text status × TookPrefix (K.taken sink.old) (K.taken sink.new) text }

    // Want of memory comes only for a command, and nothing was written.
    ensures memory { result ≡ Status.Memory → IsSome (command_of (texts_of words.now)) × (K.taken sink.new ≡ K.taken sink.old) }

    // Without a fault of a device the status is 0 to 3, or memory failed.
    ensures faultless { (Rose (S.faults shelf.old) (S.faults shelf.new) → ⊥) → (Rose (K.faults sink.old) (K.faults sink.new) → ⊥) →
        IsSettled result ⊎ (result ≡ Status.Memory) }

    // Completeness: where the words fit a command, all its files are there, within their limit and in their grammars, and
    // neither the shelf's breaks nor the sink's faults rose, the outcome's text is written, with its status, 0 or 1, or
    // memory failed.
    ensures complete { (files : Files) → S.files shelf.old ≡ Some files → AreAccepted (texts_of words.now) files →
        (Rose (S.breaks shelf.old) (S.breaks shelf.new) → ⊥) → (Rose (K.faults sink.old) (K.faults sink.new) → ⊥) →
        IsReport result × ((text : List ℕ) × IsOutcome (texts_of words.now) files text result × Took (K.taken sink.old) (K.taken sink.new) text) ⊎ (result ≡ Status.Memory) }

    // Where a synthesis ends with status 0, what was written is the text of a maximal posture: no valid header breaks a goal in
    // it, and letting one valid header cross a free slot that doesn't let it cross breaks one.
    ensures maximal { result ≡ Status.Holds → (files : Files) → S.files shelf.old ≡ Some files →
        (text : List ℕ) × IsMaximalOutcome (texts_of words.now) files text × Took (K.taken sink.old) (K.taken sink.new) text }
    // Where the report on a replay is written, its states are a trajectory of the network's depth and of every larger one, and
    // none of its breaches is of a goal whose local rules hold.
    ensures trajectory { IsReport result → (files : Files) → S.files shelf.old ≡ Some files →
        (text : List ℕ) × IsTrajectoryOutcome (texts_of words.now) files text × Took (K.taken sink.old) (K.taken sink.new) text }
    // Where the report on IPsec goals is written, no state of any trajectory of any depth breaks a goal whose answer is yes.
    ensures safe { IsReport result → (files : Files) → S.files shelf.old ≡ Some files →
        (text : List ℕ) × IsSafeOutcome (texts_of words.now) files text × Took (K.taken sink.old) (K.taken sink.new) text }
    // Where `notes` ends with status 0, in each configuration each line that looks like an entry, outside of lists of other
    // kinds, is an entry of a list; each line that applies a list stands in its interface's section; and each applied list is
    // there and has entries.
    ensures clean { result ≡ Status.Holds → (files : Files) → S.files shelf.old ≡ Some files → IsCleanOutcome (texts_of words.now) files }

    // What the shelf and the sink tell stays, and their counts do not fall.
    ensures files { S.files shelf.new ≡ S.files shelf.old }
    ensures breaks_cap { S.cap shelf.new ≡ S.cap shelf.old }
    ensures grows { S.faults shelf.old ≤ S.faults shelf.new }
    ensures breaks_grow { S.breaks shelf.old ≤ S.breaks shelf.new }
    ensures faults_cap { K.cap sink.new ≡ K.cap sink.old }
    ensures room { K.room sink.new ≡ K.room sink.old }
    ensures faults_grow { K.faults sink.old ≤ K.faults sink.new }
{
    let Some(command) = parse(words) else {
        return write(sink, b"usage\n", Status::Usage);
    };
    match Diagrams::new(alloc) {
        Ok(mut store) => run_command(rt, alloc, &mut store, command, shelf, sink, &NoGate),
        Err(_) => Status::Memory,
    }
}
