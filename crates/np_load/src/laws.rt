//! Laws of the definitions that the contracts of this crate cite. A function here does nothing: its
//! contract is the law.

ghost use Rattle.std.specs.Prelude.{◌≡◌, ℕ, List, true, Some, Ok};
ghost use Rattle.np_outside.specs.Files.{Files};
ghost use Rattle.np_load.specs.CleanRun.{IsCleanRun};
ghost use Rattle.np_load.specs.Noting.{Noted, noted_of};

/// What it means that there is no note on what all files of a run say. The files declare a network
/// and the configurations of its devices. And in each configuration that stands in a file, each line
/// that looks like an entry and stands in no list of another kind is an entry of a list, also after
/// the line that opens the list's section; each line that applies a list stands in its interface's
/// section; each interface of the device is one whose section is opened; and each last line that
/// applies a list at an interface in a way names an interface of the device, and a list that is there
/// and has entries.
#[tactic(auto, using(crate::proofs::CleanLaws::clean_run))]
pub fn clean_means()
    ensures { (files : Files) (file : List ℕ) (noted : Noted) → noted_of files file ≡ Some (Ok noted) → noted.clean ≡ true → IsCleanRun files file }
{}
