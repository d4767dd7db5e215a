//! Laws of the definitions that the contracts of this crate cite. A function here does nothing: its
//! contract is the law.

ghost use Rattle.std.specs.Prelude.{◌≡◌, ℕ, List, [], Ok};
ghost use Rattle.np_acl_read.specs.declared.config.Config.{Config};
ghost use Rattle.np_acl_read.specs.Reading.{config_of};
ghost use Rattle.np_net.specs.Plan.{Plan};
ghost use Rattle.np_notes.specs.Clean.{AreItsLines, IsClean, IsNamed};
ghost use Rattle.np_notes.specs.LineNotes.{line_notes};
ghost use Rattle.np_notes.specs.NameNotes.{interfaces_of};
ghost use Rattle.np_notes.specs.Notes.{name_notes};
ghost use Rattle.np_notes.specs.ReadLines.{read_lines};

/// The lines of a configuration that is accepted are all lines of its text, and each says what it
/// says after the lines before it, in the section that they leave open.
#[tactic(auto, using(crate::proofs::ReadLaws::lines_are_its))]
pub fn lines_are_all_lines()
    ensures { (text : List ℕ) (config : Config) → config_of text ≡ Ok config → AreItsLines text (read_lines text) }
{}

/// What it means that a configuration that is accepted has no note of lines. Each line that looks
/// like an entry and stands in no list of another kind is an entry of a list of the configuration.
/// After the line that opens the section of a list, with only comments, lines of the list and
/// indented lines that declare nothing between the two, an indented line that looks like an entry is
/// an entry of that list. Each line that applies a list stands in its interface's section, and
/// between the line that opened the section and it stand only comments, lines that apply lists, and
/// indented lines that declare nothing.
#[tactic(auto, using(crate::proofs::CleanLaws::clean_is))]
pub fn clean_means()
    ensures { (text : List ℕ) (config : Config) → config_of text ≡ Ok config → line_notes (read_lines text) ≡ [] → IsClean config (read_lines text) }
{}

/// What it means that a configuration that is accepted, as that of a device of a network, has no note
/// of names. Its lines open the section of each of the device's interfaces. And each line that applies
/// a list, where no later one applies one at the same interface in the same way, names an interface of
/// the device, and a list of the configuration that has an entry.
#[tactic(auto, using(crate::proofs::NamedLaws::named_is))]
pub fn no_note_of_names_means()
    ensures { (text : List ℕ) (config : Config) (net : Plan) (device : ℕ) → config_of text ≡ Ok config → name_notes (interfaces_of net device) (read_lines text) ≡ [] → IsNamed net device config (read_lines text) }
{}
