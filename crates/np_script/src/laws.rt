//! Laws of the definitions that the contracts of this crate cite. A function here does nothing:
//! its contract is the law.

ghost use Rattle.std.specs.Prelude.{◌≡◌, ℕ, List, Ok};
ghost use Rattle.np_net.specs.Network.{IsNetwork};
ghost use Rattle.np_net.specs.Plan.{Plan};
ghost use Rattle.np_script.specs.declared.script.Script.{Script};
ghost use Rattle.np_script.specs.Fitting.{Fits};
ghost use Rattle.np_script.specs.Reading.{script_of};
ghost use Rattle.np_script.specs.Written.{IsStartAndMoves, WordsReadBack};

/// The words of each start and of each move, with names of the network and numbers in decimal, are
/// read as this start and this move.
#[tactic(auto, using(crate::proofs::WordsBack::words_back))]
pub fn script_words_read_back()
    ensures { (net : Plan) → IsNetwork net → WordsReadBack net }
{}

/// A text that is a script says a start on its first line that isn't skipped, and one of the moves
/// on each later one, in their order. They all name what the network has.
#[tactic(auto, using(crate::proofs::ShapeLaws::says_in_order))]
pub fn script_is_a_start_and_moves()
    ensures order { (net : Plan) (text : List ℕ) (script : Script) → script_of net text ≡ Ok script → IsStartAndMoves net text script }
    ensures fits { (net : Plan) (text : List ℕ) (script : Script) → script_of net text ≡ Ok script → Fits net script }
{}
