//! Laws of the definitions that the contracts of this crate cite. A function here does nothing:
//! its contract is the law.

ghost use Rattle.std.specs.Prelude.{◌≡◌, Ok, map};
ghost use Rattle.np_text.specs.Lines.{lines_of};
ghost use Rattle.np_text.specs.Words.{words_of};
ghost use Rattle.np_net.specs.Network.{IsNetwork};
ghost use Rattle.np_net.specs.Plan.{Plan};
ghost use Rattle.np_net_text.specs.Canonical.{net_lines, net_text};
ghost use Rattle.np_net_read.specs.Reading.{net_of};

/// The canonical text of a network is read as this network.
#[tactic(auto, using(crate::proofs::TextBackLaws::net_of_text))]
pub fn canonical_text_reads_back()
    ensures { (net : Plan) → IsNetwork net → net_of (net_text net) ≡ Ok net }
{}

/// The words of the canonical text's lines are the canonical words.
#[tactic(auto, using(crate::proofs::TextBackLaws::words_of_text))]
pub fn canonical_text_is_words()
    ensures words { (net : Plan) → IsNetwork net → map words_of (lines_of (net_text net)) ≡ net_lines net }
{}
