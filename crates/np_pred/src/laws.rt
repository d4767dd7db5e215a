//! Laws of the definitions that the contracts of this crate cite. A function here does nothing:
//! its contract is the law.

ghost use Rattle.std.specs.Prelude.{◌≡◌, ◌-◌, ◌^◌, ◌≤◌, ◌↔◌, ◌+◌, ◌<◌, ℕ, List, length, take, IsTrue, true, Ok, Err, Some};
ghost use Rattle.std.specs.List.{AllByRecursion};
ghost use Rattle.np_text.specs.Joined.{is_word};
ghost use Rattle.np_text.specs.Words.{words_of};
ghost use Rattle.np_space.specs.declared.patterns.Ternary.{Ternary};
ghost use Rattle.np_pred.specs.declared.predicate.Pred.{Pred};
ghost use Rattle.np_pred.specs.Areas.{AreaList};
ghost use Rattle.np_pred.specs.Canonical.{pred_words, pred_text};
ghost use Rattle.np_pred.specs.Forms.{IsWellFormed, has_octets};
ghost use Rattle.np_space.specs.Patterns.{is_prefix};
ghost use Rattle.np_pred.specs.declared.pred_error.PredFault.{PredFault};
ghost use Rattle.np_pred.specs.Reading.{pred_of, fault_at};

/// The canonical words of a predicate are read as this predicate, whatever the areas are: there is
/// no area's name among them.
#[tactic(auto, using(crate::proofs::ReadBackLaws::pred_of_words))]
pub fn canonical_words_read_back()
    ensures { (areas : AreaList) (p : Pred) → IsWellFormed 64 p → pred_of areas (pred_words p) ≡ Ok p }
{}

/// A fault at a word is at one that there is, and depends on the words up to this one alone: all
/// words that begin with the same ones have the same fault.
#[tactic(auto, using(crate::proofs::FaultLaws::fault_within, crate::proofs::FaultLaws::fault_by_first_words))]
pub fn faults_stand_by_first_words()
    ensures within { (areas : AreaList) (words : List (List ℕ)) (fault : PredFault) (n : ℕ) → pred_of areas words ≡ Err fault → fault_at fault ≡ Some n → n < length words }
    ensures same { (areas : AreaList) (words others : List (List ℕ)) (fault : PredFault) (n : ℕ) → pred_of areas words ≡ Err fault → fault_at fault ≡ Some n → take (n + 1) others ≡ take (n + 1) words → pred_of areas others ≡ Err fault }
{}

/// A pattern is a prefix exactly where its wild bits are the lowest ones, however many.
#[tactic(auto, using(np_space::proofs::MadeLemmas::prefix_as_stated))]
pub fn prefixes_are_by_bits()
    ensures { (p : Ternary) → IsTrue (is_prefix p) ↔ ((k : ℕ) × (k ≤ 32) × (p.wild ≡ 2 ^ k - 1)) }
{}

/// The words of a predicate's canonical text are its canonical words: none is empty, and none has
/// a blank or a line end. The premise is what the type says of a protocol, a type and a code.
#[tactic(auto, using(crate::proofs::WordForms::words_of_text, crate::proofs::WordForms::pred_words_are_words))]
pub fn canonical_text_is_words()
    ensures words { (p : Pred) → IsTrue (has_octets p) → AllByRecursion (λ word. is_word word ≡ true) (pred_words p) }
    ensures text { (p : Pred) → IsTrue (has_octets p) → words_of (pred_text p) ≡ pred_words p }
{}
