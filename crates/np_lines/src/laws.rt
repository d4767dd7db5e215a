//! Laws of the definitions that readers of lines are made of. A function here does nothing: its
//! contract is the law.

ghost use Rattle.std.specs.Prelude.{◌≡◌, ℕ, Bool, List, [], map, Option, Ok};
ghost use Rattle.np_text.specs.Joined.{AreLinesOfWords, joined_line, joined_text};
ghost use Rattle.np_text.specs.Lines.{lines_of, numbered_lines};
ghost use Rattle.np_lines.specs.Declaring.{GrowsBy, lines_give, text_gives};
ghost use Rattle.np_lines.specs.Judging.{Judged};
ghost use Rattle.np_lines.specs.Reading.{EachSays, statements_said, text_says};

/// Where what statements declare grows with each statement by what this adds, a text's statements,
/// each judged against what those before it declare, declare what the lines declare one after
/// another.
#[tactic(auto, using(crate::proofs::LineReading::text_gives_lines))]
pub fn lines_declare_one_after_another<W, S, D, N>()
    ensures { (judge : D → List ℕ → Judged W (Option S)) (declared_by : List S → D) (added : D → S → D) (make : D → N) → GrowsBy declared_by added → (text : List ℕ) → text_gives judge declared_by make text ≡ lines_give judge added make (declared_by []) (numbered_lines text) }
{}

/// A text whose lines each say a statement, or nothing as a comment does, says these statements, in
/// their order. So does the text of lines of words, the words of each joined by one space.
#[tactic(auto, using(crate::proofs::LineReading::text_read, crate::proofs::LineReading::joined_read))]
pub fn statements_line_by_line<W, S>()
    ensures text { (judge : List S → List ℕ → Judged W (Option S)) (text : List ℕ) (saids : List (Option S)) → EachSays judge [] (lines_of text) saids → text_says judge text ≡ Ok (statements_said saids) }
    ensures joined { (judge : List S → List ℕ → Judged W (Option S)) (lines : List (Bool × List (List ℕ))) (saids : List (Option S)) → AreLinesOfWords lines → EachSays judge [] (map (λ line. joined_line line.0 line.1) lines) saids → text_says judge (joined_text lines) ≡ Ok (statements_said saids) }
{}
