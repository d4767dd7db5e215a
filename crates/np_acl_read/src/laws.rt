//! Laws of the definitions that the contracts of this crate cite. A function here does nothing:
//! its contract is the law.

ghost use Rattle.std.specs.Prelude.{◌≡◌, ◌<◌, ◌∷◌, ℕ, Bool, List, [], map, Option, nat_eq, Ok};
ghost use Rattle.std.specs.List.{IsDistinct};
ghost use Rattle.std.specs.List.Sorted.{IsStrictlySortedBy};
ghost use Rattle.std.specs.Map.{keys_of, lookup};
ghost use Rattle.std.specs.Ordering.{nat_cmp};
ghost use Rattle.std.specs.Str.{bytes_eq};
ghost use Rattle.np_text.specs.Joined.{AreLinesOfWords, joined_line, joined_text};
ghost use Rattle.np_text.specs.Lines.{lines_of};
ghost use Rattle.np_lines.specs.Reading.{EachSays, statements_said, text_says};
ghost use Rattle.np_text.specs.Words.{words_of};
ghost use Rattle.np_space.specs.declared.spans.Span.{Span};
ghost use Rattle.np_acl.specs.declared.entries.Entry.{Entry};
ghost use Rattle.np_acl.specs.declared.kinds.ListKind.TheVariants.{Extended};
ghost use Rattle.np_acl.specs.declared.kinds.Way.{Way};
ghost use Rattle.np_entry_read.specs.Canonical.{IsWritten, entry_words};
ghost use Rattle.np_acl_read.specs.declared.declared.Declared.{Declared};
ghost use Rattle.np_acl_read.specs.declared.declared.Section.TheVariants.{List as SectionOf};
ghost use Rattle.np_acl_read.specs.declared.statement.Statement.TheVariants.{SectionEntry};
ghost use Rattle.np_acl_read.specs.Adding.{entry_limit};
ghost use Rattle.np_acl_read.specs.Words.{action_word};
ghost use Rattle.np_acl_read.specs.declared.statement.Statement.{Statement};
ghost use Rattle.np_acl_read.specs.Counting.{last_with};
ghost use Rattle.np_acl_read.specs.Declaring.{applied_by, config_with, declared_by_config, declared_in, entries_of, groups_in};
ghost use Rattle.np_acl_read.specs.Judging.{line_says, next_number, numbers_in};
ghost use Rattle.np_acl_read.specs.Reading.{config_of};

/// The sequence numbers of a list ascend strictly, and its entry of a number is the one that is
/// declared last with this number: there is none of any other number. Of the statements of a text no
/// two declare an entry of one list with the same number.
pub fn entries_are_those_declared()
    ensures ascend { (statements : List Statement) (name : List ℕ) → IsStrictlySortedBy nat_cmp (keys_of (entries_of statements name)) }
    ensures declared { (statements : List Statement) (name : List ℕ) (number : ℕ) → lookup (nat_eq number) (entries_of statements name) ≡ last_with (nat_eq number) (declared_in statements name) }
    ensures once { (text : List ℕ) (statements : List Statement) → text_says (λ before. line_says (declared_by_config before)) text ≡ Ok statements → (name : List ℕ) → IsDistinct nat_eq (keys_of (declared_in statements name)) }
{}

/// The list that counts at an interface in one way is that of the last line that applies one there.
pub fn the_last_group_counts()
    ensures { (statements : List Statement) (way : Way) (interface : List ℕ) → lookup (bytes_eq interface) (applied_by statements way) ≡ last_with (bytes_eq interface) (groups_in statements way) }
{}

/// A text whose lines each say a statement, against what those before it declare, or nothing as a
/// comment does, is the configuration that these statements declare; so is the text of lines of
/// words, the words of each joined by one space.
#[tactic(auto, using(crate::proofs::LineReading::lines_read, crate::proofs::LineReading::joined_lines_read))]
pub fn lines_declare_their_statements()
    ensures text { (text : List ℕ) (saids : List (Option Statement)) → EachSays (λ before. line_says (declared_by_config before)) [] (lines_of text) saids → config_of text ≡ Ok (config_with (declared_by_config (statements_said saids))) }
    ensures joined { (lines : List (Bool × List (List ℕ))) (saids : List (Option Statement)) → AreLinesOfWords lines → EachSays (λ before. line_says (declared_by_config before)) [] (map (λ line. joined_line line.0 line.1) lines) saids → config_of (joined_text lines) ≡ Ok (config_with (declared_by_config (statements_said saids))) }
{}

/// In the section of an extended list a line of `permit` or `deny` and the canonical words of an
/// entry says this entry, with the next number of the list.
pub fn canonical_lines_read_back()
    ensures { (declared : Declared) (list line : List ℕ) (e : Entry) (a b : Span) (n : ℕ) → words_of line ≡ action_word e.permit ∷ entry_words e a b → IsWritten e a b → declared.section ≡ SectionOf list Extended → next_number (numbers_in declared.lists list) ≡ Ok n → declared.entries < entry_limit → line_says declared line ≡ Ok (Some (SectionEntry (record { list = list; number = n; entry = e }))) }
{}
