//! Laws of the definitions that the contracts of this crate cite. A function here does nothing:
//! its contract is the law.
ghost use Rattle.std.specs.Prelude.{ℕ, ◌≡◌, ◌+◌, ◌^◌, ◌<◌, ◌≤◌, ◌==◌, Bool, true, not, List, [], ◌∷◌, ◌++◌, length, map, filter, Some, if◌then◌else◌};
ghost use Rattle.std.specs.Fmt.{decimal};
ghost use Rattle.std.specs.List.{AllByRecursion, concat, list_all, slice_range};
ghost use Rattle.np_text.specs.Addresses.{address_of, dotted, front_bits, prefix_of};
ghost use Rattle.np_text.specs.Joined.{AreLinesOfWords, is_word, joined_line, joined_text};
ghost use Rattle.np_text.specs.Lines.{ended_lines, has_end, lines_of};
ghost use Rattle.np_text.specs.Numbers.{number_of};
ghost use Rattle.np_text.specs.Words.{are_apart, is_blank, placed_words, words_of};

/// The lines of a text, each ended by a line feed, are the text, but for a line feed that is
/// missing at its end. No line holds a line feed.
pub fn lines_make_up_the_text()
    ensures text { (text : List ℕ) → ended_lines (lines_of text) ≡ (if has_end text then text else text ++ 10 ∷ []) }
    ensures no_end { (text : List ℕ) → AllByRecursion (λ line. list_all (λ b. not (b == 10)) line ≡ true) (lines_of text) }
{}

/// The words of a line have all of its bytes that are not blank, in their order. Each has at least
/// one byte, and none that is blank.
pub fn words_leave_out_blanks()
    ensures rest { (line : List ℕ) → concat (words_of line) ≡ filter (λ b. not (is_blank b)) line }
    ensures runs { (line : List ℕ) → AllByRecursion (λ word. (0 < length word) × (list_all (λ b. not (is_blank b)) word ≡ true)) (words_of line) }
{}

/// Each word is the slice of its line at its place, and between two words there is a byte that is
/// in neither.
pub fn words_stand_at_their_places()
    ensures words { (line : List ℕ) → map (λ word. word.1) (placed_words 0 line) ≡ words_of line }
    ensures slices { (line : List ℕ) → AllByRecursion (λ word. slice_range line word.0 (word.0 + length word.1) ≡ word.1) (placed_words 0 line) }
    ensures apart { (line : List ℕ) → are_apart (placed_words 0 line) ≡ true }
{}

/// A number that is written in decimal reads back, and no shorter word reads as this number.
pub fn numbers_read_back()
    ensures back { (value max : ℕ) → value < 2 ^ 64 → value ≤ max → number_of (decimal value) max ≡ Some value }
    ensures shortest { (word : List ℕ) (max value : ℕ) → value < 2 ^ 64 → number_of word max ≡ Some value → length (decimal value) ≤ length word }
{}

/// An address that is written in decimal reads back, and no shorter word reads as this address.
pub fn addresses_read_back()
    ensures back { (address : ℕ) → address < 2 ^ 32 → address_of (dotted address) ≡ Some address }
    ensures shortest { (word : List ℕ) (address : ℕ) → address_of word ≡ Some address → length (dotted address) ≤ length word }
{}

/// An address reads back as a prefix of length 32, and followed by a length as the prefix of that
/// length.
pub fn prefixes_read_back()
    ensures whole { (address : ℕ) → address < 2 ^ 32 → prefix_of (dotted address) ≡ Some (address, 32) }
    ensures front { (address bits : ℕ) → address < 2 ^ 32 → bits ≤ 32 → prefix_of (dotted address ++ 47 ∷ decimal bits) ≡ Some (front_bits address bits, bits) }
{}

/// Numbers, addresses and prefixes, as they are written, are words.
pub fn written_forms_are_words()
    ensures numbers { (value : ℕ) → value < 2 ^ 64 → is_word (decimal value) ≡ true }
    ensures addresses { (address : ℕ) → is_word (dotted address) ≡ true }
    ensures prefixes { (address bits : ℕ) → bits ≤ 32 → is_word (dotted address ++ 47 ∷ decimal bits) ≡ true }
{}

/// Lines of words, the words of each joined by one space, with or without a space before
/// them, and each line ended by a line feed, read back as these lines and words.
pub fn joined_words_read_back()
    ensures lines { (lines : List (Bool × List (List ℕ))) → AreLinesOfWords lines → lines_of (joined_text lines) ≡ map (λ line. joined_line line.0 line.1) lines }
    ensures count { (lines : List (Bool × List (List ℕ))) → AreLinesOfWords lines → length (lines_of (joined_text lines)) ≡ length lines }
    ensures words { (lines : List (Bool × List (List ℕ))) → AreLinesOfWords lines → map words_of (lines_of (joined_text lines)) ≡ map (λ line. line.1) lines }
{}
