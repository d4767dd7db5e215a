//! Laws of the definitions that the contracts of this crate cite. A function here does nothing:
//! its contract is the law.

ghost use Rattle.std.specs.Prelude.{Ok, ◌≡◌, ◌/◌, ◌≤◌, ◌∷◌, [], ◌&&◌, ℕ, List, map, nat_eq, nat_le, nat_lt, not, true};
ghost use Rattle.std.specs.List.{AllByRecursion, list_any};
ghost use Rattle.np_space.specs.Span.{span_from, span_has};
ghost use Rattle.np_acl.specs.Entries.{ports_have};
ghost use Rattle.np_text.specs.Joined.{AreWords};
ghost use Rattle.np_space.specs.declared.spans.Span.{Span};
ghost use Rattle.np_acl.specs.Spans.{any_number};
ghost use Rattle.np_acl.specs.declared.entries.Entry.{Entry};
ghost use Rattle.np_acl.specs.declared.kinds.ListKind.TheVariants.{Extended};
ghost use Rattle.np_entry_read.specs.Canonical.{IsWritten, entry_words};
ghost use Rattle.np_entry_read.specs.Entries.{entry_of};
ghost use Rattle.np_entry_read.specs.Spans.{above, all_but, below, only, precedence_span};

/// The ports that the words of an entry test are exactly those meant.
#[tactic(auto, using(crate::proofs::SpanMeaning::ports_each, crate::proofs::SpanMeaning::ports_all_but, crate::proofs::SpanMeaning::ports_below, crate::proofs::SpanMeaning::ports_above, crate::proofs::SpanMeaning::ports_between, crate::proofs::SpanMeaning::ports_any))]
pub fn ports_are_those_meant()
    ensures each { (ns : List ℕ) (x : ℕ) → AllByRecursion (λ n. n ≤ 65535) ns → ports_have (map only ns) x ≡ list_any (nat_eq x) ns }
    ensures all_but { (ns : List ℕ) (x : ℕ) → x ≤ 65535 → ports_have (all_but ns) x ≡ not (list_any (nat_eq x) ns) }
    ensures below { (n x : ℕ) → n ≤ 65535 → ports_have (below n) x ≡ nat_lt x n }
    ensures above { (n x : ℕ) → x ≤ 65535 → ports_have (above n) x ≡ nat_lt n x }
    ensures between { (low high x : ℕ) → low ≤ high → high ≤ 65535 → ports_have (span_from low high ∷ []) x ≡ (nat_le low x && nat_le x high) }
    ensures any { (x : ℕ) → x ≤ 65535 → ports_have (any_number ∷ []) x ≡ true }
{}

/// The code points of a precedence are exactly those whose upper three bits it is.
#[tactic(auto, using(crate::proofs::SpanMeaning::precedence_meant))]
pub fn precedences_are_upper_bits()
    ensures { (precedence dscp : ℕ) → precedence ≤ 7 → span_has (precedence_span precedence) dscp ≡ nat_eq (dscp / 8) precedence }
{}

/// An entry in its canonical words is read as this entry. The words are the protocol, the source and
/// its ports, the destination and its ports or the ICMP type and code, `dscp` with one code point,
/// and `established`; what tests nothing is left out. `IsWritten` says which entries have such words.
pub fn canonical_words_read_back()
    ensures words { (e : Entry) (a b : Span) → AreWords (entry_words e a b) }
    ensures back { (e : Entry) (a b : Span) → IsWritten e a b → entry_of Extended e.permit (entry_words e a b) ≡ Ok e }
{}
