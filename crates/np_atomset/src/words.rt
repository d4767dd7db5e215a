//! The words of a set: bit n mod 64 of word n / 64 says whether n is a member.
ghost use Rattle.std.specs.Prelude.{◌≡◌, ◌≢◌, ℕ, ◌/◌, ◌^◌, ◌<◌, ◌≤◌, ◌↔◌, ◌||◌, ◌&&◌, not, true, false, length, replicate, IfOk, IfNone, IfSome, IsTrue};
ghost use Rattle.std.specs.Bool.{OnFalse};
ghost use Rattle.np_atomset.specs.AtomSet.{word_bit, AreWords, AreWordsOf};

use std::alloc::{AllocError, Global};

/// How many members a word holds.
const MEMBERS: usize = 64;

/// The words of the set of length `n` that has no member.
pub(crate) fn empty(alloc: Global, n: usize) -> Result<Vec<u64>, AllocError>
    ensures { IfOk result (λ words. AreWordsOf (replicate n false) words.items) }
{
    vec![in alloc; 0; n.div_ceil(MEMBERS)]
}

/// The words of the set of length `n` that has every member.
pub(crate) fn full(alloc: Global, n: usize) -> Result<Vec<u64>, AllocError>
    ensures { IfOk result (λ words. AreWordsOf (replicate n true) words.items) }
{
    let mut words = vec![in alloc; u64::MAX; n.div_ceil(MEMBERS)]?;
    let rest = n % MEMBERS;
    if rest != 0 {
        words[n / MEMBERS] = (1 << rest) - 1;
    }
    Ok(words)
}

pub(crate) fn has(words: &[u64], n: usize) -> bool
    requires { n / 64 < length words.now }
    ensures { result ≡ word_bit words.now n }
{
    (words[n / MEMBERS] >> (n % MEMBERS)) & 1 == 1
}

pub(crate) fn insert(words: &mut [u64], n: usize)
    requires { n / 64 < length words.old }
    ensures set { word_bit words.new n ≡ true }
    ensures others { (k : ℕ) → k ≢ n → word_bit words.new k ≡ word_bit words.old k }
{
    words[n / MEMBERS] |= 1 << (n % MEMBERS);
}

pub(crate) fn remove(words: &mut [u64], n: usize)
    requires { n / 64 < length words.old }
    ensures clear { word_bit words.new n ≡ false }
    ensures others { (k : ℕ) → k ≢ n → word_bit words.new k ≡ word_bit words.old k }
{
    words[n / MEMBERS] &= !(1 << (n % MEMBERS));
}

/// Sets each bit that `others` has, and answers whether a word changed.
pub(crate) fn join(words: &mut [u64], others: &[u64]) -> bool
    requires { length words.old ≡ length others.now }
    ensures bits { (k : ℕ) → word_bit words.new k ≡ (word_bit words.old k || word_bit others.now k) }
    ensures changed { IsTrue result ↔ (words.new ≢ words.old) }
    ensures same { OnFalse result (words.new ≡ words.old) }
    ensures fit { AreWords words.old × AreWords words.new }
{
    let mut changed = false;
    for (i, word) in words.iter_mut().enumerate() {
        let joined = *word | others[i];
        changed |= joined != *word;
        *word = joined;
    }
    changed
}

/// Sets each bit that `xs` and `ys` both have, and answers whether a word changed.
pub(crate) fn join_met(words: &mut [u64], xs: &[u64], ys: &[u64]) -> bool
    requires xs { length words.old ≡ length xs.now }
    requires ys { length words.old ≡ length ys.now }
    ensures bits { (k : ℕ) → word_bit words.new k ≡ (word_bit words.old k || (word_bit xs.now k && word_bit ys.now k)) }
    ensures changed { IsTrue result ↔ (words.new ≢ words.old) }
    ensures same { OnFalse result (words.new ≡ words.old) }
    ensures fit { AreWords words.old × AreWords words.new }
{
    let mut changed = false;
    for (i, word) in words.iter_mut().enumerate() {
        let more = *word | (xs[i] & ys[i]);
        changed |= more != *word;
        *word = more;
    }
    changed
}

/// Keeps each bit that `others` has too.
pub(crate) fn meet(words: &mut [u64], others: &[u64])
    requires { length words.old ≡ length others.now }
    ensures { (k : ℕ) → word_bit words.new k ≡ (word_bit words.old k && word_bit others.now k) }
{
    for (i, word) in words.iter_mut().enumerate() {
        *word &= others[i];
    }
}

/// Clears each bit that `others` has.
pub(crate) fn minus(words: &mut [u64], others: &[u64])
    requires { length words.old ≡ length others.now }
    ensures { (k : ℕ) → word_bit words.new k ≡ (word_bit words.old k && not (word_bit others.now k)) }
{
    for (i, word) in words.iter_mut().enumerate() {
        *word &= !others[i];
    }
}

/// Whether the words are those of `others`.
pub(crate) fn same(words: &[u64], others: &[u64]) -> bool
    ensures equal { IsTrue result ↔ (words.now ≡ others.now) }
    ensures fit { AreWords words.now × AreWords others.now }
{
    words == others
}

/// The lowest bit that is set in the first word that is not 0.
pub(crate) fn first(words: &[u64]) -> Option<usize>
    requires { length words.now ≤ 2 ^ 58 }
    ensures none { IfNone result ((k : ℕ) → word_bit words.now k ≡ false) }
    ensures set { IfSome result (λ n. word_bit words.now n ≡ true) }
    ensures least { IfSome result (λ n. (k : ℕ) → k < n → word_bit words.now k ≡ false) }
{
    for (i, word) in words.iter().enumerate() {
        if *word != 0 {
            return Some(i * MEMBERS + word.trailing_zeros() as usize);
        }
    }
    None
}
