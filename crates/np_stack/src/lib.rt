//! A stack of at most `N` security associations, seen as the list of their ids, the top last.
//!
//! It stands for the protection headers that a packet carries, the outermost one on top (Guttman and Herzog, "Rigorous
//! automated network security management", 2005). No call takes memory: the ids lie in the value itself.
#![tactic(auto)]

ghost use Rattle.std.specs.Prelude.{◌≡◌, ℕ, ◌<◌, ◌≤◌, ◌↔◌, List, [], ◌∷◌, ◌++◌, length, IsTrue, IsOk, IsErr, IsNone, OnOk, OnErr, Contains, slice_get};
ghost use Rattle.std.specs.Option.{option_to_list};
ghost use Rattle.np_stack.specs.HeaderStack.{top_of};

use arrayvec::ArrayVec;
use std::marker::Model;

/// What `push` answers where the stack has no room left.
#[derive(Debug, Clone, Copy, PartialEq, Eq)]
pub struct Full;

/// At most `N` ids of security associations, each of 16 bits. Positions count from the bottom, from 0.
///
/// It is not `Copy`, since `ArrayVec` is not: `widen` to the same limit gives a second one.
#[derive(Debug, Drop, PartialEq, Eq)]
pub struct HeaderStack<const N: usize> {
    ids: ArrayVec<u16, N>,
}

impl<const N: usize> Model for HeaderStack<N> {
    ghost Value = { List ℕ };

    ghost view = { λ stack. stack.ids.items };

    ghost invariant = { λ stack. length stack.ids.items ≤ N };

    ghost inverse = { λ ids. record { ids = record { items = ids } } };
}

impl<const N: usize> HeaderStack<N> {
    /// An empty stack.
    pub fn new() -> Self
        ensures { result ≡ [] }
    {
        HeaderStack {
            ids: ArrayVec::new(),
        }
    }

    /// How many ids the stack has, which is never more than `N`.
    pub fn len(&self) -> usize
        ensures value { result ≡ length self.now }
        ensures fits { result ≤ N }
    {
        self.ids.len()
    }

    /// The id at position `n` from the bottom.
    pub fn get(&self, n: usize) -> Option<u16>
        ensures value { result ≡ slice_get self.now n }
        ensures past { IsNone result ↔ (length self.now ≤ n) }
    {
        self.ids.as_slice().get(n).copied()
    }

    /// The id on top, which is the last in the list.
    pub fn top(&self) -> Option<u16>
        ensures value { result ≡ top_of self.now }
        ensures empty { IsNone result ↔ (self.now ≡ []) }
    {
        self.ids.as_slice().last().copied()
    }

    /// Whether `sa` is among the ids.
    pub fn contains(&self, sa: u16) -> bool
        ensures { IsTrue result ↔ Contains self.now sa }
    {
        self.ids.as_slice().contains(&sa)
    }

    /// Puts `sa` on top, or answers `Full` where the stack has `N` ids already.
    pub fn push(&mut self, sa: u16) -> Result<(), Full>
        ensures room { IsOk result ↔ (length self.old < N) }
        ensures full { IsErr result ↔ (length self.old ≡ N) }
        ensures ok { OnOk result (self.new ≡ self.old ++ sa ∷ []) }
        ensures err { OnErr result (self.new ≡ self.old) }
    {
        self.ids.try_push(sa).map_err(|_| Full)
    }

    /// Takes the top off.
    pub fn pop(&mut self) -> Option<u16>
        ensures value { result ≡ top_of self.old }
        ensures empty { IsNone result ↔ (self.old ≡ []) }
        ensures items { self.old ≡ self.new ++ option_to_list result }
    {
        self.ids.pop()
    }

    /// The same ids under a limit that is no lower.
    pub fn widen<const M: usize>(&self) -> HeaderStack<M>
        requires { N ≤ M }
        ensures { result ≡ self.now }
    {
        let mut wider = HeaderStack::new();
        let _ = wider.ids.try_extend_from_slice(self.ids.as_slice());
        wider
    }
}
