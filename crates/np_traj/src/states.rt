//! A packet on its way.

ghost use Rattle.std.specs.Prelude.{◌≡◌};

use np_ipsec::Place;
use np_net::SaId;
use np_space::Header;
use np_stack::HeaderStack;
use std::marker::Model;

/// A packet on its way, under the headers of at most `N` associations. Contracts see np_ipsec's state.
#[derive(Debug, Drop, PartialEq, Eq)]
pub struct State<const N: usize> {
    pub place: Place,
    /// The packet's own header, which is valid.
    pub plain: Header,
    /// The associations whose headers are around it, the outermost on top.
    pub stack: HeaderStack<N>,
    /// The association whose header was removed last, at the interface by which it came in.
    pub mark: Option<SaId>,
}

impl<const N: usize> Model for State<N> {
    ghost use Rattle.np_space.specs.Header.{IsValid};
    ghost use Rattle.np_ipsec.specs.Steps as model;

    ghost Value = { model.State };

    ghost view = { λ s. record { place = s.place; plain = s.plain; stack = s.stack; mark = s.mark } };

    ghost invariant = { λ s. IsValid s.plain };

    ghost inverse = { λ s. record { place = s.place; plain = s.plain; stack = s.stack; mark = s.mark } };
}

impl<const N: usize> State<N> {
    /// The same state once more. It takes no memory.
    pub fn copy(&self) -> State<N>
        ensures { result ≡ self.now }
    {
        State {
            place: self.place,
            plain: self.plain,
            stack: self.stack.widen(),
            mark: self.mark,
        }
    }
}

/// Why a packet may not start so, or a motion is no step.
#[derive(Clone, Copy, Debug, PartialEq, Eq)]
pub enum Illegal {
    /// The packet is at no place for it.
    NotHere,
    /// The rules of the interface don't let the packet pass.
    NotAdmitted,
    /// A pop rule of the interface has to remove the outermost header first.
    MustPop,
    /// Who isn't trusted hasn't the key of the association.
    NoKey,
    /// No rule of the interface does this.
    NoRule,
    /// There is no room for another header.
    Full,
    /// The addresses of the area haven't the header's source.
    FalseSource,
    /// The header isn't one that a packet can have.
    NotValid,
}
