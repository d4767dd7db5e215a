//! The words of the canonical text, each appended after a space.

ghost use Rattle.std.specs.Prelude.{◌≡◌, ◌++◌, ◌∷◌, OnOk, OnErr, IsTrue};
ghost use Rattle.np_text.specs.Appending.{AppendsFront};
ghost use Rattle.np_pred.specs.Canonical.{pred_words};
ghost use Rattle.np_pred.specs.Forms.{has_prefixes};
ghost use Rattle.np_net_text.specs.Canonical as canonical;
ghost use Rattle.np_net_text.specs.CanonicalText.{spaced};

use np_net::{Interface, Network, device_name};
use np_pred::{Pred, put_pred};
use np_text::put_bytes;
use std::alloc::AllocError;

/// Appends a word after a space.
///
/// Where memory runs out, which alone is an error, a prefix of both may have been appended.
pub fn put_word(out: &mut Vec<u8>, word: &[u8]) -> Result<(), AllocError>
    ensures ok { OnOk result (out.new.items ≡ out.old.items ++ 32 ∷ word.now) }
    ensures err { OnErr result (AppendsFront out.old.items out.new.items (32 ∷ word.now)) }
{
    out.push(b' ')?;
    put_bytes(out, word)
}

/// Appends an interface's device and its name, each after a space.
pub fn put_place(out: &mut Vec<u8>, net: &Network, interface: &Interface) -> Result<(), AllocError>
    ensures { OnOk result (out.new.items ≡ out.old.items ++ spaced (canonical.place_words net.now interface.now)) }
{
    put_word(out, device_name(net, interface.device))?;
    put_word(out, interface.name.bytes())
}

/// Appends the words of a predicate, each after a space.
pub fn put_pred_words(out: &mut Vec<u8>, pred: &Pred) -> Result<(), AllocError>
    requires { IsTrue (has_prefixes pred.now) }
    ensures { OnOk result (out.new.items ≡ out.old.items ++ spaced (pred_words pred.now)) }
{
    out.push(b' ')?;
    put_pred(out, pred)
}
