//! Words that both reports have.

ghost use Rattle.std.specs.Prelude.{◌≡◌, ◌++◌, ◌<◌, length, OnOk};
ghost use Rattle.np_net_text.specs.CanonicalText.{spaced};
ghost use Rattle.np_script.specs.Written.{interface_words};

use np_net::{IfId, Network, device_name, device_of, interface_name};
use np_net_text::put_word;
use std::alloc::AllocError;

// Appends the words of an interface, each after a space.
pub(crate) fn put_interface(text: &mut Vec<u8>, net: &Network, id: IfId) -> Result<(), AllocError>
    requires { id < length net.now.interfaces }
    ensures { OnOk result (text.new.items ≡ text.old.items ++ spaced (interface_words net.now id)) }
{
    put_word(text, device_name(net, device_of(net, id)))?;
    put_word(text, interface_name(net, id))
}
