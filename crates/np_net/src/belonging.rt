//! What an interface belongs to.

ghost use Rattle.std.specs.Prelude.{◌≡◌, ◌<◌, length};
ghost use Rattle.np_net.specs.Path as path;

use crate::network::{AreaId, DevId, IfId, Network};

/// The device that an interface belongs to. `i` is below the number of interfaces.
pub fn device_of(net: &Network, i: IfId) -> DevId
    requires { i < length net.now.interfaces }
    ensures value { result ≡ path.device_of net.now.interfaces i }
    ensures within { result < length net.now.devices }
{
    net.interfaces.as_slice()[i as usize].device
}

/// The area that an interface is on. `i` is below the number of interfaces.
#[tactic(auto, using(crate::proofs::RangeLaws::area_in_range))]
pub fn area_of(net: &Network, i: IfId) -> AreaId
    requires { i < length net.now.interfaces }
    ensures value { result ≡ path.area_of net.now.interfaces i }
    ensures within { result < length net.now.areas }
{
    net.interfaces.as_slice()[i as usize].area
}
