//! Names by number.

ghost use Rattle.std.specs.Prelude.{◌≡◌};
ghost use Rattle.np_net.specs.Naming as naming;

use crate::network::{AreaId, DevId, IfId, Network, SaId};

/// The name of an area, without bytes where the network has no area of this number.
pub fn area_name(net: &Network, id: AreaId) -> &[u8]
    ensures { result.now ≡ naming.area_name net.now id }
{
    match net.areas.as_slice().get(id as usize) {
        Some(area) => area.name.bytes(),
        None => &[],
    }
}

/// The name of a device, without bytes where the network has no device of this number.
pub fn device_name(net: &Network, id: DevId) -> &[u8]
    ensures { result.now ≡ naming.device_name net.now id }
{
    match net.devices.as_slice().get(id as usize) {
        Some(device) => device.name.bytes(),
        None => &[],
    }
}

/// The name of an interface within its device, without bytes where the network has no interface of
/// this number.
pub fn interface_name(net: &Network, id: IfId) -> &[u8]
    ensures { result.now ≡ naming.interface_name net.now id }
{
    match net.interfaces.as_slice().get(id as usize) {
        Some(interface) => interface.name.bytes(),
        None => &[],
    }
}

/// The name of a security association (RFC 4301), without bytes where the network has none of this
/// number.
pub fn sa_name(net: &Network, id: SaId) -> &[u8]
    ensures { result.now ≡ naming.sa_name net.now id }
{
    match net.sas.as_slice().get(id as usize) {
        Some(sa) => sa.name.bytes(),
        None => &[],
    }
}
