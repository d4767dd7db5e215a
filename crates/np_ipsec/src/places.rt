//! Where a packet can be, and how it moves.

ghost use Rattle.std.specs.Prelude.{◌≡◌, ◌<◌, length};
ghost use Rattle.np_ipsec.specs.Steps.{IsPlace, area_has, is_trusted_place};
ghost use Rattle.np_ipsec.specs.Tables.{is_trusted_device};

use np_net::{AreaId, DevId, IfId, Network, SaId, device_of};
use np_space::{Header, any_pattern_has};

/// Where a packet is.
#[derive(Clone, Copy, Debug, PartialEq, Eq)]
pub enum Place {
    /// In an area.
    AtArea(AreaId),
    /// Inside a device, just come in by this interface.
    AtIn(IfId),
    /// Inside a device, about to go out by this interface.
    AtOut(IfId),
}

/// How a packet moves, or what is done to it where it is.
#[derive(Clone, Copy, Debug, PartialEq, Eq)]
pub enum Motion {
    /// From an area into a device, by this interface.
    Enter(IfId),
    /// The outermost association's header is removed.
    Pop,
    /// Through a device, to where it goes out by this interface.
    Cross(IfId),
    /// A header of this association is put around it.
    Push(SaId),
    /// Out of a device, to the area of the interface.
    Leave,
}

/// Whether a device is trusted.
pub fn is_trusted_device(net: &Network, device: DevId) -> bool
    requires { device < length net.now.devices }
    ensures { result ≡ is_trusted_device net.now device }
{
    net.devices.as_slice()[device as usize].trusted
}

/// Whether a place is trusted: its area is, or the device of its interface (Guttman and Herzog 2005).
pub fn is_trusted(net: &Network, place: Place) -> bool
    requires { IsPlace net.now place }
    ensures { result ≡ is_trusted_place net.now place }
{
    match place {
        Place::AtArea(area) => net.areas.as_slice()[area as usize].trusted,
        Place::AtIn(i) | Place::AtOut(i) => is_trusted_device(net, device_of(net, i)),
    }
}

/// Whether an area sends packets from the source of a header: its addresses have it.
pub fn has_source(net: &Network, area: AreaId, h: &Header) -> bool
    requires { area < length net.now.areas }
    ensures { result ≡ area_has net.now area h.now }
{
    any_pattern_has(
        net.areas.as_slice()[area as usize].sources.as_slice(),
        h.src,
    )
}
