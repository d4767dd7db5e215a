//! Paths through a network.

ghost use Rattle.std.specs.Prelude.{◌≡◌, ◌↔◌, IsTrue};
ghost use Rattle.np_net.specs.Path.{IsHop, IsPath, Leads, area_of, device_of};

use crate::filtering::Interface;
use crate::network::{AreaId, IfId, Network};
use sqlite_items::Items;

/// The hops of a way through a network, each across one device: the interface by which a packet
/// comes in, and the one by which it goes out.
#[derive(Debug, Drop)]
pub struct Path {
    pub hops: Items<(IfId, IfId)>,
}

/// Whether a hop crosses one device and begins on an area.
fn hop_begins(interfaces: &[Interface], hop: (IfId, IfId), area: AreaId) -> bool
    ensures { IsTrue result ↔ (IsHop interfaces.now hop × (area_of interfaces.now hop.0 ≡ area)) }
{
    let (inward, outward) = hop;
    match (
        interfaces.get(inward as usize),
        interfaces.get(outward as usize),
    ) {
        (Some(first), Some(second)) => first.device == second.device && first.area == area,
        _ => false,
    }
}

/// The area on which a hop ends.
fn hop_end(interfaces: &[Interface], hop: (IfId, IfId)) -> AreaId
    requires { IsHop interfaces.now hop }
    ensures { result ≡ area_of interfaces.now hop.1 }
{
    interfaces[hop.1 as usize].area
}

/// Whether hops lead from an area to another.
fn leads(interfaces: &[Interface], hops: &[(IfId, IfId)], from: AreaId, to: AreaId) -> bool
    ensures { IsTrue result ↔ Leads interfaces.now from hops.now to }
{
    let mut area = from;
    for hop in hops {
        if !hop_begins(interfaces, *hop, area) {
            return false;
        }
        area = hop_end(interfaces, *hop);
    }
    area == to
}

/// Whether a path leads from one area to another: it has a hop, both interfaces of each hop are of
/// one device, the first interface is on `from`, each second interface shares its area with the next
/// first one, and the last is on `to`.
///
/// Any numbers may be asked of; those that no area or interface has make no path.
pub fn path_links(net: &Network, path: &Path, from: AreaId, to: AreaId) -> bool
    ensures { IsTrue result ↔ IsPath net.now.interfaces from path.now.hops to }
{
    !path.hops.is_empty() && leads(net.interfaces.as_slice(), path.hops.as_slice(), from, to)
}
