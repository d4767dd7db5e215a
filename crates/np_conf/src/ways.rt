//! The interfaces that the local rules ask about.

ghost use Rattle.std.specs.Prelude.{◌≡◌, ◌↔◌, ◌<◌, length, IsTrue};
ghost use Rattle.np_net.specs.Path as path;
ghost use Rattle.np_ipsec.specs.Steps.{area_at};
ghost use Rattle.np_conf.specs.Rules.{IsTrustedInterface, IsWayOut};

use np_ipsec::{Place, is_trusted};
use np_net::{IfId, Network, area_of};

/// Whether an interface is on a trusted area.
fn is_inside(net: &Network, i: IfId) -> bool
    requires { i < length net.now.interfaces }
    ensures { result ≡ (area_at net.now (path.area_of net.now.interfaces i)).trusted }
{
    is_trusted(net, Place::AtArea(area_of(net, i)))
}

/// Whether an interface is of a trusted device.
pub(crate) fn is_of_trusted(net: &Network, i: IfId) -> bool
    requires { i < length net.now.interfaces }
    ensures { IsTrue result ↔ IsTrustedInterface net.now i }
{
    is_trusted(net, Place::AtOut(i))
}

/// Whether an interface is of a trusted device and on an area that isn't trusted.
pub(crate) fn is_way_out(net: &Network, i: IfId) -> bool
    requires { i < length net.now.interfaces }
    ensures { IsTrue result ↔ IsWayOut net.now i }
{
    is_of_trusted(net, i) && !is_inside(net, i)
}
