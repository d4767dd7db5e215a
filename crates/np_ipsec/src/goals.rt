//! What the checks of authentication and of confidentiality goals both ask.

ghost use Rattle.std.specs.Prelude.{◌≡◌, ◌<◌, ◌↔◌, length, IsTrue};
ghost use Rattle.np_ipsec.specs.Goals.{IsForeign, goal_pred};
ghost use Rattle.np_ipsec.specs.Searching.{FindsFirst};

use crate::places::{Place, is_trusted};
use np_net::{IfId, IpGoal, Network, area_of};
use np_pred::Pred;

/// The predicate of a goal.
pub fn goal_pred(goal: &IpGoal) -> &Pred
    ensures { result.now ≡ goal_pred goal.now }
{
    match goal {
        IpGoal::Auth { pred, .. } => pred,
        IpGoal::Conf { pred, .. } => pred,
    }
}

/// Whether an interface is on a trusted area and of a device that isn't trusted.
fn is_foreign(net: &Network, i: IfId) -> bool
    requires { i < length net.now.interfaces }
    ensures { IsTrue result ↔ IsForeign net.now i }
{
    is_trusted(net, Place::AtArea(area_of(net, i))) && !is_trusted(net, Place::AtIn(i))
}

/// The first interface on a trusted area that is of a device that isn't trusted, and `None` where there is none.
pub fn first_foreign(net: &Network) -> Option<IfId>
    ensures { FindsFirst (IsForeign net.now) result }
{
    for i in 0..net.interfaces.len() {
        if is_foreign(net, i as IfId) {
            return Some(i as IfId);
        }
    }
    None
}
