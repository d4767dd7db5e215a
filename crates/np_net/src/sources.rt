//! The areas of a network as predicates name them.

ghost use Rattle.std.specs.Prelude.{◌≡◌, IfOk};
ghost use Rattle.std.specs.List.{AllByRecursion};
ghost use Rattle.std.specs.Str.{bytes_eq};
ghost use Rattle.np_net.specs.Distinct.{AreDistinct};
ghost use Rattle.np_net.specs.Network.{IsArea};
ghost use Rattle.np_net.specs.Plan.{area_names};
ghost use Rattle.np_net.specs.Sources.{source_list};

use crate::filtering::Area;
use crate::network::Network;
use np_pred::Areas;
use sqlite_items::Items;
use std::alloc::{AllocError, Global};

fn areas_from(alloc: Global, areas: &[Area]) -> Result<Areas, AllocError>
    requires distinct { AreDistinct bytes_eq (area_names areas.now) }
    requires formed { AllByRecursion (λ area. IsArea area) areas.now }
    ensures { IfOk result (λ found. found ≡ source_list areas.now) }
{
    let mut found = Areas::new(alloc);
    for area in areas {
        let sources = Items::from_slice(alloc, area.sources.as_slice())?;
        found.add(alloc, area.name.copy(alloc)?, sources)?;
    }
    Ok(found)
}

/// The areas of a network, as predicates name them: what reading a predicate of the network takes.
/// The error says that memory ran out.
pub fn areas_of(alloc: Global, net: &Network) -> Result<Areas, AllocError>
    ensures { IfOk result (λ areas. areas ≡ source_list net.now.areas) }
{
    areas_from(alloc, net.areas.as_slice())
}
