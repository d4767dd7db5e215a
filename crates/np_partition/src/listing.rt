//! Regions, each once.

ghost use Rattle.std.specs.Prelude.{◌≡◌, ◌<◌, IfOk};
ghost use Rattle.np_partition.specs.Listed.{AreListed, IsListMemo, Lists};

use crate::node_memo::NodeMemo;
use np_bdd::Node;
use std::alloc::{AllocError, Global};

/// Regions, each once, and the place of each of others among them.
#[derive(Drop)]
pub(crate) struct Listed {
    pub nodes: Vec<Node>,
    pub places: Vec<usize>,
}

// The place of the region among the listed ones. It is listed where it isn't there.
fn place_of(nodes: &mut Vec<Node>, memo: &mut NodeMemo, x: Node) -> Result<usize, AllocError>
    requires { IsListMemo nodes.old.items memo.old }
    ensures memo { IfOk result (λ place. IsListMemo nodes.new.items memo.new) }
    ensures lists { IfOk result (λ place. Lists nodes.old.items nodes.new.items x place) }
{
    if let Some(place) = memo.found(x) {
        return Ok(place);
    }
    let place = nodes.len();
    nodes.push(x)?;
    memo.learn(x, place)?;
    Ok(place)
}

/// The regions, each once, in the order in which they come first. Fails only for want of memory.
pub(crate) fn list_regions(alloc: Global, xs: &[Node]) -> Result<Listed, AllocError>
    ensures { IfOk result (λ l. AreListed xs.now l.nodes.items l.places.items) }
{
    let mut memo = NodeMemo::new(alloc);
    let mut nodes = Vec::new(alloc);
    let mut places = Vec::new(alloc);
    for x in xs {
        let place = place_of(&mut nodes, &mut memo, *x)?;
        places.push(place)?;
    }
    Ok(Listed { nodes, places })
}
