//! A network from its text.

ghost use Rattle.std.specs.Prelude.{◌≡◌, ◌≤◌, ◌*◌, Ok, IfOk, IfErr};
ghost use Rattle.np_lines.specs.Answers.{IsFaultOf};
ghost use Rattle.np_net_read.specs.Declaring.{free_flags, network_of};
ghost use Rattle.np_net_read.specs.Drafting.{IsDraft};
ghost use Rattle.np_net_read.specs.Reading.{net_of};

use crate::draft::Draft;
use crate::fault::NetError;
use crate::lines::read_line;
use indexmap::IndexSet;
use np_net::Network;
use np_text::lines;
use sqlite_items::Items;
use std::alloc::{AllocError, Global};

/// The depth of a network without a statement of it.
const DEFAULT_DEPTH: u8 = 8;

/// For each slot of so many interfaces, whether it is free.
fn free_flags(
    alloc: Global,
    freed: &IndexSet<u16>,
    interfaces: usize,
) -> Result<Vec<bool>, AllocError>
    requires { interfaces ≤ 1024 }
    ensures { IfOk result (λ flags. flags.items ≡ free_flags freed.now.keys (2 * interfaces)) }
{
    let mut flags = Vec::new(alloc);
    for slot in 0..2 * interfaces {
        flags.push(freed.contains(&(slot as u16)))?;
    }
    Ok(flags)
}

/// The network of what is declared.
#[tactic(auto, unfolding(crate::specs::Declaring::network_of))]
fn network(alloc: Global, draft: Draft) -> Result<Network, AllocError>
    requires { IsDraft draft }
    ensures { IfOk result (λ net. net ≡ network_of draft.declared) }
{
    let declared = draft.declared;
    let free = free_flags(alloc, &draft.freed, declared.interfaces.len())?;
    Ok(Network {
        areas: declared.areas,
        devices: declared.devices,
        interfaces: declared.interfaces,
        free: Items::from_vec(free),
        goals: declared.goals,
        sas: declared.sas,
        tables: declared.tables.into_items(),
        ipgoals: declared.ipgoals,
        depth: declared.depth.unwrap_or(DEFAULT_DEPTH),
    })
}

/// The network that a text declares: areas, devices, interfaces, free slots and filtering goals, and
/// the IPsec part's security associations (RFC 4301), rules and goals (Guttman and Herzog, Rigorous
/// automated network security management, 2005), at most 256 of each but for 1,024 interfaces and
/// 4,096 rules, and a depth of 1 to 16.
///
/// `Fault` comes where a line is faulty: the number of the first such line, counted from 1, and its
/// first fault in the order of its words. `Memory` may come at any time.
#[tactic(auto, using(crate::proofs::LineReading::net_begins))]
pub fn read_net(alloc: Global, bytes: &[u8]) -> Result<Network, NetError>
    ensures net { IfOk result (λ net. net_of bytes.now ≡ Ok net) }
    ensures fault { IfErr result (λ error. IsFaultOf (net_of bytes.now) error) }
{
    let mut draft = Draft::new(alloc);
    for line in lines(bytes) {
        read_line(alloc, &mut draft, line.number, line.bytes)?;
    }
    Ok(network(alloc, draft)?)
}
