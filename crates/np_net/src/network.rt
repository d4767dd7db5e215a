//! A network, with what holds of every one.

use crate::associations::{IpGoal, Sa, Table};
use crate::filtering::{Area, Device, Goal, Interface};
use sqlite_items::Items;
use std::marker::Model;

/// An area, by its place among the areas.
pub type AreaId = u16;

/// A device, by its place among the devices.
pub type DevId = u16;

/// An interface, by its place among the interfaces.
pub type IfId = u16;

/// A security association, by its place among the associations.
pub type SaId = u16;

/// A network: areas joined by filtering devices (Guttman and Herzog 2005), and its security
/// associations (RFC 4301). Each list has the order of the lines that declare its items.
///
/// Of every network it is known that each place that stands for an item has one, that the lists are
/// within their limits, that names have their forms and are unique where they have to be, and that
/// each association is used at its ends (`IsNetwork` of `specs/Network.antt`).
#[derive(Debug, Drop)]
pub struct Network {
    /// At most 256.
    pub areas: Items<Area>,
    /// At most 256.
    pub devices: Items<Device>,
    /// At most 1,024.
    pub interfaces: Items<Interface>,
    /// Whether synthesis may choose what crosses a slot. Slot `2 * i` is interface `i` inward, and
    /// slot `2 * i + 1` is interface `i` outward.
    pub free: Items<bool>,
    /// At most 256.
    pub goals: Items<Goal>,
    /// At most 256.
    pub sas: Items<Sa>,
    /// One for each interface, with at most 4,096 rules in all.
    pub tables: Items<Table>,
    /// At most 256.
    pub ipgoals: Items<IpGoal>,
    /// How many associations' headers a packet may have, 1 to 16.
    pub depth: u8,
}

impl Model for Network {
    ghost use Rattle.np_net.specs.Plan.{Plan};

    ghost Value = { Plan };

    ghost use Rattle.std.specs.Coded.{codes};
    ghost use Rattle.np_pred.specs.contracts.predicate.Pred as predicates;

    ghost coded = { Prim.hlevel (codes, predicates.the_row.coded) };

    ghost use Rattle.np_net.specs.Network.{IsNetwork};

    ghost view = { λ net. record {
      areas = net.areas;
      devices = net.devices;
      interfaces = net.interfaces;
      free = net.free;
      goals = net.goals;
      sas = net.sas;
      tables = net.tables;
      ipgoals = net.ipgoals;
      depth = net.depth;
    } };

    ghost invariant = { λ net. IsNetwork record {
      areas = net.areas;
      devices = net.devices;
      interfaces = net.interfaces;
      free = net.free;
      goals = net.goals;
      sas = net.sas;
      tables = net.tables;
      ipgoals = net.ipgoals;
      depth = net.depth;
    } };
}
