//! What the lines of a network's text declare.

use crate::tables::Tables;
use np_net::{Area, Device, Goal, Interface, IpGoal, Sa};
use sqlite_items::Items;

/// What lines declare, each list in their order.
#[derive(Debug, Drop)]
pub struct Declared {
    pub areas: Items<Area>,
    pub devices: Items<Device>,
    pub interfaces: Items<Interface>,
    /// The free slots.
    pub freed: Items<u16>,
    pub goals: Items<Goal>,
    pub sas: Items<Sa>,
    /// One for each interface.
    pub tables: Tables,
    pub ipgoals: Items<IpGoal>,
    pub depth: Option<u8>,
}
