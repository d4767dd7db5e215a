//! The filtering part of a network: its areas, devices, interfaces and goals (Guttman and Herzog,
//! Rigorous automated network security management, 2005).

use crate::network::{AreaId, DevId};
use np_pred::Pred;
use np_space::Ternary;
use np_text::Name;
use sqlite_items::Items;

/// An area, and the addresses that its hosts send from.
#[derive(Debug, Drop)]
pub struct Area {
    pub name: Name,
    /// Prefixes.
    pub sources: Items<Ternary>,
    /// Whether the IPsec part trusts every host of the area.
    pub trusted: bool,
}

/// A filtering device.
#[derive(Debug, Drop)]
pub struct Device {
    pub name: Name,
    /// The file that holds the device's configuration. A device without one filters nothing.
    pub config: Option<Name>,
    /// Whether the IPsec part trusts the device.
    pub trusted: bool,
}

/// An interface, which joins a device and an area.
#[derive(Debug, Drop)]
pub struct Interface {
    /// Its name, which no other interface of the device has.
    pub name: Name,
    pub device: DevId,
    pub area: AreaId,
}

/// A filtering goal: which packets from one area may not be in another.
#[derive(Debug, Drop)]
pub struct Goal {
    pub from: AreaId,
    pub to: AreaId,
    /// Whether the packets for which `pred` holds are the only ones that may, or those that may not.
    pub only: bool,
    pub pred: Pred,
}
