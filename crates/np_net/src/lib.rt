//! A network: areas, filtering devices and their interfaces, filtering goals, and the IPsec part.
#![tactic(auto)]

mod associations;
mod belonging;
mod filtering;
mod forms;
mod laws;
mod limits;
mod names;
mod naming;
mod net_names;
mod network;
mod paths;
mod pred_faults;
mod sources;

pub use associations::{
    InAction, InRule, IpGoal, Kind, MarkTest, Match, OutAction, OutRule, Sa, Table,
};
pub use belonging::{area_of, device_of};
pub use filtering::{Area, Device, Goal, Interface};
pub use forms::{is_interface_name, is_name};
pub use laws::{limits_are_these, names_are_found};
pub use limits::{DECLARATION_LIMIT, DEPTH_LIMIT, INTERFACE_LIMIT, NAME_LIMIT, RULE_LIMIT};
pub use names::{Names, Places};
pub use naming::{area_name, device_name, interface_name, sa_name};
pub use net_names::NetNames;
pub use network::{AreaId, DevId, IfId, Network, SaId};
pub use np_pred::NESTING_LIMIT;
pub use paths::{Path, path_links};
pub use pred_faults::{PredWhy, pred_why};
pub use sources::areas_of;
