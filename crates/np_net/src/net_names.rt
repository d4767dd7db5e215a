//! The numbers of a network's items by their names.

ghost use Rattle.std.specs.Prelude.{◌≡◌, ◌<◌, length, IfOk, IfSome};
ghost use Rattle.std.specs.Str.{bytes_eq};
ghost use Rattle.np_net.specs.Distinct.{AreDistinct, same_place};
ghost use Rattle.np_net.specs.Naming.{id_named, interface_id_named, name_lists};
ghost use Rattle.np_net.specs.Plan.{area_names, device_names, interface_names, sa_names};

use crate::associations::Sa;
use crate::filtering::{Area, Device, Interface};
use crate::names::{Names, Places};
use crate::network::{AreaId, DevId, IfId, Network, SaId};
use std::alloc::{AllocError, Global};
use std::marker::Model;

/// The names of a network, for looking its items up. It is made once, by going through the network,
/// and then gives each number by a hash. Contracts see its lists of names.
#[derive(Drop)]
pub struct NetNames {
    areas: Names,
    devices: Names,
    interfaces: Places,
    sas: Names,
}

impl Model for NetNames {
    ghost use Rattle.np_net.specs.Naming.{NameLists, AreFewNames};

    ghost Value = { NameLists };

    ghost view = { λ names. record { areas = names.areas; devices = names.devices; interfaces = names.interfaces; sas = names.sas } };

    ghost invariant = { λ names. AreFewNames record { areas = names.areas; devices = names.devices; interfaces = names.interfaces; sas = names.sas } };
}

fn names_of_areas(alloc: Global, areas: &[Area]) -> Result<Names, AllocError>
    requires { AreDistinct bytes_eq (area_names areas.now) }
    ensures { IfOk result (λ names. names ≡ area_names areas.now) }
{
    let mut names = Names::new(alloc);
    for area in areas {
        names.add(alloc, area.name.bytes())?;
    }
    Ok(names)
}

fn names_of_devices(alloc: Global, devices: &[Device]) -> Result<Names, AllocError>
    requires { AreDistinct bytes_eq (device_names devices.now) }
    ensures { IfOk result (λ names. names ≡ device_names devices.now) }
{
    let mut names = Names::new(alloc);
    for device in devices {
        names.add(alloc, device.name.bytes())?;
    }
    Ok(names)
}

fn places_of_interfaces(alloc: Global, interfaces: &[Interface]) -> Result<Places, AllocError>
    requires { AreDistinct same_place (interface_names interfaces.now) }
    ensures { IfOk result (λ places. places ≡ interface_names interfaces.now) }
{
    let mut places = Places::new(alloc);
    for interface in interfaces {
        places.add(alloc, interface.device, interface.name.bytes())?;
    }
    Ok(places)
}

fn names_of_sas(alloc: Global, sas: &[Sa]) -> Result<Names, AllocError>
    requires { AreDistinct bytes_eq (sa_names sas.now) }
    ensures { IfOk result (λ names. names ≡ sa_names sas.now) }
{
    let mut names = Names::new(alloc);
    for sa in sas {
        names.add(alloc, sa.name.bytes())?;
    }
    Ok(names)
}

impl NetNames {
    /// The names of a network. The error says that memory ran out.
    pub fn of(alloc: Global, net: &Network) -> Result<NetNames, AllocError>
        ensures { IfOk result (λ names. names ≡ name_lists net.now) }
    {
        let areas = names_of_areas(alloc, net.areas.as_slice())?;
        let devices = names_of_devices(alloc, net.devices.as_slice())?;
        let interfaces = places_of_interfaces(alloc, net.interfaces.as_slice())?;
        let sas = names_of_sas(alloc, net.sas.as_slice())?;
        Ok(NetNames {
            areas,
            devices,
            interfaces,
            sas,
        })
    }

    /// The number of the area with this name; `Ok(None)` exactly where there is none. The error says
    /// that memory ran out.
    pub fn area(&self, alloc: Global, word: &[u8]) -> Result<Option<AreaId>, AllocError>
        ensures id { IfOk result (λ id. id ≡ id_named self.now.areas word.now) }
        ensures within { IfOk result (λ id. IfSome id (λ n. n < length self.now.areas)) }
    {
        match self.areas.place(alloc, word)? {
            Some(place) => Ok(Some(place as AreaId)),
            None => Ok(None),
        }
    }

    /// The number of the device with this name; `Ok(None)` exactly where there is none. The error says
    /// that memory ran out.
    pub fn device(&self, alloc: Global, word: &[u8]) -> Result<Option<DevId>, AllocError>
        ensures id { IfOk result (λ id. id ≡ id_named self.now.devices word.now) }
        ensures within { IfOk result (λ id. IfSome id (λ n. n < length self.now.devices)) }
    {
        match self.devices.place(alloc, word)? {
            Some(place) => Ok(Some(place as DevId)),
            None => Ok(None),
        }
    }

    /// The number of the interface of this device with this name; `Ok(None)` exactly where there is
    /// none. The error says that memory ran out.
    pub fn interface(
        &self,
        alloc: Global,
        device: DevId,
        word: &[u8],
    ) -> Result<Option<IfId>, AllocError>
        ensures id { IfOk result (λ id. id ≡ interface_id_named self.now.interfaces device word.now) }
        ensures within { IfOk result (λ id. IfSome id (λ n. n < length self.now.interfaces)) }
    {
        match self.interfaces.place(alloc, device, word)? {
            Some(place) => Ok(Some(place as IfId)),
            None => Ok(None),
        }
    }

    /// The number of the security association with this name; `Ok(None)` exactly where there is none.
    /// The error says that memory ran out.
    pub fn association(&self, alloc: Global, word: &[u8]) -> Result<Option<SaId>, AllocError>
        ensures id { IfOk result (λ id. id ≡ id_named self.now.sas word.now) }
        ensures within { IfOk result (λ id. IfSome id (λ n. n < length self.now.sas)) }
    {
        match self.sas.place(alloc, word)? {
            Some(place) => Ok(Some(place as SaId)),
            None => Ok(None),
        }
    }
}
