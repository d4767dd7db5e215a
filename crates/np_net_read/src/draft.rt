//! What is kept while a network's text is read.

ghost use Rattle.std.specs.Prelude.{◌≡◌, ◌<◌, [], false, length, nat_eq, None, IfOk, OnOk, IsTrue};
ghost use Rattle.std.specs.List.{list_any};
ghost use Rattle.std.specs.Str.{bytes_eq};
ghost use Rattle.np_net_read.specs.Drafting.{IsDraft};
ghost use Rattle.np_net_read.specs.Fitting.{Fits, IsNewArea, IsNewDevice, IsNewInRule, IsNewInterface, IsNewOutRule, IsNewPop, IsNewSa, IsNewSlot, added};
ghost use Rattle.np_net_read.specs.Declaring.{declared_by_network};
ghost use Rattle.np_lines.specs.Answers.{Gives};
ghost use Rattle.np_net_read.specs.Judging as judging;
ghost use Rattle.np_net_read.specs.declared.statement.Statement.TheVariants as says;
ghost use Rattle.np_net.specs.Distinct.{same_place};
ghost use Rattle.np_net.specs.Names as form;
ghost use Rattle.np_net.specs.Plan.{area_names, device_names, interface_names, sa_names};

use crate::declared::Declared;
use crate::fault::NetWhy;
use crate::statement::Statement;
use crate::tables::Tables;
use crate::tokens::{interface_named, named, new_interface_name, new_name};
use indexmap::IndexSet;
use np_lines::LineError;
use np_net::{Area, Device, IfId, InRule, Interface, Names, OutRule, Places, Sa, SaId};
use np_pred::Areas;
use np_text::Name;
use sqlite_items::Items;
use std::alloc::{AllocError, Global};

/// What the lines so far declare, and its names for looking them up.
#[derive(Drop)]
pub struct Draft {
    pub declared: Declared,
    pub area_names: Names,
    /// The areas, as predicates name them.
    pub sources: Areas,
    pub device_names: Names,
    pub places: Places,
    /// The free slots.
    pub freed: IndexSet<u16>,
    pub sa_names: Names,
    /// How many rules the tables have in all.
    pub rules: usize,
}

/// Nothing is declared.
#[tactic(auto, unfolding(crate::specs::Declaring::declared_by_network))]
fn nothing_declared(alloc: Global) -> Declared
    ensures { result ≡ declared_by_network [] }
{
    Declared {
        areas: Items::new(alloc),
        devices: Items::new(alloc),
        interfaces: Items::new(alloc),
        freed: Items::new(alloc),
        goals: Items::new(alloc),
        sas: Items::new(alloc),
        tables: Tables::new(alloc),
        ipgoals: Items::new(alloc),
        depth: None,
    }
}

impl Draft {
    /// Before any line is read.
    pub fn new(alloc: Global) -> Draft
        ensures declared { result.declared ≡ declared_by_network [] }
        ensures draft { IsDraft result }
    {
        Draft {
            declared: nothing_declared(alloc),
            area_names: Names::new(alloc),
            sources: Areas::new(alloc),
            device_names: Names::new(alloc),
            places: Places::new(alloc),
            freed: IndexSet::new(alloc),
            sa_names: Names::new(alloc),
            rules: 0,
        }
    }

    fn add_area(&mut self, alloc: Global, area: Area) -> Result<(), AllocError>
        requires draft { IsDraft self.old }
        requires fits { IsNewArea self.old.declared area }
        ensures declared { OnOk result (self.new.declared ≡ added self.old.declared (says.Area area)) }
        ensures draft { OnOk result (IsDraft self.new) }
    {
        let sources = Items::from_slice(alloc, area.sources.as_slice())?;
        self.sources.add(alloc, area.name.copy(alloc)?, sources)?;
        self.area_names.add(alloc, area.name.bytes())?;
        self.declared.areas.push(area)?;
        Ok(())
    }

    fn add_device(&mut self, alloc: Global, device: Device) -> Result<(), AllocError>
        requires draft { IsDraft self.old }
        requires fits { IsNewDevice self.old.declared device }
        ensures declared { OnOk result (self.new.declared ≡ added self.old.declared (says.Device device)) }
        ensures draft { OnOk result (IsDraft self.new) }
    {
        self.device_names.add(alloc, device.name.bytes())?;
        self.declared.devices.push(device)?;
        Ok(())
    }

    fn add_interface(&mut self, alloc: Global, interface: Interface) -> Result<(), AllocError>
        requires draft { IsDraft self.old }
        requires fits { IsNewInterface self.old.declared interface }
        ensures declared { OnOk result (self.new.declared ≡ added self.old.declared (says.Interface interface)) }
        ensures draft { OnOk result (IsDraft self.new) }
    {
        self.places
            .add(alloc, interface.device, interface.name.bytes())?;
        self.declared.interfaces.push(interface)?;
        self.declared.tables.begin(alloc)?;
        Ok(())
    }

    fn add_slot(&mut self, slot: u16) -> Result<(), AllocError>
        requires draft { IsDraft self.old }
        requires fits { IsNewSlot self.old.declared slot }
        ensures declared { OnOk result (self.new.declared ≡ added self.old.declared (says.Free slot)) }
        ensures draft { OnOk result (IsDraft self.new) }
    {
        self.freed.insert(slot)?;
        self.declared.freed.push(slot)?;
        Ok(())
    }

    fn add_sa(&mut self, alloc: Global, sa: Sa) -> Result<(), AllocError>
        requires draft { IsDraft self.old }
        requires fits { IsNewSa self.old.declared sa }
        ensures declared { OnOk result (self.new.declared ≡ added self.old.declared (says.Sa sa)) }
        ensures draft { OnOk result (IsDraft self.new) }
    {
        self.sa_names.add(alloc, sa.name.bytes())?;
        self.declared.sas.push(sa)?;
        Ok(())
    }

    fn add_pop(&mut self, interface: IfId, sa: SaId) -> Result<(), AllocError>
        requires draft { IsDraft self.old }
        requires fits { IsNewPop self.old.declared interface sa }
        ensures declared { OnOk result (self.new.declared ≡ added self.old.declared (says.Pop interface sa)) }
        ensures draft { OnOk result (IsDraft self.new) }
    {
        self.declared.tables.add_pop(interface, sa)?;
        self.rules += 1;
        Ok(())
    }

    fn add_in_rule(&mut self, interface: IfId, rule: InRule) -> Result<(), AllocError>
        requires draft { IsDraft self.old }
        requires fits { IsNewInRule self.old.declared interface rule }
        ensures declared { OnOk result (self.new.declared ≡ added self.old.declared (says.InRule interface rule)) }
        ensures draft { OnOk result (IsDraft self.new) }
    {
        self.declared.tables.add_in_rule(interface, rule)?;
        self.rules += 1;
        Ok(())
    }

    fn add_out_rule(&mut self, interface: IfId, rule: OutRule) -> Result<(), AllocError>
        requires draft { IsDraft self.old }
        requires fits { IsNewOutRule self.old.declared interface rule }
        ensures declared { OnOk result (self.new.declared ≡ added self.old.declared (says.OutRule interface rule)) }
        ensures draft { OnOk result (IsDraft self.new) }
    {
        self.declared.tables.add_out_rule(interface, rule)?;
        self.rules += 1;
        Ok(())
    }

    /// Adds what a statement declares.
    pub fn add(&mut self, alloc: Global, statement: Statement) -> Result<(), AllocError>
        requires draft { IsDraft self.old }
        requires fits { Fits self.old.declared statement }
        ensures declared { OnOk result (self.new.declared ≡ added self.old.declared statement) }
        ensures draft { OnOk result (IsDraft self.new) }
    {
        match statement {
            Statement::Depth(depth) => self.declared.depth = Some(depth),
            Statement::Area(area) => self.add_area(alloc, area)?,
            Statement::Device(device) => self.add_device(alloc, device)?,
            Statement::Interface(interface) => self.add_interface(alloc, interface)?,
            Statement::Free(slot) => self.add_slot(slot)?,
            Statement::Goal(goal) => self.declared.goals.push(goal)?,
            Statement::Sa(sa) => self.add_sa(alloc, sa)?,
            Statement::Pop { interface, sa } => self.add_pop(interface, sa)?,
            Statement::InRule { interface, rule } => self.add_in_rule(interface, rule)?,
            Statement::OutRule { interface, rule } => self.add_out_rule(interface, rule)?,
            Statement::IpGoal(goal) => self.declared.ipgoals.push(goal)?,
        }
        Ok(())
    }
}

impl Draft {
    /// The number of a declared area.
    #[tactic(auto, using(crate::proofs::DraftLaws::few_areas))]
    pub fn area(&self, alloc: Global, word: &[u8]) -> Result<u16, LineError<NetWhy>>
        requires { IsDraft self.now }
        ensures says { Gives result (judging.named (area_names self.now.declared.areas) word.now) }
        ensures within { IfOk result (λ n. n < length self.now.declared.areas) }
    {
        named(alloc, &self.area_names, word)
    }

    /// The number of a declared device.
    #[tactic(auto, using(crate::proofs::DraftLaws::few_devices))]
    pub fn device(&self, alloc: Global, word: &[u8]) -> Result<u16, LineError<NetWhy>>
        requires { IsDraft self.now }
        ensures says { Gives result (judging.named (device_names self.now.declared.devices) word.now) }
        ensures within { IfOk result (λ n. n < length self.now.declared.devices) }
    {
        named(alloc, &self.device_names, word)
    }

    /// The number of a declared interface of a device.
    #[tactic(auto, using(crate::proofs::DraftLaws::few_interfaces))]
    pub fn interface(
        &self,
        alloc: Global,
        device: u16,
        word: &[u8],
    ) -> Result<u16, LineError<NetWhy>>
        requires { IsDraft self.now }
        ensures says { Gives result (judging.interface_named (interface_names self.now.declared.interfaces) device word.now) }
        ensures within { IfOk result (λ n. n < length self.now.declared.interfaces) }
        ensures small { IfOk result (λ n. n < 1024) }
    {
        interface_named(alloc, &self.places, device, word)
    }

    /// The number of a declared association.
    #[tactic(auto, using(crate::proofs::DraftLaws::few_sas))]
    pub fn sa(&self, alloc: Global, word: &[u8]) -> Result<SaId, LineError<NetWhy>>
        requires { IsDraft self.now }
        ensures says { Gives result (judging.named (sa_names self.now.declared.sas) word.now) }
        ensures within { IfOk result (λ n. n < length self.now.declared.sas) }
    {
        named(alloc, &self.sa_names, word)
    }

    /// The name of a new area.
    pub fn new_area(&self, alloc: Global, word: &[u8]) -> Result<Name, LineError<NetWhy>>
        requires { IsDraft self.now }
        ensures says { Gives result (judging.new_name (area_names self.now.declared.areas) word.now) }
        ensures formed { IfOk result (λ name. IsTrue (form.is_name name)) }
        ensures new { IfOk result (λ name. list_any (bytes_eq name) (area_names self.now.declared.areas) ≡ false) }
    {
        new_name(alloc, &self.area_names, word)
    }

    /// The name of a new device.
    pub fn new_device(&self, alloc: Global, word: &[u8]) -> Result<Name, LineError<NetWhy>>
        requires { IsDraft self.now }
        ensures says { Gives result (judging.new_name (device_names self.now.declared.devices) word.now) }
        ensures formed { IfOk result (λ name. IsTrue (form.is_name name)) }
        ensures new { IfOk result (λ name. list_any (bytes_eq name) (device_names self.now.declared.devices) ≡ false) }
    {
        new_name(alloc, &self.device_names, word)
    }

    /// The name of a new association.
    pub fn new_sa(&self, alloc: Global, word: &[u8]) -> Result<Name, LineError<NetWhy>>
        requires { IsDraft self.now }
        ensures says { Gives result (judging.new_name (sa_names self.now.declared.sas) word.now) }
        ensures formed { IfOk result (λ name. IsTrue (form.is_name name)) }
        ensures new { IfOk result (λ name. list_any (bytes_eq name) (sa_names self.now.declared.sas) ≡ false) }
    {
        new_name(alloc, &self.sa_names, word)
    }

    /// The name of a new interface of a device.
    pub fn new_interface(
        &self,
        alloc: Global,
        device: u16,
        word: &[u8],
    ) -> Result<Name, LineError<NetWhy>>
        requires { IsDraft self.now }
        ensures says { Gives result (judging.new_interface_name (interface_names self.now.declared.interfaces) device word.now) }
        ensures formed { IfOk result (λ name. IsTrue (form.is_interface_name name)) }
        ensures new { IfOk result (λ name. list_any (same_place (device, name)) (interface_names self.now.declared.interfaces) ≡ false) }
    {
        new_interface_name(alloc, &self.places, device, word)
    }

    /// A slot that isn't free yet.
    pub fn new_slot(&self, slot: u16) -> Result<u16, LineError<NetWhy>>
        requires { IsDraft self.now }
        ensures says { Gives result (judging.new_slot self.now.declared.freed slot) }
        ensures same { IfOk result (λ s. s ≡ slot) }
        ensures new { IfOk result (λ s. list_any (nat_eq s) self.now.declared.freed ≡ false) }
    {
        if self.freed.contains(&slot) {
            return Err(LineError::Faulty(NetWhy::Duplicate));
        }
        Ok(slot)
    }
}
