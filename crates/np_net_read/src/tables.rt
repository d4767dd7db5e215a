//! The tables of the interfaces that are declared.

ghost use Rattle.std.specs.Prelude.{◌≡◌, ◌<◌, ◌++◌, ◌∷◌, [], length, OnOk};
ghost use Rattle.np_net_read.specs.Tables.{changed_at, no_rules, with_in_rule, with_out_rule, with_pop};

use np_net::{IfId, InRule, OutRule, SaId, Table};
use sqlite_items::Items;
use std::alloc::{AllocError, Global};
use std::marker::Model;

/// The tables of interfaces, in the order of these. Contracts see the list of them.
#[derive(Debug, Drop)]
pub struct Tables {
    tables: Vec<Table>,
}

impl Model for Tables {
    ghost use Rattle.std.specs.Prelude.{List};
    ghost use Rattle.np_net.specs.declared.associations.Table.{Table};

    ghost Value = { List Table };

    ghost use Rattle.std.specs.Coded.{codes};
    ghost use Rattle.np_pred.specs.contracts.predicate.Pred as predicates;

    ghost coded = { Prim.hlevel (codes, predicates.the_row.coded) };

    ghost view = { λ it. it.tables.items };
}

fn no_rules(alloc: Global) -> Table
    ensures { result ≡ no_rules }
{
    Table {
        pops: Items::new(alloc),
        ins: Items::new(alloc),
        outs: Items::new(alloc),
    }
}

impl Tables {
    /// No tables.
    pub fn new(alloc: Global) -> Tables
        ensures { result ≡ [] }
    {
        Tables {
            tables: Vec::new(alloc),
        }
    }

    /// The tables in their order.
    pub fn as_slice(&self) -> &[Table]
        ensures { result.now ≡ self.now }
    {
        self.tables.as_slice()
    }

    /// The tables in their order, without taking memory.
    pub fn into_items(self) -> Items<Table>
        ensures { result ≡ self }
    {
        Items::from_vec(self.tables)
    }

    /// Adds the table of one more interface, which has no rules yet.
    pub fn begin(&mut self, alloc: Global) -> Result<(), AllocError>
        ensures { OnOk result (self.new ≡ self.old ++ no_rules ∷ []) }
    {
        self.tables.push(no_rules(alloc))?;
        Ok(())
    }

    /// Adds a pop rule after those of its interface.
    pub fn add_pop(&mut self, interface: IfId, sa: SaId) -> Result<(), AllocError>
        requires { interface < length self.old }
        ensures { OnOk result (self.new ≡ changed_at interface (with_pop sa) self.old) }
    {
        self.tables[interface as usize].pops.push(sa)?;
        Ok(())
    }

    /// Adds an inward rule after those of its interface.
    pub fn add_in_rule(&mut self, interface: IfId, rule: InRule) -> Result<(), AllocError>
        requires { interface < length self.old }
        ensures { OnOk result (self.new ≡ changed_at interface (with_in_rule rule) self.old) }
    {
        self.tables[interface as usize].ins.push(rule)?;
        Ok(())
    }

    /// Adds an outward rule after those of its interface.
    pub fn add_out_rule(&mut self, interface: IfId, rule: OutRule) -> Result<(), AllocError>
        requires { interface < length self.old }
        ensures { OnOk result (self.new ≡ changed_at interface (with_out_rule rule) self.old) }
    {
        self.tables[interface as usize].outs.push(rule)?;
        Ok(())
    }
}
