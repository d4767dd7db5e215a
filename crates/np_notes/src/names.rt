//! The names of a device's interfaces.

ghost use Rattle.std.specs.Prelude.{◌≡◌, [], IfOk};
ghost use Rattle.std.specs.List.{filter_map};
ghost use Rattle.np_notes.specs.NameNotes.{interfaces_of, name_at_device};
ghost use Rattle.np_notes.specs.Naming.{with_each};

use crate::name_set::NameSet;
use np_net::{DevId, Interface, Network};
use std::alloc::{AllocError, Global};

/// The names of those of these interfaces that are a device's.
fn names_at(alloc: Global, interfaces: &[Interface], device: DevId) -> Result<NameSet, AllocError>
    ensures { IfOk result (λ names. names ≡ with_each [] (filter_map (name_at_device device) interfaces.now)) }
{
    let mut names = NameSet::new(alloc);
    for interface in interfaces {
        if interface.device == device {
            names.add(alloc, &interface.name)?;
        }
    }
    Ok(names)
}

/// The names of a device's interfaces. An error comes only where memory runs out.
pub fn interface_names(alloc: Global, net: &Network, device: DevId) -> Result<NameSet, AllocError>
    ensures { IfOk result (λ names. names ≡ with_each [] (interfaces_of net.now device)) }
{
    names_at(alloc, net.interfaces.as_slice(), device)
}
