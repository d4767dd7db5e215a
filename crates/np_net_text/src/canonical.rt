//! The canonical text of a network, and the lines of its filtering part.

ghost use Rattle.std.specs.Prelude.{◌≡◌, ◌++◌, ◌∷◌, length, IfOk, OnOk, OnErr};
ghost use Rattle.std.specs.List.{AllByRecursion, flat_map};
ghost use Rattle.np_text.specs.Appending.{AppendsFront};
ghost use Rattle.np_net.specs.Network.{IsGoal};
ghost use Rattle.np_net_text.specs.Canonical as canonical;
ghost use Rattle.np_net_text.specs.CanonicalText.{line_text, lines_text, spaced};

use crate::canonical_ipsec::put_ipsec;
use crate::canonical_words::{put_place, put_pred_words, put_word};
use np_net::{Area, Device, Goal, Interface, Network, area_name, device_name};
use np_pred::put_addresses;
use np_text::{Name, put_number};
use std::alloc::{AllocError, Global};

// Appends the line of the depth.
fn put_depth(out: &mut Vec<u8>, depth: u8) -> Result<(), AllocError>
    ensures { OnOk result (out.new.items ≡ out.old.items ++ line_text (canonical.depth_words depth)) }
{
    out.extend_from_slice(b"depth ")?;
    put_number(out, u64::from(depth))?;
    out.push(b'\n')?;
    Ok(())
}

// Appends `trusted` after a space, or nothing.
fn put_trusted(out: &mut Vec<u8>, trusted: bool) -> Result<(), AllocError>
    ensures { OnOk result (out.new.items ≡ out.old.items ++ spaced (canonical.trusted_words trusted)) }
{
    if trusted {
        put_word(out, b"trusted")?;
    }
    Ok(())
}

// Appends the line of an area.
fn put_area(out: &mut Vec<u8>, area: &Area) -> Result<(), AllocError>
    ensures { OnOk result (out.new.items ≡ out.old.items ++ line_text (canonical.area_words area.now)) }
{
    out.extend_from_slice(b"area")?;
    put_word(out, area.name.bytes())?;
    out.push(b' ')?;
    put_addresses(out, area.sources.as_slice())?;
    put_trusted(out, area.trusted)?;
    out.push(b'\n')?;
    Ok(())
}

// Appends the lines of areas.
fn put_areas(out: &mut Vec<u8>, areas: &[Area]) -> Result<(), AllocError>
    ensures { OnOk result (out.new.items ≡ out.old.items ++ flat_map (λ area. line_text (canonical.area_words area)) areas.now) }
{
    for area in areas {
        put_area(out, area)?;
    }
    Ok(())
}

// Appends `config` and the file's name, each after a space, or nothing.
fn put_config(out: &mut Vec<u8>, config: &Option<Name>) -> Result<(), AllocError>
    ensures { OnOk result (out.new.items ≡ out.old.items ++ spaced (canonical.config_words config.now)) }
{
    if let Some(file) = config {
        put_word(out, b"config")?;
        put_word(out, file.bytes())?;
    }
    Ok(())
}

// Appends the line of a device.
fn put_device(out: &mut Vec<u8>, device: &Device) -> Result<(), AllocError>
    ensures { OnOk result (out.new.items ≡ out.old.items ++ line_text (canonical.device_words device.now)) }
{
    out.extend_from_slice(b"device")?;
    put_word(out, device.name.bytes())?;
    put_config(out, &device.config)?;
    put_trusted(out, device.trusted)?;
    out.push(b'\n')?;
    Ok(())
}

// Appends the lines of devices.
fn put_devices(out: &mut Vec<u8>, devices: &[Device]) -> Result<(), AllocError>
    ensures { OnOk result (out.new.items ≡ out.old.items ++ flat_map (λ device. line_text (canonical.device_words device)) devices.now) }
{
    for device in devices {
        put_device(out, device)?;
    }
    Ok(())
}

// Appends the line of an interface.
fn put_interface(out: &mut Vec<u8>, net: &Network, interface: &Interface) -> Result<(), AllocError>
    ensures { OnOk result (out.new.items ≡ out.old.items ++ line_text (canonical.interface_words net.now interface.now)) }
{
    out.extend_from_slice(b"interface")?;
    put_place(out, net, interface)?;
    put_word(out, area_name(net, interface.area))?;
    out.push(b'\n')?;
    Ok(())
}

// Appends the lines of interfaces.
fn put_interfaces(
    out: &mut Vec<u8>,
    net: &Network,
    interfaces: &[Interface],
) -> Result<(), AllocError>
    ensures { OnOk result (out.new.items ≡ out.old.items ++ flat_map (λ interface. line_text (canonical.interface_words net.now interface)) interfaces.now) }
{
    for interface in interfaces {
        put_interface(out, net, interface)?;
    }
    Ok(())
}

// Appends the line of a slot, where it is free.
fn put_slot(
    out: &mut Vec<u8>,
    net: &Network,
    interface: &Interface,
    way: &[u8],
    free: bool,
) -> Result<(), AllocError>
    ensures { OnOk result (out.new.items ≡ out.old.items ++ lines_text (canonical.slot_line net.now interface.now way.now free)) }
{
    if free {
        out.extend_from_slice(b"free")?;
        put_place(out, net, interface)?;
        put_word(out, way)?;
        out.push(b'\n')?;
    }
    Ok(())
}

// Appends the lines of the free slots of interfaces, each of which has the next two of the flags.
fn put_free(
    out: &mut Vec<u8>,
    net: &Network,
    interfaces: &[Interface],
    free: &[bool],
) -> Result<(), AllocError>
    ensures { OnOk result (out.new.items ≡ out.old.items ++ lines_text (canonical.free_lines net.now interfaces.now free.now)) }
{
    let mut flags = free;
    for interface in interfaces {
        let [inward, outward, rest @ ..] = flags else {
            return Ok(());
        };
        put_slot(out, net, interface, b"in", *inward)?;
        put_slot(out, net, interface, b"out", *outward)?;
        flags = rest;
    }
    Ok(())
}

fn only_word(only: bool) -> &'static [u8]
    ensures { result.now ≡ canonical.only_word only }
{
    if only { b"only" } else { b"never" }
}

// Appends the line of a goal.
fn put_goal(out: &mut Vec<u8>, net: &Network, goal: &Goal) -> Result<(), AllocError>
    requires { IsGoal (length net.now.areas) goal.now }
    ensures { OnOk result (out.new.items ≡ out.old.items ++ line_text (canonical.goal_words net.now goal.now)) }
{
    out.extend_from_slice(b"goal")?;
    put_word(out, area_name(net, goal.from))?;
    put_word(out, area_name(net, goal.to))?;
    put_word(out, only_word(goal.only))?;
    put_pred_words(out, &goal.pred)?;
    out.push(b'\n')?;
    Ok(())
}

// Appends the lines of goals.
fn put_goals(out: &mut Vec<u8>, net: &Network, goals: &[Goal]) -> Result<(), AllocError>
    requires { AllByRecursion (λ goal. IsGoal (length net.now.areas) goal) goals.now }
    ensures { OnOk result (out.new.items ≡ out.old.items ++ flat_map (λ goal. line_text (canonical.goal_words net.now goal)) goals.now) }
{
    for goal in goals {
        put_goal(out, net, goal)?;
    }
    Ok(())
}

// Appends the lines of the filtering part.
fn put_filtering(out: &mut Vec<u8>, net: &Network) -> Result<(), AllocError>
    ensures { OnOk result (out.new.items ≡ out.old.items ++ lines_text (canonical.filtering_lines net.now)) }
{
    put_depth(out, net.depth)?;
    put_areas(out, net.areas.as_slice())?;
    put_devices(out, net.devices.as_slice())?;
    put_interfaces(out, net, net.interfaces.as_slice())?;
    put_free(out, net, net.interfaces.as_slice(), net.free.as_slice())?;
    put_goals(out, net, net.goals.as_slice())
}

// The canonical text of a network.
fn net_text(alloc: Global, net: &Network) -> Result<Vec<u8>, AllocError>
    ensures { IfOk result (λ text. text.items ≡ canonical.net_text net.now) }
{
    let mut text = Vec::new(alloc);
    put_filtering(&mut text, net)?;
    put_ipsec(&mut text, net)?;
    Ok(text)
}

/// Appends the canonical text of a network, which [`read_net`](np_net_read::read_net) reads as this network.
///
/// An error comes only where memory runs out, and a prefix of the text may then have been appended.
pub fn put_net(alloc: Global, net: &Network, out: &mut Vec<u8>) -> Result<(), AllocError>
    ensures ok { OnOk result (out.new.items ≡ out.old.items ++ canonical.net_text net.now) }
    ensures err { OnErr result (AppendsFront out.old.items out.new.items (canonical.net_text net.now)) }
{
    // The text is whole before any of it is appended.
    let text = net_text(alloc, net)?;
    out.extend_from_slice(text.as_slice())?;
    Ok(())
}
