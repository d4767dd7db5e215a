//! The lines of a generated configuration.

ghost use Rattle.std.specs.Prelude.{◌≡◌, ◌++◌, ◌∷◌, [], false, OnOk};
ghost use Rattle.std.specs.List.{flat_map};
ghost use Rattle.np_text.specs.Joined.{joined_text};
ghost use Rattle.np_generate.specs.ConfigLines as lines;
ghost use Rattle.np_generate.specs.Drawn as drawn;

use crate::drawing::Draws;
use crate::drawn::{DrawnEntry, Protocol};
use crate::words::put_numbered;
use std::alloc::AllocError;

fn action_word(permit: bool) -> &'static [u8]
    ensures { result.now ≡ lines.action_word permit }
{
    if permit { b"permit" } else { b"deny" }
}

fn protocol_word(protocol: Protocol) -> &'static [u8]
    ensures { result.now ≡ lines.protocol_word protocol }
{
    match protocol {
        Protocol::Ip => b"ip",
        Protocol::Tcp => b"tcp",
        Protocol::Udp => b"udp",
        Protocol::Icmp => b"icmp",
    }
}

// Appends the addresses of an area, each word after a space.
fn put_area(out: &mut Vec<u8>, k: u32) -> Result<(), AllocError>
    ensures { OnOk result (out.new.items ≡ out.old.items ++ flat_map (λ word. 32 ∷ word) (lines.area_words k)) }
{
    put_numbered(out, b" 10.", k)?;
    out.extend_from_slice(b".0.0 0.0.255.255")?;
    Ok(())
}

// Appends addresses, each word after a space.
fn put_addresses(out: &mut Vec<u8>, area: Option<u32>) -> Result<(), AllocError>
    ensures { OnOk result (out.new.items ≡ out.old.items ++ flat_map (λ word. 32 ∷ word) (lines.addresses_words area)) }
{
    match area {
        None => out.extend_from_slice(b" any")?,
        Some(k) => put_area(out, k)?,
    }
    Ok(())
}

// Appends the test of a port, if any, each word after a space.
fn put_port(out: &mut Vec<u8>, port: Option<u16>) -> Result<(), AllocError>
    ensures { OnOk result (out.new.items ≡ out.old.items ++ flat_map (λ word. 32 ∷ word) (lines.port_words port)) }
{
    if let Some(port) = port {
        put_numbered(out, b" eq ", u32::from(port))?;
    }
    Ok(())
}

// Appends the line of an entry.
fn put_entry(out: &mut Vec<u8>, entry: DrawnEntry) -> Result<(), AllocError>
    ensures { OnOk result (out.new.items ≡ out.old.items ++ joined_text ((false, lines.entry_line entry) ∷ [])) }
{
    out.extend_from_slice(b"access-list 100 ")?;
    out.extend_from_slice(action_word(entry.permit))?;
    out.push(b' ')?;
    out.extend_from_slice(protocol_word(entry.protocol))?;
    put_addresses(out, entry.source)?;
    put_addresses(out, entry.destination)?;
    put_port(out, entry.port)?;
    out.push(b'\n')?;
    Ok(())
}

// Appends the lines of the entries of a list.
fn put_entries(out: &mut Vec<u8>, draws: &mut Draws) -> Result<(), AllocError>
    ensures text { OnOk result (out.new.items ≡ out.old.items ++ joined_text (lines.entry_lines (drawn.some_entries draws.old.state).0)) }
    ensures state { OnOk result (draws.new.state ≡ (drawn.some_entries draws.old.state).1) }
{
    for _number in 0..40u32 {
        let entry = draws.entry();
        put_entry(out, entry)?;
    }
    Ok(())
}

/// Appends a configuration's text.
#[tactic(auto, unfolding(crate::specs::ConfigLines::config_lines))]
pub fn put_config(out: &mut Vec<u8>, draws: &mut Draws) -> Result<(), AllocError>
    ensures text { OnOk result (out.new.items ≡ out.old.items ++ joined_text (lines.config_lines (drawn.some_entries draws.old.state).0)) }
    ensures state { OnOk result (draws.new.state ≡ (drawn.some_entries draws.old.state).1) }
{
    out.extend_from_slice(b"interface e0\n ip access-group 100 in\n")?;
    put_entries(out, draws)
}
