//! The lines of a generated network's text.

ghost use Rattle.std.specs.Prelude.{◌≡◌, ◌++◌, ◌∷◌, [], OnOk};
ghost use Rattle.np_generate.specs.Drawn as drawn;
ghost use Rattle.np_generate.specs.NetLines as lines;
ghost use Rattle.np_text.specs.Joined.{text_of_lines};

use crate::drawing::Draws;
use crate::drawn::{DrawnGoal, near_area};
use crate::words::put_numbered;
use std::alloc::AllocError;

// Appends the line of an area.
#[tactic(auto, unfolding(crate::specs::NetLines::area_line))]
fn put_area(out: &mut Vec<u8>, k: u32) -> Result<(), AllocError>
    ensures { OnOk result (out.new.items ≡ out.old.items ++ text_of_lines (lines.area_line k ∷ [])) }
{
    put_numbered(out, b"area a", k)?;
    put_numbered(out, b" 10.", k)?;
    out.extend_from_slice(b".0.0/16\n")?;
    Ok(())
}

// Appends the lines of the areas.
#[tactic(auto, unfolding(crate::specs::NetLines::areas_lines))]
fn put_areas(out: &mut Vec<u8>) -> Result<(), AllocError>
    ensures { OnOk result (out.new.items ≡ out.old.items ++ text_of_lines lines.areas_lines) }
{
    for k in 0..16 {
        put_area(out, k)?;
    }
    Ok(())
}

// Appends the line of a device.
#[tactic(auto, unfolding(crate::specs::NetLines::device_line))]
fn put_device(out: &mut Vec<u8>, k: u32) -> Result<(), AllocError>
    ensures { OnOk result (out.new.items ≡ out.old.items ++ text_of_lines (lines.device_line k ∷ [])) }
{
    put_numbered(out, b"device d", k)?;
    put_numbered(out, b" config d", k)?;
    out.extend_from_slice(b".cfg\n")?;
    Ok(())
}

// Appends the lines of the devices.
#[tactic(auto, unfolding(crate::specs::NetLines::devices_lines))]
fn put_devices(out: &mut Vec<u8>) -> Result<(), AllocError>
    ensures { OnOk result (out.new.items ≡ out.old.items ++ text_of_lines lines.devices_lines) }
{
    for k in 0..24 {
        put_device(out, k)?;
    }
    Ok(())
}

// Appends the line of an interface.
#[tactic(auto, unfolding(crate::specs::NetLines::interface_line))]
fn put_interface(out: &mut Vec<u8>, k: u32, n: u32, area: u32) -> Result<(), AllocError>
    ensures { OnOk result (out.new.items ≡ out.old.items ++ text_of_lines (lines.interface_line k n area ∷ [])) }
{
    put_numbered(out, b"interface d", k)?;
    put_numbered(out, b" e", n)?;
    put_numbered(out, b" a", area)?;
    out.push(b'\n')?;
    Ok(())
}

// Appends the lines of the two interfaces of a device.
fn put_interfaces(out: &mut Vec<u8>, k: u32, one: u32, other: u32) -> Result<(), AllocError>
    ensures { OnOk result (out.new.items ≡ out.old.items ++ text_of_lines (lines.interface_lines k one other)) }
{
    put_interface(out, k, 0, one)?;
    put_interface(out, k, 1, other)
}

// Appends the lines of the interfaces of the ring's devices.
#[tactic(auto, unfolding(crate::specs::NetLines::rings_lines))]
fn put_ring(out: &mut Vec<u8>) -> Result<(), AllocError>
    ensures { OnOk result (out.new.items ≡ out.old.items ++ text_of_lines lines.rings_lines) }
{
    for k in 0..16 {
        put_interfaces(out, k, k, (k + 1) % 16)?;
    }
    Ok(())
}

// Appends the lines of the interfaces of the devices across the ring.
fn put_chords(out: &mut Vec<u8>, draws: &mut Draws) -> Result<(), AllocError>
    ensures text { OnOk result (out.new.items ≡ out.old.items ++ text_of_lines (lines.chord_lines 16 (drawn.some_far_areas draws.old.state).0)) }
    ensures state { OnOk result (draws.new.state ≡ (drawn.some_far_areas draws.old.state).1) }
{
    for k in 16..24 {
        let far = draws.far_area(k);
        put_interfaces(out, k, near_area(k), far)?;
    }
    Ok(())
}

// Appends the line of the goal whose first area has this number.
#[tactic(auto, unfolding(crate::specs::NetLines::goal_line))]
fn put_goal(out: &mut Vec<u8>, k: u32, goal: DrawnGoal) -> Result<(), AllocError>
    ensures { OnOk result (out.new.items ≡ out.old.items ++ text_of_lines (lines.goal_line k goal ∷ [])) }
{
    put_numbered(out, b"goal a", k)?;
    put_numbered(out, b" a", goal.to)?;
    put_numbered(out, b" never and tcp dport ", u32::from(goal.port))?;
    out.push(b'\n')?;
    Ok(())
}

// Appends the lines of the goals.
fn put_goals(out: &mut Vec<u8>, draws: &mut Draws) -> Result<(), AllocError>
    ensures text { OnOk result (out.new.items ≡ out.old.items ++ text_of_lines (lines.goal_lines 0 (drawn.some_goals draws.old.state).0)) }
    ensures state { OnOk result (draws.new.state ≡ (drawn.some_goals draws.old.state).1) }
{
    for k in 0..16 {
        let goal = draws.goal(k);
        put_goal(out, k, goal)?;
    }
    Ok(())
}

/// Appends the network's text.
#[tactic(auto, unfolding(crate::specs::NetLines::net_lines, crate::specs::Drawn::a_net))]
pub fn put_net(out: &mut Vec<u8>, draws: &mut Draws) -> Result<(), AllocError>
    ensures text { OnOk result (out.new.items ≡ out.old.items ++ text_of_lines (lines.net_lines (drawn.a_net draws.old.state).0)) }
    ensures state { OnOk result (draws.new.state ≡ (drawn.a_net draws.old.state).1) }
{
    out.extend_from_slice(b"depth 8\n")?;
    put_areas(out)?;
    put_devices(out)?;
    put_ring(out)?;
    put_chords(out, draws)?;
    put_goals(out, draws)
}
