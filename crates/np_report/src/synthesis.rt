//! The reports on what is synthesised.

ghost use Rattle.std.specs.Prelude.{◌≡◌, ◌∷◌, ◌++◌, ◌+◌, ◌*◌, ◌/◌, ◌%◌, ◌^◌, ◌<◌, ◌≤◌, ◌==◌, [], length, codes, if◌then◌else◌, OnOk, OnErr, IfOk};
ghost use Rattle.std.specs.Fmt.{decimal};
ghost use Rattle.std.specs.List.{All, flat_map};
ghost use Rattle.np_text.specs.Appending.{AppendsFront};
ghost use Rattle.np_net_text.specs.CanonicalText.{line_text, lines_text};
ghost use Rattle.np_script.specs.Written.{header_words};
ghost use Rattle.np_report.specs.Drops.{slot_at, AreBySlot, AreBefore, IsWritable};
ghost use Rattle.np_report.specs.Synthesis as report;
ghost use Rattle.np_report.specs.Synthesis.{chosen_text, unattainable_text, AreInOrder, HopsWithin};

use crate::atoms::put_count;
use crate::sets::put_set;
use crate::words::{put_header, put_hops, put_number_word};
use np_atomset::AtomSet;
use np_net::{IfId, Network, Path, device_name, device_of, interface_name};
use np_net_text::put_word;
use np_space::Header;
use np_synth::{Chosen, Dropped};
use np_text::put_bytes;
use std::alloc::{AllocError, Global};

// Appends the line of the atom of this number, by its least member.
fn put_least(text: &mut Vec<u8>, number: u64, least: &Header) -> Result<(), AllocError>
    ensures { OnOk result (text.new.items ≡ text.old.items ++ line_text (codes "atom" ∷ decimal number ∷ header_words least.now)) }
{
    text.extend_from_slice(b"atom")?;
    put_number_word(text, number)?;
    put_header(text, least)?;
    text.push(b'\n')?;
    Ok(())
}

// Appends the lines of the atoms, from 1 on.
fn put_leasts(text: &mut Vec<u8>, leasts: &[Header]) -> Result<(), AllocError>
    ensures { OnOk result (text.new.items ≡ text.old.items ++ lines_text (report.least_lines 0 leasts.now)) }
{
    for n in 0..leasts.len() {
        put_least(text, n as u64 + 1, &leasts[n])?;
    }
    Ok(())
}

// The interface of a slot.
fn interface_of(net: &Network, slot: usize) -> IfId
    requires { slot < 2 * length net.now.interfaces }
    ensures { result ≡ slot / 2 }
{
    // What is known of every network bounds the number of its interfaces.
    let _ = &net.interfaces;
    (slot / 2) as IfId
}

// The word for the way in which packets cross a slot.
fn way_word(slot: usize) -> &'static [u8]
    ensures { result.now ≡ if slot % 2 == 0 then codes "in" else codes "out" }
{
    if slot % 2 == 0 { b"in" } else { b"out" }
}

// Appends the line of a slot that these atoms cross.
fn put_slot(
    alloc: Global,
    text: &mut Vec<u8>,
    net: &Network,
    slot: usize,
    set: &AtomSet,
) -> Result<(), AllocError>
    requires { slot < 2 * length net.now.interfaces }
    ensures { OnOk result (text.new.items ≡ text.old.items ++ line_text (report.slot_words net.now slot set.now)) }
{
    let id = interface_of(net, slot);
    text.extend_from_slice(b"slot")?;
    put_word(text, device_name(net, device_of(net, id)))?;
    put_word(text, interface_name(net, id))?;
    put_word(text, way_word(slot))?;
    text.push(b' ')?;
    put_set(alloc, text, set)?;
    text.push(b'\n')?;
    Ok(())
}

// Appends the line of a drop, and those of its path's hops.
fn put_drop(text: &mut Vec<u8>, net: &Network, d: &Dropped) -> Result<(), AllocError>
    requires { IsWritable net.now.interfaces d.now }
    ensures { OnOk result (text.new.items ≡ text.old.items ++ lines_text (report.drop_lines net.now d.now)) }
{
    text.extend_from_slice(b"drop")?;
    put_number_word(text, d.atom as u64 + 1)?;
    put_word(text, b"goal")?;
    put_number_word(text, d.goal as u64 + 1)?;
    text.push(b'\n')?;
    put_hops(text, net, d.path.hops.as_slice())
}

// Appends the lines of drops.
fn put_drops(text: &mut Vec<u8>, net: &Network, drops: &[Dropped]) -> Result<(), AllocError>
    requires { All (IsWritable net.now.interfaces) drops.now }
    ensures { OnOk result (text.new.items ≡ text.old.items ++ lines_text (flat_map (report.drop_lines net.now) drops.now)) }
{
    for n in 0..drops.len() {
        put_drop(text, net, &drops[n])?;
    }
    Ok(())
}

// Appends the lines of a slot and of its drops, if the slot is free.
fn put_if_free(
    alloc: Global,
    text: &mut Vec<u8>,
    net: &Network,
    free: bool,
    slot: usize,
    set: &AtomSet,
    drops: &[Dropped],
) -> Result<(), AllocError>
    requires slot { slot < 2 * length net.now.interfaces }
    requires drops { All (IsWritable net.now.interfaces) drops.now }
    ensures { OnOk result (text.new.items ≡ text.old.items ++ lines_text (if free then report.slot_words net.now slot set.now ∷ flat_map (report.drop_lines net.now) drops.now else [])) }
{
    if !free {
        return Ok(());
    }
    put_slot(alloc, text, net, slot, set)?;
    put_drops(text, net, drops)
}

// The slot of the drop of this index.
fn slot_of(drops: &[Dropped], n: usize) -> usize
    requires { n < length drops.now }
    ensures { result ≡ slot_at drops.now n }
{
    drops[n].slot
}

// The index after the drops at a slot, of which the first may have this one.
fn end_of(drops: &[Dropped], first: usize, slot: usize) -> usize
    requires order { AreBySlot drops.now }
    requires first { AreBefore slot first drops.now }
    ensures order { first ≤ result }
    ensures end { AreBefore (slot + 1) result drops.now }
{
    for n in first..drops.len() {
        if slot_of(drops, n) != slot {
            return n;
        }
    }
    drops.len()
}

// The drops at a slot, where so many are at the slots before it.
fn drops_of<'a>(drops: &'a [Dropped], first: usize, slot: usize) -> &'a [Dropped]
    requires order { AreBySlot drops.now }
    requires first { AreBefore slot first drops.now }
    ensures drops { result.now ≡ report.drops_at slot drops.now }
    ensures end { AreBefore (slot + 1) (first + length result.now) drops.now }
{
    &drops[first..end_of(drops, first, slot)]
}

// Appends the lines of the free slots and of their drops.
fn put_slots(
    alloc: Global,
    text: &mut Vec<u8>,
    net: &Network,
    sets: &[AtomSet],
    drops: &[Dropped],
) -> Result<(), AllocError>
    requires sets { length sets.now ≡ length net.now.free }
    requires order { AreBySlot drops.now }
    requires drops { All (IsWritable net.now.interfaces) drops.now }
    ensures { OnOk result (text.new.items ≡ text.old.items ++ lines_text (report.slots_lines net.now sets.now drops.now 0 net.now.free)) }
{
    let free = net.free.as_slice();
    // So many drops are at the slots before this one.
    let mut before = 0;
    for slot in 0..free.len() {
        let here = drops_of(drops, before, slot);
        put_if_free(alloc, text, net, free[slot], slot, &sets[slot], here)?;
        before += here.len();
    }
    Ok(())
}

// The report on a chosen posture.
fn chosen_report(
    alloc: Global,
    net: &Network,
    leasts: &[Header],
    chosen: &Chosen,
) -> Result<Vec<u8>, AllocError>
    requires sets { length chosen.now.posture.slots ≡ length net.now.free }
    requires order { AreInOrder net.now.interfaces (length leasts.now) (length net.now.goals) chosen.now.dropped }
    ensures { IfOk result (λ text. text.items ≡ chosen_text net.now leasts.now chosen.now.posture.slots chosen.now.dropped) }
{
    // What is known of every network bounds the number of its goals.
    let _ = &net.goals;
    let mut text = Vec::new(alloc);
    put_count(&mut text, b"atoms", leasts.len() as u64)?;
    put_leasts(&mut text, leasts)?;
    put_slots(
        alloc,
        &mut text,
        net,
        chosen.posture.slots.as_slice(),
        chosen.dropped.as_slice(),
    )?;
    text.extend_from_slice(b"synthesised\n")?;
    Ok(text)
}

/// Appends the report on a chosen posture: each atom's least member, what crosses each free slot with what
/// it drops and why, and a last line.
///
/// Where memory runs out, which alone is an error, a prefix of it may have been appended.
pub fn put_chosen(
    alloc: Global,
    out: &mut Vec<u8>,
    net: &Network,
    leasts: &[Header],
    chosen: &Chosen,
) -> Result<(), AllocError>
    requires sets { length chosen.now.posture.slots ≡ length net.now.free }
    requires order { AreInOrder net.now.interfaces (length leasts.now) (length net.now.goals) chosen.now.dropped }
    ensures ok { OnOk result (out.new.items ≡ out.old.items ++ chosen_text net.now leasts.now chosen.now.posture.slots chosen.now.dropped) }
    ensures err { OnErr result (AppendsFront out.old.items out.new.items (chosen_text net.now leasts.now chosen.now.posture.slots chosen.now.dropped)) }
{
    // The text is whole before any of it is appended.
    let text = chosen_report(alloc, net, leasts, chosen)?;
    put_bytes(out, text.as_slice())
}

// Appends the line of the goal that is broken, by the header that breaks it.
fn put_broken(text: &mut Vec<u8>, number: u64, header: &Header) -> Result<(), AllocError>
    ensures { OnOk result (text.new.items ≡ text.old.items ++ line_text (codes "unattainable" ∷ codes "goal" ∷ decimal number ∷ header_words header.now)) }
{
    text.extend_from_slice(b"unattainable goal")?;
    put_number_word(text, number)?;
    put_header(text, header)?;
    text.push(b'\n')?;
    Ok(())
}

// The report on goals that can't be attained.
fn unattainable_report(
    alloc: Global,
    net: &Network,
    goal: usize,
    header: &Header,
    path: &Path,
) -> Result<Vec<u8>, AllocError>
    requires goal { goal < length net.now.goals }
    requires hops { HopsWithin net.now.interfaces path.now.hops }
    ensures { IfOk result (λ text. text.items ≡ unattainable_text net.now goal header.now path.now.hops) }
{
    // What is known of every network bounds the number of its goals.
    let _ = &net.goals;
    let mut text = Vec::new(alloc);
    put_broken(&mut text, goal as u64 + 1, header)?;
    put_hops(&mut text, net, path.hops.as_slice())?;
    Ok(text)
}

/// Appends the report on goals that can't be attained: the first goal that is broken with the free slots
/// shut, the least header that breaks it, and the hops of its path.
///
/// Where memory runs out, which alone is an error, a prefix of it may have been appended.
pub fn put_unattainable(
    alloc: Global,
    out: &mut Vec<u8>,
    net: &Network,
    goal: usize,
    header: &Header,
    path: &Path,
) -> Result<(), AllocError>
    requires goal { goal < length net.now.goals }
    requires hops { HopsWithin net.now.interfaces path.now.hops }
    ensures ok { OnOk result (out.new.items ≡ out.old.items ++ unattainable_text net.now goal header.now path.now.hops) }
    ensures err { OnErr result (AppendsFront out.old.items out.new.items (unattainable_text net.now goal header.now path.now.hops)) }
{
    // The text is whole before any of it is appended.
    let text = unattainable_report(alloc, net, goal, header, path)?;
    put_bytes(out, text.as_slice())
}
