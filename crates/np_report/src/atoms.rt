//! The report on atoms.

ghost use Rattle.std.specs.Prelude.{◌≡◌, ◌∷◌, ◌++◌, ◌+◌, ◌<◌, ◌≤◌, ◌^◌, [], ℕ, length, map, codes, if◌then◌else◌, slice_index_or, OnOk, OnErr, IfOk};
ghost use Rattle.std.specs.Fmt.{decimal};
ghost use Rattle.np_text.specs.Appending.{AppendsFront};
ghost use Rattle.np_atomset.specs.AtomSet.{has_member};
ghost use Rattle.np_net.specs.Naming.{device_name};
ghost use Rattle.np_net_text.specs.CanonicalText.{line_text, lines_text, spaced};
ghost use Rattle.np_script.specs.Written.{header_words};
ghost use Rattle.np_report.specs.Atoms.{atoms_text, atom_lines, goal_lines, list_lines, digits};

use crate::words::{put_header, put_number_word};
use np_atoms::Atoms;
use np_atomset::AtomSet;
use np_cut::Applied;
use np_net::{DevId, Goal, Network, device_name};
use np_net_text::put_word;
use np_space::Header;
use np_text::{Name, put_bytes};
use std::alloc::{AllocError, Global};

// Appends a line of a word and a number.
pub(crate) fn put_count(text: &mut Vec<u8>, word: &[u8], count: u64) -> Result<(), AllocError>
    ensures { OnOk result (text.new.items ≡ text.old.items ++ line_text (word.now ∷ decimal count ∷ [])) }
{
    text.extend_from_slice(word)?;
    put_number_word(text, count)?;
    text.push(b'\n')?;
    Ok(())
}

// Appends the line of a list, whose cut has this number.
fn put_list(
    text: &mut Vec<u8>,
    net: &Network,
    number: u64,
    list: &(DevId, Name),
) -> Result<(), AllocError>
    ensures { OnOk result (text.new.items ≡ text.old.items ++ line_text (codes "cut" ∷ decimal number ∷ codes "list" ∷ device_name net.now list.now.0 ∷ list.now.1 ∷ [])) }
{
    text.extend_from_slice(b"cut")?;
    put_number_word(text, number)?;
    put_word(text, b"list")?;
    put_word(text, device_name(net, list.0))?;
    put_word(text, list.1.bytes())?;
    text.push(b'\n')?;
    Ok(())
}

// Appends the lines of lists, whose cuts have the numbers from 1 on.
fn put_lists(text: &mut Vec<u8>, net: &Network, lists: &[(DevId, Name)]) -> Result<(), AllocError>
    ensures { OnOk result (text.new.items ≡ text.old.items ++ lines_text (list_lines net.now 1 lists.now)) }
{
    for n in 0..lists.len() {
        put_list(text, net, n as u64 + 1, &lists[n])?;
    }
    Ok(())
}

// Appends the line of the goal of this number, whose cut has that one.
fn put_goal(text: &mut Vec<u8>, number: u64, goal: u64) -> Result<(), AllocError>
    ensures { OnOk result (text.new.items ≡ text.old.items ++ line_text (codes "cut" ∷ decimal number ∷ codes "goal" ∷ decimal goal ∷ [])) }
{
    text.extend_from_slice(b"cut")?;
    put_number_word(text, number)?;
    put_word(text, b"goal")?;
    put_number_word(text, goal)?;
    text.push(b'\n')?;
    Ok(())
}

// Appends the lines of goals, whose cuts come after so many others.
fn put_goals(text: &mut Vec<u8>, before: u64, goals: &[Goal]) -> Result<(), AllocError>
    requires { before + length goals.now < 2 ^ 64 }
    ensures { OnOk result (text.new.items ≡ text.old.items ++ lines_text (goal_lines (before + 1) 1 goals.now)) }
{
    for n in 0..goals.len() {
        put_goal(text, before + n as u64 + 1, n as u64 + 1)?;
    }
    Ok(())
}

// Appends the lines of the cuts: how many there are, and then each one's.
fn put_cuts(
    text: &mut Vec<u8>,
    net: &Network,
    lists: &[(DevId, Name)],
    goals: &[Goal],
) -> Result<(), AllocError>
    requires { length goals.now ≤ 256 }
    ensures { OnOk result (text.new.items ≡ text.old.items ++ lines_text ((codes "cuts" ∷ decimal (length lists.now + length goals.now) ∷ []) ∷ (list_lines net.now 1 lists.now ++ goal_lines (length lists.now + 1) 1 goals.now))) }
{
    let before = lists.len() as u64;
    put_count(text, b"cuts", before + goals.len() as u64)?;
    put_lists(text, net, lists)?;
    put_goals(text, before, goals)
}

fn digit(has: bool) -> u8
    ensures { result ≡ if has then 49 else 48 }
{
    if has { b'1' } else { b'0' }
}

// Appends a digit for each cut.
fn put_each(text: &mut Vec<u8>, cuts: &[AtomSet], n: usize) -> Result<(), AllocError>
    requires { (k : ℕ) → k < length cuts.now → n < length (slice_index_or cuts.now k []) }
    ensures { OnOk result (text.new.items ≡ text.old.items ++ map (λ s. if has_member s n then 49 else 48) cuts.now) }
{
    for cut in cuts {
        text.push(digit(cut.has(n)))?;
    }
    Ok(())
}

// Appends what the cuts say of an atom.
fn put_digits(text: &mut Vec<u8>, cuts: &[AtomSet], n: usize) -> Result<(), AllocError>
    requires { (k : ℕ) → k < length cuts.now → n < length (slice_index_or cuts.now k []) }
    ensures { OnOk result (text.new.items ≡ text.old.items ++ digits cuts.now n) }
{
    if cuts.is_empty() {
        text.push(b'-')?;
        return Ok(());
    }
    put_each(text, cuts, n)
}

// Appends the words of an atom's least member and what the cuts say of it, each after a space.
fn put_answers(
    text: &mut Vec<u8>,
    cuts: &[AtomSet],
    n: usize,
    least: &Header,
) -> Result<(), AllocError>
    requires { (k : ℕ) → k < length cuts.now → n < length (slice_index_or cuts.now k []) }
    ensures { OnOk result (text.new.items ≡ text.old.items ++ spaced (header_words least.now ++ digits cuts.now n ∷ [])) }
{
    put_header(text, least)?;
    text.push(b' ')?;
    put_digits(text, cuts, n)?;
    Ok(())
}

// Appends the line of an atom, whose least member this is.
fn put_atom(
    text: &mut Vec<u8>,
    cuts: &[AtomSet],
    n: usize,
    least: &Header,
) -> Result<(), AllocError>
    requires few { n + 1 < 2 ^ 64 }
    requires sets { (k : ℕ) → k < length cuts.now → n < length (slice_index_or cuts.now k []) }
    ensures { OnOk result (text.new.items ≡ text.old.items ++ line_text (codes "atom" ∷ decimal (n + 1) ∷ (header_words least.now ++ digits cuts.now n ∷ []))) }
{
    text.extend_from_slice(b"atom")?;
    put_number_word(text, n as u64 + 1)?;
    put_answers(text, cuts, n, least)?;
    text.push(b'\n')?;
    Ok(())
}

// Appends the lines of each atom.
fn put_each_atom(text: &mut Vec<u8>, cuts: &[AtomSet], leasts: &[Header]) -> Result<(), AllocError>
    requires { (k : ℕ) → k < length cuts.now → length (slice_index_or cuts.now k []) ≡ length leasts.now }
    ensures { OnOk result (text.new.items ≡ text.old.items ++ lines_text (atom_lines cuts.now 0 leasts.now)) }
{
    for n in 0..leasts.len() {
        put_atom(text, cuts, n, &leasts[n])?;
    }
    Ok(())
}

// Appends the lines of the atoms: how many there are, and then each one's.
fn put_all_atoms(text: &mut Vec<u8>, cuts: &[AtomSet], leasts: &[Header]) -> Result<(), AllocError>
    requires { (k : ℕ) → k < length cuts.now → length (slice_index_or cuts.now k []) ≡ length leasts.now }
    ensures { OnOk result (text.new.items ≡ text.old.items ++ lines_text ((codes "atoms" ∷ decimal (length leasts.now) ∷ []) ∷ atom_lines cuts.now 0 leasts.now)) }
{
    put_count(text, b"atoms", leasts.len() as u64)?;
    put_each_atom(text, cuts, leasts)
}

// The report on atoms.
fn report(
    alloc: Global,
    net: &Network,
    applied: &Applied<'_>,
    atoms: &Atoms,
) -> Result<Vec<u8>, AllocError>
    requires { (k : ℕ) → k < length atoms.now.cuts → length (slice_index_or atoms.now.cuts k []) ≡ length atoms.now.leasts }
    ensures { IfOk result (λ text. text.items ≡ atoms_text net.now applied.now.names atoms.now.cuts atoms.now.leasts) }
{
    let mut text = Vec::new(alloc);
    put_cuts(
        &mut text,
        net,
        applied.names.as_slice(),
        net.goals.as_slice(),
    )?;
    put_all_atoms(&mut text, atoms.cuts.as_slice(), atoms.leasts.as_slice())?;
    Ok(text)
}

/// Appends the report on the atoms of a network's filter cuts: the cuts, which are the applied lists and
/// then the goals, and each atom's least member with what the cuts say of it.
///
/// Where memory runs out, which alone is an error, a prefix of it may have been appended.
pub fn put_atoms(
    alloc: Global,
    out: &mut Vec<u8>,
    net: &Network,
    applied: &Applied<'_>,
    atoms: &Atoms,
) -> Result<(), AllocError>
    requires sets { (k : ℕ) → k < length atoms.now.cuts → length (slice_index_or atoms.now.cuts k []) ≡ length atoms.now.leasts }
    ensures ok { OnOk result (out.new.items ≡ out.old.items ++ atoms_text net.now applied.now.names atoms.now.cuts atoms.now.leasts) }
    ensures err { OnErr result (AppendsFront out.old.items out.new.items (atoms_text net.now applied.now.names atoms.now.cuts atoms.now.leasts)) }
{
    // The text is whole before any of it is appended.
    let text = report(alloc, net, applied, atoms)?;
    put_bytes(out, text.as_slice())
}
