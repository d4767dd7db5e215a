//! The summary of the report on the filtering goals of a generated network.

ghost use Rattle.std.specs.Prelude.{◌≡◌, ◌∷◌, ◌++◌, [], ℕ, length, codes, count_by, OnOk, OnErr, IfOk};
ghost use Rattle.std.specs.Fmt.{decimal};
ghost use Rattle.np_text.specs.Appending.{AppendsFront};
ghost use Rattle.np_net.specs.Plan.{Plan};
ghost use Rattle.np_net_text.specs.CanonicalText.{line_text, spaced};
ghost use Rattle.np_report.specs.Verdicts as report;
ghost use Rattle.np_report.specs.Summary.{hop_count, is_hop_line, is_violated, summary_text};

use crate::atoms::put_count;
use crate::verdicts::is_holding;
use crate::words::put_number_word;
use np_goals::Verdict;
use np_net::Network;
use np_net_text::put_word;
use np_text::put_bytes;
use std::alloc::{AllocError, Global};
use std::string::String;

// How many of the goals are violated.
fn violated(verdicts: &[Verdict]) -> usize
    ensures { result ≡ count_by is_violated verdicts.now }
{
    verdicts
        .iter()
        .filter(|verdict| !is_holding(verdict))
        .count()
}

// How many hops the report has on a goal.
fn hops_of(verdict: &Verdict) -> usize
    ensures { (net : Plan) (k : ℕ) → count_by is_hop_line (report.verdict_lines net k verdict.now) ≡ result }
{
    match verdict {
        Verdict::Holds => 0,
        Verdict::Violated { path, .. } => path.hops.len(),
    }
}

// How many hops the report has on all goals. Together the paths might have more than 64 bits count.
fn hops(verdicts: &[Verdict]) -> u128
    ensures { (net : Plan) → hop_count net verdicts.now ≡ result }
{
    let mut count = 0u128;
    for n in 0..verdicts.len() {
        count += hops_of(&verdicts[n]) as u128;
    }
    count
}

// Appends a word and a number, each after a space.
fn put_size(text: &mut Vec<u8>, word: &[u8], size: usize) -> Result<(), AllocError>
    ensures { OnOk result (text.new.items ≡ text.old.items ++ spaced (word.now ∷ decimal size ∷ [])) }
{
    put_word(text, word)?;
    put_number_word(text, size as u64)
}

// Appends the line of the network's sizes.
fn put_sizes(text: &mut Vec<u8>, net: &Network) -> Result<(), AllocError>
    ensures { OnOk result (text.new.items ≡ text.old.items ++ line_text (codes "areas" ∷ decimal (length net.now.areas) ∷ codes "devices" ∷ decimal (length net.now.devices) ∷ codes "interfaces" ∷ decimal (length net.now.interfaces) ∷ codes "goals" ∷ decimal (length net.now.goals) ∷ [])) }
{
    text.extend_from_slice(b"areas")?;
    put_number_word(text, net.areas.len() as u64)?;
    put_size(text, b"devices", net.devices.len())?;
    put_size(text, b"interfaces", net.interfaces.len())?;
    put_size(text, b"goals", net.goals.len())?;
    text.push(b'\n')?;
    Ok(())
}

// Appends the line of the number of hops.
fn put_hop_count(alloc: Global, text: &mut Vec<u8>, hops: u128) -> Result<(), AllocError>
    ensures { OnOk result (text.new.items ≡ text.old.items ++ line_text (codes "hops" ∷ decimal hops ∷ [])) }
{
    let number = format!(in alloc; "{hops}")?;
    text.extend_from_slice(b"hops")?;
    put_word(text, number.as_bytes())?;
    text.push(b'\n')?;
    Ok(())
}

// The summary.
fn summary(
    alloc: Global,
    seed: u32,
    net: &Network,
    atoms: usize,
    verdicts: &[Verdict],
) -> Result<Vec<u8>, AllocError>
    ensures { IfOk result (λ text. text.items ≡ summary_text seed net.now atoms verdicts.now) }
{
    let mut text = Vec::new(alloc);
    put_count(&mut text, b"gen", u64::from(seed))?;
    put_sizes(&mut text, net)?;
    put_count(&mut text, b"atoms", atoms as u64)?;
    put_count(&mut text, b"violated", violated(verdicts) as u64)?;
    put_hop_count(alloc, &mut text, hops(verdicts))?;
    Ok(text)
}

/// Appends the summary of the report on a generated network's filtering goals: the seed, the sizes of
/// the network, the number of atoms of its filter cuts, and how many goals are violated and how many
/// hops the report ([`put_verdicts`](crate::put_verdicts)) has.
///
/// Where memory runs out, which alone is an error, a prefix of it may have been appended.
pub fn put_summary(
    alloc: Global,
    out: &mut Vec<u8>,
    seed: u32,
    net: &Network,
    atoms: usize,
    verdicts: &[Verdict],
) -> Result<(), AllocError>
    ensures ok { OnOk result (out.new.items ≡ out.old.items ++ summary_text seed net.now atoms verdicts.now) }
    ensures err { OnErr result (AppendsFront out.old.items out.new.items (summary_text seed net.now atoms verdicts.now)) }
{
    // The text is whole before any of it is appended.
    let text = summary(alloc, seed, net, atoms, verdicts)?;
    put_bytes(out, text.as_slice())
}
