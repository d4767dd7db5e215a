//! The report on the filtering goals.

ghost use Rattle.std.specs.Prelude.{◌≡◌, ◌∷◌, ◌++◌, ◌<◌, length, codes, if◌then◌else◌, OnOk, OnErr, IfOk};
ghost use Rattle.std.specs.List.{All};
ghost use Rattle.np_text.specs.Appending.{AppendsFront};
ghost use Rattle.np_net_text.specs.CanonicalText.{lines_text, spaced};
ghost use Rattle.np_script.specs.Written.{header_words};
ghost use Rattle.np_report.specs.Words.{hop_lines};
ghost use Rattle.np_report.specs.Verdicts as report;
ghost use Rattle.np_report.specs.Verdicts.{verdicts_text, HasInterfaces};

use crate::words::{put_header, put_hops, put_number_word};
use np_goals::Verdict;
use np_net::{IfId, Network};
use np_net_text::put_word;
use np_space::Header;
use np_text::put_bytes;
use std::alloc::{AllocError, Global};

// Appends the rest of the line of a goal that is violated, and the lines of the path's hops.
fn put_violation(
    text: &mut Vec<u8>,
    net: &Network,
    header: &Header,
    hops: &[(IfId, IfId)],
) -> Result<(), AllocError>
    requires { All (λ hop. (hop.0 < length net.now.interfaces) × (hop.1 < length net.now.interfaces)) hops.now }
    ensures { OnOk result (text.new.items ≡ text.old.items ++ (spaced (codes "violated" ∷ header_words header.now) ++ 10 ∷ lines_text (hop_lines net.now hops.now))) }
{
    put_word(text, b"violated")?;
    put_header(text, header)?;
    text.push(b'\n')?;
    put_hops(text, net, hops)
}

// Appends the lines of the goal of this number.
fn put_verdict(
    text: &mut Vec<u8>,
    net: &Network,
    number: u64,
    verdict: &Verdict,
) -> Result<(), AllocError>
    requires { HasInterfaces net.now.interfaces verdict.now }
    ensures { OnOk result (text.new.items ≡ text.old.items ++ lines_text (report.verdict_lines net.now number verdict.now)) }
{
    text.extend_from_slice(b"goal")?;
    put_number_word(text, number)?;
    match verdict {
        Verdict::Holds => {
            put_word(text, b"holds")?;
            text.push(b'\n')?;
            Ok(())
        }
        Verdict::Violated { header, path } => {
            put_violation(text, net, header, path.hops.as_slice())
        }
    }
}

// Appends the lines of goals, of which the first has number 1.
fn put_goals(text: &mut Vec<u8>, net: &Network, verdicts: &[Verdict]) -> Result<(), AllocError>
    requires { All (HasInterfaces net.now.interfaces) verdicts.now }
    ensures { OnOk result (text.new.items ≡ text.old.items ++ lines_text (report.goals_lines net.now 1 verdicts.now)) }
{
    for n in 0..verdicts.len() {
        put_verdict(text, net, n as u64 + 1, &verdicts[n])?;
    }
    Ok(())
}

pub(crate) fn is_holding(verdict: &Verdict) -> bool
    ensures { result ≡ report.is_holding verdict.now }
{
    match verdict {
        Verdict::Holds => true,
        Verdict::Violated { .. } => false,
    }
}

fn all_hold(verdicts: &[Verdict]) -> bool
    ensures { result ≡ report.all_hold verdicts.now }
{
    verdicts.iter().all(|verdict| is_holding(verdict))
}

fn last_word(holds: bool) -> &'static [u8]
    ensures { result.now ≡ if holds then codes "holds" else codes "fails" }
{
    if holds { b"holds" } else { b"fails" }
}

// The report on goals.
fn goals_text(alloc: Global, net: &Network, verdicts: &[Verdict]) -> Result<Vec<u8>, AllocError>
    requires { All (HasInterfaces net.now.interfaces) verdicts.now }
    ensures { IfOk result (λ text. text.items ≡ verdicts_text net.now verdicts.now) }
{
    let mut text = Vec::new(alloc);
    put_goals(&mut text, net, verdicts)?;
    text.extend_from_slice(last_word(all_hold(verdicts)))?;
    text.push(b'\n')?;
    Ok(text)
}

/// Appends the report on a network's filtering goals: each goal's verdict, with the hops of the path of
/// one that is violated, and a last line that says whether all hold.
///
/// Where memory runs out, which alone is an error, a prefix of it may have been appended.
pub fn put_verdicts(
    alloc: Global,
    out: &mut Vec<u8>,
    net: &Network,
    verdicts: &[Verdict],
) -> Result<(), AllocError>
    requires { All (HasInterfaces net.now.interfaces) verdicts.now }
    ensures ok { OnOk result (out.new.items ≡ out.old.items ++ verdicts_text net.now verdicts.now) }
    ensures err { OnErr result (AppendsFront out.old.items out.new.items (verdicts_text net.now verdicts.now)) }
{
    // The text is whole before any of it is appended.
    let text = goals_text(alloc, net, verdicts)?;
    put_bytes(out, text.as_slice())
}
