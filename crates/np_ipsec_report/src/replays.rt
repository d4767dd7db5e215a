//! The report on the replay of a script.

ghost use Rattle.std.specs.Prelude.{◌≡◌, ◌∷◌, ◌++◌, ◌+◌, ◌^◌, ◌<◌, [], length, map, drop, codes, slice_index_or, OnOk, OnErr, IfOk};
ghost use Rattle.std.specs.Fmt.{decimal};
ghost use Rattle.std.specs.List.{All, flat_map};
ghost use Rattle.np_text.specs.Appending.{AppendsFront};
ghost use Rattle.np_net.specs.Naming.{sa_name};
ghost use Rattle.np_net_text.specs.CanonicalText.{line_text, lines_text, spaced};
ghost use Rattle.np_ipsec.specs.Steps.{IsPlace};
ghost use Rattle.np_script.specs.Written.{place_words};
ghost use Rattle.np_traj.specs.States.{IsStateOf};
ghost use Rattle.np_ipsec_report.specs.Replays as report;
ghost use Rattle.np_ipsec_report.specs.Replays.{replay_text};

use crate::words::put_interface;
use np_ipsec::Place;
use np_net::{Network, SaId, area_name, sa_name};
use np_net_text::put_word;
use np_report::put_number_word;
use np_stack::HeaderStack;
use np_text::put_bytes;
use np_traj::{Illegal, Replayed, State};
use std::alloc::{AllocError, Global};

// Appends the words of a place, each after a space.
fn put_place(text: &mut Vec<u8>, net: &Network, place: Place) -> Result<(), AllocError>
    requires { IsPlace net.now place }
    ensures { OnOk result (text.new.items ≡ text.old.items ++ spaced (place_words net.now place)) }
{
    match place {
        Place::AtArea(area) => {
            put_word(text, b"area")?;
            put_word(text, area_name(net, area))
        }
        Place::AtIn(id) => {
            put_word(text, b"in")?;
            put_interface(text, net, id)
        }
        Place::AtOut(id) => {
            put_word(text, b"out")?;
            put_interface(text, net, id)
        }
    }
}

// The association at a position of a stack, from the bottom.
fn sa_at<const N: usize>(stack: &HeaderStack<N>, n: usize) -> SaId
    requires { n < length stack.now }
    ensures { result ≡ slice_index_or stack.now n 0 }
{
    stack.get(n).unwrap_or(0)
}

// Appends the name of an association after a comma.
fn put_next(text: &mut Vec<u8>, net: &Network, id: SaId) -> Result<(), AllocError>
    ensures { OnOk result (text.new.items ≡ text.old.items ++ 44 ∷ sa_name net.now id) }
{
    text.push(b',')?;
    text.extend_from_slice(sa_name(net, id))?;
    Ok(())
}

// Appends the names of the associations above the lowest one, each after a comma.
fn put_above<const N: usize>(
    text: &mut Vec<u8>,
    net: &Network,
    stack: &HeaderStack<N>,
) -> Result<(), AllocError>
    requires { 0 < length stack.now }
    ensures { OnOk result (text.new.items ≡ text.old.items ++ flat_map (λ n. 44 ∷ sa_name net.now n) (drop 1 stack.now)) }
{
    for n in 1..stack.len() {
        put_next(text, net, sa_at(stack, n))?;
    }
    Ok(())
}

// Appends the names of associations, joined by commas, or `-` where there is none.
fn put_stack<const N: usize>(
    text: &mut Vec<u8>,
    net: &Network,
    stack: &HeaderStack<N>,
) -> Result<(), AllocError>
    ensures { OnOk result (text.new.items ≡ text.old.items ++ report.stack_word net.now stack.now) }
{
    if stack.len() == 0 {
        text.push(b'-')?;
        return Ok(());
    }
    text.extend_from_slice(sa_name(net, sa_at(stack, 0)))?;
    put_above(text, net, stack)
}

// The name of a mark, or `-` where there is none.
fn mark_word(net: &Network, mark: Option<SaId>) -> &[u8]
    ensures { result.now ≡ report.mark_word net.now mark }
{
    match mark {
        Some(id) => sa_name(net, id),
        None => b"-",
    }
}

// Appends the words of a stack and of a mark, each after a space.
fn put_headers<const N: usize>(
    text: &mut Vec<u8>,
    net: &Network,
    stack: &HeaderStack<N>,
    mark: Option<SaId>,
) -> Result<(), AllocError>
    ensures { OnOk result (text.new.items ≡ text.old.items ++ spaced (codes "stack" ∷ report.stack_word net.now stack.now ∷ codes "mark" ∷ report.mark_word net.now mark ∷ [])) }
{
    put_word(text, b"stack")?;
    text.push(b' ')?;
    put_stack(text, net, stack)?;
    put_word(text, b"mark")?;
    put_word(text, mark_word(net, mark))
}

// Appends the line of the state of this number.
fn put_state<const N: usize>(
    text: &mut Vec<u8>,
    net: &Network,
    number: u64,
    state: &State<N>,
) -> Result<(), AllocError>
    requires { IsStateOf net.now state.now }
    ensures { OnOk result (text.new.items ≡ text.old.items ++ line_text (report.state_words net.now number state.now)) }
{
    text.extend_from_slice(b"state")?;
    put_number_word(text, number)?;
    put_place(text, net, state.place)?;
    put_headers(text, net, &state.stack, state.mark)?;
    text.push(b'\n')?;
    Ok(())
}

// Appends the lines of states, of which the first has number 0.
fn put_states<const N: usize>(
    text: &mut Vec<u8>,
    net: &Network,
    replay: &Replayed<N>,
) -> Result<(), AllocError>
    requires { All (IsStateOf net.now) replay.now.states }
    ensures { OnOk result (text.new.items ≡ text.old.items ++ lines_text (report.state_lines net.now 0 replay.now.states)) }
{
    let states = replay.states.as_slice();
    for n in 0..states.len() {
        put_state(text, net, n as u64, &states[n])?;
    }
    Ok(())
}

fn illegal_word(why: Illegal) -> &'static [u8]
    ensures { result.now ≡ report.illegal_word why }
{
    match why {
        Illegal::NotHere => b"NotHere",
        Illegal::NotAdmitted => b"NotAdmitted",
        Illegal::MustPop => b"MustPop",
        Illegal::NoKey => b"NoKey",
        Illegal::NoRule => b"NoRule",
        Illegal::Full => b"Full",
        Illegal::FalseSource => b"FalseSource",
        Illegal::NotValid => b"NotValid",
    }
}

// Appends the line of the first illegal move, if there is one.
fn put_stop(text: &mut Vec<u8>, stop: Option<(usize, Illegal)>) -> Result<(), AllocError>
    ensures { OnOk result (text.new.items ≡ text.old.items ++ lines_text (report.stop_lines stop)) }
{
    let Some((number, why)) = stop else {
        return Ok(());
    };
    text.extend_from_slice(b"illegal")?;
    put_number_word(text, number as u64)?;
    put_word(text, illegal_word(why))?;
    text.push(b'\n')?;
    Ok(())
}

// Appends the line of a broken goal.
fn put_breach(text: &mut Vec<u8>, breach: (usize, usize)) -> Result<(), AllocError>
    requires { breach.0 + 1 < 2 ^ 64 }
    ensures { OnOk result (text.new.items ≡ text.old.items ++ line_text (report.breach_words breach)) }
{
    let (goal, state) = breach;
    text.extend_from_slice(b"breach")?;
    put_number_word(text, goal as u64 + 1)?;
    put_word(text, b"state")?;
    put_number_word(text, state as u64)?;
    text.push(b'\n')?;
    Ok(())
}

// Appends the lines of broken goals.
fn put_breaches(text: &mut Vec<u8>, breaches: &[(usize, usize)]) -> Result<(), AllocError>
    requires { All (λ breach. breach.0 + 1 < 2 ^ 64) breaches.now }
    ensures { OnOk result (text.new.items ≡ text.old.items ++ lines_text (map report.breach_words breaches.now)) }
{
    for breach in breaches {
        put_breach(text, *breach)?;
    }
    Ok(())
}

// The last word: whether all moves are legal.
fn legal_word(stop: Option<(usize, Illegal)>) -> &'static [u8]
    ensures { result.now ≡ report.legal_word stop }
{
    match stop {
        None => b"legal",
        Some(_) => b"illegal",
    }
}

// The report on a replay.
fn replay_report<const N: usize>(
    alloc: Global,
    net: &Network,
    replay: &Replayed<N>,
) -> Result<Vec<u8>, AllocError>
    requires states { All (IsStateOf net.now) replay.now.states }
    requires breaches { All (λ breach. breach.0 < length net.now.ipgoals) replay.now.breaches }
    ensures { IfOk result (λ text. text.items ≡ replay_text net.now replay.now.states replay.now.stop replay.now.breaches) }
{
    // What is known of every network bounds the number of its goals.
    let _ = &net.ipgoals;
    let mut text = Vec::new(alloc);
    put_states(&mut text, net, replay)?;
    put_stop(&mut text, replay.stop)?;
    put_breaches(&mut text, replay.breaches.as_slice())?;
    text.extend_from_slice(legal_word(replay.stop))?;
    text.push(b'\n')?;
    Ok(text)
}

/// Appends the report on the replay of a script: its states, where it stops if a move is illegal, which
/// goals are broken, and a last line that says whether all moves are legal.
///
/// Where memory runs out, which alone is an error, a prefix of it may have been appended.
pub fn put_replay<const N: usize>(
    alloc: Global,
    out: &mut Vec<u8>,
    net: &Network,
    replay: &Replayed<N>,
) -> Result<(), AllocError>
    requires states { All (IsStateOf net.now) replay.now.states }
    requires breaches { All (λ breach. breach.0 < length net.now.ipgoals) replay.now.breaches }
    ensures ok { OnOk result (out.new.items ≡ out.old.items ++ replay_text net.now replay.now.states replay.now.stop replay.now.breaches) }
    ensures err { OnErr result (AppendsFront out.old.items out.new.items (replay_text net.now replay.now.states replay.now.stop replay.now.breaches)) }
{
    // The text is whole before any of it is appended.
    let text = replay_report(alloc, net, replay)?;
    put_bytes(out, text.as_slice())
}
