//! The members of a set of atoms, as they are written.

ghost use Rattle.std.specs.Prelude.{◌≡◌, ◌++◌, ◌∷◌, [], ◌+◌, ◌^◌, ◌<◌, ◌==◌, if◌then◌else◌, length, reverse, OnOk, IfOk};
ghost use Rattle.std.specs.List.{All, flat_map};
ghost use Rattle.np_report.specs.Runs.{HasNumbers};
ghost use Rattle.np_report.specs.Synthesis.{run_word, runs_from, runs_word, set_word, with_first};

use np_atomset::AtomSet;
use np_text::put_number;
use std::alloc::{AllocError, Global};

// Puts a run and a member before it into a list that has the last run first.
fn put_both(runs: &mut Vec<(usize, usize)>, run: (usize, usize), n: usize) -> Result<(), AllocError>
    requires { n + 1 < 2 ^ 64 }
    ensures { OnOk result (runs.new.items ≡ runs.old.items ++ (if run.0 == n + 1 then (n, run.1) ∷ [] else run ∷ (n, n) ∷ [])) }
{
    let (first, last) = run;
    if first == n + 1 {
        runs.push((n, last))?;
        return Ok(());
    }
    runs.push((first, last))?;
    runs.push((n, n))?;
    Ok(())
}

// Puts a member before the runs of those after it, of which the last one stands first.
fn put_first(runs: &mut Vec<(usize, usize)>, n: usize) -> Result<(), AllocError>
    requires { n + 1 < 2 ^ 64 }
    ensures { OnOk result (reverse runs.new.items ≡ with_first n (reverse runs.old.items)) }
{
    match runs.pop() {
        Some(run) => put_both(runs, run, n),
        None => {
            runs.push((n, n))?;
            Ok(())
        }
    }
}

// Puts a place before the runs of the members after it, if it is one.
fn put_place(runs: &mut Vec<(usize, usize)>, n: usize, has: bool) -> Result<(), AllocError>
    requires { n + 1 < 2 ^ 64 }
    ensures { OnOk result (reverse runs.new.items ≡ if has then with_first n (reverse runs.old.items) else reverse runs.old.items) }
{
    if has {
        return put_first(runs, n);
    }
    Ok(())
}

// The runs of a set's members, the last one first.
fn runs_backwards(alloc: Global, set: &AtomSet) -> Result<Vec<(usize, usize)>, AllocError>
    ensures { IfOk result (λ runs. reverse runs.items ≡ runs_from 0 set.now) }
{
    let mut runs = Vec::new(alloc);
    let len = set.len();
    for k in 0..len {
        let n = len - 1 - k;
        put_place(&mut runs, n, set.has(n))?;
    }
    Ok(runs)
}

// The runs of a set's members.
fn runs_of(alloc: Global, set: &AtomSet) -> Result<Vec<(usize, usize)>, AllocError>
    ensures { IfOk result (λ runs. runs.items ≡ runs_from 0 set.now) }
{
    let mut runs = runs_backwards(alloc, set)?;
    runs.as_mut_slice().reverse();
    Ok(runs)
}

// Appends a run.
fn put_run(text: &mut Vec<u8>, run: (usize, usize)) -> Result<(), AllocError>
    requires { HasNumbers run }
    ensures { OnOk result (text.new.items ≡ text.old.items ++ run_word run) }
{
    let (first, last) = run;
    put_number(text, first as u64 + 1)?;
    if first == last {
        return Ok(());
    }
    text.push(b'-')?;
    put_number(text, last as u64 + 1)?;
    Ok(())
}

// Appends runs, each after a comma.
fn put_more(text: &mut Vec<u8>, runs: &[(usize, usize)]) -> Result<(), AllocError>
    requires { All HasNumbers runs.now }
    ensures { OnOk result (text.new.items ≡ text.old.items ++ flat_map (λ r. 44 ∷ run_word r) runs.now) }
{
    for run in runs {
        text.push(b',')?;
        put_run(text, *run)?;
    }
    Ok(())
}

// Appends runs, joined by commas, or `-` where there is none.
fn put_runs(text: &mut Vec<u8>, runs: &[(usize, usize)]) -> Result<(), AllocError>
    requires { All HasNumbers runs.now }
    ensures { OnOk result (text.new.items ≡ text.old.items ++ runs_word runs.now) }
{
    let [run, more @ ..] = runs else {
        text.push(b'-')?;
        return Ok(());
    };
    put_run(text, *run)?;
    put_more(text, more)
}

// Appends the members of a set.
pub(crate) fn put_set(alloc: Global, text: &mut Vec<u8>, set: &AtomSet) -> Result<(), AllocError>
    ensures { OnOk result (text.new.items ≡ text.old.items ++ set_word set.now) }
{
    // A run ends within the set, the length of which is a `usize`.
    let _ = set.len();
    let runs = runs_of(alloc, set)?;
    put_runs(text, runs.as_slice())
}
