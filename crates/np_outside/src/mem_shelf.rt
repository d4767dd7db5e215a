ghost use Rattle.std.specs.Prelude.{◌≡◌, ◌≤◌, ◌<◌, ◌++◌, ◌∷◌, [], Some, IfSome, length};
ghost use Rattle.std.specs.Option.{ForSome, option_map};
ghost use Rattle.std.specs.Vec.{vec_len};
ghost use Rattle.std.specs.FinMap.{get};
ghost use Rattle.np_outside.specs.Calls.{count_passed};
ghost use Rattle.np_outside.specs.MemFiles.{files_of, bytes_at};

use crate::failure::Failed;
use crate::plan::{CallPlan, at_step, copy_to_front};
use crate::shelf::Shelf;
use std::alloc::{AllocError, Global};

#[derive(Drop)]
struct NamedFile {
    name: Vec<u8>,
    bytes: Vec<u8>,
}

/// A place in the file at an index.
#[derive(Clone, Copy)]
struct Place {
    file: usize,
    at: usize,
}

/// A shelf of files in memory. It tells its files, and fails where it is told to.
///
/// A file that is replaced while it is begun goes on with the bytes that it had.
#[derive(Drop)]
pub struct MemShelf {
    // The newest last. A file that was replaced stays, since it may be begun.
    files: Vec<NamedFile>,
    begun: Option<Place>,
    most: Option<usize>,
    plan: CallPlan,
    faults: u64,
    breaks: u64,
    ghost step_moves: { ForSome most (λ n. 0 < n) },
    ghost begun_there: { ForSome begun (λ p. p.file < vec_len files) },
    ghost begun_within: { ForSome begun (λ p. p.at ≤ length (bytes_at files.items p.file)) },
    ghost counted: { breaks ≤ count_passed plan.made plan.named.items },
    ghost within_cap: { breaks ≤ length plan.named.items },
}

/// The index of the newest file of a name.
fn newest(files: &[NamedFile], name: &[u8]) -> Option<usize>
    ensures there { IfSome result (λ i. i < length files.now) }
    ensures found { get (files_of files.now) name.now ≡ option_map (bytes_at files.now) result }
{
    let mut found = None;
    for (i, file) in files.iter().enumerate() {
        if name == file.name.as_slice() {
            found = Some(i);
        }
    }
    found
}

/// The bytes of the file at an index.
fn bytes_of(files: &[NamedFile], index: usize) -> &[u8]
    requires { index < length files.now }
    ensures { result.now ≡ bytes_at files.now index }
{
    files[index].bytes.as_slice()
}

impl MemShelf {
    ghost use Rattle.std.specs.Prelude.{◌≡◌, ◌<◌, ◌≤◌, ◌++◌, ◌∷◌, [], Some, None, IfOk, OnOk, OnErr, length};
    ghost use Rattle.std.specs.FinMap.{empty, insert};
    ghost use Rattle.np_outside.specs.MemShelf.{state};

    /// A shelf without files.
    pub fn new(alloc: Global) -> MemShelf
        ensures { state result ≡ record {
          files = empty;
          rest = None;
          most = None;
          made = 0;
          named = [];
          faults = 0;
          breaks = 0;
        } }
    {
        MemShelf {
            files: Vec::new(alloc),
            begun: None,
            most: None,
            plan: CallPlan::new(alloc),
            faults: 0,
            breaks: 0,
        }
    }

    /// Adds a file, or replaces the one that has this name.
    pub fn put(&mut self, name: &[u8], bytes: &[u8]) -> Result<(), AllocError>
        ensures ok { OnOk result (state self.new
            ≡ record (state self.old) { files = insert (state self.old).files name.now bytes.now }) }
        ensures err { OnErr result (state self.new ≡ state self.old) }
    {
        let alloc = *self.files.allocator();
        let file = NamedFile {
            name: Vec::from_slice(alloc, name)?,
            bytes: Vec::from_slice(alloc, bytes)?,
        };
        self.files.push(file)?;
        Ok(())
    }

    /// Names a call that is to fail. Calls of `begin` and `read` are counted together from 1, and a
    /// call that comes after 2 ^ 64 - 1 counted calls has no number.
    pub fn fail_at(&mut self, call: u64) -> Result<(), AllocError>
        ensures ok { OnOk result (state self.new
            ≡ record (state self.old) { named = (state self.old).named ++ call ∷ [] }) }
        ensures err { OnErr result (state self.new ≡ state self.old) }
    {
        self.plan.name(call)
    }

    /// Has a read give at most so many bytes.
    pub fn set_step(&mut self, most: usize)
        requires { 0 < most }
        ensures { state self.new ≡ record (state self.old) { most = Some most } }
    {
        self.most = Some(most);
    }

    /// How many calls have failed.
    pub fn faults(&self) -> u64
        ensures { result ≡ (state self.now).faults }
    {
        self.faults
    }

    /// How many of them failed only because they were named: none, where no call was named.
    pub fn breaks(&self) -> u64
        ensures value { result ≡ (state self.now).breaks }
        ensures capped { result ≤ length (state self.now).named }
    {
        self.breaks
    }
}

impl Shelf for MemShelf {
    ghost use Rattle.std.specs.Prelude.{◌≡◌, ℕ, ◌<◌, ◌≤◌, ◌++◌, ◌∷◌, [], Some, None, List, IfOk, OnOk, OnErr, IsSome, is_some, is_ok, is_err, true, refl, length, take, drop};
    ghost use Rattle.std.specs.FinMap.{get};
    ghost use Rattle.np_outside.specs.Counts.{Rose};
    ghost use Rattle.np_outside.specs.Files.{Files};
    ghost use Rattle.np_outside.specs.MemShelf.{state, begin_fails, after_begin, read_fails, count_given, after_read};

    ghost files = { λ s. Some (state s).files };

    ghost rest = { λ s. (state s).rest };

    ghost is_begun = { λ s. is_some (state s).rest };

    ghost faults = { λ s. (state s).faults };

    ghost breaks = { λ s. (state s).breaks };

    ghost cap = { λ s. Some (length (state s).named) };

    ghost counts_failures_alone = { λ _. true };

    ghost told = { λ s. refl };

    ghost capped = { λ s. s.within_cap };

    fn begin(&mut self, name: &[u8]) -> Result<(), Failed>
        ensures begins { is_some (state self.new).rest ≡ is_ok result }
        ensures ok { OnOk result ((m : Files) → Some (state self.old).files ≡ Some m →
            IsSome (get m name.now) × ((state self.new).rest ≡ get m name.now)) }
        ensures err { OnErr result ((m : Files) → Some (state self.old).files ≡ Some m →
            (state self.new).rest ≡ None) }
        ensures failed { OnErr result (Rose (state self.old).faults (state self.new).faults) }
        ensures broken { OnErr result ((m : Files) → Some (state self.old).files ≡ Some m →
            IsSome (get m name.now) → Rose (state self.old).breaks (state self.new).breaks) }
        ensures missing { (m : Files) → Some (state self.old).files ≡ Some m →
            get m name.now ≡ None → (state self.new).breaks ≡ (state self.old).breaks }
        ensures files { Some (state self.new).files ≡ Some (state self.old).files }
        ensures cap { Some (length (state self.new).named) ≡ Some (length (state self.old).named) }
        ensures grows { (state self.old).faults ≤ (state self.new).faults }
        ensures breaks_grow { (state self.old).breaks ≤ (state self.new).breaks }
        ensures still { OnOk result (true ≡ true →
            ((state self.new).faults ≡ (state self.old).faults) × ((state self.new).breaks ≡ (state self.old).breaks)) }

        // Which begins fail, and what each leaves.
        ensures fails { is_err result ≡ begin_fails (state self.old) name.now }
        ensures after { state self.new ≡ after_begin (state self.old) name.now }
    {
        let named = self.plan.count_call();
        self.begun = None;
        match newest(&self.files, name) {
            None => {
                self.faults = self.faults.saturating_add(1);
                Err(Failed)
            }
            Some(_) if named => {
                self.faults = self.faults.saturating_add(1);
                self.breaks = self.breaks.saturating_add(1);
                Err(Failed)
            }
            Some(file) => {
                self.begun = Some(Place { file, at: 0 });
                Ok(())
            }
        }
    }

    /// Gives as many bytes as the least of the step, the buffer's length and the rest's length.
    fn read(&mut self, buf: &mut [u8]) -> Result<usize, Failed>
        ensures count { IfOk result (λ n. n ≤ length buf.old) }
        ensures given { IfOk result (λ n. (r : List ℕ) → (state self.old).rest ≡ Some r →
            (n ≤ length r) × (take n buf.new ≡ take n r) × ((state self.new).rest ≡ Some (drop n r))) }
        ensures end { IfOk result (λ n. (r : List ℕ) → (state self.old).rest ≡ Some r →
            n ≡ 0 → 0 < length buf.old → r ≡ []) }
        ensures needs_begun { OnOk result (is_some (state self.old).rest ≡ true) }
        ensures stays_begun { is_some (state self.new).rest ≡ is_some (state self.old).rest }
        ensures begun { OnOk result ((m : Files) → Some (state self.old).files ≡ Some m →
            IsSome (state self.old).rest) }
        ensures err { OnErr result ((state self.new).rest ≡ (state self.old).rest) }
        ensures failed { OnErr result (Rose (state self.old).faults (state self.new).faults) }
        ensures broken { OnErr result ((m : Files) → Some (state self.old).files ≡ Some m →
            IsSome (state self.old).rest → Rose (state self.old).breaks (state self.new).breaks) }
        ensures unbegun { (m : Files) → Some (state self.old).files ≡ Some m →
            (state self.old).rest ≡ None → (state self.new).breaks ≡ (state self.old).breaks }
        ensures files { Some (state self.new).files ≡ Some (state self.old).files }
        ensures cap { Some (length (state self.new).named) ≡ Some (length (state self.old).named) }
        ensures grows { (state self.old).faults ≤ (state self.new).faults }
        ensures breaks_grow { (state self.old).breaks ≤ (state self.new).breaks }
        ensures still { OnOk result (true ≡ true →
            ((state self.new).faults ≡ (state self.old).faults) × ((state self.new).breaks ≡ (state self.old).breaks)) }

        // Which reads fail, how many bytes the others give, and what each leaves.
        ensures fails { is_err result ≡ read_fails (state self.old) }
        ensures moves { IfOk result (λ n. n ≡ count_given (state self.old) (length buf.old)) }
        ensures after { state self.new ≡ after_read (state self.old) (length buf.old) }
        ensures behind { IfOk result (λ n. drop n buf.new ≡ drop n buf.old) }
        ensures untouched { OnErr result (buf.new ≡ buf.old) }
    {
        let named = self.plan.count_call();
        let Some(place) = self.begun else {
            self.faults = self.faults.saturating_add(1);
            return Err(Failed);
        };
        if named {
            self.faults = self.faults.saturating_add(1);
            self.breaks = self.breaks.saturating_add(1);
            return Err(Failed);
        }
        let rest = &bytes_of(&self.files, place.file)[place.at..];
        let count = at_step(self.most, buf.len().min(rest.len()));
        copy_to_front(buf, &rest[..count]);
        self.begun = Some(Place {
            file: place.file,
            at: place.at + count,
        });
        Ok(count)
    }
}
