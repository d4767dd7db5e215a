ghost use Rattle.std.specs.Prelude.{◌≡◌, Some, ℕ, ◌+◌, ◌-◌, ◌^◌, ◌<◌, ◌≤◌, List, [], ◌++◌, Option, Bool, true, false, length, take, drop, is_some, is_ok, IfOk, OnOk, OnErr, IfSome, IsSome, IsSomeAnd, IsErr, IsErrOf, vec_len};
ghost use Rattle.std.specs.FinMap.{get};
ghost use Rattle.np_outside.specs.Counts.{Rose};
ghost use Rattle.np_outside.specs.Files.{Files, IsLeftOf};
ghost use Rattle.np_outside.specs.declared.shelf.ReadError.TheVariants as causes;

use crate::failure::Failed;
use std::alloc::{AllocError, Global};
use thiserror::Error;

/// Why a file could not be read.
#[derive(Clone, Copy, Debug, PartialEq, Eq, Error)]
pub enum ReadError {
    /// The shelf failed.
    #[error("the device failed")]
    Failed,

    /// The file has more bytes than the limit.
    #[error("the file is too long")]
    TooLong,

    /// There was no memory for the bytes.
    #[error("out of memory")]
    Memory(AllocError),
}

impl From<Failed> for ReadError {
    ghost from_gives = { λ _ e. e ≡ causes.Failed };

    fn from(_failed: Failed) -> ReadError {
        ReadError::Failed
    }
}

impl From<AllocError> for ReadError {
    ghost from_gives = { λ cause e. e ≡ causes.Memory cause };

    fn from(cause: AllocError) -> ReadError {
        ReadError::Memory(cause)
    }
}

/// Gives the bytes of named files, one file at a time.
pub trait Shelf {
    /// The files, where the shelf tells them.
    ghost files: { Self → Option Files };

    /// What is left of the file that is begun, where the shelf tells it. Where a shelf tells its
    /// files and not this, no file is begun.
    ghost rest: { Self → Option (List ℕ) };

    /// Whether a file is begun.
    ghost is_begun: { Self → Bool };

    /// How many calls have failed. The count stands still at 2 ^ 64 - 1.
    ghost faults: { Self → ℕ };

    /// How many of them the shelf's user could not have brought about. It stands still as they do.
    ghost breaks: { Self → ℕ };

    /// At most how many breaks there can be, where the shelf tells it.
    ghost cap: { Self → Option ℕ };

    /// Whether the counts rise in calls that fail alone. A shelf that doesn't say so may raise them in
    /// other calls too.
    ghost counts_failures_alone: { Self → Bool } = { λ _. false };

    /// Makes the named file the current one, from its first byte. A name that is not there is a
    /// failure.
    fn begin(&mut self, name: &[u8]) -> Result<(), Failed>
        ensures begins { is_begun self.new ≡ is_ok result }
        ensures ok { OnOk result ((m : Files) → files self.old ≡ Some m →
            IsSome (get m name.now) × (rest self.new ≡ get m name.now)) }

        ensures err { OnErr result ((m : Files) → files self.old ≡ Some m → rest self.new ≡ None) }

        ensures failed { OnErr result (Rose (faults self.old) (faults self.new)) }
        ensures broken { OnErr result ((m : Files) → files self.old ≡ Some m →
            IsSome (get m name.now) → Rose (breaks self.old) (breaks self.new)) }
        ensures missing { (m : Files) → files self.old ≡ Some m →
            get m name.now ≡ None → breaks self.new ≡ breaks self.old }

        ensures still { OnOk result (counts_failures_alone self.old ≡ true →
            (faults self.new ≡ faults self.old) × (breaks self.new ≡ breaks self.old)) }

        ensures files { files self.new ≡ files self.old }
        ensures cap { cap self.new ≡ cap self.old }
        ensures grows { faults self.old ≤ faults self.new }
        ensures breaks_grow { breaks self.old ≤ breaks self.new };

    /// Moves bytes from the front of the rest to the front of `buf`, and answers how many. None for a
    /// buffer that has room is the end of the file. A read without a begun file is a failure.
    fn read(&mut self, buf: &mut [u8]) -> Result<usize, Failed>
        ensures count { IfOk result (λ n. n ≤ length buf.old) }
        ensures given { IfOk result (λ n. (r : List ℕ) → rest self.old ≡ Some r →
            (n ≤ length r) × (take n buf.new ≡ take n r) × (rest self.new ≡ Some (drop n r))) }
        ensures end { IfOk result (λ n. (r : List ℕ) → rest self.old ≡ Some r →
            n ≡ 0 → 0 < length buf.old → r ≡ []) }
        ensures needs_begun { OnOk result (is_begun self.old ≡ true) }
        ensures stays_begun { is_begun self.new ≡ is_begun self.old }
        ensures begun { OnOk result ((m : Files) → files self.old ≡ Some m →
            IsSome (rest self.old)) }
        ensures err { OnErr result (rest self.new ≡ rest self.old) }

        ensures failed { OnErr result (Rose (faults self.old) (faults self.new)) }
        ensures broken { OnErr result ((m : Files) → files self.old ≡ Some m →
            IsSome (rest self.old) → Rose (breaks self.old) (breaks self.new)) }
        ensures unbegun { (m : Files) → files self.old ≡ Some m →
            rest self.old ≡ None → breaks self.new ≡ breaks self.old }

        ensures still { OnOk result (counts_failures_alone self.old ≡ true →
            (faults self.new ≡ faults self.old) × (breaks self.new ≡ breaks self.old)) }

        ensures files { files self.new ≡ files self.old }
        ensures cap { cap self.new ≡ cap self.old }
        ensures grows { faults self.old ≤ faults self.new }
        ensures breaks_grow { breaks self.old ≤ breaks self.new };

    /// A shelf that tells its files tells the rest of a file that is begun, and of no other.
    ghost told: { (s : Self) → IfSome (files s) (λ _. is_some (rest s) ≡ is_begun s) };

    /// There are no more breaks than the cap.
    ghost capped: { (s : Self) → IfSome (cap s) (λ c. breaks s ≤ c) };
}

/// How many bytes are asked of a shelf at once.
const PIECE: usize = 4096;

/// All bytes of a file that has at most `limit` of them. Of any other at most one byte more is taken.
pub fn read_file<S: Shelf>(
    alloc: Global,
    shelf: &mut S,
    name: &[u8],
    limit: usize,
) -> Result<Vec<u8>, ReadError>
    requires { limit < 2 ^ 64 - 1 }
    ensures ok { IfOk result (λ v. (m : Files) → S.files shelf.old ≡ Some m →
        get m name.now ≡ Some v.items) }
    ensures within { IfOk result (λ v. vec_len v ≤ limit) }

    // A file that is too long is found out by one byte past the limit.
    ensures too_long { IsErrOf result ReadError.TooLong → (m : Files) → S.files shelf.old ≡ Some m →
        IsSomeAnd (get m name.now) (λ bytes.
        (limit < length bytes) × (S.rest shelf.new ≡ Some (drop (limit + 1) bytes))) }
    ensures longer { (m : Files) (bytes : List ℕ) → S.files shelf.old ≡ Some m →
        get m name.now ≡ Some bytes → limit < length bytes → IsErr result }

    // A device's fault has raised its count.
    ensures failed { IsErrOf result ReadError.Failed →
        Rose (S.faults shelf.old) (S.faults shelf.new) }
    ensures broken { IsErrOf result ReadError.Failed → (m : Files) → S.files shelf.old ≡ Some m →
        IsSome (get m name.now) → Rose (S.breaks shelf.old) (S.breaks shelf.new) }
    ensures missing { (m : Files) → S.files shelf.old ≡ Some m → get m name.now ≡ None →
        IsErrOf result ReadError.Failed × (S.breaks shelf.new ≡ S.breaks shelf.old) }

    // Nothing is left of the file after a success. After an error its end is, or no file is begun.
    ensures ended { OnOk result ((m : Files) → S.files shelf.old ≡ Some m →
        S.rest shelf.new ≡ Some []) }
    ensures left { (m : Files) → S.files shelf.old ≡ Some m →
        IsLeftOf (get m name.now) (limit + 1) (S.rest shelf.new) }

    ensures files { S.files shelf.new ≡ S.files shelf.old }
    ensures cap { S.cap shelf.new ≡ S.cap shelf.old }
    ensures grows { S.faults shelf.old ≤ S.faults shelf.new }
    ensures breaks_grow { S.breaks shelf.old ≤ S.breaks shelf.new }
{
    shelf.begin(name)?;
    let mut bytes = Vec::new(alloc);
    let mut piece = [0; PIECE];
    while bytes.len() <= limit {
        let most = PIECE.min(limit - bytes.len() + 1);
        let count = shelf.read(&mut piece[..most])?;
        if count == 0 {
            return Ok(bytes);
        }
        bytes.extend_from_slice(&piece[..count])?;
    }
    Err(ReadError::TooLong)
}
