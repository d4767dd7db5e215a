ghost use Rattle.std.specs.Prelude.{true, ◌≡◌, ◌≤◌, ◌<◌, Some, None, length};
ghost use Rattle.std.specs.Option.{ForSome};
ghost use Rattle.std.specs.Vec.{vec_len, vec_capacity};
ghost use Rattle.np_outside.specs.Calls.{count_passed};

use crate::failure::Failed;
use crate::plan::{CallPlan, at_step};
use crate::sink::Sink;
use std::alloc::{AllocError, Global};

/// A sink in memory, with room for so many bytes. It tells what it has taken, and fails where it is
/// told to.
#[derive(Drop)]
pub struct MemSink {
    bytes: Vec<u8>,
    room: usize,
    most: Option<usize>,
    plan: CallPlan,
    faults: u64,
    ghost step_moves: { ForSome most (λ n. 0 < n) },
    ghost fits: { vec_len bytes ≤ room },
    ghost reserved: { room ≤ vec_capacity bytes },
    ghost counted: { vec_len bytes < room → faults ≤ count_passed plan.made plan.named.items },
    ghost within_cap: { length bytes.items < room → faults ≤ length plan.named.items },
}

impl MemSink {
    ghost use Rattle.std.specs.Prelude.{◌≡◌, ◌<◌, ◌≤◌, ◌++◌, ◌∷◌, [], Some, None, IfOk, OnOk, OnErr, length};
    ghost use Rattle.np_outside.specs.MemSink.{state};

    /// An empty sink with room for so many bytes, which are reserved here: no write takes memory.
    pub fn new(alloc: Global, room: usize) -> Result<MemSink, AllocError>
        ensures { IfOk result (λ s. state s ≡ record {
          bytes = [];
          room = room;
          most = None;
          made = 0;
          named = [];
          faults = 0;
        }) }
    {
        Ok(MemSink {
            bytes: Vec::with_capacity(alloc, room)?,
            room,
            most: None,
            plan: CallPlan::new(alloc),
            faults: 0,
        })
    }

    /// Names a call that is to fail. Calls of `write` are counted from 1, and a call that comes
    /// after 2 ^ 64 - 1 counted calls has no number.
    pub fn fail_at(&mut self, call: u64) -> Result<(), AllocError>
        ensures ok { OnOk result (state self.new
            ≡ record (state self.old) { named = (state self.old).named ++ call ∷ [] }) }
        ensures err { OnErr result (state self.new ≡ state self.old) }
    {
        self.plan.name(call)
    }

    /// Has a write take at most so many bytes.
    pub fn set_step(&mut self, most: usize)
        requires { 0 < most }
        ensures { state self.new ≡ record (state self.old) { most = Some most } }
    {
        self.most = Some(most);
    }

    /// The bytes taken.
    pub fn bytes(&self) -> &[u8]
        ensures { result.now ≡ (state self.now).bytes }
    {
        self.bytes.as_slice()
    }

    /// How many writes have failed. While there is room, no more have than were named.
    pub fn faults(&self) -> u64
        ensures value { result ≡ (state self.now).faults }
        ensures capped { length (state self.now).bytes < (state self.now).room →
            result ≤ length (state self.now).named }
    {
        self.faults
    }
}

impl Sink for MemSink {
    ghost use Rattle.std.specs.Prelude.{◌≡◌, ℕ, ◌<◌, ◌≤◌, ◌++◌, ◌∷◌, [], Some, None, List, IfOk, OnOk, OnErr, is_err, length, take};
    ghost use Rattle.np_outside.specs.Counts.{Rose};
    ghost use Rattle.np_outside.specs.MemSink.{state, write_fails, count_taken, after_write};

    ghost taken = { λ s. Some (state s).bytes };

    ghost faults = { λ s. (state s).faults };

    ghost cap = { λ s. Some (length (state s).named) };

    ghost room = { λ s. Some (state s).room };

    ghost counts_failures_alone = { λ _. true };

    ghost capped = { λ s. s.within_cap };

    /// Takes as many bytes as the least of the step, the piece's length and the room left.
    fn write(&mut self, buf: &[u8]) -> Result<usize, Failed>
        ensures count { IfOk result (λ n. (n ≤ length buf.now) × (0 < length buf.now → 0 < n)) }
        ensures taken { IfOk result (λ n. (b : List ℕ) → Some (state self.old).bytes ≡ Some b →
            Some (state self.new).bytes ≡ Some (b ++ take n buf.now)) }
        ensures err { OnErr result (Some (state self.new).bytes ≡ Some (state self.old).bytes) }
        ensures failed { OnErr result (Rose (state self.old).faults (state self.new).faults) }
        ensures grows { (state self.old).faults ≤ (state self.new).faults }
        ensures cap { Some (length (state self.new).named) ≡ Some (length (state self.old).named) }
        ensures room { Some (state self.new).room ≡ Some (state self.old).room }
        ensures still { OnOk result (true ≡ true → (state self.new).faults ≡ (state self.old).faults) }

        // Which writes fail, how many bytes the others take, and what is left.
        ensures fails { is_err result ≡ write_fails (state self.old) (length buf.now) }
        ensures moves { IfOk result (λ n. n ≡ count_taken (state self.old) (length buf.now)) }
        ensures after { state self.new ≡ after_write (state self.old) buf.now }
    {
        let named = self.plan.count_call();
        let room_left = self.room - self.bytes.len();
        if named || (room_left == 0 && !buf.is_empty()) {
            self.faults = self.faults.saturating_add(1);
            return Err(Failed);
        }
        let count = at_step(self.most, buf.len().min(room_left));
        self.bytes.extend_from_slice(&buf[..count]).unwrap();
        Ok(count)
    }
}
