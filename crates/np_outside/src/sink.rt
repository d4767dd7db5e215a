ghost use Rattle.std.specs.Prelude.{◌≡◌, ℕ, ◌+◌, ◌<◌, ◌≤◌, Bool, true, false, List, ◌++◌, Option, length, take, IfOk, OnOk, OnErr, IfSome};
ghost use Rattle.np_outside.specs.Counts.{Rose};

use crate::failure::Failed;

/// Takes bytes, some at a time.
pub trait Sink {
    /// The bytes taken so far, where the sink tells them.
    ghost taken: { Self → Option (List ℕ) };

    /// How many calls have failed. The count stands still at 2 ^ 64 - 1.
    ghost faults: { Self → ℕ };

    /// At most how many calls fail while there is room, where the sink tells it.
    ghost cap: { Self → Option ℕ };

    /// How many bytes there is room for in all, where the sink tells it.
    ghost room: { Self → Option ℕ };

    /// Whether the count rises in calls that fail alone. A sink that doesn't say so may raise it in other
    /// calls too.
    ghost counts_failures_alone: { Self → Bool } = { λ _. false };

    /// Takes bytes from the front of `buf`, and answers how many. To take none of some is a failure.
    fn write(&mut self, buf: &[u8]) -> Result<usize, Failed>
        ensures count { IfOk result (λ n. (n ≤ length buf.now) × (0 < length buf.now → 0 < n)) }
        ensures taken { IfOk result (λ n. (b : List ℕ) → taken self.old ≡ Some b →
            taken self.new ≡ Some (b ++ take n buf.now)) }
        ensures err { OnErr result (taken self.new ≡ taken self.old) }
        ensures failed { OnErr result (Rose (faults self.old) (faults self.new)) }
        ensures still { OnOk result (counts_failures_alone self.old ≡ true →
            faults self.new ≡ faults self.old) }
        ensures grows { faults self.old ≤ faults self.new }
        ensures cap { cap self.new ≡ cap self.old }
        ensures room { room self.new ≡ room self.old };

    /// While there is room left, no more calls have failed than the cap.
    ghost capped: { (s : Self) → IfSome (taken s) (λ b. IfSome (cap s) (λ c. IfSome (room s) (λ r.
        length b < r → faults s ≤ c))) };
}

/// Writes all of the bytes, offering the whole rest each time.
pub fn write_all<K: Sink>(sink: &mut K, bytes: &[u8]) -> Result<(), Failed>
    ensures ok { OnOk result ((b : List ℕ) → K.taken sink.old ≡ Some b →
        K.taken sink.new ≡ Some (b ++ bytes.now)) }
    ensures failed { OnErr result (Rose (K.faults sink.old) (K.faults sink.new)) }
    ensures prefix { OnErr result ((b : List ℕ) → K.taken sink.old ≡ Some b →
        (n : ℕ) × (n < length bytes.now) × (K.taken sink.new ≡ Some (b ++ take n bytes.now))) }
    ensures grows { K.faults sink.old ≤ K.faults sink.new }
    ensures cap { K.cap sink.new ≡ K.cap sink.old }
    ensures room { K.room sink.new ≡ K.room sink.old }
{
    let mut done = 0;
    while done < bytes.len() {
        done += sink.write(&bytes[done..])?;
    }
    Ok(())
}
