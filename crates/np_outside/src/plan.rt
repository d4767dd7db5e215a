// Which calls are to fail, and how much a call moves.
ghost use Rattle.std.specs.Prelude.{◌≡◌, ◌+◌, ◌≤◌, [], ◌∷◌, ◌++◌, OnOk, OnErr, if◌then◌else◌, length, take, drop};
ghost use Rattle.np_outside.specs.Calls.{raised, is_next_named, count_passed, at_step};

use std::alloc::{AllocError, Global};

/// The calls of an object that are to fail, by their numbers. Calls are counted from 1.
#[derive(Drop)]
pub(crate) struct CallPlan {
    made: u64,
    named: Vec<u64>,
}

#[tactic(auto, using(crate::proofs::Passed::passed_within))]
impl CallPlan {
    pub(crate) fn new(alloc: Global) -> CallPlan
        ensures made { result.made ≡ 0 }
        ensures named { result.named.items ≡ [] }
    {
        CallPlan {
            made: 0,
            named: Vec::new(alloc),
        }
    }

    /// Names a call that is to fail.
    pub(crate) fn name(&mut self, call: u64) -> Result<(), AllocError>
        ensures made { self.new.made ≡ self.old.made }
        ensures ok { OnOk result (self.new.named.items ≡ self.old.named.items ++ call ∷ []) }
        ensures err { OnErr result (self.new.named.items ≡ self.old.named.items) }
        ensures passed { count_passed self.old.made self.old.named.items
            ≤ count_passed self.new.made self.new.named.items }
        ensures within { count_passed self.new.made self.new.named.items
            ≤ length self.new.named.items }
    {
        self.named.push(call)?;
        Ok(())
    }

    /// Counts a call, and answers whether it is to fail.
    pub(crate) fn count_call(&mut self) -> bool
        ensures named { result ≡ is_next_named self.old.made self.old.named.items }
        ensures made { self.new.made ≡ raised self.old.made }
        ensures same { self.new.named.items ≡ self.old.named.items }
        ensures passed { count_passed self.old.made self.old.named.items + (if result then 1 else 0)
            ≤ count_passed self.new.made self.new.named.items }
        ensures within { count_passed self.new.made self.new.named.items
            ≤ length self.new.named.items }
    {
        if self.made == u64::MAX {
            return false;
        }
        self.made += 1;
        self.named.contains(&self.made)
    }
}

/// At most as many as one call moves.
pub(crate) fn at_step(most: Option<usize>, count: usize) -> usize
    ensures { result ≡ at_step most count }
{
    match most {
        Some(most) => count.min(most),
        None => count,
    }
}

/// Copies bytes over the front of a buffer.
pub(crate) fn copy_to_front(buf: &mut [u8], bytes: &[u8])
    requires { length bytes.now ≤ length buf.old }
    ensures { buf.new ≡ bytes.now ++ drop (length bytes.now) buf.old }
{
    buf[..bytes.len()].copy_from_slice(bytes);
}
