ghost use Rattle.std.specs.Prelude.{◌≡◌, None, true};

use crate::failure::{Failed, counted};
use crate::sink::Sink;

/// Standard output. It tells nothing of what it has taken. Each refusal by the system is a failure,
/// want of memory among them. Nothing is held back: a write that succeeds has gone to the system.
pub struct StdSink<'a, R: Print> {
    rt: &'a R,
    faults: u64,
}

impl<'a, R: Print> StdSink<'a, R> {
    /// No call has failed.
    pub fn new(rt: &'a R) -> StdSink<'a, R>
        ensures { ⟦<StdSink<'a, R> as Sink>⟧.faults result ≡ 0 }
    {
        StdSink { rt, faults: 0 }
    }
}

impl<R: Print> Drop for StdSink<'_, R> {
    fn drop(self) {
        let StdSink { rt: _, faults: _ } = self;
    }
}

impl<R: Print> Sink for StdSink<'_, R> {
    ghost taken = { λ _. None };

    ghost faults = { λ s. s.faults };

    ghost cap = { λ _. None };

    ghost room = { λ _. None };

    ghost counts_failures_alone = { λ _. true };

    ghost capped = { λ _. tt };

    fn write(&mut self, buf: &[u8]) -> Result<usize, Failed> {
        let taken = match self.rt.write_some(buf) {
            Ok(count) if count > 0 || buf.is_empty() => Some(count),
            _ => None,
        };
        counted(&mut self.faults, taken)
    }
}
