ghost use Rattle.std.specs.Prelude.{◌≡◌, ◌≤◌, is_err, if◌then◌else◌};
ghost use Rattle.std.specs.Result.{result_ok};
ghost use Rattle.np_outside.specs.Calls.{raised};

use thiserror::Error;

/// A device failed to do what it was asked.
#[derive(Clone, Copy, Debug, PartialEq, Eq, Error)]
#[error("the device failed")]
pub struct Failed;

/// What the system gave, or a failure, which is counted.
pub(crate) fn counted<T>(faults: &mut u64, given: Option<T>) -> Result<T, Failed>
    ensures given { result_ok result ≡ given }
    ensures counted { faults.new ≡ (if is_err result then raised faults.old else faults.old) }
    ensures grows { faults.old ≤ faults.new }
{
    match given {
        Some(value) => Ok(value),
        None => {
            *faults = faults.saturating_add(1);
            Err(Failed)
        }
    }
}
