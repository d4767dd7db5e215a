//! Words with numbers.

ghost use Rattle.std.specs.Prelude.{◌≡◌, ◌++◌, OnOk};
ghost use Rattle.std.specs.Fmt.{decimal};

use np_text::put_number;
use std::alloc::AllocError;

/// Appends bytes and a number after them.
pub fn put_numbered(out: &mut Vec<u8>, bytes: &[u8], number: u32) -> Result<(), AllocError>
    ensures { OnOk result (out.new.items ≡ out.old.items ++ (bytes.now ++ decimal number)) }
{
    out.extend_from_slice(bytes)?;
    put_number(out, u64::from(number))
}
