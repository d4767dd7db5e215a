//! Headers of a list.

ghost use Rattle.std.specs.Prelude.{◌≡◌, ◌<◌, length, slice_index_or};
ghost use Rattle.np_space.specs.Header.{zeros};

use np_space::Header;

/// The header at a place of a list. `n` is below the number of headers.
pub fn header_at(headers: &[Header], n: usize) -> Header
    requires { n < length headers.now }
    ensures { result ≡ slice_index_or headers.now n zeros }
{
    headers[n]
}
