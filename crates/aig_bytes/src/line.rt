//! Where lines end.
ghost use Rattle.std.specs.Prelude.{◌≡◌, ◌≢◌, ◌<◌, ◌≤◌, length, take, slice_get, Some, All};

use memchr::memchr;

/// How many bytes stand before the first LF, or how many there are.
#[inline]
pub fn line_length(bytes: &[u8]) -> usize
    ensures bound { result ≤ length bytes.now }
    ensures no_end { All (λ b. b ≢ 10) (take result bytes.now) }
    ensures ended { result < length bytes.now → slice_get bytes.now result ≡ Some 10 }
{
    memchr(b'\n', bytes).unwrap_or(bytes.len())
}
