//! Where a byte stands first.

ghost use Rattle.std.specs.Prelude.{◌≡◌, ◌≤◌, ◌<◌, ◌+◌, ◌==◌, length, drop};
ghost use Rattle.std.specs.List.{position_or_len};

use memchr::memchr;

// The place of the first such byte, or the length where there is none.
pub(crate) fn place_of(byte: u8, bytes: &[u8]) -> usize
    ensures place { result ≡ position_or_len (λ c. c == byte) bytes.now }
    ensures within { result ≤ length bytes.now }
{
    match memchr(byte, bytes) {
        Some(i) => i,
        None => bytes.len(),
    }
}

// The bytes behind the one at a place.
pub(crate) fn behind(bytes: &[u8], i: usize) -> &[u8]
    requires { i < length bytes.now }
    ensures { result.now ≡ drop (i + 1) bytes.now }
{
    &bytes[i + 1..]
}
