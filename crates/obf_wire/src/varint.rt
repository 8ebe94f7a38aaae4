//! Numbers in their shortest spelling.

ghost use Rattle.std.specs.Prelude.{◌≡◌, ◌↔◌, ◌≤◌, ℕ, length, slice_range, IfOk, Ok, Err, take};
ghost use Rattle.obf_wire.specs.Varint.{varint, varint_in, varint_at, IsSpelledAt, IsCut, IsOverlong, short_at, long_at};

use crate::breaks::{WireBreak, WireKind};

/// How many bytes the longest spelling of a number has.
pub const LONGEST_VARINT: usize = 10;

/// The number at the front of `bytes`, and how many of them spell it.
fn read_groups(bytes: &[u8]) -> Result<(u64, usize), WireKind>
    ensures read { result ≡ varint_in bytes.now }
    ensures within { IfOk result (λ found. found.1 ≤ length bytes.now) }
{
    let mut value = 0;
    let mut weight = 1;
    for (before, byte) in bytes.iter().enumerate() {
        let byte = u64::from(*byte);
        if byte < 128 {
            if before > 0 && byte == 0 {
                return Err(WireKind::LongVarint);
            }
            // Behind nine groups of seven bits one bit is left.
            if before == 9 && byte > 1 {
                return Err(WireKind::LongVarint);
            }
            return Ok((value + weight * byte, before + 1));
        }
        if before == 9 {
            return Err(WireKind::LongVarint);
        }
        value += weight * (byte - 128);
        weight *= 128;
    }
    Err(WireKind::Short)
}

/// The number at `at` and the place behind it, or the break.
fn number_at(bytes: &[u8], at: usize, end: usize) -> Result<(u64, usize), WireBreak>
    requires from_in { at ≤ end }
    requires end_in { end ≤ length bytes.now }
    ensures { result ≡ varint_at bytes.now at end }
{
    if at < end && bytes[at] < 128 {
        return Ok((u64::from(bytes[at]), at + 1));
    }
    match read_groups(&bytes[at..end]) {
        Ok((value, len)) => Ok((value, at + len)),
        Err(kind) => Err(kind.at(at)),
    }
}

/// The number whose shortest spelling stands at `at`, before `end`, and the place behind it.
///
/// A break is told at `at`: `Short` where the bytes up to `end` are only the front of a spelling, `LongVarint`
/// where no bytes behind them could make them begin with one, since they spell a number longer than needed or
/// one of more than 64 bits.
pub fn read_varint(bytes: &[u8], at: usize, end: usize) -> Result<(u64, usize), WireBreak>
    requires from_in { at ≤ end }
    requires end_in { end ≤ length bytes.now }
    ensures found { IfOk result (λ read. IsSpelledAt bytes.now at end read.0 read.1) }
    ensures only { (n next : ℕ) → IsSpelledAt bytes.now at end n next → result ≡ Ok (n, next) }
    ensures short { (result ≡ Err (short_at at)) ↔ IsCut (slice_range bytes.now at end) }
    ensures long { (result ≡ Err (long_at at)) ↔ IsOverlong (slice_range bytes.now at end) }
    ensures exact { result ≡ varint_at bytes.now at end }
{
    number_at(bytes, at, end)
}

/// Puts the shortest spelling of a number to the front of `buffer`, and answers how many bytes it has.
pub(crate) fn spell(v: u64, buffer: &mut [u8]) -> usize
    requires { LONGEST_VARINT ≤ length buffer.old }
    ensures len { result ≤ LONGEST_VARINT }
    ensures spelled { take result buffer.new ≡ varint v }
{
    let mut left = v;
    let mut len = 0;
    while left >= 128 {
        buffer[len] = (left % 128) as u8 + 128;
        left /= 128;
        len += 1;
    }
    buffer[len] = left as u8;
    len + 1
}
