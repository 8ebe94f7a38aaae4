//! Coordinates, read.

ghost use Rattle.std.specs.Prelude.{◌≡◌, ◌≤◌, ◌<◌, ◌+◌, ◌*◌, ◌^◌, ◌==◌, length, drop, MatchOption, IfSome, pos, unsigned_abs, ◌≤ℤ◌};
ghost use Rattle.std.specs.List.{position_or_len};
ghost use Rattle.text_pieces.specs.Coordinates.{degrees_within, magnitude_of, whole_part, fraction_part};

use crate::find::{behind, place_of};
use crate::numbers::{begins_with_minus, behind_minus, decimal_behind, is_digits, with_sign};

/// The coordinate that a text spells, in units of 10^-7 degrees. There is none exactly where the
/// text is no coordinate, or one of a magnitude above `most`; a negative `most` allows none.
pub fn read_degrees(text: &str, most: i64) -> Option<i64>
    ensures value { result ≡ degrees_within most text.now }
    ensures within { IfSome result (λ z. pos (unsigned_abs z) ≤ℤ most) }
{
    degrees(text.as_bytes(), most)
}

/// The coordinate that the bytes spell, in units of 10^-7 degrees. There is none exactly where they
/// are no coordinate, or one of a magnitude above `most`; a negative `most` allows none.
#[tactic(auto, unfolding(crate::specs::Coordinates::degrees_of))]
pub fn degrees(bytes: &[u8], most: i64) -> Option<i64>
    ensures value { result ≡ degrees_within most bytes.now }
    ensures within { IfSome result (λ z. pos (unsigned_abs z) ≤ℤ most) }
{
    if most < 0 {
        return None;
    }
    let found = magnitude(behind_minus(bytes), most as u64)?;
    Some(with_sign(begins_with_minus(bytes), found))
}

#[tactic(auto, unfolding(crate::specs::Coordinates::magnitude_of), using(crate::proofs::CoordinateSteps::magnitude_is, crate::proofs::CoordinateSteps::magnitude_ge))]
fn magnitude(bytes: &[u8], most: u64) -> Option<u64>
    ensures value { result ≡ magnitude_of most bytes.now }
    ensures within { IfSome result (λ n. n ≤ most) }
{
    let (whole, fraction) = parted(bytes);
    if !is_digits(whole, 3) || (whole.len() < bytes.len() && !is_digits(fraction, 7)) {
        return None;
    }
    let Some(degrees) = decimal_behind(0, whole) else {
        return None;
    };
    let Some(digits) = decimal_behind(degrees, fraction) else {
        return None;
    };
    match digits.checked_mul(ten_to(7 - fraction.len())) {
        Some(n) if n <= most => Some(n),
        _ => None,
    }
}

// A power of ten of at most seven zeros.
fn ten_to(zeros: usize) -> u64
    requires { zeros ≤ 7 }
    ensures { result ≡ 10 ^ zeros }
{
    match zeros {
        0 => 1,
        1 => 10,
        2 => 100,
        3 => 1_000,
        4 => 10_000,
        5 => 100_000,
        6 => 1_000_000,
        _ => 10_000_000,
    }
}

// The bytes before the first point and those behind it; where there is none, all and none.
fn parted(bytes: &[u8]) -> (&[u8], &[u8])
    ensures whole { result.0.now ≡ whole_part bytes.now }
    ensures fraction { result.1.now ≡ fraction_part bytes.now }
    ensures shorter { length result.0.now ≤ length bytes.now }
    ensures none { length result.0.now ≡ length bytes.now → length result.1.now ≡ 0 }
{
    let i = place_of(b'.', bytes);
    if i < bytes.len() {
        (&bytes[..i], behind(bytes, i))
    } else {
        (bytes, &[])
    }
}
