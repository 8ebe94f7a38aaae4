//! Numbers, ids and coordinates, each digit read once.

ghost use Rattle.std.specs.Prelude.{◌∷◌, [], MatchOption, ◌≡◌, ◌≤◌, ◌<◌, ◌^◌, ◌+◌, ◌*◌, Some, length, IfSome, IsTrue, unsigned_abs};
ghost use Rattle.text_pieces.specs.Numbers.{is_digit, decimal_after, number_of, id_of, are_digits, has_minus, without_minus, signed};
ghost use Rattle.text_pieces.specs.Coordinates.{magnitude_of, degrees_of};
ghost use Rattle.opl_rows.specs.Fronts.{point_text, behind_point, front, back, is_end, digits_of, behind_digits, id_text, behind_id, magnitude_text, behind_magnitude, degrees_text, behind_degrees};

/// A number at the front of bytes, and what stands behind it.
#[derive(Clone, Copy)]
pub(crate) struct Unsigned<'a> {
    pub value: u64,
    pub rest: &'a [u8],
}

/// The same of a number with a sign.
#[derive(Clone, Copy)]
pub(crate) struct Integer<'a> {
    pub value: i64,
    pub rest: &'a [u8],
}

/// How far a number may grow before a digit more is read.
const MOST: u64 = 1_000_000_000_000_000_000;

/// The digits at the front, behind another number.
pub(crate) fn digits(bytes: &[u8], before: u64) -> Option<Unsigned<'_>>
    ensures value { IfSome result (λ d. d.value ≡ decimal_after before (digits_of bytes.now)) }
    ensures rest { IfSome result (λ d. d.rest.now ≡ behind_digits bytes.now) }
    ensures shorter { IfSome result (λ d. length d.rest.now + length (digits_of bytes.now) ≡ length bytes.now) }
{
    let mut n = before;
    let mut rest = bytes;
    while let [c, after @ ..] = rest {
        if !is_digit(*c) {
            break;
        }
        if n >= MOST {
            return None;
        }
        n = n * 10 + u64::from(*c - b'0');
        rest = after;
    }
    Some(Unsigned { value: n, rest })
}

/// Whether a byte is a digit.
pub(crate) fn is_digit(c: u8) -> bool
    ensures { result ≡ is_digit c }
{
    b'0' <= c && c <= b'9'
}

/// Whether a value ends here.
pub(crate) fn is_end(bytes: &[u8]) -> bool
    ensures { result ≡ is_end bytes.now }
{
    match bytes {
        [c, ..] => *c == b' ' || *c == b'\t',
        [] => true,
    }
}

/// 1 to `most` digits at the front, of a number of at most `top`.
#[tactic(auto, unfolding(text_pieces::specs::Numbers::number_of), using(crate::proofs::Ends::all_digits))]
fn number_part(bytes: &[u8], most: usize, top: u64) -> Option<Unsigned<'_>>
    ensures value { IfSome result (λ n. number_of most top (digits_of bytes.now) ≡ Some n.value) }
    ensures rest { IfSome result (λ n. n.rest.now ≡ behind_digits bytes.now) }
    ensures within { IfSome result (λ n. n.value ≤ top) }
{
    let Some(found) = digits(bytes, 0) else {
        return None;
    };
    let len = bytes.len() - found.rest.len();
    if len == 0 || len > most || found.value > top {
        return None;
    }
    Some(found)
}

/// A number that ends where the value does.
#[tactic(auto, using(crate::proofs::Ends::digits_front, crate::proofs::Ends::digits_back))]
pub(crate) fn number(bytes: &[u8], most: usize, top: u64) -> Option<Unsigned<'_>>
    ensures value { IfSome result (λ n. number_of most top (front bytes.now) ≡ Some n.value) }
    ensures rest { IfSome result (λ n. n.rest.now ≡ back bytes.now) }
    ensures within { IfSome result (λ n. n.value ≤ top) }
{
    let Some(found) = number_part(bytes, most, top) else {
        return None;
    };
    if !is_end(found.rest) {
        return None;
    }
    Some(found)
}

/// Whether the first byte is a minus.
fn begins_with_minus(bytes: &[u8]) -> bool
    ensures { result ≡ has_minus bytes.now }
{
    match bytes {
        [first, ..] => *first == b'-',
        [] => false,
    }
}

/// The bytes behind a minus, or all of them where there is none.
pub(crate) fn behind_minus(bytes: &[u8]) -> &[u8]
    ensures { result.now ≡ without_minus bytes.now }
{
    match bytes {
        [b'-', rest @ ..] => rest,
        _ => bytes,
    }
}

/// The number of this magnitude, below zero where it has a minus.
fn with_sign(minus: bool, magnitude: u64) -> i64
    requires { magnitude < 2 ^ 63 }
    ensures value { result ≡ signed minus magnitude }
    ensures same { unsigned_abs result ≡ magnitude }
{
    if minus {
        -(magnitude as i64)
    } else {
        magnitude as i64
    }
}

/// An id at the front, whatever stands behind it.
#[tactic(auto, using(crate::proofs::Ends::id_is))]
pub(crate) fn id_part(bytes: &[u8]) -> Option<Integer<'_>>
    ensures value { IfSome result (λ n. id_of (id_text bytes.now) ≡ Some n.value) }
    ensures rest { IfSome result (λ n. n.rest.now ≡ behind_id bytes.now) }
    ensures within { IfSome result (λ n. unsigned_abs n.value ≤ 281474976710656) }
{
    let minus = begins_with_minus(bytes);
    let Some(found) = number_part(behind_minus(bytes), 15, 1 << 48) else {
        return None;
    };
    Some(Integer {
        value: with_sign(minus, found.value),
        rest: found.rest,
    })
}

/// An id that ends where the value does.
#[tactic(auto, using(crate::proofs::Ends::id_front, crate::proofs::Ends::id_back))]
pub(crate) fn id(bytes: &[u8]) -> Option<Integer<'_>>
    ensures value { IfSome result (λ n. id_of (front bytes.now) ≡ Some n.value) }
    ensures rest { IfSome result (λ n. n.rest.now ≡ back bytes.now) }
    ensures within { IfSome result (λ n. unsigned_abs n.value ≤ 281474976710656) }
{
    let Some(found) = id_part(bytes) else {
        return None;
    };
    if !is_end(found.rest) {
        return None;
    }
    Some(found)
}

/// A power of ten of at most seven zeros.
fn ten_to(zeros: usize) -> u64
    requires { zeros ≤ 7 }
    ensures { result ≡ 10 ^ zeros }
{
    match zeros {
        0 => 1,
        1 => 10,
        2 => 100,
        3 => 1_000,
        4 => 10_000,
        5 => 100_000,
        6 => 1_000_000,
        _ => 10_000_000,
    }
}

/// Digits, a point and digits, in units of the seventh place.
#[tactic(auto, using(crate::proofs::Degrees::text_alone, crate::proofs::Degrees::text_parted))]
fn magnitude(bytes: &[u8], most: u64) -> Option<Unsigned<'_>>
    ensures value { IfSome result (λ n. magnitude_of most (magnitude_text bytes.now) ≡ Some n.value) }
    ensures rest { IfSome result (λ n. n.rest.now ≡ behind_magnitude bytes.now) }
    ensures within { IfSome result (λ n. n.value ≤ most) }
{
    let Some(whole) = digits(bytes, 0) else {
        return None;
    };
    let len = bytes.len() - whole.rest.len();
    if len == 0 || len > 3 {
        return None;
    }
    match behind_point(whole.rest) {
        Some(behind) => {
            let Some(fraction) = digits(behind, whole.value) else {
                return None;
            };
            let places = behind.len() - fraction.rest.len();
            if places == 0 || places > 7 {
                return None;
            }
            let Some(value) = units(fraction.value, 7 - places, most) else {
                return None;
            };
            Some(Unsigned {
                value,
                rest: fraction.rest,
            })
        }
        None => {
            let Some(value) = units(whole.value, 7, most) else {
                return None;
            };
            Some(Unsigned {
                value,
                rest: whole.rest,
            })
        }
    }
}

/// What stands behind a point.
fn behind_point(bytes: &[u8]) -> Option<&[u8]>
    ensures point { MatchOption result (point_text bytes.now ≡ []) (λ more. bytes.now ≡ 46 ∷ more.now) }
    ensures rest { MatchOption result (behind_point bytes.now ≡ bytes.now) (λ more. behind_point bytes.now ≡ behind_digits more.now) }
{
    match bytes {
        [b'.', behind @ ..] => Some(behind),
        _ => None,
    }
}

/// Zeros behind digits.
fn units(digits: u64, zeros: usize, most: u64) -> Option<u64>
    requires { zeros ≤ 7 }
    ensures value { IfSome result (λ n. n ≡ digits * 10 ^ zeros) }
    ensures within { IfSome result (λ n. n ≤ most) }
{
    match digits.checked_mul(ten_to(zeros)) {
        Some(n) if n <= most => Some(n),
        _ => None,
    }
}

/// A coordinate that ends where the value does.
#[tactic(auto, using(crate::proofs::Degrees::degrees_is, crate::proofs::Degrees::degrees_back))]
pub(crate) fn degrees(bytes: &[u8], most: u64) -> Option<Integer<'_>>
    requires { most < 2 ^ 63 }
    ensures value { IfSome result (λ n. degrees_of most (front bytes.now) ≡ Some n.value) }
    ensures rest { IfSome result (λ n. n.rest.now ≡ back bytes.now) }
    ensures within { IfSome result (λ n. unsigned_abs n.value ≤ most) }
{
    let minus = begins_with_minus(bytes);
    let Some(found) = magnitude(behind_minus(bytes), most) else {
        return None;
    };
    if !is_end(found.rest) {
        return None;
    }
    Some(Integer {
        value: with_sign(minus, found.value),
        rest: found.rest,
    })
}
