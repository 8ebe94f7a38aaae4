//! Numbers and ids, read from decimal digits.

ghost use Rattle.std.specs.Prelude.{◌≡◌, ◌≤◌, ◌<◌, ◌^◌, length, IsTrue, MatchOption, IfSome, unsigned_abs};
ghost use Rattle.std.specs.List.{list_all};
ghost use Rattle.text_pieces.specs.Numbers.{is_digit, are_digits, decimal_after, number_of, id_of, has_minus, without_minus, signed};

/// Whether a byte is one of `0` to `9`.
pub fn is_digit(c: u8) -> bool
    ensures { result ≡ is_digit c }
{
    b'0' <= c && c <= b'9'
}

/// Whether the bytes are 1 to `most` digits.
pub fn is_digits(bytes: &[u8], most: usize) -> bool
    ensures { result ≡ are_digits most bytes.now }
{
    all_digits(bytes) && (1 <= bytes.len() && bytes.len() <= most)
}

/// The number that 1 to `most` digits spell, where it is at most `top`. Leading zeros are allowed.
#[tactic(auto, unfolding(crate::specs::Numbers::number_of))]
pub fn number(digits: &[u8], most: usize, top: u64) -> Option<u64>
    ensures value { result ≡ number_of most top digits.now }
    ensures within { IfSome result (λ n. n ≤ top) }
{
    if !is_digits(digits, most) {
        return None;
    }
    match decimal_behind(0, digits) {
        Some(n) if n <= top => Some(n),
        _ => None,
    }
}

/// The id that the bytes spell: a minus or none, and 1 to 15 digits, of magnitude at most 2^48.
#[tactic(auto, unfolding(crate::specs::Numbers::id_of, crate::specs::Numbers::number_of))]
pub fn read_id(bytes: &[u8]) -> Option<i64>
    ensures value { result ≡ id_of bytes.now }
    ensures within { IfSome result (λ z. unsigned_abs z ≤ 281474976710656) }
{
    let magnitude = number(behind_minus(bytes), 15, 1 << 48)?;
    Some(with_sign(begins_with_minus(bytes), magnitude))
}

// Whether every byte is a digit.
fn all_digits(bytes: &[u8]) -> bool
    ensures { result ≡ list_all is_digit bytes.now }
{
    let mut rest = bytes;
    while let [c, after @ ..] = rest {
        if !is_digit(*c) {
            return false;
        }
        rest = after;
    }
    true
}

// The number that digits make behind another number, where it is below 2^64.
#[tactic(auto, using(crate::proofs::NumberSteps::decimal_after_ge))]
pub(crate) fn decimal_behind(n: u64, digits: &[u8]) -> Option<u64>
    requires { IsTrue (list_all is_digit digits.now) }
    ensures { MatchOption result (2 ^ 64 ≤ decimal_after n digits.now) (λ m. m ≡ decimal_after n digits.now) }
{
    let mut n = n;
    let mut rest = digits;
    while let [d, after @ ..] = rest {
        let Some(tens) = n.checked_mul(10) else {
            return None;
        };
        let Some(sum) = tens.checked_add((*d - b'0') as u64) else {
            return None;
        };
        n = sum;
        rest = after;
    }
    Some(n)
}

// Whether the first byte is a minus.
pub(crate) fn begins_with_minus(bytes: &[u8]) -> bool
    ensures { result ≡ has_minus bytes.now }
{
    match bytes {
        [first, ..] => *first == b'-',
        [] => false,
    }
}

// The bytes behind a minus, or all of them where there is none.
pub(crate) fn behind_minus(bytes: &[u8]) -> &[u8]
    ensures { result.now ≡ without_minus bytes.now }
{
    match bytes {
        [b'-', rest @ ..] => rest,
        _ => bytes,
    }
}

// The number of this magnitude, below zero where it has a minus.
pub(crate) fn with_sign(minus: bool, magnitude: u64) -> i64
    requires { magnitude < 2 ^ 63 }
    ensures value { result ≡ signed minus magnitude }
    ensures same { unsigned_abs result ≡ magnitude }
{
    if minus {
        -(magnitude as i64)
    } else {
        magnitude as i64
    }
}
