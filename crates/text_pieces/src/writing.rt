//! The canonical spellings, each put at the end of a buffer.
//!
//! Where memory is refused the buffer is as it was before the call.

ghost use Rattle.std.specs.Prelude.{◌≡◌, ◌≤◌, ◌<◌, ◌+◌, ◌/◌, ◌%◌, ◌++◌, ◌==◌, ℕ, [], ◌∷◌, length, take, decimal, OnOk, OnErr};
ghost use Rattle.std.specs.Fmt.{signed_decimal};
ghost use Rattle.std.specs.List.{position_or_len};
ghost use Rattle.text_pieces.specs.Coordinates.{degrees_text, minus_text, fraction_text, seven_digits, trimmed};
ghost use Rattle.text_pieces.specs.Escapes.{escaped, needs_escape, hexadecimal_digit};

use crate::find::behind;
use itoa::Buffer;
use owned_data::Mem;

/// Puts bytes as they are.
pub fn put_bytes(out: &mut Vec<u8>, bytes: &[u8]) -> Mem<()>
    ensures ok { OnOk result (out.new.items ≡ out.old.items ++ bytes.now) }
    ensures err { OnErr result (out.new.items ≡ out.old.items) }
{
    out.extend_from_slice(bytes)?;
    Ok(())
}

/// Puts a number in decimal digits, without leading zeros.
pub fn put_number(out: &mut Vec<u8>, n: u64) -> Mem<()>
    ensures ok { OnOk result (out.new.items ≡ out.old.items ++ decimal n) }
    ensures err { OnErr result (out.new.items ≡ out.old.items) }
{
    put_bytes(out, Buffer::new().format(n).as_bytes())
}

/// Puts a number in decimal digits, without leading zeros, behind a minus where it is below zero.
pub fn put_signed(out: &mut Vec<u8>, n: i64) -> Mem<()>
    ensures ok { OnOk result (out.new.items ≡ out.old.items ++ signed_decimal n) }
    ensures err { OnErr result (out.new.items ≡ out.old.items) }
{
    put_bytes(out, Buffer::new().format(n).as_bytes())
}

/// Puts a coordinate that is given in units of 10^-7 degrees: the whole degrees, and behind a point
/// the fraction without the zeros at its end, where there is one. A coordinate has a magnitude of at
/// most 1,800,000,000; any other value is put in the same way.
pub fn put_degrees(out: &mut Vec<u8>, value: i64) -> Mem<()>
    ensures ok { OnOk result (out.new.items ≡ out.old.items ++ degrees_text value) }
    ensures err { OnErr result (out.new.items ≡ out.old.items) }
{
    let before = out.len();
    let done = begin_degrees(out, value);
    if done.is_err() {
        out.truncate(before);
    }
    done
}

/// Puts a text with an escape in place of each character that needs one.
pub fn put_escaped(out: &mut Vec<u8>, text: &str) -> Mem<()>
    ensures ok { OnOk result (out.new.items ≡ out.old.items ++ escaped text.now) }
    ensures err { OnErr result (out.new.items ≡ out.old.items) }
{
    let before = out.len();
    let done = begin_escaped(out, text.as_bytes());
    if done.is_err() {
        out.truncate(before);
    }
    done
}

// Puts a coordinate; where memory is refused a part of it may stand behind what the buffer had.
#[tactic(auto, unfolding(crate::specs::Coordinates::degrees_text, crate::specs::Coordinates::magnitude_text), using(crate::proofs::Fronts::front_of_longer))]
fn begin_degrees(out: &mut Vec<u8>, value: i64) -> Mem<()>
    ensures ok { OnOk result (out.new.items ≡ out.old.items ++ degrees_text value) }
    ensures err { OnErr result (take (length out.old.items) out.new.items ≡ out.old.items) }
{
    put_bytes(out, minus_before(value))?;
    let magnitude = value.unsigned_abs();
    put_number(out, magnitude / 10_000_000)?;
    begin_fraction(out, magnitude % 10_000_000)
}

// The minus that stands before a negative value, and nothing before any other.
fn minus_before(value: i64) -> &'static [u8]
    ensures { result.now ≡ minus_text value }
{
    if value < 0 { b"-" } else { b"" }
}

// Puts a fraction; where memory is refused a part of it may stand behind what the buffer had.
fn begin_fraction(out: &mut Vec<u8>, n: u64) -> Mem<()>
    ensures ok { OnOk result (out.new.items ≡ out.old.items ++ fraction_text n) }
    ensures err { OnErr result (take (length out.old.items) out.new.items ≡ out.old.items) }
{
    if n == 0 {
        return Ok(());
    }
    put_bytes(out, b".")?;
    put_bytes(out, without_zeros(&digits_of(n)))
}

// The last seven decimal digits of a number.
fn digits_of(n: u64) -> [u8; 7]
    ensures { result ≡ seven_digits n }
{
    [
        digit(n / 1_000_000),
        digit(n / 100_000),
        digit(n / 10_000),
        digit(n / 1_000),
        digit(n / 100),
        digit(n / 10),
        digit(n),
    ]
}

// The last decimal digit of a number.
fn digit(n: u64) -> u8
    ensures { result ≡ 48 + n % 10 }
{
    b'0' + (n % 10) as u8
}

// Digits without the zeros at their end.
fn without_zeros(digits: &[u8]) -> &[u8]
    ensures { result.now ≡ trimmed digits.now }
{
    let mut kept = digits.len();
    while kept > 0 && digits[kept - 1] == b'0' {
        kept -= 1;
    }
    &digits[..kept]
}

// Puts bytes with the escapes that they need; where memory is refused a part of it may stand behind
// what the buffer had. What stands between two escapes is put at once.
#[tactic(auto, using(crate::proofs::Fronts::front_longer))]
fn begin_escaped(out: &mut Vec<u8>, bytes: &[u8]) -> Mem<()>
    ensures ok { OnOk result (out.new.items ≡ out.old.items ++ escaped bytes.now) }
    ensures err { OnErr result (take (length out.old.items) out.new.items ≡ out.old.items) }
{
    let mut rest = bytes;
    loop {
        let i = escape_in(rest);
        put_bytes(out, &rest[..i])?;
        if i == rest.len() {
            return Ok(());
        }
        put_escape(out, rest[i])?;
        rest = behind(rest, i);
    }
}

// The place of the first byte that needs an escape, or the length where there is none.
#[tactic(auto, using(std::proofs::lemmas::List::Sums::position_or_len_is))]
fn escape_in(bytes: &[u8]) -> usize
    ensures place { result ≡ position_or_len needs_escape bytes.now }
    ensures within { result ≤ length bytes.now }
{
    for (i, c) in bytes.iter().enumerate() {
        if needs_escape(*c) {
            return i;
        }
    }
    bytes.len()
}

fn needs_escape(c: u8) -> bool
    ensures { result ≡ needs_escape c }
{
    c < b'!' || matches!(c, 127 | b'%' | b',' | b'=' | b'@')
}

// Puts the escape of a byte below 128.
fn put_escape(out: &mut Vec<u8>, c: u8) -> Mem<()>
    ensures ok { OnOk result (out.new.items ≡ out.old.items ++ (37 ∷ hexadecimal_digit (c / 16) ∷ hexadecimal_digit (c % 16) ∷ 37 ∷ [])) }
    ensures err { OnErr result (out.new.items ≡ out.old.items) }
{
    put_bytes(
        out,
        &[
            b'%',
            hexadecimal_digit(c / 16),
            hexadecimal_digit(c % 16),
            b'%',
        ],
    )
}

// A hexadecimal digit in lower case.
fn hexadecimal_digit(n: u8) -> u8
    requires { n < 16 }
    ensures { result ≡ hexadecimal_digit n }
{
    if n < 10 { b'0' + n } else { b'a' + (n - 10) }
}
