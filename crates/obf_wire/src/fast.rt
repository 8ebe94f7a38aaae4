//! The fast way of a field: one of a known key, in a straight line.
//!
//! What is read here is what the general reader reads at the same offset, wherever a field of this key may come. `None` says
//! nothing: the general reader has the answer then.

ghost use Rattle.std.specs.Prelude.{◌≡◌, ◌==◌, ◌<◌, ◌≤◌, ◌%◌, length, false, true, Ok, IfSome};
ghost use Rattle.obf_wire.specs.Fields.{length_at, part_of, payload_len};
ghost use Rattle.obf_wire.specs.Varint.{varint_at};
ghost use Rattle.obf_wire.specs.KnownKeys.{StandsFirst};

use crate::field::Field;
use crate::varint::read_varint;
use crate::window::Window;

/// The number at `at` and the offset after it, where a number stands there before the end of the window.
pub fn number(window: Window<'_>, at: usize) -> Option<(u64, usize)>
    ensures read { IfSome result (λ r. varint_at window.entry.bytes.now at window.entry.to ≡ Ok r) }
    ensures inside { IfSome result (λ r. (at < r.1) × (r.1 ≤ window.entry.to)) }
{
    if at > window.to {
        return None;
    }
    number_at(window.bytes, at, window.to)
}

/// The same, of bytes from an offset up to an end.
fn number_at(bytes: &[u8], at: usize, to: usize) -> Option<(u64, usize)>
    requires ordered { at ≤ to }
    requires within { to ≤ length bytes.now }
    ensures read { IfSome result (λ r. varint_at bytes.now at to ≡ Ok r) }
    ensures inside { IfSome result (λ r. (at < r.1) × (r.1 ≤ to)) }
{
    if at >= to {
        return None;
    }
    let first = u64::from(bytes[at]);
    if first < 128 {
        return Some((first, at + 1));
    }
    if to - at < 4 {
        return any_number(bytes, at, to);
    }
    let second = u64::from(bytes[at + 1]);
    if 0 < second && second < 128 {
        return Some((128 * second + (first - 128), at + 2));
    }
    let third = u64::from(bytes[at + 2]);
    if 128 <= second && 0 < third && third < 128 {
        return Some((128 * (128 * third + (second - 128)) + (first - 128), at + 3));
    }
    let fourth = u64::from(bytes[at + 3]);
    if 128 <= second && 128 <= third && 0 < fourth && fourth < 128 {
        let high = 128 * (128 * fourth + (third - 128)) + (second - 128);
        return Some((128 * high + (first - 128), at + 4));
    }
    any_number(bytes, at, to)
}

/// A number of any length.
fn any_number(bytes: &[u8], at: usize, to: usize) -> Option<(u64, usize)>
    requires ordered { at ≤ to }
    requires within { to ≤ length bytes.now }
    ensures read { IfSome result (λ r. varint_at bytes.now at to ≡ Ok r) }
    ensures inside { IfSome result (λ r. (at < r.1) × (r.1 ≤ to)) }
{
    match read_varint(bytes, at, to) {
        Ok(found) => Some(found),
        Err(_) => None,
    }
}

/// A length in eight bytes, and the offset after it.
fn wide_length(bytes: &[u8], at: usize, to: usize) -> Option<(u64, usize)>
    requires ordered { at ≤ to }
    requires within { to ≤ length bytes.now }
    ensures read { IfSome result (λ r. length_at bytes.now at to ≡ Ok r) }
    ensures inside { IfSome result (λ r. (at < r.1) × (r.1 ≤ to)) }
{
    if to - at < 8 {
        return None;
    }
    let next = at + 8;
    let front = &bytes[at..next];
    let length = u64::from_be_bytes([
        front[0], front[1], front[2], front[3], front[4], front[5], front[6], front[7],
    ]);
    Some((length, next))
}

/// How long a payload is.
fn length_of(key: u8, value: u64) -> u64
    ensures { result ≡ payload_len key value }
{
    if key % 8 == 0 { 0 } else { value }
}

/// The field of this key, a number or a payload after its length as a number, where it stands at `at` in the window.
pub fn expected(window: Window<'_>, at: usize, key: u8) -> Option<Field>
    requires low { key < 128 }
    requires short { (key % 8 == 6) ≡ false }
    ensures { IfSome result (StandsFirst (part_of window.entry.bytes.now at window.entry.to) key) }
{
    if at > window.to {
        return None;
    }
    plain_at(window.bytes, at, window.to, key)
}

/// The same, of bytes from an offset up to an end.
fn plain_at(bytes: &[u8], at: usize, to: usize, key: u8) -> Option<Field>
    requires ordered { at ≤ to }
    requires within { to ≤ length bytes.now }
    requires low { key < 128 }
    requires short { (key % 8 == 6) ≡ false }
    ensures { IfSome result (StandsFirst (record { bytes = bytes.now; place = at; end = to }) key) }
{
    if at >= to || bytes[at] != key {
        return None;
    }
    let Some((value, from)) = number_at(bytes, at + 1, to) else {
        return None;
    };
    let length = length_of(key, value);
    if ((to - from) as u64) < length {
        return None;
    }
    Some(Field {
        key: u64::from(key),
        at,
        value,
        from,
        to: from + length as usize,
    })
}

/// The field of this key, a payload after its length in eight bytes, where it stands at `at` in the window.
pub fn expected_wide(window: Window<'_>, at: usize, key: u8) -> Option<Field>
    requires low { key < 128 }
    requires wide { (key % 8 == 6) ≡ true }
    ensures { IfSome result (StandsFirst (part_of window.entry.bytes.now at window.entry.to) key) }
{
    if at > window.to {
        return None;
    }
    wide_at(window.bytes, at, window.to, key)
}

/// The same, of bytes from an offset up to an end.
fn wide_at(bytes: &[u8], at: usize, to: usize, key: u8) -> Option<Field>
    requires ordered { at ≤ to }
    requires within { to ≤ length bytes.now }
    requires low { key < 128 }
    requires wide { (key % 8 == 6) ≡ true }
    ensures { IfSome result (StandsFirst (record { bytes = bytes.now; place = at; end = to }) key) }
{
    if at >= to || bytes[at] != key {
        return None;
    }
    let Some((value, from)) = wide_length(bytes, at + 1, to) else {
        return None;
    };
    if ((to - from) as u64) < value {
        return None;
    }
    Some(Field {
        key: u64::from(key),
        at,
        value,
        from,
        to: from + value as usize,
    })
}
