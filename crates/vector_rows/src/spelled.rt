//! Bytes as they are spelled in a field.

ghost use Rattle.std.specs.Prelude.{◌<◌, IfSome, length};

use crate::fields::RowError;
use owned_data::Mem;
use std::alloc::Global;

/// The bytes that a field spells with escapes.
pub fn bytes_of(alloc: Global, field: &str) -> Result<Vec<u8>, RowError> {
    let mut bytes = Vec::new(alloc);
    let mut rest = field.as_bytes();
    while let Some((byte, after)) = next_spelled(rest) {
        put(&mut bytes, byte)?;
        rest = after;
    }
    whole(bytes, rest)
}

/// The bytes that a field spells with two digits each.
pub fn hexadecimal_of(alloc: Global, field: &str) -> Result<Vec<u8>, RowError> {
    let mut bytes = Vec::new(alloc);
    let mut rest = field.as_bytes();
    while let Some((byte, after)) = next_pair(rest) {
        put(&mut bytes, byte)?;
        rest = after;
    }
    whole(bytes, rest)
}

fn put(bytes: &mut Vec<u8>, byte: u8) -> Mem<()> {
    bytes.push(byte)?;
    Ok(())
}

/// The bytes, where nothing is left of the field.
fn whole(bytes: Vec<u8>, rest: &[u8]) -> Result<Vec<u8>, RowError> {
    if rest.is_empty() {
        Ok(bytes)
    } else {
        Err(RowError::BadRow)
    }
}

/// The first byte that is spelled, and what is left; none at the end and at an escape that is none.
fn next_spelled(field: &[u8]) -> Option<(u8, &[u8])>
    ensures { IfSome result (λ r. length r.1.now < length field.now) }
{
    match field {
        [b'\\', b'x', high, low, rest @ ..] => Some((byte_of(*high, *low)?, rest)),
        [b'\\', escape, rest @ ..] => Some((escaped(*escape)?, rest)),
        [byte, rest @ ..] => Some((*byte, rest)),
        [] => None,
    }
}

fn escaped(escape: u8) -> Option<u8> {
    match escape {
        b'n' => Some(b'\n'),
        b'r' => Some(b'\r'),
        b't' => Some(b'\t'),
        b'\\' => Some(b'\\'),
        _ => None,
    }
}

/// The byte of the first two digits, and what is left.
fn next_pair(field: &[u8]) -> Option<(u8, &[u8])>
    ensures { IfSome result (λ r. length r.1.now < length field.now) }
{
    match field {
        [high, low, rest @ ..] => Some((byte_of(*high, *low)?, rest)),
        _ => None,
    }
}

fn byte_of(high: u8, low: u8) -> Option<u8> {
    Some(16 * digit_of(high)? + digit_of(low)?)
}

fn digit_of(c: u8) -> Option<u8>
    ensures { IfSome result (λ d. d < 16) }
{
    match c {
        b'0'..=b'9' => Some(c - b'0'),
        b'a'..=b'f' => Some(c - b'a' + 10),
        b'A'..=b'F' => Some(c - b'A' + 10),
        _ => None,
    }
}
