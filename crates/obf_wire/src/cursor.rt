//! A message read field by field.

ghost use Rattle.std.specs.Prelude.{◌≡◌, ◌↔◌, ◌+◌, ◌<◌, ◌≤◌, ℕ, length, IsTrue, IfOk, IfSome, OnErr, Ok, Some, None, true};
ghost use Rattle.obf_wire.specs.declared.field.Field.{Field};
ghost use Rattle.obf_wire.specs.Varint.{varint_at};
ghost use Rattle.obf_wire.specs.Fields.{are_keys, is_among, IsNextField, Window, IsWindow, behind, length_at, content_at, filled, keyed, field_at};
ghost use Rattle.obf_wire.specs.Windows.{range_of};

use crate::breaks::{WireBreak, WireKind};
use crate::field::Field;
use crate::varint::read_varint;
use crate::window::Window;
use std::marker::Model;

/// A place in a message, and the message's end.
#[derive(Drop)]
pub struct Cursor<'a> {
    bytes: &'a [u8],
    place: usize,
    end: usize,
}

impl<'a> Model for Cursor<'a> {
    ghost use Rattle.obf_wire.specs.Fields.{Window};

    ghost Value = { Window };

    ghost use Rattle.std.specs.Prelude.{◌≤◌, length};

    ghost view = { λ c. record { bytes = c.bytes.now; place = c.place; end = c.end } };

    ghost invariant = { λ c. (c.place ≤ c.end) × (c.end ≤ length c.bytes.now) };
}

/// The length in eight bytes at `at`, and the place behind it.
fn length_at(bytes: &[u8], at: usize, end: usize) -> Result<(u64, usize), WireBreak>
    requires from_in { at ≤ end }
    requires end_in { end ≤ length bytes.now }
    ensures { result ≡ length_at bytes.now at end }
{
    if end - at < 8 {
        return Err(WireKind::Short.at(at));
    }
    let next = at + 8;
    let front = &bytes[at..next];
    let length = u64::from_be_bytes([
        front[0], front[1], front[2], front[3], front[4], front[5], front[6], front[7],
    ]);
    Ok((length, next))
}

/// The number or length behind a key, and the place behind it.
fn content_at(bytes: &[u8], key: u64, at: usize, end: usize) -> Result<(u64, usize), WireBreak>
    requires from_in { at ≤ end }
    requires end_in { end ≤ length bytes.now }
    ensures exact { result ≡ content_at bytes.now key at end }
    ensures within { IfOk result (λ content. content.1 ≤ end) }
{
    if key % 8 == 6 {
        length_at(bytes, at, end)
    } else {
        read_varint(bytes, at, end)
    }
}

/// The field at `at`, or `None` at the end of a message that may end, or the break.
#[tactic(auto, unfolding(crate::specs::Fields::field_at))]
fn field_at(
    bytes: &[u8],
    at: usize,
    end: usize,
    allowed: &[u64],
    may_end: bool,
) -> Result<Option<Field>, WireBreak>
    requires from_in { at ≤ end }
    requires end_in { end ≤ length bytes.now }
    ensures exact { result ≡ field_at (record { bytes = bytes.now; place = at; end = end }) allowed.now may_end }
    ensures within { IfOk result (λ found. IfSome found (λ f. f.to ≤ end)) }
{
    if at == end {
        if may_end {
            return Ok(None);
        }
        return Err(WireKind::Short.at(end));
    }
    if allowed.is_empty() {
        return Err(WireKind::BadKey.at(at));
    }
    let (key, next) = read_varint(bytes, at, end)?;
    if !allowed.contains(&key) {
        return Err(WireKind::BadKey.at(at));
    }
    let (value, from) = content_at(bytes, key, next, end)?;
    let payload = if key % 8 == 0 { 0 } else { value };
    if ((end - from) as u64) < payload {
        return Err(WireKind::OverEnd.at(at));
    }
    Ok(Some(Field {
        key,
        at,
        value,
        from,
        to: from + payload as usize,
    }))
}

/// The same, with what the answer means.
fn next_at(
    bytes: &[u8],
    at: usize,
    end: usize,
    allowed: &[u64],
    may_end: bool,
) -> Result<Option<Field>, WireBreak>
    requires from_in { at ≤ end }
    requires end_in { end ≤ length bytes.now }
    ensures exact { result ≡ field_at (record { bytes = bytes.now; place = at; end = end }) allowed.now may_end }
    ensures within { IfOk result (λ found. IfSome found (λ f. f.to ≤ end)) }
    ensures found { IfOk result (λ found. IfSome found (IsNextField (record { bytes = bytes.now; place = at; end = end }) allowed.now)) }
    ensures only { (f : Field) → IsNextField (record { bytes = bytes.now; place = at; end = end }) allowed.now f → result ≡ Ok (Some f) }
    ensures end { (result ≡ Ok None) ↔ ((at ≡ end) × IsTrue may_end) }
{
    field_at(bytes, at, end, allowed, may_end)
}

impl<'a> Cursor<'a> {
    /// At the beginning of the message in a window.
    pub fn new(window: Window<'a>) -> Cursor<'a>
        ensures { result ≡ range_of window.entry }
    {
        Cursor {
            bytes: window.bytes,
            place: window.from,
            end: window.to,
        }
    }

    /// The next field, which has one of these keys, or `None` where the message ends here and may.
    ///
    /// After a field the cursor stands behind it. After a break it stands where it stood. The break is the first
    /// of these: `Short` at the end where the message may not end; `BadKey` at the cursor where no field may come;
    /// `Short` or `LongVarint` of the key, or `BadKey` where it is none of these, at its first byte; `Short` or
    /// `LongVarint` of the number or the length, at its first byte; `OverEnd` at the key's first byte where less
    /// is left than the length says.
    pub fn next_field(&mut self, allowed: &[u64], may_end: bool) -> Result<Option<Field>, WireBreak>
        requires { IsTrue (are_keys allowed.now) }
        ensures exact { result ≡ field_at self.old allowed.now may_end }
        ensures found { IfOk result (λ found. IfSome found (IsNextField self.old allowed.now)) }
        ensures only { (f : Field) → IsNextField self.old allowed.now f → result ≡ Ok (Some f) }
        ensures end { (result ≡ Ok None) ↔ ((self.old.place ≡ self.old.end) × IsTrue may_end) }
        ensures moved { IfOk result (λ found. self.new ≡ behind self.old found) }
        ensures stays { OnErr result (self.new ≡ self.old) }
        ensures window { IsWindow self.new }
    {
        let found = next_at(self.bytes, self.place, self.end, allowed, may_end)?;
        if let Some(field) = found {
            self.place = field.to;
        }
        Ok(found)
    }
}
