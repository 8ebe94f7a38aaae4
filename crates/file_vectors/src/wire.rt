//! Numbers and fields in their wire form.

ghost use Rattle.std.specs.Prelude.{◌≤◌, IfOk, length};

use obf_wire::{Cursor, Field, FileBreak, Out, Window, WireBreak, read_varint, unzigzag, zigzag};
use std::alloc::Global;
use vector_rows::{Answer, Fields, RowError};

/// Answers a row about the wire form, if it is one.
pub fn answer(
    alloc: Global,
    verb: &str,
    fields: &mut Fields<'_>,
    out: &mut Answer,
) -> Result<bool, RowError> {
    match verb {
        "varint" => varint(alloc, fields, out)?,
        "put_varint" => written(alloc, fields, out)?,
        "zigzag" => out.number(zigzag(fields.signed()?))?,
        "unzigzag" => out.signed(unzigzag(fields.number()?))?,
        "message" => message(alloc, fields, out)?,
        "field" => field(alloc, fields, out)?,
        _ => return Ok(false),
    }
    Ok(true)
}

/// A range of bytes.
#[derive(Drop)]
pub struct Range {
    pub bytes: Vec<u8>,
    pub from: usize,
    pub to: usize,
}

/// The range that the next three fields say: from where, up to where, and the bytes.
pub fn next_range(alloc: Global, fields: &mut Fields<'_>) -> Result<Range, RowError>
    ensures ordered { IfOk result (λ range. range.from ≤ range.to) }
    ensures within { IfOk result (λ range. range.to ≤ length range.bytes.items) }
{
    let from = fields.number()? as usize;
    let to = fields.number()? as usize;
    let bytes = fields.hexadecimal(alloc)?;
    if from <= to && to <= bytes.len() {
        Ok(Range { bytes, from, to })
    } else {
        Err(RowError::BadRow)
    }
}

/// Puts a break: the number and the name of its kind, and its offset.
pub fn put_break(found: FileBreak, out: &mut Answer) -> Result<(), RowError> {
    out.number(u64::from(found.kind.number()))?;
    out.word(found.kind.name())?;
    out.word("at")?;
    out.number(found.at as u64)?;
    Ok(())
}

fn put_wire_break(found: WireBreak, out: &mut Answer) -> Result<(), RowError> {
    put_break(FileBreak::from(found), out)
}

/// The number at a place, and the place behind it.
fn varint(alloc: Global, fields: &mut Fields<'_>, out: &mut Answer) -> Result<(), RowError> {
    let range = next_range(alloc, fields)?;
    match read_varint(&range.bytes, range.from, range.to) {
        Ok((number, next)) => {
            out.number(number)?;
            out.number(next as u64)?;
            Ok(())
        }
        Err(found) => put_wire_break(found, out),
    }
}

/// The spelling of a number, and what is read of it again.
fn written(alloc: Global, fields: &mut Fields<'_>, out: &mut Answer) -> Result<(), RowError> {
    let mut spelled = Out::new(alloc);
    spelled.put_varint(fields.number()?)?;
    let bytes = spelled.finish();
    out.hexadecimal(&bytes)?;
    match read_varint(&bytes, 0, bytes.len()) {
        Ok((number, next)) => {
            out.number(number)?;
            out.number(next as u64)?;
            Ok(())
        }
        Err(found) => put_wire_break(found, out),
    }
}

/// A message of a number, a text and a section.
fn message(alloc: Global, fields: &mut Fields<'_>, out: &mut Answer) -> Result<(), RowError> {
    let number = fields.number()?;
    let text = fields.bytes(alloc)?;
    let section = fields.hexadecimal(alloc)?;
    let mut spelled = Out::new(alloc);
    spelled.put_key(1, 0)?;
    spelled.put_varint(number)?;
    spelled.put_key(2, 2)?;
    spelled.put_varint(text.len() as u64)?;
    spelled.put_bytes(&text)?;
    spelled.put_section(3, &section)?;
    out.hexadecimal(&spelled.finish())?;
    Ok(())
}

/// The next field of a range, where a number of keys may come, and the end if that is said.
fn field(alloc: Global, fields: &mut Fields<'_>, out: &mut Answer) -> Result<(), RowError> {
    let keys = fields.word()?;
    let may_end = fields.word()? == "end";
    let range = next_range(alloc, fields)?;
    let mut cursor = Cursor::new(Window::new(&range.bytes, range.from, range.to));
    let found = match keys {
        "" => cursor.next_field(&[], may_end),
        "8" => cursor.next_field(&[8], may_end),
        "8,18" => cursor.next_field(&[8, 18], may_end),
        "30" => cursor.next_field(&[30], may_end),
        _ => return Err(RowError::BadRow),
    };
    match found {
        Ok(Some(field)) => put_field(&field, out),
        Ok(None) => {
            out.word("end")?;
            Ok(())
        }
        Err(found) => put_wire_break(found, out),
    }
}

/// Puts the key of a field, its offset, its value, and where its payload stands.
pub fn put_field(field: &Field, out: &mut Answer) -> Result<(), RowError> {
    out.number(field.key)?;
    out.word("at")?;
    out.number(field.at as u64)?;
    out.word("value")?;
    out.number(field.value)?;
    out.word("from")?;
    out.number(field.from as u64)?;
    out.word("to")?;
    out.number(field.to as u64)?;
    Ok(())
}
