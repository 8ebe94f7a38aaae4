//! Lines, fields, numbers, coordinates and escaped texts.

ghost use Rattle.std.specs.Prelude.{◌≤◌, ◌+◌, IfOk, length};

use owned_data::{List, Text};
use std::alloc::Global;
use text_pieces::{
    EscapeError, all_blank, are_escapes, character, degrees, is_blank, is_digit, is_digits,
    next_field, next_line, number, put_degrees, put_escaped, put_number, put_signed, read_degrees,
    read_escaped, read_id,
};
use vector_rows::{Answer, Fields, RowError, shared};

/// Answers a row about a piece of a text, if it is one.
pub fn answer(
    alloc: Global,
    verb: &str,
    fields: &mut Fields<'_>,
    out: &mut Answer,
) -> Result<bool, RowError> {
    match verb {
        "list" => list(alloc, fields, out)?,
        "text" => text(alloc, fields, out)?,
        "lines" => lines(alloc, fields, out)?,
        "fields" => parts(alloc, fields, out)?,
        "blank" => blank(alloc, fields, out)?,
        "digits" => digits(fields, out)?,
        "number" => read_number(fields, out)?,
        "id" => out.signed_or_none(read_id(fields.word()?.as_bytes()))?,
        "degrees" => read_coordinate(fields, out)?,
        "character" => {
            let code = character(fields.word()?.as_bytes());
            out.number_or_none(code.map(u64::from))?;
        }
        "escapes" => out.yes_or_no(are_escapes(fields.word()?.as_bytes()))?,
        "escaped" => escaped(alloc, fields, out)?,
        _ => return written(alloc, verb, fields, out),
    }
    Ok(true)
}

/// Answers a row about a spelling that is written, if it is one.
fn written(
    alloc: Global,
    verb: &str,
    fields: &mut Fields<'_>,
    out: &mut Answer,
) -> Result<bool, RowError> {
    let mut text = Vec::new(alloc);
    match verb {
        "put_number" => put_number(&mut text, fields.number()?)?,
        "put_signed" => put_signed(&mut text, fields.signed()?)?,
        "put_degrees" => put_degrees(&mut text, fields.signed()?)?,
        "put_escaped" => {
            let bytes = fields.bytes(alloc)?;
            let Ok(characters) = str::from_utf8(&bytes) else {
                return Err(RowError::BadRow);
            };
            put_escaped(&mut text, characters)?;
        }
        _ => return Ok(false),
    }
    out.quoted(&text)?;
    Ok(true)
}

/// How many numbers a list has before and after they are pushed, and these, moved out of it and back.
fn list(alloc: Global, fields: &mut Fields<'_>, out: &mut Answer) -> Result<(), RowError> {
    let mut list = List::new(alloc);
    out.yes_or_no(list.is_empty())?;
    for _ in 0..fields.count() {
        list.push(fields.number()?)?;
    }
    shared(&list);
    let same = List::from_vec(list.into_vec());
    out.number(same.len() as u64)?;
    for number in same.as_slice() {
        out.number(*number)?;
    }
    Ok(())
}

/// How many bytes a text has, whether it and the empty one are empty, and whether its copy is equal.
fn text(alloc: Global, fields: &mut Fields<'_>, out: &mut Answer) -> Result<(), RowError> {
    let text = Text::copied(alloc, fields.word()?)?;
    shared(&text);
    out.number(text.len() as u64)?;
    out.yes_or_no(text.is_empty())?;
    out.yes_or_no(Text::new(alloc).is_empty())?;
    out.yes_or_no(text.copy(alloc)? == text)?;
    Ok(())
}

/// Where a text begins, and its bytes, both within bounds that every row keeps.
fn placed(alloc: Global, fields: &mut Fields<'_>) -> Result<(usize, Vec<u8>), RowError>
    ensures { IfOk result (λ r. r.0 + length r.1.items ≤ 2000000) }
{
    let first = fields.number()?;
    let text = fields.bytes(alloc)?;
    if first <= 1_000_000 && text.len() <= 1_000_000 {
        Ok((first as usize, text))
    } else {
        Err(RowError::BadRow)
    }
}

fn lines(alloc: Global, fields: &mut Fields<'_>, out: &mut Answer) -> Result<(), RowError> {
    let (first, text) = placed(alloc, fields)?;
    let mut at = first;
    let mut rest = text.as_slice();
    while let Some(line) = next_line(at, rest) {
        out.number(line.at as u64)?;
        out.quoted(line.bytes)?;
        at = line.next;
        rest = line.rest;
    }
    Ok(())
}

fn parts(alloc: Global, fields: &mut Fields<'_>, out: &mut Answer) -> Result<(), RowError> {
    let (first, text) = placed(alloc, fields)?;
    let mut at = first;
    let mut rest = text.as_slice();
    while let Some(field) = next_field(at, rest) {
        out.number(field.at as u64)?;
        out.quoted(field.bytes)?;
        at = field.next;
        rest = field.rest;
    }
    Ok(())
}

fn blank(alloc: Global, fields: &mut Fields<'_>, out: &mut Answer) -> Result<(), RowError> {
    let text = fields.bytes(alloc)?;
    let each = text.iter().all(|byte| is_blank(*byte));
    out.agreed(all_blank(&text), each)?;
    Ok(())
}

fn digits(fields: &mut Fields<'_>, out: &mut Answer) -> Result<(), RowError> {
    let most = fields.number()? as usize;
    let text = fields.word()?.as_bytes();
    let each = text.iter().all(|byte| is_digit(*byte));
    out.agreed(
        is_digits(text, most),
        each && 1 <= text.len() && text.len() <= most,
    )?;
    Ok(())
}

fn read_number(fields: &mut Fields<'_>, out: &mut Answer) -> Result<(), RowError> {
    let most = fields.number()? as usize;
    let top = fields.number()?;
    out.number_or_none(number(fields.word()?.as_bytes(), most, top))?;
    Ok(())
}

fn read_coordinate(fields: &mut Fields<'_>, out: &mut Answer) -> Result<(), RowError> {
    let most = fields.signed()?;
    let text = fields.word()?;
    let found = read_degrees(text, most);
    if found == degrees(text.as_bytes(), most) {
        out.signed_or_none(found)?;
    } else {
        out.word("the two differ")?;
    }
    Ok(())
}

fn escaped(alloc: Global, fields: &mut Fields<'_>, out: &mut Answer) -> Result<(), RowError> {
    match read_escaped(alloc, fields.word()?) {
        Ok(text) => out.quoted(text.as_bytes())?,
        Err(EscapeError::Bad) => out.word("Bad")?,
        Err(EscapeError::NotPlain) => out.word("NotPlain")?,
        Err(EscapeError::NoMemory) => return Err(RowError::NoMemory),
    }
    Ok(())
}
