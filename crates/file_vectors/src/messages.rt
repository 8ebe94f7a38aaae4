//! The form of messages, their fields, and the first of several breaks.

use crate::wire::{next_range, put_break, put_field};
use file_grammar::{Boxed, FieldWalk, FirstBreak, Group, Part, Version, form};
use obf_wire::{FileKind, Window};
use std::alloc::Global;
use vector_rows::{Answer, Fields, RowError};

/// Answers a row about messages, if it is one.
pub fn answer(
    alloc: Global,
    verb: &str,
    fields: &mut Fields<'_>,
    out: &mut Answer,
) -> Result<bool, RowError> {
    match verb {
        "form" => form_of(alloc, fields, out)?,
        "walk" => walk(alloc, fields, out)?,
        "first" => first(fields, out)?,
        "pair" => out.number(Group::Pair.size() as u64)?,
        _ => return Ok(false),
    }
    Ok(true)
}

/// The message that a word names.
fn part(fields: &mut Fields<'_>) -> Result<Part, RowError> {
    match fields.word()? {
        "file" => Ok(Part::File(Version::One)),
        "head" => Ok(Part::Head),
        "map" => Ok(Part::Boxes(Boxed::Map)),
        _ => Err(RowError::BadRow),
    }
}

/// The first break of form of a message.
fn form_of(alloc: Global, fields: &mut Fields<'_>, out: &mut Answer) -> Result<(), RowError> {
    let part = part(fields)?;
    let range = next_range(alloc, fields)?;
    match form(part, Window::new(&range.bytes, range.from, range.to)) {
        Ok(()) => {
            out.word("good")?;
            Ok(())
        }
        Err(found) => put_break(found, out),
    }
}

/// The fields of a message of good form.
fn walk(alloc: Global, fields: &mut Fields<'_>, out: &mut Answer) -> Result<(), RowError> {
    let part = part(fields)?;
    let range = next_range(alloc, fields)?;
    let mut walk = FieldWalk::new(part, Window::new(&range.bytes, range.from, range.to));
    for _ in range.from..range.to + 1 {
        let Some(field) = walk.next() else {
            out.word("end")?;
            return Ok(());
        };
        put_field(&field, out)?;
    }
    Ok(())
}

/// The first of the facts that fail, each of an offset, a kind, and `holds` or `fails`.
fn first(fields: &mut Fields<'_>, out: &mut Answer) -> Result<(), RowError> {
    let mut first = FirstBreak::none();
    for _ in 0..fields.count() / 3 {
        let at = fields.number()? as usize;
        let kind = match fields.word()? {
            "BadPlace" => FileKind::BadPlace,
            "BadText" => FileKind::BadText,
            "BadBox" => FileKind::BadBox,
            _ => return Err(RowError::BadRow),
        };
        first.ask(at, kind, fields.word()? == "holds");
    }
    match first.found() {
        Some(found) => put_break(found, out),
        None => {
            out.word("none")?;
            Ok(())
        }
    }
}
