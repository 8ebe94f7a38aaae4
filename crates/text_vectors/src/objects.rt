//! Lines of objects, their canonical texts, and stores.

use entity_store::{Look, Store};
use live_model::{Entity, Line, Mem};
use opl_reader::{OplError, read_all};
use opl_writer::{put_line, write};
use std::alloc::Global;
use text_pieces::{put_bytes, put_number, put_signed};
use vector_rows::{Answer, Fields, RowError, lines, shared, store};

/// Answers a row about objects, if it is one.
pub fn answer(
    alloc: Global,
    verb: &str,
    fields: &mut Fields<'_>,
    out: &mut Answer,
) -> Result<bool, RowError> {
    match verb {
        "opl" => read(alloc, fields, out)?,
        "store" => whole(alloc, fields, out)?,
        "get" => get(alloc, fields, out)?,
        "next" => next(alloc, fields, out)?,
        "node" => node(alloc, fields, out)?,
        _ => return Ok(false),
    }
    Ok(true)
}

/// The lines of a text, each in its canonical form, or the first break.
fn read(alloc: Global, fields: &mut Fields<'_>, out: &mut Answer) -> Result<(), RowError> {
    match read_all(alloc, &fields.bytes(alloc)?) {
        Ok(lines) => {
            let text = text_of(alloc, &lines)?;
            out.quoted(&text)?;
        }
        Err(OplError::Broken(found)) => {
            let said = format!(in alloc; "{} at {}", found.kind, found.at);
            out.word(said.or(Err(RowError::NoMemory))?.as_str())?;
        }
        Err(OplError::NoMemory) => return Err(RowError::NoMemory),
    }
    Ok(())
}

fn text_of(alloc: Global, lines: &[Line]) -> Result<Vec<u8>, RowError> {
    let mut text = Vec::new(alloc);
    for line in lines {
        match line {
            Line::Live(entity) => put_line(&mut text, entity)?,
            Line::Gone(id, version) => {
                put_bytes(&mut text, b"gone ")?;
                put_number(&mut text, id.ordinal() >> 50)?;
                put_bytes(&mut text, b" ")?;
                put_signed(&mut text, id.number())?;
                put_bytes(&mut text, b" v")?;
                put_number(&mut text, u64::from(*version))?;
                put_bytes(&mut text, b"\n")?;
            }
        }
    }
    Ok(text)
}

/// How many objects the store of a text has, and their canonical lines.
fn whole(alloc: Global, fields: &mut Fields<'_>, out: &mut Answer) -> Result<(), RowError> {
    let lines = lines(alloc, fields)?;
    let built = Store::build(alloc, &lines)?;
    let moved = Store::from_lines(alloc, lines)?;
    shared(&moved);
    let objects = objects_of(alloc, &moved)?;
    let text = write(alloc, &objects_of(alloc, &built)?)?;
    out.number(objects.len() as u64)?;
    out.agreed(
        moved.next_after(None).is_none(),
        built.next_after(None).is_none(),
    )?;
    out.quoted(&text)?;
    if text.as_slice() != write(alloc, &objects)?.as_slice() {
        out.word("the two differ")?;
    }
    Ok(())
}

/// The objects of a store, in order.
fn objects_of(alloc: Global, store: &Store) -> Mem<Vec<Entity>> {
    let mut objects = Vec::new(alloc);
    for object in store.entities() {
        objects.push(object.copy(alloc)?)?;
    }
    Ok(objects)
}

/// Puts the canonical line of an object, or `none`.
fn put_object(alloc: Global, found: Option<&Entity>, out: &mut Answer) -> Result<(), RowError> {
    match found {
        Some(entity) => {
            let mut text = Vec::new(alloc);
            put_line(&mut text, entity)?;
            out.quoted(&text)?;
        }
        None => out.word("none")?,
    }
    Ok(())
}

/// The object of an id, asked of the store and of a look at it.
fn get(alloc: Global, fields: &mut Fields<'_>, out: &mut Answer) -> Result<(), RowError> {
    let id = fields.id()?;
    let store = store(alloc, fields)?;
    put_object(alloc, store.get(&id), out)?;
    put_object(alloc, Look::now(&store).get(&id), out)
}

/// The first object after an id, or the first of all for `-`.
fn next(alloc: Global, fields: &mut Fields<'_>, out: &mut Answer) -> Result<(), RowError> {
    let mut first = *fields;
    if first.word()? == "-" {
        let store = store(alloc, &mut first)?;
        return put_object(alloc, store.next_after(None), out);
    }
    let id = fields.id()?;
    let store = store(alloc, fields)?;
    put_object(alloc, store.next_after(Some(&id)), out)
}

/// The node of a number, as a look at the store tells it.
fn node(alloc: Global, fields: &mut Fields<'_>, out: &mut Answer) -> Result<(), RowError> {
    let number = fields.signed()?;
    let store = store(alloc, fields)?;
    put_object(alloc, Look::now(&store).node(number), out)
}
