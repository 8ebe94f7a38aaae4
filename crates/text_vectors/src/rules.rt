//! Tables of rules, and which rules match.

use live_model::{Class, Line, List, Shape, Tag, Text};
use std::alloc::Global;
use tag_rules::{RuleError, Rules};
use text_pieces::put_bytes;
use vector_rows::{Answer, Fields, RowError, lines, rules, shape_name, shared};

/// Answers a row about rules, if it is one.
pub fn answer(
    alloc: Global,
    verb: &str,
    fields: &mut Fields<'_>,
    out: &mut Answer,
) -> Result<bool, RowError> {
    match verb {
        "rules" => read(alloc, fields, out)?,
        "rule" => one(alloc, fields, out)?,
        "repeated" => repeated(alloc, fields, out)?,
        "matching" => matching(alloc, fields, out)?,
        _ => return Ok(false),
    }
    Ok(true)
}

/// How many rules a text has, and its canonical text, or the first break.
fn read(alloc: Global, fields: &mut Fields<'_>, out: &mut Answer) -> Result<(), RowError> {
    match Rules::read(alloc, &fields.bytes(alloc)?) {
        Ok(rules) => {
            shared(&rules);
            out.number(u64::from(rules.len()))?;
            out.quoted(rules.text())?;
            Ok(())
        }
        Err(found) => put_error(alloc, found, out),
    }
}

fn put_error(alloc: Global, found: RuleError, out: &mut Answer) -> Result<(), RowError> {
    match found {
        RuleError::Broken(found) => {
            let said = format!(in alloc; "{} at {}", found.kind, found.at);
            out.word(said.or(Err(RowError::NoMemory))?.as_str())?;
            Ok(())
        }
        RuleError::NoMemory => Err(RowError::NoMemory),
    }
}

/// How many rules a text has that begins with a line so many times, and the last that matches points with `a=b`; or the break.
fn repeated(alloc: Global, fields: &mut Fields<'_>, out: &mut Answer) -> Result<(), RowError> {
    let times = index(fields)?;
    let line = fields.bytes(alloc)?;
    let end = fields.bytes(alloc)?;
    let mut text = Vec::new(alloc);
    for _ in 0..times {
        put_bytes(&mut text, &line)?;
    }
    put_bytes(&mut text, &end)?;
    match Rules::read(alloc, &text) {
        Ok(rules) => {
            out.number(u64::from(rules.len()))?;
            let mut tags = List::new(alloc);
            let key = Text::copied(alloc, "a")?;
            let value = Text::copied(alloc, "b")?;
            tags.push(Tag { key, value })?;
            let last = rules.len().saturating_sub(1);
            let found = rules.matching(Shape::Point, &tags, last);
            out.number_or_none(found.map(u64::from))?;
            Ok(())
        }
        Err(found) => put_error(alloc, found, out),
    }
}

/// The parts of a rule of a table.
fn one(alloc: Global, fields: &mut Fields<'_>, out: &mut Answer) -> Result<(), RowError> {
    let index = index(fields)?;
    let rules = rules(alloc, fields)?;
    let Some(rule) = rules.get(index) else {
        out.word("none")?;
        return Ok(());
    };
    out.word(shape_name(rule.shape))?;
    out.quoted(rule.key.as_bytes())?;
    match &rule.value {
        Some(value) => out.quoted(value.as_bytes())?,
        None => out.word("*")?,
    }
    out.number(u64::from(rule.zoom))?;
    put_class(&rule.class, out)
}

fn put_class(class: &Class, out: &mut Answer) -> Result<(), RowError> {
    match class {
        Class::Map => out.word("map")?,
        Class::Poi(category) => {
            out.word("poi")?;
            out.quoted(category.as_bytes())?;
        }
        Class::Road => out.word("road")?,
        Class::Place => out.word("place")?,
    }
    Ok(())
}

/// The next field as the index of a rule.
fn index(fields: &mut Fields<'_>) -> Result<u32, RowError> {
    match fields.word()?.parse::<u32>() {
        Ok(index) => Ok(index),
        Err(_) => Err(RowError::BadRow),
    }
}

/// The shape of a name.
fn shape_of(name: &str) -> Option<Shape> {
    match name {
        "point" => Some(Shape::Point),
        "line" => Some(Shape::Line),
        "area" => Some(Shape::Area),
        _ => None,
    }
}

/// The first rule at or after an index that matches a shape and the tags of an object.
fn matching(alloc: Global, fields: &mut Fields<'_>, out: &mut Answer) -> Result<(), RowError> {
    let shape = shape_of(fields.word()?).ok_or(RowError::BadRow)?;
    let from = index(fields)?;
    let lines = lines(alloc, fields)?;
    let rules = rules(alloc, fields)?;
    let Some(Line::Live(entity)) = lines.first() else {
        return Err(RowError::BadRow);
    };
    let found = rules.matching(shape, &entity.tags, from);
    out.number_or_none(found.map(u64::from))?;
    Ok(())
}
