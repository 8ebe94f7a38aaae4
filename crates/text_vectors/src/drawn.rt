//! The geometry of objects, and the records that rules make of them.

ghost use Rattle.std.specs.Prelude.{◌≡◌, ◌<◌};

use derive_map::derive_all;
use entity_store::{Look, Store};
use live_model::{Entity, MapRec, Mem, ObjId, PoiRec, Steps};
use object_geometry::{Matches, is_closed, located_nodes, name, one_point, points, shapes, tagged};
use std::alloc::Global;
use std::marker::Brand;
use std::sync::ledger::{Blank, Ledger};
use tag_rules::Rules;
use vector_rows::{
    Answer, Fields, RowError, put_id, put_point, put_points, put_records, rules, shape_name, store,
};

/// Answers a row about geometry or records, if it is one.
pub fn answer(
    alloc: Global,
    verb: &str,
    fields: &mut Fields<'_>,
    out: &mut Answer,
) -> Result<bool, RowError> {
    match verb {
        "geometry" => geometry(alloc, fields, out)?,
        "tagged" => tag_of(alloc, fields, out)?,
        "matches" => matches_of(alloc, fields, out)?,
        "derive" => drawn(alloc, fields, out)?,
        "derive_all" => all_drawn(alloc, fields, out)?,
        "pois" => found(alloc, fields, out)?,
        _ => return Ok(false),
    }
    Ok(true)
}

/// The object of this id, or the row is none.
fn object<'a>(store: &'a Store, id: &ObjId) -> Result<&'a Entity, RowError> {
    store.get(id).ok_or(RowError::BadRow)
}

/// The located nodes of an object, whether its references are closed, its shapes, points, one point and name.
fn geometry(alloc: Global, fields: &mut Fields<'_>, out: &mut Answer) -> Result<(), RowError> {
    let id = fields.id()?;
    let store = store(alloc, fields)?;
    let look = Look::now(&store);
    let entity = object(&store, &id)?;
    out.word("nodes")?;
    let nodes = located_nodes(alloc, &look, entity)?;
    for node in nodes.as_slice() {
        out.signed(node.id)?;
    }
    out.word("closed")?;
    out.yes_or_no(is_closed(entity.refs.as_slice()))?;
    out.word("shapes")?;
    for shape in shapes(entity) {
        out.word(shape_name(*shape))?;
    }
    let points = points(alloc, &look, entity)?;
    out.word("points")?;
    put_points(points.as_slice(), out)?;
    if let Some(point) = one_point(points.as_slice()) {
        out.word("one")?;
        put_point(&point, out)?;
    }
    out.quoted(name(entity).as_bytes())?;
    Ok(())
}

/// The value that an object has for a key.
fn tag_of(alloc: Global, fields: &mut Fields<'_>, out: &mut Answer) -> Result<(), RowError> {
    let id = fields.id()?;
    let key = fields.word()?;
    let store = store(alloc, fields)?;
    match tagged(object(&store, &id)?, key) {
        Some(value) => out.quoted(value.as_bytes())?,
        None => out.word("none")?,
    }
    Ok(())
}

/// The rules that match an object, one after another.
fn matches_of(alloc: Global, fields: &mut Fields<'_>, out: &mut Answer) -> Result<(), RowError> {
    let id = fields.id()?;
    let rules = rules(alloc, fields)?;
    let store = store(alloc, fields)?;
    let mut matches = Matches::new(&rules, object(&store, &id)?);
    for _ in 0..rules.len() {
        let Some((index, _)) = matches.next_rule() else {
            out.word("end")?;
            return Ok(());
        };
        out.number(u64::from(index))?;
    }
    Ok(())
}

/// The map records of an object.
fn drawn(alloc: Global, fields: &mut Fields<'_>, out: &mut Answer) -> Result<(), RowError> {
    let id = fields.id()?;
    let rules = rules(alloc, fields)?;
    let store = store(alloc, fields)?;
    let records = drawn_by::<Brand>(alloc, &rules, &store, &id, Blank::new(1))?;
    put_records(&records, out)
}

fn drawn_by<L: Ledger>(
    alloc: Global,
    rules: &Rules,
    store: &Store,
    id: &ObjId,
    blank: Blank,
) -> Mem<Vec<MapRec>>
    requires name { blank.name ≡ L.name }
    requires parts { blank.parts ≡ L.parts }
    requires some { 0 < blank.parts }
{
    let mut steps = Steps::<L>::new(blank);
    derive_map::derive(alloc, rules, &Look::now(store), id, &mut steps)
}

/// The map records of all objects of a store.
fn all_drawn(alloc: Global, fields: &mut Fields<'_>, out: &mut Answer) -> Result<(), RowError> {
    let rules = rules(alloc, fields)?;
    let store = store(alloc, fields)?;
    let records = all_drawn_by::<Brand>(alloc, &rules, &store, Blank::new(1))?;
    put_records(&records, out)
}

fn all_drawn_by<L: Ledger>(
    alloc: Global,
    rules: &Rules,
    store: &Store,
    blank: Blank,
) -> Mem<Vec<MapRec>>
    requires name { blank.name ≡ L.name }
    requires parts { blank.parts ≡ L.parts }
    requires some { 0 < blank.parts }
{
    let mut steps = Steps::<L>::new(blank);
    derive_all(alloc, rules, store, &mut steps)
}

/// The points of interest of an object.
fn found(alloc: Global, fields: &mut Fields<'_>, out: &mut Answer) -> Result<(), RowError> {
    let id = fields.id()?;
    let rules = rules(alloc, fields)?;
    let store = store(alloc, fields)?;
    for record in &found_by::<Brand>(alloc, &rules, &store, &id, Blank::new(1))? {
        put_id(&record.id, out)?;
        out.word(record.category.as_str())?;
        out.quoted(record.name.as_bytes())?;
        put_point(&record.point, out)?;
    }
    Ok(())
}

fn found_by<L: Ledger>(
    alloc: Global,
    rules: &Rules,
    store: &Store,
    id: &ObjId,
    blank: Blank,
) -> Mem<Vec<PoiRec>>
    requires name { blank.name ≡ L.name }
    requires parts { blank.parts ≡ L.parts }
    requires some { 0 < blank.parts }
{
    let mut steps = Steps::<L>::new(blank);
    derive_poi::derive(alloc, rules, &Look::now(store), id, &mut steps)
}
