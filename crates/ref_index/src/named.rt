//! What the objects of lines refer to.

ghost use Rattle.std.specs.Prelude.{◌≡◌, ◌++◌, map, flat_map, IfOk, OnOk};
ghost use Rattle.live_model.specs.Ids.{ordinal};
ghost use Rattle.live_model.specs.Closures.{entity_at, line_id, referred};
ghost use Rattle.ref_index.specs.Pairs.{name_of, pairs_named, places_named, rising_numbers};

use crate::pairs::{put_pairs, put_places};
use crate::sorting::rising;
use entity_store::Look;
use live_model::{Line, Mem, ObjId};
use std::alloc::Global;

/// The ids of lines in turn, each under its ordinal.
pub fn names_of(alloc: Global, lines: &[Line]) -> Mem<Vec<(u64, ObjId)>>
    ensures { IfOk result (λ names. names.items ≡ map name_of lines.now) }
{
    let mut names = Vec::with_capacity(alloc, lines.len())?;
    for line in lines {
        let id = id_of(line);
        names.push((id.ordinal(), id))?;
    }
    Ok(names)
}

/// Of the object of each line in turn what it refers to in the store that is looked at, each once, and its id.
pub fn pairs_of_lines(alloc: Global, look: &Look<'_>, lines: &[Line]) -> Mem<Vec<(u64, ObjId)>>
    ensures { IfOk result (λ pairs. pairs.items ≡ flat_map (pairs_named look.now) lines.now) }
{
    let mut pairs = Vec::new(alloc);
    let mut rest = lines;
    while let Some((line, later)) = rest.split_first() {
        let id = id_of(line);
        put_pairs(alloc, look.get(&id), id, &mut pairs)?;
        rest = later;
    }
    Ok(pairs)
}

/// The ordinals of what the objects of lines refer to before and after, rising, each once.
pub fn targets_of_lines(
    alloc: Global,
    before: &Look<'_>,
    after: &Look<'_>,
    lines: &[Line],
) -> Mem<Vec<u64>>
    ensures { IfOk result (λ targets. targets.items ≡ rising_numbers (flat_map (places_named before.now after.now) lines.now)) }
{
    let mut places = Vec::new(alloc);
    let mut rest = lines;
    while let Some((line, later)) = rest.split_first() {
        put_both(before, after, &id_of(line), &mut places)?;
        rest = later;
    }
    rising(places)
}

/// Puts the ordinals of what an object refers to before and after at the end.
fn put_both(before: &Look<'_>, after: &Look<'_>, id: &ObjId, places: &mut Vec<u64>) -> Mem<()>
    ensures { OnOk result (places.new.items ≡ places.old.items ++ map ordinal (referred (entity_at before.now id.now) ++ referred (entity_at after.now id.now))) }
{
    put_places(before.get(id), places)?;
    put_places(after.get(id), places)
}

/// The object that a line is about.
pub fn id_of(line: &Line) -> ObjId
    ensures { result ≡ line_id line.now }
{
    match line {
        Line::Live(entity) => entity.id,
        Line::Gone(id, _) => *id,
    }
}
