//! Map records.

ghost use Rattle.std.specs.Prelude.{◌≡◌, ◌+◌, IfOk, IsTrue, IsUtf8};
ghost use Rattle.live_model.specs.Records.{map_records, map_records_of};
ghost use Rattle.object_geometry.specs.Referred.{referred_in};
ghost use Rattle.derive_map.specs.Drawings.{drawing, drawings};
ghost use Rattle.derive_map.specs.MapRecords.{AreNamed};

use entity_store::Look;
use live_model::{Entity, List, MapRec, Mem, ObjId, Point, Rule, Steps, Text};
use object_geometry::{Matches, Wanted, name, points};
use std::alloc::Global;
use std::sync::ledger::Ledger;
use tag_rules::Rules;

/// The map records of the object with this id, in the order of the rules; none where it is not there. It
/// counts one step, also where memory is refused.
pub fn derive<L: Ledger>(
    alloc: Global,
    rules: &Rules,
    look: &Look<'_>,
    id: &ObjId,
    steps: &mut Steps<L>,
) -> Mem<Vec<MapRec>>
    ensures records { IfOk result (λ records. records.items ≡ map_records_of rules.now look.now id.now) }
    ensures step { steps.new ≡ steps.old + 1 }
{
    steps.tick();
    records_at(alloc, rules, look, id)
}

/// The map records of the object with this id.
fn records_at(alloc: Global, rules: &Rules, look: &Look<'_>, id: &ObjId) -> Mem<Vec<MapRec>>
    ensures { IfOk result (λ records. records.items ≡ map_records_of rules.now look.now id.now) }
{
    match look.get(id) {
        Some(entity) => records_of(alloc, rules, look, entity),
        None => Ok(Vec::new(alloc)),
    }
}

/// The map records of an object. Its points are looked for only where a rule of the map can match.
pub(crate) fn records_of(
    alloc: Global,
    rules: &Rules,
    look: &Look<'_>,
    entity: &Entity,
) -> Mem<Vec<MapRec>>
    ensures records { IfOk result (λ records. records.items ≡ map_records rules.now entity.now (referred_in look.now entity.now)) }
    ensures named { IfOk result (λ records. AreNamed records.items) }
{
    let Some(_) = Matches::new(rules, entity).next_of(Wanted::Map) else {
        return Ok(Vec::new(alloc));
    };
    let points = points(alloc, look, entity)?;
    if points.is_empty() {
        return Ok(Vec::new(alloc));
    }
    drawings(alloc, rules, entity, points.as_slice())
}

/// An object with these points as all rules of the map that match it draw it.
fn drawings(alloc: Global, rules: &Rules, entity: &Entity, points: &[Point]) -> Mem<Vec<MapRec>>
    ensures records { IfOk result (λ records. records.items ≡ drawings rules.now entity.now points.now) }
    ensures named { IfOk result (λ records. AreNamed records.items) }
{
    let mut matches = Matches::new(rules, entity);
    let mut records = Vec::new(alloc);
    while let Some((index, rule)) = matches.next_of(Wanted::Map) {
        let record = drawing(alloc, entity, points, index, rule)?;
        records.push(record)?;
    }
    Ok(records)
}

/// An object with these points as the rule at this place draws it.
fn drawing(alloc: Global, entity: &Entity, points: &[Point], index: u32, rule: &Rule) -> Mem<MapRec>
    ensures drawn { IfOk result (λ drawn. drawn ≡ drawing entity.now points.now (index, rule.now)) }
    ensures named { IfOk result (λ drawn. IsUtf8 drawn.name) }
{
    let name = Text::copied(alloc, name(entity))?;
    let points = points.to_vec(alloc)?;
    Ok(MapRec {
        id: entity.id,
        rule: index,
        shape: rule.shape,
        name,
        points: List::from_vec(points),
    })
}
