//! Points of interest.

ghost use Rattle.std.specs.Prelude.{◌≡◌, ◌+◌, ◌++◌, [], map, option_to_list, IfOk};
ghost use Rattle.live_model.specs.Records.{category_of, poi_record, poi_records, poi_records_of};
ghost use Rattle.object_geometry.specs.Referred.{referred_in};
ghost use Rattle.object_geometry.specs.Matching.{rules_for};
ghost use Rattle.derive_poi.specs.Categories.{categories_of, each_once};

use entity_store::Look;
use live_model::{Class, Entity, Mem, ObjId, PoiRec, Point, Rule, Steps, Text};
use object_geometry::{Matches, name, one_point, points};
use std::alloc::Global;
use std::sync::ledger::Ledger;
use tag_rules::Rules;

/// The points of interest of the object with this id, one for each category, by the bytes of the
/// categories; none where it is not there. It counts one step, also where memory is refused.
pub fn derive<L: Ledger>(
    alloc: Global,
    rules: &Rules,
    look: &Look<'_>,
    id: &ObjId,
    steps: &mut Steps<L>,
) -> Mem<Vec<PoiRec>>
    ensures records { IfOk result (λ records. records.items ≡ poi_records_of rules.now look.now id.now) }
    ensures step { steps.new ≡ steps.old + 1 }
{
    steps.tick();
    records_at(alloc, rules, look, id)
}

/// The points of interest of the object with this id.
fn records_at(alloc: Global, rules: &Rules, look: &Look<'_>, id: &ObjId) -> Mem<Vec<PoiRec>>
    ensures { IfOk result (λ records. records.items ≡ poi_records_of rules.now look.now id.now) }
{
    match look.get(id) {
        Some(entity) => records_of(alloc, rules, look, entity),
        None => Ok(Vec::new(alloc)),
    }
}

/// The points of interest of an object. Its points are looked for only where a rule gives it a category.
fn records_of(alloc: Global, rules: &Rules, look: &Look<'_>, entity: &Entity) -> Mem<Vec<PoiRec>>
    ensures { IfOk result (λ records. records.items ≡ poi_records rules.now entity.now (referred_in look.now entity.now)) }
{
    let categories = categories(alloc, rules, entity)?;
    if categories.is_empty() {
        return Ok(Vec::new(alloc));
    }
    let points = points(alloc, look, entity)?;
    let Some(point) = one_point(points.as_slice()) else {
        return Ok(Vec::new(alloc));
    };
    records_in(alloc, entity, point, categories)
}

/// The object at this point, once in each of the categories.
fn records_in(
    alloc: Global,
    entity: &Entity,
    point: Point,
    categories: Vec<Text>,
) -> Mem<Vec<PoiRec>>
    ensures { IfOk result (λ records. records.items ≡ map (poi_record entity.now point) categories.items) }
{
    let mut records = Vec::new(alloc);
    for category in categories {
        let name = Text::copied(alloc, name(entity))?;
        records.push(PoiRec {
            id: entity.id,
            category,
            name,
            point,
        })?;
    }
    Ok(records)
}

/// The categories of the rules that match an object, if it has points; by their bytes, each once.
fn categories(alloc: Global, rules: &Rules, entity: &Entity) -> Mem<Vec<Text>>
    ensures { IfOk result (λ found. found.items ≡ each_once (categories_of (rules_for rules.now entity.now))) }
{
    let mut found = matching_categories(alloc, rules, entity)?;
    keep_each_once(&mut found);
    Ok(found)
}

/// The categories of the rules that match an object, if it has points, in the order of the table.
fn matching_categories(alloc: Global, rules: &Rules, entity: &Entity) -> Mem<Vec<Text>>
    ensures { IfOk result (λ found. found.items ≡ categories_of (rules_for rules.now entity.now)) }
{
    let mut matches = Matches::new(rules, entity);
    let mut found = Vec::new(alloc);
    while let Some((_, rule)) = matches.next_rule() {
        put_category(alloc, rule, &mut found)?;
    }
    Ok(found)
}

/// The category that a rule gives, put at the end, if it gives one.
fn put_category(alloc: Global, rule: &Rule, found: &mut Vec<Text>) -> Mem<()>
    ensures { IfOk result (λ _. found.new.items ≡ found.old.items ++ option_to_list (category_of rule.now.class)) }
{
    if let Class::Poi(category) = &rule.class {
        let copied = category.copy(alloc)?;
        found.push(copied)?;
    }
    Ok(())
}

/// Puts texts in the order of their bytes, and keeps each once.
fn keep_each_once(texts: &mut Vec<Text>)
    ensures { texts.new.items ≡ each_once texts.old.items }
{
    texts.sort_unstable();
    texts.dedup();
}
