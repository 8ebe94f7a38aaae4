//! Roads and turn restrictions.

ghost use Rattle.std.specs.Prelude.{◌≡◌, ◌+◌, ◌++◌, map, IfOk};
ghost use Rattle.live_model.specs.declared.records.Rec.TheVariants.{Road, Ban};
ghost use Rattle.live_model.specs.Records.{restriction_records, restriction_records_of, road_records, road_records_of};
ghost use Rattle.object_geometry.specs.Referred.{referred_in};

use crate::restrictions::restriction;
use crate::roads::road;
use entity_store::Look;
use live_model::{Entity, Mem, ObjId, Rec, Steps};
use std::alloc::Global;
use std::sync::ledger::Ledger;
use tag_rules::Rules;

/// The road or the turn restriction of the object with this id, each as a record; none where it is not there
/// or is neither. It counts one step, also where memory is refused.
pub fn derive<L: Ledger>(
    alloc: Global,
    rules: &Rules,
    look: &Look<'_>,
    id: &ObjId,
    steps: &mut Steps<L>,
) -> Mem<Vec<Rec>>
    ensures records { IfOk result (λ records. records.items ≡ map Road (road_records_of rules.now look.now id.now) ++ map Ban (restriction_records_of look.now id.now)) }
    ensures step { steps.new ≡ steps.old + 1 }
{
    steps.tick();
    records_at(alloc, rules, look, id)
}

/// The road and the turn restriction of the object with this id.
fn records_at(alloc: Global, rules: &Rules, look: &Look<'_>, id: &ObjId) -> Mem<Vec<Rec>>
    ensures { IfOk result (λ records. records.items ≡ map Road (road_records_of rules.now look.now id.now) ++ map Ban (restriction_records_of look.now id.now)) }
{
    match look.get(id) {
        Some(entity) => records_of(alloc, rules, look, entity),
        None => Ok(Vec::new(alloc)),
    }
}

/// The road and the turn restriction of an object.
fn records_of(alloc: Global, rules: &Rules, look: &Look<'_>, entity: &Entity) -> Mem<Vec<Rec>>
    ensures { IfOk result (λ records. records.items ≡ map Road (road_records rules.now entity.now (referred_in look.now entity.now)) ++ map Ban (restriction_records entity.now (referred_in look.now entity.now))) }
{
    let mut records = Vec::new(alloc);
    if let Some(road) = road(alloc, rules, look, entity)? {
        records.push(Rec::Road(road))?;
    }
    if let Some(restriction) = restriction(alloc, look, entity)? {
        records.push(Rec::Ban(restriction))?;
    }
    Ok(records)
}
