//! The map of a store.

ghost use Rattle.std.specs.Prelude.{◌≡◌, ◌+◌, ◌++◌, ◌≤◌, [], ◌∷◌, Some, IfOk, OnOk};
ghost use Rattle.std.specs.List.Sorted.{IsSorted};
ghost use Rattle.change_diff.specs.Counts.{steps_for};
ghost use Rattle.live_model.specs.Closures.{entity_at};
ghost use Rattle.live_model.specs.Fits.{FitsRules};
ghost use Rattle.live_model.specs.Maps.{map_of};
ghost use Rattle.live_model.specs.Records as Records;
ghost use Rattle.live_model.specs.Records.{record_cmp};
ghost use Rattle.live_model.specs.Stores.{IsStore};

use crate::records::put_records;
use crate::texts::are_texts;
use entity_store::{Look, Store};
use live_model::{Entity, Mem, Rec, Steps};
use std::alloc::Global;
use std::sync::ledger::Ledger;
use tag_rules::Rules;

/// All records of all objects of a store, object by object. Those of a good store stand in the order of records and fit
/// the rules, so that they can be written as they are. It counts four steps for each object with tags, and at most that
/// where memory is refused; an object without tags has no records and costs no look-up.
pub fn base_records<L: Ledger>(
    alloc: Global,
    rules: &Rules,
    store: &Store,
    steps: &mut Steps<L>,
) -> Mem<Vec<Rec>>
    ensures records { IfOk result (λ records. records.items ≡ map_of rules.now store.now.entities) }
    ensures sorted { IsStore store.now.entities → IfOk result (λ records. IsSorted record_cmp records.items) }
    ensures fit { IsStore store.now.entities → IfOk result (λ records. FitsRules rules.now records.items) }
    ensures counted { OnOk result (steps.new ≡ steps.old + steps_for store.now.entities) }
    ensures most { steps.new ≤ steps.old + steps_for store.now.entities }
{
    let look = Look::now(store);
    let _rules = rules.as_slice();
    let mut records = Vec::new(alloc);
    for entity in store.entities() {
        are_texts(entity);
        put_object(alloc, rules, &look, entity, steps, &mut records)?;
    }
    Ok(records)
}

/// Puts all records of an object of a store at the end.
fn put_object<L: Ledger>(
    alloc: Global,
    rules: &Rules,
    look: &Look<'_>,
    entity: &Entity,
    steps: &mut Steps<L>,
    records: &mut Vec<Rec>,
) -> Mem<()>
    requires { entity_at look.now entity.now.id ≡ Some entity.now }
    ensures records { OnOk result (records.new.items ≡ records.old.items ++ Records.records rules.now look.now entity.now.id) }
    ensures counted { OnOk result (steps.new ≡ steps.old + steps_for (entity.now ∷ [])) }
    ensures most { steps.new ≤ steps.old + steps_for (entity.now ∷ []) }
{
    if entity.tags.is_empty() {
        return Ok(());
    }
    put_records(alloc, rules, look, &entity.id, steps, records)
}
