//! The map records of a whole store.

ghost use Rattle.std.specs.Prelude.{◌≡◌, ◌+◌, ◌≤◌, ◌++◌, length, IfOk, OnOk};
ghost use Rattle.std.specs.List.{AllByRecursion};
ghost use Rattle.std.specs.List.Sorted.{IsSorted};
ghost use Rattle.live_model.specs.Fits.{FitsMap};
ghost use Rattle.live_model.specs.Records.{map_cmp, map_records};
ghost use Rattle.live_model.specs.Stores.{IsStore};
ghost use Rattle.object_geometry.specs.Referred.{referred_in};
ghost use Rattle.derive_map.specs.MapRecords.{AreNamed, drawn_of};

use crate::records::records_of;
use entity_store::{Look, Store};
use live_model::{Entity, MapRec, Mem, Steps};
use std::alloc::Global;
use std::sync::ledger::Ledger;
use tag_rules::Rules;

/// The map records of all objects of a store, in the order of records. Those of a good store fit the rules,
/// so that they can be written as they stand. It counts one step for each object, and at most that where
/// memory is refused. An object that no rule of the map can match costs no look-up; any other costs one for
/// each reference at most.
pub fn derive_all<L: Ledger>(
    alloc: Global,
    rules: &Rules,
    store: &Store,
    steps: &mut Steps<L>,
) -> Mem<Vec<MapRec>>
    ensures records { IfOk result (λ records. records.items ≡ drawn_of rules.now store.now.entities) }
    ensures sorted { IfOk result (λ records. IsSorted map_cmp records.items) }
    ensures fit { IsStore store.now.entities → IfOk result (λ records. AllByRecursion (FitsMap rules.now) records.items) }
    ensures counted { OnOk result (steps.new ≡ steps.old + length store.now.entities) }
    ensures most { steps.new ≤ steps.old + length store.now.entities }
{
    let look = Look::now(store);
    let mut records = Vec::new(alloc);
    for entity in store.entities() {
        steps.tick();
        put_records(alloc, rules, &look, entity, &mut records)?;
    }
    Ok(records)
}

/// Appends the map records of an object.
fn put_records(
    alloc: Global,
    rules: &Rules,
    look: &Look<'_>,
    entity: &Entity,
    records: &mut Vec<MapRec>,
) -> Mem<()>
    ensures records { OnOk result (records.new.items ≡ records.old.items ++ map_records rules.now entity.now (referred_in look.now entity.now)) }
    ensures named { AreNamed records.old.items → OnOk result (AreNamed records.new.items) }
{
    let mut made = records_of(alloc, rules, look, entity)?;
    records.append(&mut made)?;
    Ok(())
}
