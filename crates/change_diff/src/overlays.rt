//! What lines change in the map of a store.

ghost use Rattle.std.specs.Prelude.{◌≡◌, ◌+◌, ◌*◌, ◌≤◌, length, IfOk, OnOk};
ghost use Rattle.std.specs.Ordering.{nat_cmp};
ghost use Rattle.layer_table.specs.Layers.{laid};
ghost use Rattle.entity_store.specs.Changes.{after_changes};
ghost use Rattle.ref_index.specs.Indexes.{Indexes};
ghost use Rattle.live_model.specs.Stores.{apply};
ghost use Rattle.live_model.specs.Users.{touched};
ghost use Rattle.change_diff.specs.Overlays.{CanBeWritten, IsChange, IsOverlayOf};

use crate::comparing::{Changed, changed_among};
use entity_store::{Look, Staged, Store};
use live_model::{Line, Mem, ObjId, Rec, Steps};
use ref_index::{RefIndex, StagedRefs};
use std::alloc::Global;
use std::sync::ledger::Ledger;
use tag_rules::Rules;

/// What lines change: the objects whose records are others after them, in the order of ids, the records of these then, in
/// order, and what is staged of the lines for the store and for its index.
#[derive(Drop)]
pub struct Change {
    pub marks: Vec<ObjId>,
    pub records: Vec<Rec>,
    pub staged: Staged,
    pub refs: StagedRefs,
}

/// The overlay of lines over the map of a store, and what is staged of them, where the index is that of the store and both
/// store and lines are good: marks and records can be written as they are. Store and index stay, also where memory is refused, and have room for what is staged. It counts
/// eight steps for each object that the lines touch, and at most that where memory is refused.
pub fn overlay<L: Ledger>(
    alloc: Global,
    rules: &Rules,
    store: &mut Store,
    index: &mut RefIndex,
    lines: &[Line],
    steps: &mut Steps<L>,
) -> Mem<Change>
    ensures entities { store.new.entities ≡ store.old.entities }
    ensures users { index.new.map ≡ index.old.map }
    ensures kept { (store.old.spare ≤ store.new.spare) × (index.old.spare ≤ index.new.spare) }
    ensures fewer { (store.new.depth ≤ store.old.depth) × (index.new.depth ≤ index.old.depth) }
    ensures room { OnOk result ((1 ≤ store.new.spare) × (1 ≤ index.new.spare)) }
    ensures depth { OnOk result ((store.new.depth ≤ 32) × (index.new.depth ≤ 32)) }
    ensures staged { IfOk result (λ change. after_changes store.old.entities change.staged ≡ apply store.old.entities lines.now) }
    ensures refs { IsChange store.old.entities index.old.map lines.now → IfOk result (λ change. Indexes (laid nat_cmp index.old.map change.refs) (apply store.old.entities lines.now)) }
    ensures overlay { IsChange store.old.entities index.old.map lines.now → IfOk result (λ change. IsOverlayOf rules.now store.old.entities lines.now change.marks.items change.records.items) }
    ensures written { IsChange store.old.entities index.old.map lines.now → IfOk result (λ change. CanBeWritten rules.now change.marks.items change.records.items) }
    ensures counted { Indexes index.old.map store.old.entities → OnOk result (steps.new ≡ steps.old + 8 * length (touched store.old.entities lines.now)) }
    ensures most { Indexes index.old.map store.old.entities → steps.new ≤ steps.old + 8 * length (touched store.old.entities lines.now) }
{
    let staged = store.stage(alloc, lines)?;
    let before = Look::now(store);
    let after = Look::then(store, &staged);
    let ids = index.touched(alloc, lines)?;
    let found = changed_among(alloc, rules, &before, &after, &ids, steps)?;
    let refs = index.stage(alloc, &before, &after, lines)?;
    drop(before);
    drop(after);
    let Changed { marks, records } = found;
    Ok(Change {
        marks,
        records,
        staged,
        refs,
    })
}
