//! What comes in with a publication, and the room that is made for it.

ghost use Rattle.std.specs.Prelude.{◌≡◌, ◌<◌, ◌≤◌, ◌∷◌, [], IfOk, OnOk, length};
ghost use Rattle.std.specs.Arc.{arc_value};
ghost use Rattle.std.specs.List.{AllByRecursion};
ghost use Rattle.std.specs.Ordering.{nat_cmp};
ghost use Rattle.entity_store.specs.Changes.{after_changes};
ghost use Rattle.layer_table.specs.Layers.{laid};
ghost use Rattle.live_model.specs.declared.levels.Level.TheVariants.{Hour};
ghost use Rattle.live_model.specs.Maps.{published};
ghost use Rattle.live_model.specs.Objects.{IsGoodLine};
ghost use Rattle.live_model.specs.Stores.{apply};
ghost use Rattle.overlay_set.specs.Machines.{limits_of_a_board, with_room};
ghost use Rattle.overlay_set.specs.Sets.{lines_of, run_image};
ghost use Rattle.published_set.specs.Images.{image_of};
ghost use Rattle.published_set.specs.Sets.{IsStanding, entry_of, rules_of};
ghost use Rattle.ref_index.specs.Indexes.{Indexes};
ghost use Rattle.set_events.specs.Kept.{IsKeptBeside, entry_for, plan_for_room};

use crate::folds::bring;
use entity_store::Store;
use live_model::{Lines, Mem, Steps};
use published_set::{FoldWork, OverlaySet};
use ref_index::RefIndex;
use set_events::{Prepared, prepare};
use stamp_core::Stamp;
use std::alloc::Global;
use std::sync::Arc;
use std::sync::ledger::{Blank, Ledger};

/// All that comes in with a publication, with no step counted.
pub fn uncounted<L: Ledger>(
    alloc: Global,
    set: &OverlaySet,
    store: &mut Store,
    index: &mut RefIndex,
    stamp: Stamp,
    tag: u32,
    lines: &Arc<Lines>,
    blank: Blank,
) -> Mem<Prepared>
    requires name { blank.name ≡ L.name }
    requires parts { blank.parts ≡ L.parts }
    requires some { 0 < blank.parts }
    requires kept { IsKeptBeside set.now store.old.entities index.old.map }
    requires good { AllByRecursion IsGoodLine (arc_value lines.now) }
    ensures entry { IfOk result (λ p. entry_of p.published ≡ entry_for stamp tag (arc_value lines.now)) }
    ensures image { IfOk result (λ p. image_of (arc_value p.image) ≡ run_image (rules_of set.now) (published (apply [] set.now.base) (lines_of set.now.state.history)) Hour (entry_for stamp tag (arc_value lines.now) ∷ [])) }
    ensures entities { store.new.entities ≡ store.old.entities }
    ensures users { index.new.map ≡ index.old.map }
    ensures room { OnOk result ((1 ≤ store.new.spare) × (1 ≤ index.new.spare)) }
    ensures staged { IfOk result (λ p. after_changes store.old.entities p.staged ≡ apply store.old.entities (arc_value lines.now)) }
    ensures refs { IfOk result (λ p. Indexes (laid nat_cmp index.old.map p.refs) (apply store.old.entities (arc_value lines.now))) }
{
    let mut steps = Steps::<L>::new(blank);
    prepare(alloc, set, store, index, stamp, tag, lines, &mut steps)
}

/// Makes room for a file with the fold that was made for it.
pub fn make_room(set: &mut OverlaySet, work: Option<FoldWork>)
    requires standing { IsStanding set.old }
    requires work { work ≡ plan_for_room set.old }
    ensures set { set.new ≡ record { base = set.old.base; state = with_room limits_of_a_board (rules_of set.old) set.old.base set.old.state } }
    ensures rules { rules_of set.new ≡ rules_of set.old }
    ensures standing { IsStanding set.new }
{
    match work {
        None => {}
        Some(work) => {
            let _ = bring(set, work);
        }
    }
}
