//! What comes in with a publication, all of it made before anything changes.

ghost use Rattle.std.specs.Prelude.{◌≡◌, ◌≢◌, ◌≤◌, ◌+◌, ◌*◌, ◌∷◌, [], IfOk, OnOk, length, map};
ghost use Rattle.std.specs.Arc.{arc_value};
ghost use Rattle.std.specs.List.{AllByRecursion};
ghost use Rattle.std.specs.Ordering.{nat_cmp};
ghost use Rattle.change_image.specs.Hours.{hour_head};
ghost use Rattle.change_diff.specs.Overlays.{CanBeWritten, IsChange, IsOverlayOf};
ghost use Rattle.entity_store.specs.Changes.{after_changes};
ghost use Rattle.layer_table.specs.Layers.{laid};
ghost use Rattle.live_model.specs.declared.levels.Level.TheVariants.{Hour};
ghost use Rattle.live_model.specs.Maps.{published};
ghost use Rattle.live_model.specs.Objects.{IsGoodLine};
ghost use Rattle.live_model.specs.Stores.{apply};
ghost use Rattle.live_model.specs.Users.{touched};
ghost use Rattle.overlay_set.specs.Sets.{lines_of, run_image};
ghost use Rattle.overlay_set.specs.Swaps.{common_rules};
ghost use Rattle.published_set.specs.Images.{image_of};
ghost use Rattle.published_set.specs.Sets.{entry_of, images_in, rules_of};
ghost use Rattle.ref_index.specs.Indexes.{Indexes};
ghost use Rattle.set_events.specs.Kept.{IsKeptBeside, entry_for};

use change_diff::{Change, overlay};
use change_image::hour_image;
use entity_store::{Staged, Store};
use live_model::{Line, Lines, Mem, NoMemory, Steps};
use obf_reader::Image;
use published_set::{OverlaySet, Published};
use ref_index::{RefIndex, StagedRefs};
use stamp_core::Stamp;
use std::alloc::Global;
use std::sync::Arc;
use std::sync::ledger::Ledger;
use tag_rules::Rules;

/// A publication with all that comes in with it.
#[derive(Drop)]
pub struct Prepared {
    /// The publication, with a further owner of its lines.
    pub published: Published,
    /// The hour file of its overlay.
    pub image: Arc<Image>,
    /// What its lines change in the store.
    pub staged: Staged,
    /// And in the index.
    pub refs: StagedRefs,
}

/// Makes all that comes in with a publication of this hour, tag and lines, which have to be good, over a set that stands, with the store
/// after its history and the index of that store. Set, store and index stay, and store and index have room for what is staged. Eight steps
/// are counted for each object that the lines touch, and at most that where memory is refused. `NoMemory` is the only error.
pub fn prepare<L: Ledger>(
    alloc: Global,
    set: &OverlaySet,
    store: &mut Store,
    index: &mut RefIndex,
    stamp: Stamp,
    tag: u32,
    lines: &Arc<Lines>,
    steps: &mut Steps<L>,
) -> Mem<Prepared>
    requires kept { IsKeptBeside set.now store.old.entities index.old.map }
    requires good { AllByRecursion IsGoodLine (arc_value lines.now) }
    ensures entry { IfOk result (λ p. entry_of p.published ≡ entry_for stamp tag (arc_value lines.now)) }
    ensures image { IfOk result (λ p. image_of (arc_value p.image) ≡ run_image (rules_of set.now) (published (apply [] set.now.base) (lines_of set.now.state.history)) Hour (entry_for stamp tag (arc_value lines.now) ∷ [])) }
    ensures entities { store.new.entities ≡ store.old.entities }
    ensures users { index.new.map ≡ index.old.map }
    ensures room { OnOk result ((1 ≤ store.new.spare) × (1 ≤ index.new.spare)) }
    ensures staged { IfOk result (λ p. after_changes store.old.entities p.staged ≡ apply store.old.entities (arc_value lines.now)) }
    ensures refs { IfOk result (λ p. Indexes (laid nat_cmp index.old.map p.refs) (apply store.old.entities (arc_value lines.now))) }
    ensures most { steps.new ≤ steps.old + 8 * length (touched store.old.entities (arc_value lines.now)) }
{
    let published = publication(stamp, tag, lines)?;
    let rules = rules_in(set.images());
    let change = changed(alloc, rules, store, index, lines.as_slice(), steps)?;
    let image = hour_file(alloc, rules, stamp, &change)?;
    let Change {
        marks: _,
        records: _,
        staged,
        refs,
    } = change;
    Ok(Prepared {
        published,
        image,
        staged,
        refs,
    })
}

/// What lines change, over a store and its index.
fn changed<L: Ledger>(
    alloc: Global,
    rules: &Rules,
    store: &mut Store,
    index: &mut RefIndex,
    lines: &[Line],
    steps: &mut Steps<L>,
) -> Mem<Change>
    requires { IsChange store.old.entities index.old.map lines.now }
    ensures entities { store.new.entities ≡ store.old.entities }
    ensures users { index.new.map ≡ index.old.map }
    ensures room { OnOk result ((1 ≤ store.new.spare) × (1 ≤ index.new.spare)) }
    ensures staged { IfOk result (λ change. after_changes store.old.entities change.staged ≡ apply store.old.entities lines.now) }
    ensures refs { IfOk result (λ change. Indexes (laid nat_cmp index.old.map change.refs) (apply store.old.entities lines.now)) }
    ensures overlay { IfOk result (λ change. IsOverlayOf rules.now store.old.entities lines.now change.marks.items change.records.items) }
    ensures written { IfOk result (λ change. CanBeWritten rules.now change.marks.items change.records.items) }
    ensures most { steps.new ≤ steps.old + 8 * length (touched store.old.entities lines.now) }
{
    overlay(alloc, rules, store, index, lines, steps)
}

/// A publication, with a further owner of its lines.
fn publication(stamp: Stamp, tag: u32, lines: &Arc<Lines>) -> Mem<Published>
    ensures { IfOk result (λ published. entry_of published ≡ entry_for stamp tag (arc_value lines.now)) }
{
    match Arc::try_clone(lines) {
        Ok(lines) => Ok(Published { stamp, tag, lines }),
        Err(_) => Err(NoMemory),
    }
}

/// The hour file of a change.
fn hour_file(alloc: Global, rules: &Rules, stamp: Stamp, change: &Change) -> Mem<Arc<Image>>
    requires { CanBeWritten rules.now change.now.marks.items change.now.records.items }
    ensures { IfOk result (λ image. image_of (arc_value image) ≡ record { head = hour_head stamp; rules = rules.now; overlay = record { marks = change.now.marks.items; records = change.now.records.items } }) }
{
    let image = hour_image(alloc, rules, stamp, change)?;
    let shared = Arc::new(alloc, image)?;
    Ok(shared)
}

/// The rules of images, of which there is one at least.
fn rules_in(images: &[Arc<Image>]) -> &Rules
    requires { images.now ≢ [] }
    ensures { result.now ≡ common_rules (images_in (map arc_value images.now)) }
{
    images[0].rules()
}
