//! The image of base lines.

ghost use Rattle.std.specs.Prelude.{◌≡◌, ◌<◌, [], IfOk, List};
ghost use Rattle.std.specs.Arc.{arc_value};
ghost use Rattle.std.specs.List.Sorted.{IsSorted};
ghost use Rattle.live_model.specs.declared.objects.Line.{Line};
ghost use Rattle.live_model.specs.Fits.{FitsRules};
ghost use Rattle.live_model.specs.Maps.{map_of};
ghost use Rattle.live_model.specs.Records.{record_cmp};
ghost use Rattle.live_model.specs.Stores.{IsStore, apply};
ghost use Rattle.overlay_set.specs.Sets.{base_image};
ghost use Rattle.packed_image.specs.Packed.{IsImageOfParts};
ghost use Rattle.published_set.specs.Images.{image_of};
ghost use Rattle.set_events.specs.Kept.{base_head};

use change_diff::base_records;
use entity_store::Store;
use live_model::{Level, Mem, Rec, Steps};
use obf_reader::Image;
use packed_image::pack;
use stamp_core::Head;
use std::alloc::Global;
use std::marker::Brand;
use std::sync::Arc;
use std::sync::ledger::{Blank, Ledger};
use tag_rules::Rules;

/// The image of the base whose lines leave these entities. `NoMemory` is the only error.
pub fn base_image(alloc: Global, rules: &Rules, store: &Store) -> Mem<Arc<Image>>
    requires { IsStore store.now.entities }
    ensures { (lines : List Line) → apply [] lines ≡ store.now.entities → IfOk result (λ image. image_of (arc_value image) ≡ base_image rules.now lines) }
{
    let records = all_records::<Brand>(alloc, rules, store, Blank::new(1))?;
    let image = packed_base(alloc, rules, &records)?;
    let shared = Arc::new(alloc, image)?;
    Ok(shared)
}

/// All records of a store, with no step counted.
fn all_records<L: Ledger>(
    alloc: Global,
    rules: &Rules,
    store: &Store,
    blank: Blank,
) -> Mem<Vec<Rec>>
    requires name { blank.name ≡ L.name }
    requires parts { blank.parts ≡ L.parts }
    requires some { 0 < blank.parts }
    ensures records { IfOk result (λ records. records.items ≡ map_of rules.now store.now.entities) }
    ensures sorted { IsStore store.now.entities → IfOk result (λ records. IsSorted record_cmp records.items) }
    ensures fit { IsStore store.now.entities → IfOk result (λ records. FitsRules rules.now records.items) }
{
    let mut steps = Steps::<L>::new(blank);
    base_records(alloc, rules, store, &mut steps)
}

/// The image of the packed file of a base with these records.
fn packed_base(alloc: Global, rules: &Rules, records: &[Rec]) -> Mem<Image>
    requires sorted { IsSorted record_cmp records.now }
    requires fit { FitsRules rules.now records.now }
    ensures { IfOk result (λ image. IsImageOfParts image base_head rules.now [] records.now) }
{
    let head = Head {
        level: Level::Base,
        first: None,
        last: None,
    };
    pack(alloc, &head, rules, &[], records)
}
