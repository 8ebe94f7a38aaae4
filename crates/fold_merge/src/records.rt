//! The records of images that stay.

ghost use Rattle.std.specs.Prelude.{◌≡◌, ◌<◌, ◌+◌, ◌++◌, [], ◌∷◌, drop, filter, flat_map, map, IfOk, OnOk};
ghost use Rattle.std.specs.List.{AllByRecursion};
ghost use Rattle.boxed_read.specs.Steps.{joined};
ghost use Rattle.boxed_write.specs.Classes.{held};
ghost use Rattle.live_model.specs.declared.records.Rec.TheVariants.{Addr, Poi};
ghost use Rattle.live_model.specs.MapLaws.{MarksItsRecords};
ghost use Rattle.live_model.specs.Maps.{folded, in_order};
ghost use Rattle.map_laws.specs.Laws.{untouched_by};
ghost use Rattle.fold_merge.specs.Collecting.{collected, records_of_group, sections_in};
ghost use Rattle.fold_merge.specs.Folds.{overlays_of};

use crate::classes::RecordClass;
use crate::marks::any_marks;
use addr_read::{Section as Addresses, View as AddressView};
use boxed_read::{Section, View};
use live_model::{ObjId, Rec, Steps};
use obf_reader::Image;
use owned_data::Mem;
use poi_section::Pois;
use std::alloc::Global;
use std::marker::Brand;
use std::sync::ledger::{Blank, Ledger};

/// The records of the fold of images: of each image those on whose objects no later one decides, in the order of records.
pub(crate) fn later_records(alloc: Global, images: &[&Image]) -> Mem<Vec<Rec>>
    requires { AllByRecursion MarksItsRecords (overlays_of (held images.now)) }
    ensures { IfOk result (λ records. records.items ≡ (folded (overlays_of (held images.now))).records) }
{
    let records = collected::<Brand>(alloc, images, Blank::new(1))?;
    sorted(records)
}

/// The same, as they stand in the files.
fn collected<L: Ledger>(alloc: Global, images: &[&Image], blank: Blank) -> Mem<Vec<Rec>>
    requires name { blank.name ≡ L.name }
    requires parts { blank.parts ≡ L.parts }
    requires some { 0 < blank.parts }
    ensures { IfOk result (λ records. records.items ≡ collected (held images.now)) }
{
    let mut steps = Steps::<L>::new(blank);
    let mut records = Vec::new(alloc);
    let mut rest = images;
    while let [image, later @ ..] = rest {
        put_image(alloc, image, later, &mut steps, &mut records)?;
        rest = later;
    }
    Ok(records)
}

/// Appends the records of an image on whose objects none of the later ones decides.
fn put_image<L: Ledger>(
    alloc: Global,
    image: &Image,
    later: &[&Image],
    steps: &mut Steps<L>,
    records: &mut Vec<Rec>,
) -> Mem<()>
    ensures { OnOk result (records.new.items ≡ records.old.items ++ filter (untouched_by (overlays_of (held later.now))) (sections_in image.now.bytes)) }
{
    let _ = image.bytes();
    put_boxed(alloc, &image.map(), later, steps, records)?;
    put_addresses(alloc, &image.addresses(), later, steps, records)?;
    put_pois(alloc, &image.pois(), later, steps, records)?;
    put_boxed(alloc, &image.roads(), later, steps, records)?;
    put_boxed(alloc, &image.restrictions(), later, steps, records)?;
    Ok(())
}

/// The same of a section of boxed records.
fn put_boxed<C: RecordClass, L: Ledger>(
    alloc: Global,
    section: &Section<'_, C>,
    later: &[&Image],
    steps: &mut Steps<L>,
    records: &mut Vec<Rec>,
) -> Mem<()>
    ensures { OnOk result (records.new.items ≡ records.old.items ++ filter (untouched_by (overlays_of (held later.now))) (map C.as_record (joined section.now.blocks))) }
{
    let mut views = section.all();
    while let Some(view) = views.next(steps) {
        put_view(alloc, &view, later, records)?;
    }
    Ok(())
}

/// The same of one boxed record.
fn put_view<C: RecordClass>(
    alloc: Global,
    view: &View<'_, C>,
    later: &[&Image],
    records: &mut Vec<Rec>,
) -> Mem<()>
    ensures { OnOk result (records.new.items ≡ records.old.items ++ filter (untouched_by (overlays_of (held later.now))) (C.as_record view.now ∷ [])) }
{
    if any_marks(later, &view.id()) {
        return Ok(());
    }
    let item = view.copy(alloc)?;
    records.push(C::record(item))?;
    Ok(())
}

/// The same of addresses.
fn put_addresses<L: Ledger>(
    alloc: Global,
    section: &Addresses<'_>,
    later: &[&Image],
    steps: &mut Steps<L>,
    records: &mut Vec<Rec>,
) -> Mem<()>
    ensures { OnOk result (records.new.items ≡ records.old.items ++ filter (untouched_by (overlays_of (held later.now))) (map Addr (joined section.now))) }
{
    let mut views = section.all();
    while let Some(view) = views.next(steps) {
        put_address(alloc, &view, later, records)?;
    }
    Ok(())
}

/// The same of one address.
fn put_address(
    alloc: Global,
    view: &AddressView<'_>,
    later: &[&Image],
    records: &mut Vec<Rec>,
) -> Mem<()>
    ensures { OnOk result (records.new.items ≡ records.old.items ++ filter (untouched_by (overlays_of (held later.now))) (Addr view.now ∷ [])) }
{
    if any_marks(later, &view.id()) {
        return Ok(());
    }
    let address = view.copy(alloc)?;
    records.push(Rec::Addr(address))?;
    Ok(())
}

/// The same of the points of interest of all groups.
fn put_pois<L: Ledger>(
    alloc: Global,
    pois: &Pois<'_>,
    later: &[&Image],
    steps: &mut Steps<L>,
    records: &mut Vec<Rec>,
) -> Mem<()>
    ensures { OnOk result (records.new.items ≡ records.old.items ++ filter (untouched_by (overlays_of (held later.now))) (map Poi (flat_map records_of_group pois.now))) }
{
    for index in 0..pois.len() {
        put_group(alloc, pois, index, later, steps, records)?;
    }
    Ok(())
}

/// The same of the group at an index, where there is one.
#[tactic(auto, using(crate::proofs::Walking::group_put, crate::proofs::Walking::group_none))]
fn put_group<L: Ledger>(
    alloc: Global,
    pois: &Pois<'_>,
    index: usize,
    later: &[&Image],
    steps: &mut Steps<L>,
    records: &mut Vec<Rec>,
) -> Mem<()>
    ensures { OnOk result (records.new.items ++ filter (untouched_by (overlays_of (held later.now))) (map Poi (flat_map records_of_group (drop (index + 1) pois.now)))
        ≡ records.old.items ++ filter (untouched_by (overlays_of (held later.now))) (map Poi (flat_map records_of_group (drop index pois.now)))) }
{
    let Some(group) = pois.group(index) else {
        return Ok(());
    };
    put_boxed(alloc, &group, later, steps, records)
}

/// The records in their order.
fn sorted(records: Vec<Rec>) -> Mem<Vec<Rec>>
    ensures { IfOk result (λ sorted. sorted.items ≡ in_order records.items) }
{
    let mut records = records;
    records.sort_by(|a, b| a.compare(b))?;
    Ok(records)
}
