//! The overlay of a change, and the image of its hour.

ghost use Rattle.std.specs.Prelude.{◌≡◌, ◌<◌, IfOk};
ghost use Rattle.std.specs.List.{AllByRecursion};
ghost use Rattle.live_model.specs.Objects.{IsGoodLine};
ghost use Rattle.live_model.specs.Stores.{IsStore};
ghost use Rattle.ref_index.specs.Indexes.{Indexes};
ghost use Rattle.change_diff.specs.Overlays.{CanBeWritten, IsChange};

use change_diff::{Change, overlay};
use change_image::hour_image;
use entity_store::Store;
use live_model::{Line, Mem, NoMemory, Steps};
use obf_reader::Image;
use obf_wire::FileError;
use ref_index::RefIndex;
use stamp_core::Stamp;
use std::alloc::Global;
use std::sync::ledger::{Blank, Ledger};
use tag_rules::Rules;

/// A store, and its index.
#[derive(Drop)]
pub struct Base {
    pub store: Store,
    pub index: RefIndex,
}

/// The base of these lines.
pub fn base_of(alloc: Global, lines: Vec<Line>) -> Mem<Base>
    requires { AllByRecursion IsGoodLine lines.items }
    ensures good { IfOk result (λ base. IsStore base.store.entities) }
    ensures indexed { IfOk result (λ base. Indexes base.index.map base.store.entities) }
{
    let store = Store::from_lines(alloc, lines)?;
    let index = RefIndex::build(alloc, &store)?;
    Ok(Base { store, index })
}

/// The overlay of a change over a base, as `overlay` says. No steps are counted.
pub fn overlay_of<L: Ledger>(
    alloc: Global,
    rules: &Rules,
    base: &mut Base,
    lines: &[Line],
    blank: Blank,
) -> Mem<Change>
    requires name { blank.name ≡ L.name }
    requires parts { blank.parts ≡ L.parts }
    requires some { 0 < blank.parts }
    requires good { IsChange base.old.store.entities base.old.index.map lines.now }
    ensures { IfOk result (λ change. CanBeWritten rules.now change.marks.items change.records.items) }
{
    let mut steps = Steps::<L>::new(blank);
    overlay(
        alloc,
        rules,
        &mut base.store,
        &mut base.index,
        lines,
        &mut steps,
    )
}

/// Makes the image of the hour so often, and answers the sum of the lengths of their bytes.
pub fn images_made(
    alloc: Global,
    rules: &Rules,
    hour: Stamp,
    change: &Change,
    times: u32,
) -> Mem<usize>
    requires { CanBeWritten rules.now change.now.marks.items change.now.records.items }
{
    let mut made = 0usize;
    for _ in 0..times {
        let image = hour_image(alloc, rules, hour, change)?;
        made = made.wrapping_add(image.bytes().len());
    }
    Ok(made)
}

/// Reads copies of these bytes so often, and answers the sum of the lengths of the images' bytes.
pub fn images_read(alloc: Global, bytes: &[u8], times: u32) -> Mem<usize> {
    let mut read = 0usize;
    for _ in 0..times {
        let mut copy = Vec::new(alloc);
        copy.extend_from_slice(bytes)?;
        match Image::read(alloc, copy) {
            Ok(image) => read = read.wrapping_add(image.bytes().len()),
            Err(FileError::NoMemory) => return Err(NoMemory),
            Err(FileError::Broken(_)) => (),
        }
    }
    Ok(read)
}
