//! The marks of images.

ghost use Rattle.std.specs.Prelude.{◌≡◌, ◌+◌, ◌++◌, drop, map, IfOk, OnOk};
ghost use Rattle.std.specs.List.{list_any};
ghost use Rattle.boxed_write.specs.Classes.{held};
ghost use Rattle.file_grammar.specs.Sections.{object_of};
ghost use Rattle.live_model.specs.Closures as Closures;
ghost use Rattle.live_model.specs.Maps.{all_marks, is_mark};
ghost use Rattle.obf_reader.specs.Overlays.{overlay_of};
ghost use Rattle.fold_merge.specs.Folds.{overlays_of};

use live_model::ObjId;
use obf_reader::Image;
use owned_data::Mem;
use std::alloc::Global;
use std::cmp::Ordering;

/// The objects that any of the images marks, rising, each once.
pub(crate) fn all_marks(alloc: Global, images: &[&Image]) -> Mem<Vec<ObjId>>
    ensures { IfOk result (λ marks. marks.items ≡ all_marks (overlays_of (held images.now))) }
{
    let mut marks = Vec::new(alloc);
    let mut rest = images;
    while let [image, after @ ..] = rest {
        put_marks(image, &mut marks)?;
        rest = after;
    }
    rising_ids(marks)
}

/// Appends the objects that an image marks.
fn put_marks(image: &Image, marks: &mut Vec<ObjId>) -> Mem<()>
    ensures { OnOk result (marks.new.items ≡ marks.old.items ++ (overlay_of image.now).marks) }
{
    for index in 0..image.mark_count() {
        put_mark(image, index, marks)?;
    }
    Ok(())
}

/// Appends the object of the mark at an index, where there is one.
#[tactic(auto, using(crate::proofs::Walking::mark_put, crate::proofs::Walking::mark_none))]
fn put_mark(image: &Image, index: usize, marks: &mut Vec<ObjId>) -> Mem<()>
    ensures { OnOk result (marks.new.items ++ map object_of (drop (index + 1) image.now.marks) ≡ marks.old.items ++ map object_of (drop index image.now.marks)) }
{
    let Some(mark) = image.mark_at(index) else {
        return Ok(());
    };
    let _ = mark.ordinal();
    marks.push(mark)?;
    Ok(())
}

/// The ids rising, each once.
fn rising_ids(ids: Vec<ObjId>) -> Mem<Vec<ObjId>>
    ensures { IfOk result (λ once. once.items ≡ Closures.rising_ids ids.items) }
{
    let mut ids = ids;
    ids.reverse();
    ids.sort_by(|a, b| a.ordinal().cmp(&b.ordinal()))?;
    ids.dedup_by(|a, b| a.ordinal().cmp(&b.ordinal()) == Ordering::Equal);
    Ok(ids)
}

/// Whether any of the images marks the object.
pub(crate) fn any_marks(images: &[&Image], id: &ObjId) -> bool
    ensures { result ≡ list_any (λ o. is_mark o id.now) (overlays_of (held images.now)) }
{
    let mut rest = images;
    while let [image, after @ ..] = rest {
        if marks(image, id) {
            return true;
        }
        rest = after;
    }
    false
}

/// Whether an image marks the object.
fn marks(image: &Image, id: &ObjId) -> bool
    ensures { result ≡ is_mark (overlay_of image.now) id.now }
{
    let _ = image.bytes();
    image.marks_has(id)
}
