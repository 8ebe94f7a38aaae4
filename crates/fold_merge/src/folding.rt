//! Folds of images.

ghost use Rattle.std.specs.Prelude.{◌≡◌, ◌≢◌, ◌⊎◌, [], map, None, IfErr, IfOk};
ghost use Rattle.std.specs.Arc.{arc_value};
ghost use Rattle.boxed_write.specs.Classes.{held};
ghost use Rattle.live_model.specs.declared.levels.Level.TheVariants.{Day, Month};
ghost use Rattle.file_order.specs.Folding.{not_fold};
ghost use Rattle.fold_merge.specs.Folds.{CanBePacked, IsFoldOf, IsRefused, placed_of};

use crate::error::FoldError;
use crate::heads::{common_rules, fold_head, hold_parts};
use crate::marks::all_marks;
use crate::records::later_records;
use file_order::can_fold;
use live_model::Level;
use obf_reader::Image;
use owned_data::Mem;
use packed_image::pack;
use std::alloc::Global;
use std::sync::Arc;

/// One image in place of several, of which there is one at least, and of this level, a day or a month: the packed file from the first
/// hour to the last with the rules of the images, all objects that any of them marks, and each of these objects' records as the
/// last image that marks it has them. `Not` exactly where an image is a base, has other rules than the first, has hours that are
/// not after those before it, or has an hour out of the day or the month of the first one, with the first such index and the
/// least kind. It takes n log n time, and for each record as many searches of marks as there are images after its own.
pub fn fold(alloc: Global, images: &[Arc<Image>], level: Level) -> Result<Image, FoldError>
    requires some { images.now ≢ [] }
    requires level { (level ≡ Day) ⊎ (level ≡ Month) }
    ensures image { IfOk result (IsFoldOf level (map arc_value images.now)) }
    ensures refused { IfErr result (λ error. IsRefused error level (map arc_value images.now)) }
{
    let images = borrowed(alloc, images)?;
    fold_borrowed(alloc, &images, level)
}

/// The images, borrowed.
fn borrowed<'a>(alloc: Global, images: &'a [Arc<Image>]) -> Mem<Vec<&'a Image>>
    ensures { IfOk result (λ borrowed. held borrowed.items ≡ map arc_value images.now) }
{
    let mut borrowed = Vec::new(alloc);
    for image in images {
        borrowed.push(&**image)?;
    }
    Ok(borrowed)
}

/// The same of images that are borrowed.
fn fold_borrowed(alloc: Global, images: &[&Image], level: Level) -> Result<Image, FoldError>
    requires some { images.now ≢ [] }
    requires level { (level ≡ Day) ⊎ (level ≡ Month) }
    ensures image { IfOk result (IsFoldOf level (held images.now)) }
    ensures refused { IfErr result (λ error. IsRefused error level (held images.now)) }
{
    if let Err(misfit) = can_fold(images, level) {
        return Err(FoldError::Not(misfit));
    }
    let image = packed_fold(alloc, images, level)?;
    Ok(image)
}

/// The same of images that can become one.
fn packed_fold(alloc: Global, images: &[&Image], level: Level) -> Mem<Image>
    requires level { (level ≡ Day) ⊎ (level ≡ Month) }
    requires some { images.now ≢ [] }
    requires follow { not_fold level (map placed_of (held images.now)) ≡ None }
    ensures { IfOk result (IsFoldOf level (held images.now)) }
{
    can_pack(images, level);
    let marks = all_marks(alloc, images)?;
    let records = later_records(alloc, images)?;
    let head = fold_head(level, images);
    pack(alloc, &head, common_rules(images), &marks, &records)
}

/// That their fold meets what is asked of parts. There is nothing to be done.
fn can_pack(images: &[&Image], level: Level)
    requires level { (level ≡ Day) ⊎ (level ≡ Month) }
    requires some { images.now ≢ [] }
    requires follow { not_fold level (map placed_of (held images.now)) ≡ None }
    ensures { CanBePacked level (held images.now) }
{
    hold_parts(images);
}
