//! The fold of a plan.

ghost use Rattle.std.specs.Prelude.{◌≡◌, IfOk, map};
ghost use Rattle.std.specs.Arc.{arc_value};
ghost use Rattle.overlay_set.specs.Sets.{images_of};
ghost use Rattle.overlay_set.specs.Swaps.{fold_image};
ghost use Rattle.published_set.specs.Images.{image_of};
ghost use Rattle.fold_merge.specs.Folds.{IsFoldOf};
ghost use Rattle.fold_sets.specs.Folding.{CanBecomeOne, FitsOne};

use fold_merge::{FoldError, fold};
use live_model::{Level, Mem, NoMemory};
use obf_reader::Image;
use published_set::FoldPlan;
use std::alloc::Global;
use std::sync::Arc;

/// The fold of the images of a plan, which finishes it. The plan has to fit a set whose hours rise, so that its images can become one.
/// `NoMemory` where memory was refused.
pub fn fold_plan(alloc: Global, plan: &FoldPlan) -> Mem<Arc<Image>>
    requires { FitsOne plan.now }
    ensures { IfOk result (λ image. image_of (arc_value image) ≡ fold_image plan.now.level (images_of plan.now.files)) }
{
    let image = fold_images(alloc, plan.images(), plan.level())?;
    let shared = Arc::new(alloc, image)?;
    Ok(shared)
}

/// The fold of images that can become one.
fn fold_images(alloc: Global, images: &[Arc<Image>], level: Level) -> Mem<Image>
    requires { CanBecomeOne level (map arc_value images.now) }
    ensures { IfOk result (IsFoldOf level (map arc_value images.now)) }
{
    match fold(alloc, images, level) {
        Ok(image) => Ok(image),
        Err(FoldError::NoMemory) => Err(NoMemory),
        Err(FoldError::Not(_)) => unreachable!(),
    }
}
