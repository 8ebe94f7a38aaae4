//! Plans to fold files into one, and folds that were made.

ghost use Rattle.std.specs.Prelude.{◌≡◌, IfOk, length, map};
ghost use Rattle.std.specs.Arc.{arc_value};
ghost use Rattle.overlay_set.specs.Sets.{images_of, numbers_of};
ghost use Rattle.overlay_set.specs.Swaps.{fold_image};
ghost use Rattle.published_set.specs.Images.{image_of};
ghost use Rattle.published_set.specs.Sets.{files_of, images_in};

use live_model::{Level, Mem, NoMemory};
use obf_reader::Image;
use std::marker::Model;
use std::sync::Arc;

/// Files that are to become one of this level. It is seen as the files, each under its number, and the level.
#[derive(Drop)]
pub struct FoldPlan {
    numbers: Vec<u64>,
    images: Vec<Arc<Image>>,
    level: Level,
}

impl Model for FoldPlan {
    ghost use Rattle.std.specs.Prelude.{◌≡◌, IfOk, length, map};
    ghost use Rattle.std.specs.Arc.{arc_value};
    ghost use Rattle.overlay_set.specs.Swaps.{FoldPlan as Plan};
    ghost use Rattle.published_set.specs.Sets.{files_of, images_in};

    ghost Value = { Plan };

    ghost view = { λ plan. record { files = files_of plan.numbers.items (images_in (map arc_value plan.images.items)); level = plan.level } };

    ghost invariant = { λ plan. length plan.numbers.items ≡ length plan.images.items };
}

impl FoldPlan {
    /// The plan of these numbers, each with its image.
    pub(crate) fn of(numbers: Vec<u64>, images: Vec<Arc<Image>>, level: Level) -> FoldPlan
        requires { length numbers.items ≡ length images.items }
        ensures { result ≡ record { files = files_of numbers.items (images_in (map arc_value images.items)); level = level } }
    {
        FoldPlan {
            numbers,
            images,
            level,
        }
    }

    /// The images that are to be folded, in their order.
    pub fn images(&self) -> &[Arc<Image>]
        ensures { images_in (map arc_value result.now) ≡ images_of self.now.files }
    {
        self.images.as_slice()
    }

    /// The level of the fold.
    pub fn level(&self) -> Level
        ensures { result ≡ self.now.level }
    {
        self.level
    }

    /// The plan with the fold of its images at its level. It takes no memory.
    pub fn finish(self, image: Arc<Image>) -> FoldWork
        requires { image_of (arc_value image) ≡ fold_image self.level (images_of self.files) }
        ensures { result ≡ self }
    {
        FoldWork { plan: self, image }
    }

    /// The numbers of the files, in their order.
    pub(crate) fn numbers(&self) -> &[u64]
        ensures { result.now ≡ numbers_of self.now.files }
    {
        self.numbers.as_slice()
    }
}

/// A plan with the fold of its images, ready to be put in the place of its files. It is seen as the plan, which says what
/// the fold is.
#[derive(Drop)]
pub struct FoldWork {
    plan: FoldPlan,
    image: Arc<Image>,
}

impl Model for FoldWork {
    ghost use Rattle.std.specs.Prelude.{◌≡◌};
    ghost use Rattle.std.specs.Arc.{arc_value};
    ghost use Rattle.overlay_set.specs.Sets.{images_of};
    ghost use Rattle.overlay_set.specs.Swaps.{FoldPlan as Plan, fold_image};
    ghost use Rattle.published_set.specs.Images.{image_of};

    ghost Value = { Plan };

    ghost view = { λ work. work.plan };

    ghost invariant = { λ work. image_of (arc_value work.image) ≡ fold_image work.plan.level (images_of work.plan.files) };
}

impl FoldWork {
    /// The numbers of the files of the plan, in their order.
    pub(crate) fn numbers(&self) -> &[u64]
        ensures { result.now ≡ numbers_of self.now.files }
    {
        self.plan.numbers()
    }

    /// The plan, and the fold.
    pub(crate) fn into_parts(self) -> (FoldPlan, Arc<Image>)
        ensures plan { result.0 ≡ self }
        ensures image { image_of (arc_value result.1) ≡ fold_image self.level (images_of self.files) }
    {
        let FoldWork { plan, image } = self;
        (plan, image)
    }

    /// The fold, with a further owner.
    pub(crate) fn shared_image(&self) -> Mem<Arc<Image>>
        ensures { IfOk result (λ image. image_of (arc_value image) ≡ fold_image self.now.level (images_of self.now.files)) }
    {
        match Arc::try_clone(&self.image) {
            Ok(image) => Ok(image),
            Err(_) => Err(NoMemory),
        }
    }
}
