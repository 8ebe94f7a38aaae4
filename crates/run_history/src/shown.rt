//! What runs print of map files that runs wrote.

ghost use Rattle.std.specs.Prelude.{◌≡◌, map, IfSome};
ghost use Rattle.std.specs.Arc.{arc_value};
ghost use Rattle.std.specs.List.{AllByRecursion};
ghost use Rattle.stamp_core.specs.Hours.{IsCivilHour};
ghost use Rattle.obf_run.specs.Images.{IsHeld};
ghost use Rattle.run_history.specs.Shown.{ShowsRebuilt, TellTheirTexts};

use fold_history::cuts_of_a_history_answer_as_the_map_made_anew;
use obf_reader::Image;
use stamp_core::Stamp;
use std::sync::Arc;

/// That a run which reads the bytes of images owes the rows that a question finds in these images, and that it ends at the file whose image does
/// not follow. There is nothing to run.
pub fn texts_are_told_by_their_images(images: &[Arc<Image>])
    ensures { TellTheirTexts (map arc_value images.now) }
{
    are_told(images);
}

/// That a run of `ask` over the files that runs of `build` and `change` wrote of a base and of its changes, or over any cut of these into folds,
/// prints the rows of the map made anew from what their texts spell; and that it does not end at a file that does not follow. There is nothing
/// to run.
pub fn runs_show_the_map_made_anew(written: &[Arc<Image>], images: &[Arc<Image>])
    ensures { ShowsRebuilt (map arc_value written.now) (map arc_value images.now) }
{
    texts_are_told_by_their_images(images);
    cuts_of_a_history_answer_as_the_map_made_anew(written, images);
}

/// That what is held by the bytes of images are the images.
fn are_told(images: &[Arc<Image>])
    ensures { AllByRecursion (λ i. IsHeld i.bytes i) (map arc_value images.now) }
{
    for image in images {
        is_told(image);
    }
}

/// That what is held by the bytes of an image is the image.
fn is_told(image: &Image)
    ensures { IsHeld image.now.bytes image.now }
{
    let _ = image.bytes();
    let head = image.head();
    is_hour(head.first);
    is_hour(head.last);
}

/// That an hour is one of the calendar.
fn is_hour(hour: Option<Stamp>)
    ensures { IfSome hour IsCivilHour }
{
    if let Some(stamp) = hour {
        let _ = stamp.number();
    }
}
