//! What a fold covers.

ghost use Rattle.std.specs.Prelude.{◌≡◌, ◌≢◌, [], IfSome, None};
ghost use Rattle.std.specs.List.{AllByRecursion};
ghost use Rattle.boxed_write.specs.Classes.{held};
ghost use Rattle.stamp_core.specs.Hours.{IsCivilHour};
ghost use Rattle.packed_image.specs.Overlays.{HoldsParts};
ghost use Rattle.fold_merge.specs.Folds.{common_rules, first_hour, fold_head, last_hour};

use live_model::Level;
use obf_reader::Image;
use packed_image::images_hold_parts;
use stamp_core::{Head, Stamp};
use tag_rules::Rules;

/// From the first hour of the first image to the last hour of the last.
pub(crate) fn fold_head(level: Level, images: &[&Image]) -> Head
    ensures { result ≡ fold_head level (held images.now) }
{
    Head {
        level,
        first: first_hour(images),
        last: last_hour(images),
    }
}

/// The first hour of the first image.
fn first_hour(images: &[&Image]) -> Option<Stamp>
    ensures { result ≡ first_hour (held images.now) }
{
    match images.split_first() {
        Some((image, _)) => image.head().first,
        None => None,
    }
}

/// The last hour of the last image.
fn last_hour(images: &[&Image]) -> Option<Stamp>
    ensures { result ≡ last_hour None (held images.now) }
{
    let mut last = None;
    let mut rest = images;
    while let [image, after @ ..] = rest {
        last = image.head().last;
        rest = after;
    }
    last
}

/// The rules of the first image, of which there is one at least.
pub(crate) fn common_rules<'a>(images: &[&'a Image]) -> &'a Rules
    requires { images.now ≢ [] }
    ensures { result.now ≡ common_rules (held images.now) }
{
    images[0].rules()
}

/// That what images hold can be packed, and that their hours are hours of the calendar. There is nothing to be done.
pub(crate) fn hold_parts(images: &[&Image])
    ensures parts { AllByRecursion HoldsParts (held images.now) }
    ensures hours { AllByRecursion (λ i. IfSome i.head.first IsCivilHour × IfSome i.head.last IsCivilHour) (held images.now) }
{
    let mut rest = images;
    while let [image, after @ ..] = rest {
        images_hold_parts(image);
        let head = image.head();
        is_hour(head.first);
        is_hour(head.last);
        rest = after;
    }
}

/// That an hour is one of the calendar.
fn is_hour(hour: Option<Stamp>)
    ensures { IfSome hour IsCivilHour }
{
    if let Some(stamp) = hour {
        let _ = stamp.number();
    }
}
