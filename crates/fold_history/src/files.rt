//! Folds that were written are read as they are.

ghost use Rattle.std.specs.Prelude.{IfSome, map};
ghost use Rattle.std.specs.Arc.{arc_value};
ghost use Rattle.std.specs.List.{AllByRecursion};
ghost use Rattle.stamp_core.specs.Hours.{IsCivilHour};
ghost use Rattle.file_grammar.specs.Files.{whole};
ghost use Rattle.file_grammar.specs.Readings.{IsInMemory};
ghost use Rattle.obf_reader.specs.Images.{IsImage};
ghost use Rattle.packed_image.specs.Overlays.{HoldsParts};
ghost use Rattle.fold_history.specs.Files.{IsReadAsFold};

use obf_reader::{Image, images_are_files};
use packed_image::images_hold_parts;
use stamp_core::Stamp;
use std::sync::Arc;

/// That an image whose bytes are the packed file of the fold of images, which can become one, is their fold: so folds of hours that were
/// written as files and read again may be folded again. There is nothing to run.
pub fn written_folds_are_read_as_folds(images: &[Arc<Image>], image: &Image)
    ensures { IsReadAsFold (map arc_value images.now) image.now }
{
    all_hold(images);
    images_are_files(image);
    is_read(image);
    are_civil(image);
}

/// That what images hold can be packed.
fn all_hold(images: &[Arc<Image>])
    ensures { AllByRecursion (λ i. HoldsParts i × (IfSome i.head.first IsCivilHour × IfSome i.head.last IsCivilHour)) (map arc_value images.now) }
{
    for image in images {
        images_hold_parts(image);
        are_civil(image);
    }
}

/// That the hours of an image are hours of the calendar.
fn are_civil(image: &Image)
    ensures { IfSome image.now.head.first IsCivilHour × IfSome image.now.head.last IsCivilHour }
{
    let head = image.head();
    is_hour(head.first);
    is_hour(head.last);
}

/// That an hour is one of the calendar.
fn is_hour(hour: Option<Stamp>)
    ensures { IfSome hour IsCivilHour }
{
    if let Some(stamp) = hour {
        let _ = stamp.number();
    }
}

/// That an image was read.
fn is_read(image: &Image)
    ensures { IsImage image.now × IsInMemory (whole image.now.bytes) }
{
    in_memory(image.bytes());
}

/// That bytes are fewer than 2^64, and each is one.
fn in_memory(bytes: &[u8])
    ensures { IsInMemory (whole bytes.now) }
{
    let _ = bytes.len();
}
