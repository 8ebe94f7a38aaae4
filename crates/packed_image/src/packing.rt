//! Images of parts.

ghost use Rattle.std.specs.Prelude.{◌≡◌, ◌≢◌, [], Contains, IfOk, IfSome, OnOk, map};
ghost use Rattle.std.specs.List.{AllByRecursion};
ghost use Rattle.std.specs.List.Sorted.{IsSorted};
ghost use Rattle.std.specs.Ordering.{nat_cmp};
ghost use Rattle.live_model.specs.declared.levels.Level.TheVariants.{Base};
ghost use Rattle.live_model.specs.Fits.{FitsRules};
ghost use Rattle.live_model.specs.Ids.{IsId, ordinal};
ghost use Rattle.ordered_lists.specs.Ordered.{IsRisingBy};
ghost use Rattle.live_model.specs.Records.{record_cmp, record_id};
ghost use Rattle.stamp_core.specs.Heads.{IsGoodHead};
ghost use Rattle.stamp_core.specs.Hours.{IsCivilHour};
ghost use Rattle.file_grammar.specs.Files.{IsSomeFile, whole};
ghost use Rattle.file_grammar.specs.Readings.{IsInMemory};
ghost use Rattle.obf_reader.specs.Images.{IsImage, IsImageFile};
ghost use Rattle.packed_image.specs.Packed.{IsImageOfParts};

use live_model::{ObjId, Rec};
use obf_reader::Image;
use obf_wire::FileError;
use obf_writer::write_file;
use owned_data::{Mem, NoMemory};
use stamp_core::{Head, Stamp};
use std::alloc::Global;
use tag_rules::Rules;

/// The image of these parts, whose bytes are their packed file. They meet what `write_file` asks of them: the head is good; the
/// marks rise strictly in the order of ids, and a base has none; the records stand in order and fit the rules, and above a base
/// each is of an object with a mark. `NoMemory` is the only error.
#[tactic(auto, using(crate::proofs::PackedImages::some_file, crate::proofs::PackedImages::image_of_parts))]
pub fn pack(
    alloc: Global,
    head: &Head,
    rules: &Rules,
    marks: &[ObjId],
    records: &[Rec],
) -> Mem<Image>
    requires good { IsGoodHead head.now }
    requires rise { IsRisingBy nat_cmp ordinal marks.now }
    requires base { head.now.level ≡ Base → marks.now ≡ [] }
    requires sorted { IsSorted record_cmp records.now }
    requires fit { FitsRules rules.now records.now }
    requires marked { head.now.level ≢ Base → AllByRecursion (λ r. Contains marks.now (record_id r)) records.now }
    ensures { IfOk result (λ image. IsImageOfParts image head.now rules.now marks.now records.now) }
{
    are_hours(head);
    are_ids(marks);
    let bytes = write_file(alloc, head, rules, marks, records)?;
    let image = read_packed(alloc, bytes)?;
    are_hours(image.head());
    Ok(image)
}

/// The image of bytes that are a file.
fn read_packed(alloc: Global, bytes: Vec<u8>) -> Mem<Image>
    requires { IsSomeFile bytes.items }
    ensures { IfOk result (λ image. (image.bytes ≡ bytes.items) × (IsImageFile image × (IsImage image × IsInMemory (whole image.bytes)))) }
{
    in_memory(&bytes);
    match Image::read(alloc, bytes) {
        Ok(image) => {
            obf_reader::images_are_files(&image);
            in_memory(image.bytes());
            Ok(image)
        }
        Err(FileError::NoMemory) => Err(NoMemory),
        Err(FileError::Broken(_)) => unreachable!(),
    }
}

/// That bytes are fewer than 2^64, and each is one.
pub(crate) fn in_memory(bytes: &[u8])
    ensures { IsInMemory (whole bytes.now) }
{
    let _ = bytes.len();
}

/// That the hours of a head are hours of the calendar.
fn are_hours(head: &Head)
    ensures { IfSome head.now.first IsCivilHour × IfSome head.now.last IsCivilHour }
{
    is_hour(head.first);
    is_hour(head.last);
}

/// That an hour is one of the calendar.
fn is_hour(hour: Option<Stamp>)
    ensures { IfSome hour IsCivilHour }
{
    if let Some(stamp) = hour {
        let _ = stamp.number();
    }
}

/// That ids are those of objects.
fn are_ids(ids: &[ObjId])
    ensures { AllByRecursion IsId ids.now }
{
    let mut rest = ids;
    while let [id, after @ ..] = rest {
        let _ = id.ordinal();
        rest = after;
    }
}
