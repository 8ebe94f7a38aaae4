//! Map files that are read one after another.

ghost use Rattle.std.specs.Prelude.{◌≡◌, ◌++◌, ◌∷◌, [], map, IfErr, IfOk, IfSome, OnOk};
ghost use Rattle.std.specs.Arc.{arc_value};
ghost use Rattle.stamp_core.specs.Hours.{IsCivilHour};
ghost use Rattle.outside.specs.Files.{OnlyReads};
ghost use Rattle.run_model.specs.Endings.{ending, misfit, name_bytes};
ghost use Rattle.run_model.specs.Inputs.{in_turn, input, map_file, map_files, misfit_of, name_at};
ghost use Rattle.run_model.specs.Reads.{EndsAmong, EndsAt};
ghost use Rattle.obf_run.specs.Images.{AreRead, IsHeld, ReadsImage};

use crate::inputs::read_image;
use live_model::{Mem, NoMemory, Text};
use obf_reader::{Image, NotRun};
use outside::Files;
use run_model::{Name, Status};
use stamp_core::Stamp;
use std::alloc::Global;
use std::sync::Arc;

/// The most files that words may name.
pub const MOST_FILES: usize = 1024;

/// Reads map files, each whole before the next.
pub fn read_images<'a, F: Files>(
    alloc: Global,
    files: &mut F,
    names: &'a [Text],
) -> Result<Vec<Arc<Image>>, Status<'a>>
    ensures images { IfOk result (λ images. AreRead (F.state files.old) (F.state files.new) names.now (map arc_value images.items)) }
    ensures ends { IfErr result (λ status. EndsAmong (in_turn (map_files names.now)) (F.state files.old) (F.state files.new) (ending status)) }
{
    let mut images = Vec::new(alloc);
    let mut rest = names;
    while let Some((name, others)) = rest.split_first() {
        read_next(alloc, files, Name::Given(name.as_str()), &mut images)?;
        rest = others;
    }
    Ok(images)
}

/// Reads a map file, and puts its image at the end.
fn read_next<'a, F: Files>(
    alloc: Global,
    files: &mut F,
    file: Name<'a>,
    images: &mut Vec<Arc<Image>>,
) -> Result<(), Status<'a>>
    ensures read { OnOk result (ReadsImage (F.state files.old) (F.state files.new) (name_bytes file.entry) (map arc_value images.old.items) (map arc_value images.new.items)) }
    ensures ends { IfErr result (λ status. EndsAt (input (name_bytes file.entry) map_file) (F.state files.old) (F.state files.new) (ending status)) }
    ensures only_reads { OnlyReads (F.state files.old) (F.state files.new) }
{
    let image = read_image(alloc, files, file)?;
    is_held(&image);
    match put_image(alloc, images, image) {
        Ok(()) => Ok(()),
        Err(NoMemory) => Err(Status::NoMemory),
    }
}

/// Puts an image at the end.
fn put_image(alloc: Global, images: &mut Vec<Arc<Image>>, image: Image) -> Mem<()>
    ensures { OnOk result (map arc_value images.new.items ≡ map arc_value images.old.items ++ image ∷ []) }
{
    let image = Arc::new(alloc, image)?;
    images.push(image)?;
    Ok(())
}

/// That an image holds what the map file that its bytes are holds. There is nothing to run.
fn is_held(image: &Image)
    ensures { IsHeld image.now.bytes image.now }
{
    let head = image.head();
    is_hour(head.first);
    is_hour(head.last);
    let _ = image.bytes();
}

/// That an hour is one of the calendar.
fn is_hour(hour: Option<Stamp>)
    ensures { IfSome hour IsCivilHour }
{
    if let Some(stamp) = hour {
        let _ = stamp.number();
    }
}

/// The status where one of good files does not follow.
pub fn not_following<'a>(names: &'a [Text], told: NotRun) -> Status<'a>
    ensures { ending result ≡ misfit (misfit_of names.now told) }
{
    Status::Misfit {
        file: Name::Given(name_at(names, told.index)),
        kind: told.kind,
        index: told.index,
    }
}

/// The name at an index.
fn name_at(names: &[Text], index: usize) -> &str
    ensures { result.now ≡ name_at names.now index }
{
    match names.get(index) {
        Some(name) => name.as_str(),
        None => "",
    }
}
