//! One map file in place of several.

ghost use Rattle.std.specs.Prelude.{◌≡◌, ◌≢◌, ℕ, List, [], length, IfErr, IfOk};
ghost use Rattle.file_lines.specs.FileLines.{file_line};
ghost use Rattle.run_model.specs.Endings.{ending};
ghost use Rattle.run_model.specs.Jobs.{task_of};
ghost use Rattle.run_model.specs.Requests.{fold_files};
ghost use Rattle.run_model.specs.Runs.{WorksTo, change};
ghost use Rattle.obf_run.specs.Finishing.{EndsEarly, outcome_of_fold};

use crate::file_line::file_line;
use crate::images::{not_following, read_images};
use fold_merge::{FoldError, fold};
use live_model::{Mem, Text};
use obf_reader::Image;
use outside::Files;
use run_model::{Period, Status};
use std::alloc::Global;

/// A map file in place of several, and the line that tells it.
#[derive(Drop)]
pub struct Folded {
    pub image: Image,
    pub line: Vec<u8>,
}

/// The fold of map files, of which there is one at least, as a file of a day or a month, and its line. All files are read before it is
/// asked whether they can become one.
pub fn folded_file<'a, F: Files>(
    alloc: Global,
    files: &mut F,
    period: Period,
    names: &'a [Text],
) -> Result<Folded, Status<'a>>
    requires some { names.now ≢ [] }
    ensures works { (output : List ℕ) → IfOk result (λ folded. WorksTo (F.state files.old) (F.state files.new) (task_of (fold_files period output names.now)) (outcome_of_fold folded)) }
    ensures ends { (output : List ℕ) → IfErr result (λ status. EndsEarly (ending status) (change (F.state files.old) (F.state files.new)) (task_of (fold_files period output names.now))) }
{
    let images = read_images(alloc, files, names)?;
    match fold(alloc, &images, period.level()) {
        Ok(image) => {
            let folded = with_line(alloc, image)?;
            Ok(folded)
        }
        Err(FoldError::Not(told)) => Err(not_following(names, told)),
        Err(FoldError::NoMemory) => Err(Status::NoMemory),
    }
}

/// An image with its line.
fn with_line(alloc: Global, image: Image) -> Mem<Folded>
    ensures { IfOk result (λ folded. (folded.image ≡ image) × (folded.line.items ≡ file_line image.head (length image.marks) image.records)) }
{
    let line = file_line(
        alloc,
        image.head(),
        image.mark_count(),
        image.record_count(),
    )?;
    Ok(Folded { image, line })
}
