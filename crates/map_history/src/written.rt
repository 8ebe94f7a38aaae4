//! The files of a history answer as the map made anew.

ghost use Rattle.std.specs.Prelude.{◌≡◌, List, map, None};
ghost use Rattle.std.specs.Arc.{arc_value};
ghost use Rattle.std.specs.List.{AllByRecursion};
ghost use Rattle.live_model.specs.declared.objects.Line.{Line};
ghost use Rattle.live_model.specs.declared.rules.Rule.{Rule};
ghost use Rattle.file_grammar.specs.Files.{whole};
ghost use Rattle.file_grammar.specs.Readings.{IsInMemory};
ghost use Rattle.file_order.specs.Runs.{not_run};
ghost use Rattle.obf_reader.specs.Images.{Seen};
ghost use Rattle.map_history.specs.Written.{AnswersAsRebuilt, AreOfHistory, Change, HoldHistory, IsRead};

use obf_reader::Image;
use std::sync::Arc;

/// That images whose bytes were written of a base and of changes, all of good lines and for rising hours, hold the map of the base and the
/// overlays of the changes; that they follow one another, as `ask` asks of images; and that a question over them has the rows of the map made
/// anew from these lines. There is nothing to run.
pub fn written_files_answer_as_the_map_made_anew(images: &[Arc<Image>])
    ensures held { (rules : List Rule) (base : List Line) (changes : List Change) → AreOfHistory rules base changes (map arc_value images.now) → HoldHistory rules base changes (map arc_value images.now) }
    ensures follow { (rules : List Rule) (base : List Line) (changes : List Change) → AreOfHistory rules base changes (map arc_value images.now) → not_run (map (λ f. record { head = (arc_value {X = Seen} f).head; rules = (arc_value {X = Seen} f).rules }) images.now) ≡ None }
    ensures answer { AnswersAsRebuilt (map arc_value images.now) }
{
    are_read(images);
}

/// That images were read.
fn are_read(images: &[Arc<Image>])
    ensures { AllByRecursion IsRead (map arc_value images.now) }
{
    for image in images {
        is_read(image);
    }
}

/// That an image was read.
fn is_read(image: &Image)
    ensures { IsRead image.now }
{
    in_memory(image.bytes());
}

/// That bytes are fewer than 2^64, and each is one.
fn in_memory(bytes: &[u8])
    ensures { IsInMemory (whole bytes.now) }
{
    let _ = bytes.len();
}
