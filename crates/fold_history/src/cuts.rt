//! However the files of a history are folded, they answer as the map made anew.

ghost use Rattle.std.specs.Prelude.{◌≡◌, List, map, None};
ghost use Rattle.std.specs.Arc.{arc_value};
ghost use Rattle.live_model.specs.declared.objects.Line.{Line};
ghost use Rattle.live_model.specs.declared.rules.Rule.{Rule};
ghost use Rattle.file_order.specs.Runs.{not_run};
ghost use Rattle.obf_reader.specs.Images.{Seen};
ghost use Rattle.map_history.specs.Written.{AreOfHistory, Change};
ghost use Rattle.fold_history.specs.Cuts.{CutAnswers, IsCut};

use fold_merge::cuts_answer_alike;
use map_history::written_files_answer_as_the_map_made_anew;
use obf_reader::Image;
use std::sync::Arc;

/// Of images that were written of a base and of changes, as `map_history` says it, and of any cut of them: the base, and the roots of trees of
/// folds whose leaves are the hours, in order. That the images of the cut follow one another, as `ask` asks of images; and that a question over
/// them has the rows of the map made anew from the lines of the base and of all changes. There is nothing to run.
pub fn cuts_of_a_history_answer_as_the_map_made_anew(written: &[Arc<Image>], images: &[Arc<Image>])
    ensures follow { (rules : List Rule) (base : List Line) (changes : List Change) → AreOfHistory rules base changes (map arc_value written.now) → IsCut (map arc_value written.now) (map arc_value images.now) → not_run (map (λ f. record { head = (arc_value {X = Seen} f).head; rules = (arc_value {X = Seen} f).rules }) images.now) ≡ None }
    ensures answer { CutAnswers (map arc_value written.now) (map arc_value images.now) }
{
    written_files_answer_as_the_map_made_anew(written);
    cuts_answer_alike();
}
