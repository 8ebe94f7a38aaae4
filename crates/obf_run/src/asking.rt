//! Questions over map files.

ghost use Rattle.std.specs.Prelude.{◌≡◌, ◌≤◌, ◌+◌, map, None, Some, IfErr, IfOk};
ghost use Rattle.std.specs.Arc.{arc_value};
ghost use Rattle.file_order.specs.Runs.{not_run};
ghost use Rattle.obf_reader.specs.Images.{Seen};
ghost use Rattle.query_merge.specs.Questions.{answer_over, due_over};
ghost use Rattle.query_text.specs.Lines.{answer_text};
ghost use Rattle.run_model.specs.Endings.{ending};
ghost use Rattle.run_model.specs.Jobs.{prints, task_of};
ghost use Rattle.run_model.specs.Requests.{ask_files};
ghost use Rattle.run_model.specs.Runs.{StepsFor, WorksTo, change};
ghost use Rattle.obf_run.specs.Finishing.{EndsEarly};

use crate::images::{not_following, read_images};
use live_model::{Mem, Query, Steps, Text};
use obf_reader::{Image, follows};
use outside::Files;
use query_merge::ask;
use query_text::put_answer;
use run_model::Status;
use std::alloc::Global;
use std::sync::Arc;
use std::sync::ledger::Ledger;

/// The rows of a question over map files, each of which lies over those before it: how many there are, and their lines. All files
/// are read, and each follows those before it, before the first step.
pub fn question_answer<'a, F: Files, L: Ledger>(
    alloc: Global,
    files: &mut F,
    query: &Query,
    names: &'a [Text],
    steps: &mut Steps<L>,
) -> Result<Vec<u8>, Status<'a>>
    ensures works { IfOk result (λ answer. WorksTo (F.state files.old) (F.state files.new) (task_of (ask_files query.now names.now)) (prints answer.items)) }
    ensures ends { IfErr result (λ status. EndsEarly (ending status) (change (F.state files.old) (F.state files.new)) (task_of (ask_files query.now names.now))) }
    ensures steps { StepsFor (Some (ask_files query.now names.now)) (change (F.state files.old) (F.state files.new)) (change steps.old steps.new) }
{
    let images = read_images(alloc, files, names)?;
    match follows(&images) {
        Ok(()) => {
            let answer = rows_answer(alloc, &images, query, steps)?;
            Ok(answer)
        }
        Err(told) => Err(not_following(names, told)),
    }
}

/// The rows of a question over images that follow one another: how many there are, and their lines.
fn rows_answer<L: Ledger>(
    alloc: Global,
    images: &[Arc<Image>],
    query: &Query,
    steps: &mut Steps<L>,
) -> Mem<Vec<u8>>
    requires { not_run (map (λ f. record { head = (arc_value {X = Seen} f).head; rules = (arc_value {X = Seen} f).rules }) images.now) ≡ None }
    ensures answer { IfOk result (λ answer. answer.items ≡ answer_text (answer_over query.now (map arc_value images.now))) }
    ensures steps { steps.new ≤ steps.old + due_over query.now (map arc_value images.now) }
{
    let rows = ask(alloc, images, query, steps)?;
    let mut answer = Vec::new(alloc);
    put_answer(&mut answer, &rows)?;
    Ok(answer)
}
