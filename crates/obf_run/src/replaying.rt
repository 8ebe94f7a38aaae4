//! A script that one thread plays over a base, with the changes that its publications name.

ghost use Rattle.std.specs.Prelude.{◌≡◌, ◌++◌, ◌∷◌, [], IfErr, IfOk, OnOk, map};
ghost use Rattle.std.specs.Arc.{arc_value};
ghost use Rattle.outside.specs.Files.{OnlyReads};
ghost use Rattle.run_model.specs.Endings.{ending, name_bytes};
ghost use Rattle.run_model.specs.Inputs.{in_turn, input, object_text, object_texts, plan_of};
ghost use Rattle.run_model.specs.Jobs.{prints, task_of};
ghost use Rattle.run_model.specs.PlayedScripts.{changes_named, file_of};
ghost use Rattle.run_model.specs.Reads.{EndsAmong, EndsAt};
ghost use Rattle.run_model.specs.Requests.{replay_script};
ghost use Rattle.run_model.specs.Runs.{WorksTo};
ghost use Rattle.obf_run.specs.Replaying.{AreChanges, EndsAtStep, ReadsLines, ReadsStep};

use crate::inputs::{read_rules, read_shared, read_steps};
use live_model::{Lines, Mem, NoMemory, Text};
use live_session::play_plain;
use outside::Files;
use run_model::{Name, Status};
use script_text::{Step, What};
use std::alloc::Global;
use std::sync::Arc;

/// What is printed of a script that one thread plays over a base under rules: the replies to its lines, the publications that came in, and the
/// files in the end. Every file is read before the first step: rules, base, script, and the change of each publication in order.
pub fn played_answer<'a, F: Files>(
    alloc: Global,
    files: &mut F,
    rules: Name<'a>,
    base: Name<'a>,
    script: Name<'a>,
) -> Result<Vec<u8>, Status<'a>>
    ensures works { IfOk result (λ answer. WorksTo (F.state files.old) (F.state files.new) (task_of (replay_script (name_bytes rules.entry) (name_bytes base.entry) (name_bytes script.entry))) (prints answer.items)) }
    ensures ends { IfErr result (λ status. EndsAmong (plan_of (replay_script (name_bytes rules.entry) (name_bytes base.entry) (name_bytes script.entry))) (F.state files.old) (F.state files.new) (ending status)) }
{
    let rules = read_rules(alloc, files, rules)?;
    let base = read_shared(alloc, files, base)?;
    let steps = read_steps(alloc, files, script)?;
    let changes = read_changes(alloc, files, &steps)?;
    let answer = play_plain(alloc, &rules, base, &steps, &changes)?;
    Ok(answer)
}

/// Reads the changes that the publications of steps name, each whole before the next.
fn read_changes<'a, F: Files>(
    alloc: Global,
    files: &mut F,
    steps: &[Step],
) -> Result<Vec<Arc<Lines>>, Status<'a>>
    ensures changes { IfOk result (λ changes. AreChanges (F.state files.old) (F.state files.new) (changes_named steps.now) (map arc_value changes.items)) }
    ensures ends { IfErr result (λ status. EndsAmong (in_turn (object_texts (changes_named steps.now))) (F.state files.old) (F.state files.new) (ending status)) }
{
    let mut changes = Vec::new(alloc);
    let mut rest = steps;
    while let Some((step, others)) = rest.split_first() {
        read_next(alloc, files, &step.what, &mut changes)?;
        rest = others;
    }
    Ok(changes)
}

/// Reads the change that a step publishes, and puts its lines at the end. A question has none.
fn read_next<'a, F: Files>(
    alloc: Global,
    files: &mut F,
    what: &What,
    changes: &mut Vec<Arc<Lines>>,
) -> Result<(), Status<'a>>
    ensures read { OnOk result (ReadsStep (F.state files.old) (F.state files.new) (file_of what.now) (map arc_value changes.old.items) (map arc_value changes.new.items)) }
    ensures ends { IfErr result (λ status. EndsAtStep (file_of what.now) (F.state files.old) (F.state files.new) (ending status)) }
{
    match what {
        What::Publish { file, .. } => read_published(alloc, files, file.as_str(), changes),
        What::Ask(_) => Ok(()),
    }
}

/// Reads a change, and puts its lines at the end.
fn read_published<'a, F: Files>(
    alloc: Global,
    files: &mut F,
    file: &str,
    changes: &mut Vec<Arc<Lines>>,
) -> Result<(), Status<'a>>
    ensures read { OnOk result (ReadsLines (F.state files.old) (F.state files.new) file.now (map arc_value changes.old.items) (map arc_value changes.new.items)) }
    ensures ends { IfErr result (λ status. EndsAt (input file.now object_text) (F.state files.old) (F.state files.new) (ending status)) }
    ensures only_reads { OnlyReads (F.state files.old) (F.state files.new) }
{
    let name = Text::copied(alloc, file)?;
    let lines = read_shared(alloc, files, Name::Made(name))?;
    match put_lines(changes, lines) {
        Ok(()) => Ok(()),
        Err(NoMemory) => Err(Status::NoMemory),
    }
}

/// Puts lines at the end.
fn put_lines(changes: &mut Vec<Arc<Lines>>, lines: Arc<Lines>) -> Mem<()>
    ensures { OnOk result (map arc_value changes.new.items ≡ map arc_value changes.old.items ++ arc_value lines ∷ []) }
{
    changes.push(lines)?;
    Ok(())
}
