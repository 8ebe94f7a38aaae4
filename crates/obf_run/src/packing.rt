//! Map files that are to be written.

ghost use Rattle.std.specs.Prelude.{◌≡◌, ◌≢◌, [], IfOk, Contains, map};
ghost use Rattle.std.specs.List.{AllByRecursion};
ghost use Rattle.std.specs.List.Sorted.{IsSorted};
ghost use Rattle.std.specs.Ordering.{nat_cmp};
ghost use Rattle.live_model.specs.declared.levels.Level.TheVariants.{Base};
ghost use Rattle.live_model.specs.Fits.{FitsRules};
ghost use Rattle.live_model.specs.Ids.{ordinal};
ghost use Rattle.ordered_lists.specs.Ordered.{IsRisingBy};
ghost use Rattle.live_model.specs.Records.{record_cmp, record_id};
ghost use Rattle.outside.specs.Files.{FilesState};
ghost use Rattle.stamp_core.specs.Heads.{IsGoodHead};
ghost use Rattle.run_model.specs.Endings.{ending, name_bytes};
ghost use Rattle.run_model.specs.Jobs.{IsPacked};
ghost use Rattle.run_model.specs.Runs.{change};
ghost use Rattle.obf_run.specs.Finishing.{IsFinished, IsPut, file_and_line, outcome_of};

use crate::file_line::file_line;
use crate::inputs::LIMIT;
use live_model::{Mem, ObjId, Rec};
use obf_writer::write_file;
use outside::{Files, Sink, put_all};
use run_model::{Name, Status};
use stamp_core::Head;
use std::alloc::Global;
use tag_rules::Rules;

/// A map file that is to be written, and the line that tells it.
#[derive(Drop)]
pub struct Built {
    pub bytes: Vec<u8>,
    pub line: Vec<u8>,
}

/// The packed file of these parts, and its line. They meet what `write_file` asks of them. `NoMemory` is the only error.
pub fn packed(
    alloc: Global,
    head: &Head,
    rules: &Rules,
    marks: &[ObjId],
    records: &[Rec],
) -> Mem<Built>
    requires good { IsGoodHead head.now }
    requires rise { IsRisingBy nat_cmp ordinal marks.now }
    requires base { head.now.level ≡ Base → marks.now ≡ [] }
    requires sorted { IsSorted record_cmp records.now }
    requires fit { FitsRules rules.now records.now }
    requires marked { head.now.level ≢ Base → AllByRecursion (λ r. Contains marks.now (record_id r)) records.now }
    ensures { IfOk result (λ built. IsPacked (record { head = head.now; rules = rules.now; marks = map ordinal marks.now; records = records.now }) (outcome_of built)) }
{
    let line = file_line(alloc, head, marks.len(), records.len())?;
    let bytes = write_file(alloc, head, rules, marks, records)?;
    Ok(Built { bytes, line })
}

/// Writes a file that was built, unless it is too long, and then puts its line.
pub fn finish<'a, F: Files, K: Sink>(
    files: &mut F,
    output: Name<'a>,
    built: &Built,
    out: &mut K,
) -> Status<'a>
    ensures { IsFinished (ending result) (name_bytes output.entry) (outcome_of built.now) (change (F.state files.old) (F.state files.new)) (change (K.state out.old) (K.state out.new)) }
{
    finish_file(files, output, &built.bytes, &built.line, out)
}

/// Writes a file of these bytes, unless they are too many, and then puts its line.
pub fn finish_file<'a, F: Files, K: Sink>(
    files: &mut F,
    output: Name<'a>,
    bytes: &[u8],
    line: &[u8],
    out: &mut K,
) -> Status<'a>
    ensures { IsFinished (ending result) (name_bytes output.entry) (file_and_line bytes.now line.now) (change (F.state files.old) (F.state files.new)) (change (K.state out.old) (K.state out.new)) }
{
    if bytes.len() > LIMIT {
        return Status::Limit { file: output };
    }
    match files.write(output.as_str(), bytes) {
        Ok(()) => put_answer(line, out),
        Err(_) => Status::WriteFault { file: output },
    }
}

/// Puts an answer.
pub fn put_answer<'a, K: Sink>(answer: &[u8], out: &mut K) -> Status<'a>
    ensures { IsPut (ending result) (change (K.state out.old) (K.state out.new)) answer.now }
{
    match put_all(out, answer) {
        Ok(()) => Status::Ok,
        Err(_) => Status::AnswerFault,
    }
}
