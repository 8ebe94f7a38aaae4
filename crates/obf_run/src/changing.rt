//! The file of one hour: what the last of some changes does to the map of a base that the others changed.

ghost use Rattle.std.specs.Prelude.{◌≡◌, ◌∷◌, ◌++◌, List, [], ℕ, IfErr, IfOk, OnOk};
ghost use Rattle.std.specs.List.{AllByRecursion};
ghost use Rattle.live_model.specs.Objects.{IsGoodLine};
ghost use Rattle.live_model.specs.Stores.{IsStore};
ghost use Rattle.outside.specs.Files.{OnlyReads};
ghost use Rattle.run_model.specs.Endings.{ending, name_bytes};
ghost use Rattle.run_model.specs.Inputs.{in_turn, input, object_text, object_texts, plan_of};
ghost use Rattle.run_model.specs.Jobs.{IsPacked, hour_parts, task_of};
ghost use Rattle.run_model.specs.Reads.{EndsAmong, EndsAt};
ghost use Rattle.run_model.specs.Requests.{change_map};
ghost use Rattle.run_model.specs.Runs.{WorksTo};
ghost use Rattle.obf_run.specs.Changing.{AreMade, ReadsChange};
ghost use Rattle.obf_run.specs.Finishing.{outcome_of};

use crate::inputs::{read_lines, read_rules, read_store};
use crate::packing::{Built, packed};
use change_diff::overlay;
use entity_store::Store;
use live_model::{Level, Line, Mem, NoMemory, Steps, Text};
use outside::Files;
use ref_index::RefIndex;
use run_model::{Name, Status};
use stamp_core::{Head, Stamp};
use std::alloc::Global;
use std::sync::ledger::Ledger;
use tag_rules::Rules;

/// The packed file of an hour with the overlay of the last change, over the base that the earlier ones changed, and its line.
pub fn changed_file<'a, F: Files, L: Ledger>(
    alloc: Global,
    files: &mut F,
    rules: Name<'a>,
    base: Name<'a>,
    hour: Stamp,
    earlier: &'a [Text],
    last: Name<'a>,
    steps: &mut Steps<L>,
) -> Result<Built, Status<'a>>
    ensures works { (output : List ℕ) → IfOk result (λ built. WorksTo (F.state files.old) (F.state files.new) (task_of (change_map (name_bytes rules.entry) (name_bytes base.entry) hour output (earlier.now ++ name_bytes last.entry ∷ []))) (outcome_of built)) }
    ensures ends { (output : List ℕ) → IfErr result (λ status. EndsAmong (plan_of (change_map (name_bytes rules.entry) (name_bytes base.entry) hour output (earlier.now ++ name_bytes last.entry ∷ []))) (F.state files.old) (F.state files.new) (ending status)) }
{
    let rules = read_rules(alloc, files, rules)?;
    let mut store = read_store(alloc, files, base)?;
    make_changes(alloc, files, earlier, &mut store)?;
    let lines = read_lines(alloc, files, last)?;
    let built = packed_hour(alloc, hour, &rules, store, &lines, steps)?;
    Ok(built)
}

/// Reads changes one by one, and makes each in a good store before the next is read.
fn make_changes<'a, F: Files>(
    alloc: Global,
    files: &mut F,
    names: &'a [Text],
    store: &mut Store,
) -> Result<(), Status<'a>>
    requires good { IsStore store.old.entities }
    ensures made { OnOk result (AreMade (F.state files.old) (F.state files.new) names.now store.old.entities store.new.entities) }
    ensures ends { (after : List (List ℕ)) → IfErr result (λ status. EndsAmong (in_turn (object_texts (names.now ++ after))) (F.state files.old) (F.state files.new) (ending status)) }
{
    let mut rest = names;
    while let Some((name, others)) = rest.split_first() {
        make_change(alloc, files, Name::Given(name.as_str()), store)?;
        rest = others;
    }
    Ok(())
}

/// Reads a change, and makes it in a good store.
fn make_change<'a, F: Files>(
    alloc: Global,
    files: &mut F,
    file: Name<'a>,
    store: &mut Store,
) -> Result<(), Status<'a>>
    requires good { IsStore store.old.entities }
    ensures made { OnOk result (ReadsChange (F.state files.old) (F.state files.new) (name_bytes file.entry) store.old.entities store.new.entities) }
    ensures good { OnOk result (IsStore store.new.entities) }
    ensures ends { IfErr result (λ status. EndsAt (input (name_bytes file.entry) object_text) (F.state files.old) (F.state files.new) (ending status)) }
    ensures only_reads { OnlyReads (F.state files.old) (F.state files.new) }
{
    let lines = read_lines(alloc, files, file)?;
    match store.stage(alloc, &lines) {
        Ok(staged) => {
            store.commit(staged);
            Ok(())
        }
        Err(NoMemory) => Err(Status::NoMemory),
    }
}

/// The packed file of an hour with the overlay of lines over the map of a store, and its line. The store is let go before the file
/// is packed.
fn packed_hour<L: Ledger>(
    alloc: Global,
    hour: Stamp,
    rules: &Rules,
    store: Store,
    lines: &[Line],
    steps: &mut Steps<L>,
) -> Mem<Built>
    requires good { IsStore store.entities }
    requires good_lines { AllByRecursion IsGoodLine lines.now }
    ensures { IfOk result (λ built. IsPacked (hour_parts hour rules.now store.entities lines.now) (outcome_of built)) }
{
    let mut store = store;
    let mut index = RefIndex::build(alloc, &store)?;
    let change = overlay(alloc, rules, &mut store, &mut index, lines, steps)?;
    drop(index);
    drop(store);
    let head = Head {
        level: Level::Hour,
        first: Some(hour),
        last: Some(hour),
    };
    packed(alloc, &head, rules, &change.marks, &change.records)
}
