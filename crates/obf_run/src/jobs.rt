//! What each verb makes of the files that it reads.

ghost use Rattle.std.specs.Prelude.{◌≡◌, ◌∷◌, ℕ, List, [], IfErr, IfOk};
ghost use Rattle.live_model.specs.CanonicalLines.{is_located_in, lines_text, nodes_in};
ghost use Rattle.live_model.specs.Stores.{IsStore};
ghost use Rattle.outside.specs.Files.{OnlyReads};
ghost use Rattle.run_model.specs.Endings.{ending, name_bytes};
ghost use Rattle.run_model.specs.Inputs.{in_turn, input, object_text, plan_of, rule_table};
ghost use Rattle.run_model.specs.Jobs.{IsChecked, IsPacked, base_parts, prints, task_of};
ghost use Rattle.run_model.specs.Reads.{EndsAmong};
ghost use Rattle.run_model.specs.Requests.{build, check, dump, nodes};
ghost use Rattle.run_model.specs.Runs.{WorksTo};
ghost use Rattle.obf_run.specs.Finishing.{outcome_of};

use crate::file_line::file_line;
use crate::inputs::{read_image, read_rules, read_store};
use crate::packing::{Built, packed};
use change_diff::base_records;
use entity_store::Store;
use live_model::{Entity, Level, Mem, Rect, Steps};
use obf_reader::{Image, images_are_files};
use opl_writer::put_line;
use outside::Files;
use run_model::{Name, Status};
use stamp_core::Head;
use std::alloc::Global;
use std::sync::ledger::Ledger;
use tag_rules::Rules;

/// The canonical lines of the located nodes of the base in the rectangle, by id.
pub fn nodes_answer<'a, F: Files>(
    alloc: Global,
    files: &mut F,
    rect: Rect,
    base: Name<'a>,
) -> Result<Vec<u8>, Status<'a>>
    ensures works { IfOk result (λ answer. WorksTo (F.state files.old) (F.state files.new) (task_of (nodes rect (name_bytes base.entry))) (prints answer.items)) }
    ensures ends { IfErr result (λ status. EndsAmong (plan_of (nodes rect (name_bytes base.entry))) (F.state files.old) (F.state files.new) (ending status)) }
{
    let store = read_store(alloc, files, base)?;
    let answer = nodes_text(alloc, rect, &store)?;
    Ok(answer)
}

/// The canonical lines of the base, by id.
pub fn dump_answer<'a, F: Files>(
    alloc: Global,
    files: &mut F,
    base: Name<'a>,
) -> Result<Vec<u8>, Status<'a>>
    ensures works { IfOk result (λ answer. WorksTo (F.state files.old) (F.state files.new) (task_of (dump (name_bytes base.entry))) (prints answer.items)) }
    ensures ends { IfErr result (λ status. EndsAmong (plan_of (dump (name_bytes base.entry))) (F.state files.old) (F.state files.new) (ending status)) }
{
    let store = read_store(alloc, files, base)?;
    let answer = dump_text(alloc, &store)?;
    Ok(answer)
}

/// The line of the map file.
pub fn check_answer<'a, F: Files>(
    alloc: Global,
    files: &mut F,
    file: Name<'a>,
) -> Result<Vec<u8>, Status<'a>>
    ensures works { IfOk result (λ answer. WorksTo (F.state files.old) (F.state files.new) (task_of (check (name_bytes file.entry))) (prints answer.items)) }
    ensures ends { IfErr result (λ status. EndsAmong (plan_of (check (name_bytes file.entry))) (F.state files.old) (F.state files.new) (ending status)) }
{
    let image = read_image(alloc, files, file)?;
    let line = image_line(alloc, &image)?;
    Ok(line)
}

/// The line of an image.
fn image_line(alloc: Global, image: &Image) -> Mem<Vec<u8>>
    ensures { IfOk result (λ line. IsChecked image.now.bytes (prints line.items)) }
{
    images_are_files(image);
    let line = file_line(
        alloc,
        image.head(),
        image.mark_count(),
        image.record_count(),
    )?;
    Ok(line)
}

/// The packed base file of all records that the rules make of the base, and its line.
pub fn built_file<'a, F: Files, L: Ledger>(
    alloc: Global,
    files: &mut F,
    rules: Name<'a>,
    base: Name<'a>,
    steps: &mut Steps<L>,
) -> Result<Built, Status<'a>>
    ensures works { (output : List ℕ) → IfOk result (λ built. WorksTo (F.state files.old) (F.state files.new) (task_of (build (name_bytes rules.entry) (name_bytes base.entry) output)) (outcome_of built)) }
    ensures ends { IfErr result (λ status. EndsAmong (in_turn (input (name_bytes rules.entry) rule_table ∷ input (name_bytes base.entry) object_text ∷ [])) (F.state files.old) (F.state files.new) (ending status)) }
{
    let rules = read_rules(alloc, files, rules)?;
    let store = read_store(alloc, files, base)?;
    let built = packed_base(alloc, &rules, store, steps)?;
    Ok(built)
}

/// The head of a base.
const BASE: Head = Head {
    level: Level::Base,
    first: None,
    last: None,
};

/// The base file of all records that the rules make of a store, and its line. The store is let go before the file is packed.
fn packed_base<L: Ledger>(
    alloc: Global,
    rules: &Rules,
    store: Store,
    steps: &mut Steps<L>,
) -> Mem<Built>
    requires good { IsStore store.entities }
    ensures { IfOk result (λ built. IsPacked (base_parts rules.now store.entities) (outcome_of built)) }
{
    let records = base_records(alloc, rules, &store, steps)?;
    drop(store);
    packed(alloc, &BASE, rules, &[], &records)
}

/// The canonical lines of the entities of a store, in order.
fn dump_text(alloc: Global, store: &Store) -> Mem<Vec<u8>>
    ensures { IfOk result (λ text. text.items ≡ lines_text store.now.entities) }
{
    let mut text = Vec::new(alloc);
    for entity in store.entities() {
        put_line(&mut text, entity)?;
    }
    Ok(text)
}

/// The canonical lines of the entities of a store whose place lies in the rectangle, in order.
fn nodes_text(alloc: Global, rect: Rect, store: &Store) -> Mem<Vec<u8>>
    ensures { IfOk result (λ text. text.items ≡ lines_text (nodes_in rect store.now.entities)) }
{
    let mut text = Vec::new(alloc);
    for entity in store.entities() {
        if is_located_in(&rect, entity) {
            put_line(&mut text, entity)?;
        }
    }
    Ok(text)
}

fn is_located_in(rect: &Rect, entity: &Entity) -> bool
    ensures { result ≡ is_located_in rect.now entity.now.place }
{
    match entity.place {
        Some(point) => rect.contains(&point),
        None => false,
    }
}
