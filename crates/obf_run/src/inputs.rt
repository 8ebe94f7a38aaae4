//! The files of a run, read one by one and taken for what they are to be.

ghost use Rattle.std.specs.Prelude.{◌≡◌, IfErr, IfOk};
ghost use Rattle.std.specs.Arc.{arc_value};
ghost use Rattle.std.specs.List.{AllByRecursion};
ghost use Rattle.line_texts.specs.Forms.{IsText};
ghost use Rattle.live_model.specs.Objects.{IsGoodLine};
ghost use Rattle.live_model.specs.OplTexts.{OplText};
ghost use Rattle.live_model.specs.Rules.{RuleText};
ghost use Rattle.live_model.specs.Stores.{IsStore};
ghost use Rattle.outside.specs.Files.{OnlyReads};
ghost use Rattle.run_model.specs.Endings.{ending, name_bytes};
ghost use Rattle.run_model.specs.Inputs.{input, map_file, object_text, rule_table, script_text};
ghost use Rattle.run_model.specs.Jobs.{IsStoreOf};
ghost use Rattle.run_model.specs.Reads.{EndsAt, HasRead};
ghost use Rattle.script_text.specs.Scripts.{IsStep, script_form};
ghost use Rattle.obf_run.specs.Finishing.{unread};

use entity_store::Store;
use line_texts::LineError;
use live_model::{Line, Lines, List, NoMemory};
use obf_reader::Image;
use obf_wire::FileError;
use opl_reader::{OplError, read_all};
use outside::{Files, WholeError, read_whole};
use run_model::{Break, Name, Status};
use script_text::{Step, read_script};
use std::alloc::Global;
use std::sync::Arc;
use tag_rules::{RuleError, Rules};

/// The most bytes that a file may have, read or written.
pub const LIMIT: usize = 268_435_456;

/// Reads a table of rules.
#[tactic(auto, using(crate::proofs::GoodTexts::whole_part, crate::proofs::GoodTexts::unread_ends))]
pub fn read_rules<'a, F: Files>(
    alloc: Global,
    files: &mut F,
    file: Name<'a>,
) -> Result<Rules, Status<'a>>
    ensures rules { IfOk result (λ rules. HasRead (F.state files.old) (F.state files.new) (input (name_bytes file.entry) rule_table) (λ text. RuleText text rules)) }
    ensures ends { IfErr result (λ status. EndsAt (input (name_bytes file.entry) rule_table) (F.state files.old) (F.state files.new) (ending status)) }
    ensures only_reads { OnlyReads (F.state files.old) (F.state files.new) }
{
    let text = match read_whole(alloc, files, file.as_str(), LIMIT) {
        Ok(text) => text,
        Err(e) => return Err(not_read(file, e)),
    };
    match Rules::read(alloc, &text) {
        Ok(rules) => Ok(rules),
        Err(RuleError::NoMemory) => Err(Status::NoMemory),
        Err(RuleError::Broken(first)) => Err(Status::Refused {
            file,
            first: Break::InRules(first),
        }),
    }
}

/// Reads a text of objects, and makes the store of its lines. The text is let go before the store is made.
#[tactic(auto, using(crate::proofs::GoodTexts::store_read, crate::proofs::GoodTexts::read_part))]
pub fn read_store<'a, F: Files>(
    alloc: Global,
    files: &mut F,
    file: Name<'a>,
) -> Result<Store, Status<'a>>
    ensures store { IfOk result (λ store. HasRead (F.state files.old) (F.state files.new) (input (name_bytes file.entry) object_text) (λ text. IsStoreOf text store.entities)) }
    ensures good { IfOk result (λ store. IsStore store.entities) }
    ensures ends { IfErr result (λ status. EndsAt (input (name_bytes file.entry) object_text) (F.state files.old) (F.state files.new) (ending status)) }
    ensures only_reads { OnlyReads (F.state files.old) (F.state files.new) }
{
    let lines = read_lines(alloc, files, file)?;
    match Store::from_lines(alloc, lines) {
        Ok(store) => Ok(store),
        Err(NoMemory) => Err(Status::NoMemory),
    }
}

/// Reads the lines of a text of objects.
#[tactic(auto, using(crate::proofs::GoodTexts::whole_part, crate::proofs::GoodTexts::unread_ends))]
pub fn read_lines<'a, F: Files>(
    alloc: Global,
    files: &mut F,
    file: Name<'a>,
) -> Result<Vec<Line>, Status<'a>>
    ensures lines { IfOk result (λ lines. HasRead (F.state files.old) (F.state files.new) (input (name_bytes file.entry) object_text) (λ text. OplText text lines.items)) }
    ensures good { IfOk result (λ lines. AllByRecursion IsGoodLine lines.items) }
    ensures ends { IfErr result (λ status. EndsAt (input (name_bytes file.entry) object_text) (F.state files.old) (F.state files.new) (ending status)) }
    ensures only_reads { OnlyReads (F.state files.old) (F.state files.new) }
{
    let text = match read_whole(alloc, files, file.as_str(), LIMIT) {
        Ok(text) => text,
        Err(e) => return Err(not_read(file, e)),
    };
    match read_all(alloc, &text) {
        Ok(lines) => Ok(lines),
        Err(OplError::NoMemory) => Err(Status::NoMemory),
        Err(OplError::Broken(first)) => Err(Status::Refused {
            file,
            first: Break::InObjects(first),
        }),
    }
}

/// Reads the lines of a text of objects, to be shared.
#[tactic(auto, using(crate::proofs::GoodTexts::read_part))]
pub fn read_shared<'a, F: Files>(
    alloc: Global,
    files: &mut F,
    file: Name<'a>,
) -> Result<Arc<Lines>, Status<'a>>
    ensures lines { IfOk result (λ lines. HasRead (F.state files.old) (F.state files.new) (input (name_bytes file.entry) object_text) (λ text. OplText text (arc_value lines))) }
    ensures good { IfOk result (λ lines. AllByRecursion IsGoodLine (arc_value lines)) }
    ensures ends { IfErr result (λ status. EndsAt (input (name_bytes file.entry) object_text) (F.state files.old) (F.state files.new) (ending status)) }
    ensures only_reads { OnlyReads (F.state files.old) (F.state files.new) }
{
    let lines = read_lines(alloc, files, file)?;
    match Arc::new(alloc, List::from_vec(lines)) {
        Ok(shared) => Ok(shared),
        Err(_) => Err(Status::NoMemory),
    }
}

/// Reads a script.
#[tactic(auto, using(crate::proofs::GoodTexts::whole_part, crate::proofs::GoodTexts::unread_ends))]
pub fn read_steps<'a, F: Files>(
    alloc: Global,
    files: &mut F,
    file: Name<'a>,
) -> Result<Vec<Step>, Status<'a>>
    ensures steps { IfOk result (λ steps. HasRead (F.state files.old) (F.state files.new) (input (name_bytes file.entry) script_text) (λ text. IsText script_form text steps.items)) }
    ensures good { IfOk result (λ steps. AllByRecursion IsStep steps.items) }
    ensures ends { IfErr result (λ status. EndsAt (input (name_bytes file.entry) script_text) (F.state files.old) (F.state files.new) (ending status)) }
    ensures only_reads { OnlyReads (F.state files.old) (F.state files.new) }
{
    let text = match read_whole(alloc, files, file.as_str(), LIMIT) {
        Ok(text) => text,
        Err(e) => return Err(not_read(file, e)),
    };
    match read_script(alloc, &text) {
        Ok(steps) => Ok(steps),
        Err(LineError::NoMemory) => Err(Status::NoMemory),
        Err(LineError::Broken(first)) => Err(Status::Refused {
            file,
            first: Break::InScript(first),
        }),
    }
}

/// Reads a map file.
#[tactic(auto, using(crate::proofs::GoodTexts::whole_part, crate::proofs::GoodTexts::unread_ends))]
pub fn read_image<'a, F: Files>(
    alloc: Global,
    files: &mut F,
    file: Name<'a>,
) -> Result<Image, Status<'a>>
    ensures image { IfOk result (λ image. HasRead (F.state files.old) (F.state files.new) (input (name_bytes file.entry) map_file) (λ bytes. image.bytes ≡ bytes)) }
    ensures ends { IfErr result (λ status. EndsAt (input (name_bytes file.entry) map_file) (F.state files.old) (F.state files.new) (ending status)) }
    ensures only_reads { OnlyReads (F.state files.old) (F.state files.new) }
{
    let bytes = match read_whole(alloc, files, file.as_str(), LIMIT) {
        Ok(bytes) => bytes,
        Err(e) => return Err(not_read(file, e)),
    };
    match Image::read(alloc, bytes) {
        Ok(image) => Ok(image),
        Err(FileError::NoMemory) => Err(Status::NoMemory),
        Err(FileError::Broken(first)) => Err(Status::Refused {
            file,
            first: Break::InFile(first),
        }),
    }
}

/// The status of a file that was not read whole. The name is moved into it.
fn not_read(file: Name<'_>, error: WholeError) -> Status<'_>
    ensures { ending result ≡ unread (name_bytes file.entry) error }
{
    match error {
        WholeError::NoMemory => Status::NoMemory,
        WholeError::Failed => Status::ReadFault { file },
        WholeError::OverLimit => Status::Limit { file },
    }
}
