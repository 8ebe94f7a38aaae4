//! The parts of a file, as they were read, and which of their rules fails first.

ghost use Rattle.std.specs.Prelude.{◌≡◌, ◌==◌, ◌||◌, not, Ok, IfOk};
ghost use Rattle.std.specs.Ordering.{nat_cmp};
ghost use Rattle.ordered_lists.specs.Ordered.{IsRisingBy};
ghost use Rattle.file_grammar.specs.Facts.{first_failing};
ghost use Rattle.file_grammar.specs.Files.{FileParts};
ghost use Rattle.file_grammar.specs.Messages.{Fields};
ghost use Rattle.obf_reader.specs.Parts.{AreParts, IsReadOf, own_facts};
ghost use Rattle.obf_reader.specs.Spread.{AreInBytes, read_file};

use crate::heads::{HeadNumbers, head_numbers, is_head};
use crate::mark_list::{MarksRead, read_marks};
use crate::rule_text::{RulesRead, read_rules};
use crate::spans::{Sections, file_spans, list_of_marks};
use boxed_exact::Number;
use file_grammar::FirstBreak;
use obf_wire::FileKind;
use owned_data::Mem;
use std::alloc::Global;

/// The parts of a file, each with the place at which its rules are told.
#[derive(Debug, Drop)]
pub(crate) struct PartsRead {
    pub(crate) version: Number,
    pub(crate) head_at: usize,
    pub(crate) head: HeadNumbers,
    pub(crate) rules_at: usize,
    pub(crate) rules: RulesRead,
    pub(crate) sections: Sections,
    pub(crate) marks_at: usize,
    pub(crate) marks: MarksRead,
    pub(crate) again: Number,
}

/// Reads the parts of a file whose form is good, but the sections of records.
pub(crate) fn read_parts(alloc: Global, bytes: &[u8]) -> Mem<PartsRead>
    ensures parts { IfOk result (λ read. (fields : Fields) → read_file bytes.now ≡ Ok fields → IsReadOf bytes.now read fields) }
    ensures inside { IfOk result (λ read. AreInBytes bytes.now read.sections) }
    ensures rising { IfOk result (λ read. IsRisingBy nat_cmp (λ n. n) read.marks.marks.items) }
{
    let spans = file_spans(bytes);
    let list = list_of_marks(bytes, spans.marks);
    Ok(PartsRead {
        version: spans.version,
        head_at: spans.head.at,
        head: head_numbers(bytes, spans.head),
        rules_at: spans.rules.at,
        rules: read_rules(alloc, &bytes[spans.rules.from..spans.rules.to])?,
        sections: spans.sections,
        marks_at: list.at,
        marks: read_marks(alloc, bytes, list)?,
        again: spans.again,
    })
}

/// Asks all that has to hold of a file of good form outside its sections of records.
pub(crate) fn check_parts(read: &PartsRead) -> FirstBreak
    ensures { (parts : FileParts) → AreParts read.now parts → result ≡ first_failing (own_facts parts) }
{
    let mut first = FirstBreak::none();
    first.ask(read.head_at, FileKind::BadHead, is_head(read.head));
    first.ask(read.rules_at, FileKind::BadRules, read.rules.canonical);
    first.ask(
        read.again.at,
        FileKind::BadConfirm,
        read.again.value == read.version.value,
    );
    first.ask(read.marks_at, FileKind::BadOrder, read.marks.rise);
    first.ask(read.marks_at, FileKind::BadId, read.marks.ordinals);
    first.ask(read.marks_at, FileKind::BadMark, may_mark(read));
    first
}

// Whether there are no marks, or the file is no base.
fn may_mark(read: &PartsRead) -> bool
    ensures { result ≡ (not (read.now.head.level == 0) || read.now.marks.none) }
{
    read.head.level != 0 || read.marks.none
}
