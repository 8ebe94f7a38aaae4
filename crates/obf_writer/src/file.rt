//! A whole file.

ghost use Rattle.std.specs.Prelude.{◌≡◌, ◌≢◌, ◌↔◌, ◌++◌, [], map, Contains, IfOk, IfSome, IsTrue, OnOk};
ghost use Rattle.std.specs.List.{AllByRecursion};
ghost use Rattle.std.specs.List.Sorted.{IsSorted};
ghost use Rattle.std.specs.Ordering.{nat_cmp};
ghost use Rattle.live_model.specs.declared.levels.Level.TheVariants.{Base};
ghost use Rattle.live_model.specs.Fits.{FitsRules};
ghost use Rattle.live_model.specs.Ids.{ordinal};
ghost use Rattle.ordered_lists.specs.Ordered.{IsRisingBy};
ghost use Rattle.live_model.specs.Records.{record_cmp, record_id};
ghost use Rattle.stamp_core.specs.Heads.{IsGoodHead};
ghost use Rattle.stamp_core.specs.Hours.{IsCivilHour};
ghost use Rattle.file_grammar.specs.Files.{head_numbers, hour_number, is_head};
ghost use Rattle.obf_wire.specs.Fields.{number_field, short_field};
ghost use Rattle.obf_writer.specs.PackedFile.{IsPackedFile, head_bytes};

use crate::marks::marks_bytes;
use crate::sections::{put_sections, sections_of};
use live_model::{ObjId, Rec};
use obf_wire::Out;
use owned_data::Mem;
use stamp_core::{Head, Stamp};
use std::alloc::Global;
use tag_rules::Rules;

/// The version of the format, which stands at the beginning and again at the end.
const VERSION: u64 = 2;

/// The numbers of the fields of a file.
const VERSION_FIELD: u64 = 1;

const HEAD_FIELD: u64 = 2;

const RULES_FIELD: u64 = 3;

const MARKS_FIELD: u64 = 16;

const LAST_VERSION_FIELD: u64 = 32;

/// The numbers of the fields of a head.
const LEVEL_FIELD: u64 = 1;

const FIRST_FIELD: u64 = 2;

const LAST_FIELD: u64 = 3;

/// The bytes of a file of these parts, in the second version of the format: what it covers, the rules, the marks, which are the
/// objects that it says something of, and the records of all classes.
///
/// The head is good. The marks rise strictly in the order of ids, and a base has none. The records stand in the order of
/// records, equal ones side by side, and fit the rules; above a base each is of an object with a mark.
/// `NoMemory` is the only error. It takes n log n time.
pub fn write_file(
    alloc: Global,
    head: &Head,
    rules: &Rules,
    marks: &[ObjId],
    records: &[Rec],
) -> Mem<Vec<u8>>
    requires good { IsGoodHead head.now }
    requires rise { IsRisingBy nat_cmp ordinal marks.now }
    requires base { head.now.level ≡ Base → marks.now ≡ [] }
    requires sorted { IsSorted record_cmp records.now }
    requires fit { FitsRules rules.now records.now }
    requires marked { head.now.level ≢ Base → AllByRecursion (λ r. Contains marks.now (record_id r)) records.now }
    ensures { IfOk result (λ bytes. IsPackedFile bytes.items (head_numbers head.now) rules.now (map ordinal marks.now) records.now) }
{
    let sections = sections_of(alloc, rules, records)?;
    let marks = marks_bytes(alloc, marks)?;
    let head = head_bytes(alloc, head)?;
    let mut out = Out::new(alloc);
    put_front(&head, rules.text(), &mut out)?;
    put_sections(&sections, &mut out)?;
    out.put_section(MARKS_FIELD, &marks)?;
    out.put_number(LAST_VERSION_FIELD, VERSION)?;
    Ok(out.finish())
}

/// Appends the version, the head and the text of the rules.
fn put_front(head: &[u8], rules: &[u8], out: &mut Out) -> Mem<()>
    ensures { OnOk result (out.new ≡ out.old ++ number_field 1 2 ++ short_field 2 head.now ++ short_field 3 rules.now) }
{
    out.put_number(VERSION_FIELD, VERSION)?;
    out.put_short(HEAD_FIELD, head)?;
    out.put_short(RULES_FIELD, rules)
}

/// The level, and the numbers of the first hour and the last, which are good where the head is.
fn head_bytes(alloc: Global, head: &Head) -> Mem<Vec<u8>>
    ensures bytes { IfOk result (λ bytes. bytes.items ≡ head_bytes (head_numbers head.now)) }
    ensures good { OnOk result (IsTrue (is_head (head_numbers head.now)) ↔ IsGoodHead head.now) }
{
    let mut out = Out::new(alloc);
    out.put_number(LEVEL_FIELD, head.level.number())?;
    out.put_number(FIRST_FIELD, hour_number(head.first))?;
    out.put_number(LAST_FIELD, hour_number(head.last))?;
    Ok(out.finish())
}

/// The number of an hour; 0, which no hour has, where there is none.
fn hour_number(hour: Option<Stamp>) -> u64
    ensures number { result ≡ hour_number hour }
    ensures civil { IfSome hour IsCivilHour }
{
    match hour {
        Some(stamp) => stamp.number(),
        None => 0,
    }
}
