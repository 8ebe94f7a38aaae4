//! What has to hold of groups of points of interest, rule by rule.

ghost use Rattle.std.specs.Prelude.{◌≡◌, ◌≢◌, ◌≤◌, ℕ, Option, None, Some, Ok, length, nat_lt, IfOk, IfErr, MatchOption};
ghost use Rattle.obf_wire.specs.Windows.{range_of};
ghost use Rattle.file_grammar.specs.declared.parts.Boxed.TheVariants.{Poi};
ghost use Rattle.file_grammar.specs.declared.parts.Part.TheVariants.{Boxes, Group as GroupPart, Pois};
ghost use Rattle.file_grammar.specs.Facts.{earlier};
ghost use Rattle.file_grammar.specs.Messages.{Fields};
ghost use Rattle.file_grammar.specs.PoiRules.{Group, group_with, poi_boxing};
ghost use Rattle.file_grammar.specs.Readings.{break_in, message_at};
ghost use Rattle.file_grammar.specs.Sections.{section_in};
ghost use Rattle.boxed_exact.specs.Breaks.{Breaks, section_break};
ghost use Rattle.boxed_exact.specs.Sides.{AreRising, beside};
ghost use Rattle.boxed_check.specs.Keeping.{IsKept};
ghost use Rattle.poi_section.specs.Groups.{ArePoisKept, IsGroupAsked, IsPut, category_before, pois_break};

use crate::categories::is_category;
use crate::class::PoiClass;
use crate::kept::{GroupKept, PoisKept};
use crate::one_pass::may_rise;
use boxed_check::{Kept, check};
use boxed_exact::{Around, Payload, next_payload};
use file_grammar::{Boxed, FieldWalk, FirstBreak, Part};
use obf_wire::{FileError, FileKind, Window};
use owned_data::{Mem, NoMemory};
use std::alloc::Global;

/// A group that was asked: where its category and the section of its records stand, and what there is of that section, where
/// every rule holds of it.
#[derive(Debug, Drop)]
pub(crate) struct GroupAsked {
    pub(crate) category: Payload,
    pub(crate) records: Payload,
    pub(crate) kept: Option<Kept>,
}

/// Checks every rule of the groups in a window, whose form is good: what there is of them, or `Broken` with the first rule that
/// fails. More records than have a number of 64 bits are out of memory.
pub(crate) fn check_rules(
    alloc: Global,
    window: Window<'_>,
    around: &Around<'_>,
) -> Result<PoisKept, FileError>
    requires marks { AreRising around.now.marks }
    requires form { None ≡ break_in (message_at Pois (range_of window)) }
    ensures kept { IfOk result (ArePoisKept (beside around.now) (range_of window.entry)) }
    ensures broken { IfErr result (λ error. Breaks error (pois_break (beside around.now) (range_of window.entry))) }
{
    let mut first = FirstBreak::none();
    let mut groups = Vec::new(alloc);
    let mut records: usize = 0;
    let mut before: &[u8] = &[];
    let mut walk = FieldWalk::new(Part::Pois, window);
    while let Some(field) = walk.next() {
        let group = window.part(field.from, field.to);
        let asked = ask_group(alloc, group, field.at, before, around, &mut first)?;
        before = &window.all()[asked.category.from..asked.category.to];
        records = put_asked(asked, records, &mut groups)?;
    }
    match first.found() {
        None => Ok(PoisKept { groups, records }),
        Some(found) => Err(FileError::Broken(found)),
    }
}

/// Adds what there is of a group, and counts its records.
fn put_asked(asked: GroupAsked, records: usize, groups: &mut Vec<GroupKept>) -> Mem<usize>
    ensures { IfOk result (λ sum. IsPut asked records groups.old.items groups.new.items sum) }
{
    let GroupAsked {
        category,
        records: section,
        kept,
    } = asked;
    let Some(kept) = kept else {
        return Ok(records);
    };
    let Some(sum) = records.checked_add(kept.records()) else {
        return Err(NoMemory);
    };
    groups.push(GroupKept {
        category,
        records: section,
        kept,
    })?;
    Ok(sum)
}

/// Asks every rule of the group in a window, whose form is good and whose field begins at `at`, after one of this category.
fn ask_group(
    alloc: Global,
    window: Window<'_>,
    at: usize,
    before: &[u8],
    around: &Around<'_>,
    first: &mut FirstBreak,
) -> Mem<GroupAsked>
    requires marks { AreRising around.now.marks }
    ensures asked { IfOk result (λ asked. (fields : Fields) (group : Group) (prev : Option Group) → message_at GroupPart (range_of window.entry) ≡ Ok fields → group_with at fields ≡ Some group → category_before prev ≡ before.now
        → IsGroupAsked (beside around.now) window.entry.bytes.now prev group first.old first.new asked) }
    ensures ordered { IfOk result (λ asked. asked.category.from ≤ asked.category.to) }
    ensures within { IfOk result (λ asked. asked.category.to ≤ length window.entry.bytes.now) }
{
    let mut walk = FieldWalk::new(Part::Group, window);
    let category = next_payload(&mut walk);
    let records = next_payload(&mut walk);
    let text = &window.all()[category.from..category.to];
    let section = window.part(records.from, records.to);
    first.ask(at, FileKind::BadOrder, may_rise(before, text));
    first.ask(category.at, FileKind::BadText, is_category(text));
    first.ask(at, FileKind::BadCount, has_block(section));
    let kept = ask_section(alloc, section, around, first)?;
    Ok(GroupAsked {
        category,
        records,
        kept,
    })
}

/// Whether the section in a window, whose form is good, has a block.
fn has_block(window: Window<'_>) -> bool
    ensures { (fields : Fields) → message_at (Boxes Poi) (range_of window.entry) ≡ Ok fields → result ≡ nat_lt 0 (length (section_in fields).blocks) }
{
    let mut walk = FieldWalk::new(Part::Boxes(Boxed::Poi), window);
    let _tree = next_payload(&mut walk);
    match walk.next() {
        Some(_field) => true,
        None => false,
    }
}

/// Asks every rule of the section in a window, and tells what there is of it where they hold.
fn ask_section(
    alloc: Global,
    window: Window<'_>,
    around: &Around<'_>,
    first: &mut FirstBreak,
) -> Mem<Option<Kept>>
    requires marks { AreRising around.now.marks }
    ensures asked { IfOk result (λ found. first.new ≡ earlier first.old (section_break Poi poi_boxing (beside around.now) (range_of window.entry))) }
    ensures kept { IfOk result (λ found. MatchOption found (first.new ≢ None) (IsKept Poi poi_boxing (beside around.now) (range_of window.entry))) }
{
    match check::<PoiClass>(alloc, window, around) {
        Ok(kept) => Ok(Some(kept)),
        Err(FileError::Broken(found)) => {
            first.ask(found.at, found.kind, false);
            Ok(None)
        }
        Err(FileError::NoMemory) => Err(NoMemory),
    }
}
