//! Points of interest as a class of boxed records, to be checked.

ghost use Rattle.std.specs.Prelude.{◌≡◌, ◌≤◌, ◌+◌, Option, Ok, IfSome};
ghost use Rattle.std.specs.Option.{option_map};
ghost use Rattle.obf_wire.specs.Windows.{range_of};
ghost use Rattle.file_grammar.specs.declared.parts.Boxed.TheVariants.{Poi};
ghost use Rattle.file_grammar.specs.declared.parts.Part.TheVariants.{Record};
ghost use Rattle.file_grammar.specs.Messages.{Fields};
ghost use Rattle.file_grammar.specs.PoiRules.{poi_boxing};
ghost use Rattle.file_grammar.specs.Readings.{message_at};
ghost use Rattle.file_grammar.specs.Sections.{Block, Entry, step_of};
ghost use Rattle.boxed_exact.specs.Boxes.{box_of};
ghost use Rattle.boxed_exact.specs.Records.{IsGoodRecord, IsRecordChecked};
ghost use Rattle.boxed_exact.specs.Sides.{AreRising, beside};
ghost use Rattle.boxed_exact.specs.Texts.{AreTexts};
ghost use Rattle.poi_section.specs.EntryFacts.{IsSeen, ordinal_of};
ghost use Rattle.poi_section.specs.PoiReads.{IsPoiRead};

use crate::class::PoiClass;
use crate::entries::read_entry;
use crate::record_rules::{EntrySeen, check_entry, is_good};
use boxed_check::points_in;
use boxed_exact::{Around, BlockTexts, CheckClass, Checked, Edges, Seen, see_points};
use file_grammar::{Boxed, FirstBreak};
use obf_wire::{Window, expected};

/// The keys of a point of interest: the step to its ordinal, its name, and the steps to its point.
const STEP: u8 = 8;

const NAME: u8 = 16;

const POINTS: u8 = 26;

/// No ordinal of an object lies farther above another one.
const FARTHEST: u64 = 3_377_699_720_527_872;

/// No ordinal of an object is greater.
const LAST: u64 = 4_503_599_627_370_496;

/// The fields of a point of interest, and where the steps to its point stand.
#[derive(Clone, Copy, Debug)]
pub(crate) struct PoiRead {
    pub(crate) step: u64,
    pub(crate) name: u64,
    pub(crate) from: usize,
    pub(crate) to: usize,
}

impl CheckClass for PoiClass {
    /// The ordinal.
    type Key = u128;

    ghost class = { Poi };

    ghost boxing = { poi_boxing };

    ghost key_of = { ordinal_of };

    fn class() -> Boxed
        ensures { result ≡ Poi }
    {
        Boxed::Poi
    }

    #[tactic(auto, using(crate::proofs::RecordFacts::record_checked))]
    fn check(
        window: Window<'_>,
        at: usize,
        ordinal: u128,
        before: Option<u128>,
        texts: BlockTexts<'_>,
        holder: &Edges,
        around: &Around<'_>,
        first: &mut FirstBreak,
    ) -> Checked<u128>
        requires few { ordinal ≤ 340282366920938463444927863358058659840 }
        requires marks { AreRising around.now.marks }
        ensures checked { (fields : Fields) (block : Block) (prev : Option Entry) → message_at (Record Poi) (range_of window.entry) ≡ Ok fields
            → AreTexts texts.entry block.texts → option_map ordinal_of prev ≡ before
            → IsRecordChecked poi_boxing ordinal_of (beside around.now) (box_of holder.now) block prev (record { at = at; ordinal = ordinal + step_of fields; fields = fields }) first.old first.new result.ordinal result.key result.in_box }
        ensures step { result.ordinal ≤ ordinal + 18446744073709551615 }
    {
        let entry = see_entry(window, at, ordinal, holder);
        check_entry(&entry, before, texts.count, around, first);
        Checked {
            ordinal: entry.ordinal,
            key: entry.ordinal,
            in_box: entry.points.in_box,
        }
    }

    fn see(
        window: Window<'_>,
        at: usize,
        ordinal: u64,
        before: Option<u128>,
        texts: BlockTexts<'_>,
        holder: &Edges,
        around: &Around<'_>,
    ) -> Option<Seen<u128>>
        requires few { ordinal ≤ 4503599627370496 }
        requires marks { AreRising around.now.marks }
        ensures good { IfSome result (λ seen. IsGoodRecord Poi poi_boxing ordinal_of (beside around.now) (box_of holder.now) before texts.entry ordinal at (range_of window.entry) seen.ordinal seen.key) }
        ensures few { IfSome result (λ seen. seen.ordinal ≤ 4503599627370496) }
    {
        let Some(read) = read_fields(window) else {
            return None;
        };
        if read.step > FARTHEST {
            return None;
        }
        let Some(count) = points_in(window.part(read.from, read.to), holder) else {
            return None;
        };
        let next = ordinal + read.step;
        if next > LAST || !is_good(around, texts.count, before, next, read.name, count) {
            return None;
        }
        Some(Seen {
            ordinal: next,
            key: u128::from(next),
        })
    }
}

/// The record in a window, whose field begins at `at`, after one of this ordinal.
fn see_entry(window: Window<'_>, at: usize, ordinal: u128, holder: &Edges) -> EntrySeen
    requires few { ordinal ≤ 340282366920938463444927863358058659840 }
    ensures seen { (fields : Fields) → message_at (Record Poi) (range_of window.entry) ≡ Ok fields
        → IsSeen (box_of holder.now) (record { at = at; ordinal = ordinal + step_of fields; fields = fields }) result }
    ensures step { result.ordinal ≤ ordinal + 18446744073709551615 }
{
    let fields = read_entry(window);
    let points = window.part(fields.points.from, fields.points.to);
    EntrySeen {
        at,
        ordinal: ordinal + u128::from(fields.step.value),
        fields,
        points: see_points(points, holder),
    }
}

/// The fields of the record in a window, in a straight line.
fn read_fields(window: Window<'_>) -> Option<PoiRead>
    ensures read { IfSome result (IsPoiRead (range_of window.entry)) }
    ensures ordered { IfSome result (λ read. (read.from ≤ read.to) × (read.to ≤ window.entry.to)) }
{
    let Some(step) = expected(window, window.from(), STEP) else {
        return None;
    };
    let Some(name) = expected(window, step.to, NAME) else {
        return None;
    };
    let Some(points) = expected(window, name.to, POINTS) else {
        return None;
    };
    if points.to != window.to() {
        return None;
    }
    Some(PoiRead {
        step: step.value,
        name: name.value,
        from: points.from,
        to: points.to,
    })
}
