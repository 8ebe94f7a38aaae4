//! Map records as a class of boxed records, to be checked.

ghost use Rattle.std.specs.Prelude.{◌≡◌, ◌≤◌, ◌+◌, Option, Ok, length, IfSome};
ghost use Rattle.std.specs.Option.{option_map};
ghost use Rattle.obf_wire.specs.Windows.{range_of};
ghost use Rattle.file_grammar.specs.declared.parts.Boxed.TheVariants.{Map};
ghost use Rattle.file_grammar.specs.declared.parts.Part.TheVariants.{Record};
ghost use Rattle.file_grammar.specs.MapRules.{map_boxing};
ghost use Rattle.file_grammar.specs.Messages.{Fields};
ghost use Rattle.file_grammar.specs.Readings.{message_at};
ghost use Rattle.file_grammar.specs.Sections.{Block, Entry, step_of};
ghost use Rattle.boxed_exact.specs.Boxes.{box_of};
ghost use Rattle.boxed_exact.specs.Records.{IsGoodRecord, IsRecordChecked};
ghost use Rattle.boxed_exact.specs.Sides.{AreRising, beside};
ghost use Rattle.boxed_exact.specs.Texts.{AreTexts};
ghost use Rattle.map_section.specs.Blocks.{IsSeen, key_seen};
ghost use Rattle.map_section.specs.EntryFacts.{key_of};
ghost use Rattle.map_section.specs.MapReads.{IsMapRead};

use crate::class::MapClass;
use crate::entries::read_entry;
use crate::record_rules::{EntrySeen, Key, check_entry, is_good};
use boxed_check::points_in;
use boxed_exact::{Around, BlockTexts, CheckClass, Checked, Edges, Seen, see_points};
use file_grammar::{Boxed, FirstBreak};
use obf_wire::{Window, expected};

/// The keys of a map record: the step to its ordinal, its rule, its shape, its name, and the steps from point to point.
const STEP: u8 = 8;

const RULE: u8 = 16;

const SHAPE: u8 = 24;

const NAME: u8 = 32;

const POINTS: u8 = 42;

/// No ordinal of an object lies farther above another one.
const FARTHEST: u64 = 3_377_699_720_527_872;

/// No ordinal of an object is greater.
const LAST: u64 = 4_503_599_627_370_496;

/// The fields of a map record, and where the steps from point to point stand.
#[derive(Clone, Copy, Debug)]
pub(crate) struct MapRead {
    pub(crate) step: u64,
    pub(crate) rule: u64,
    pub(crate) shape: u64,
    pub(crate) name: u64,
    pub(crate) from: usize,
    pub(crate) to: usize,
}

impl CheckClass for MapClass {
    type Key = Key;

    ghost class = { Map };

    ghost boxing = { map_boxing };

    ghost key_of = { key_of };

    fn class() -> Boxed
        ensures { result ≡ Map }
    {
        Boxed::Map
    }

    #[tactic(auto, using(crate::proofs::RecordFacts::record_checked))]
    fn check(
        window: Window<'_>,
        at: usize,
        ordinal: u128,
        before: Option<Key>,
        texts: BlockTexts<'_>,
        holder: &Edges,
        around: &Around<'_>,
        first: &mut FirstBreak,
    ) -> Checked<Key>
        requires few { ordinal ≤ 340282366920938463444927863358058659840 }
        requires marks { AreRising around.now.marks }
        ensures checked { (fields : Fields) (block : Block) (prev : Option Entry) → message_at (Record Map) (range_of window.entry) ≡ Ok fields
            → AreTexts texts.entry block.texts → option_map key_of prev ≡ before
            → IsRecordChecked map_boxing key_of (beside around.now) (box_of holder.now) block prev (record { at = at; ordinal = ordinal + step_of fields; fields = fields }) first.old first.new result.ordinal result.key result.in_box }
        ensures step { result.ordinal ≤ ordinal + 18446744073709551615 }
    {
        let entry = see_entry(window, at, ordinal, holder);
        check_entry(&entry, before, texts.count, around, first);
        Checked {
            ordinal: entry.ordinal,
            key: key_of(&entry),
            in_box: entry.points.in_box,
        }
    }

    fn see(
        window: Window<'_>,
        at: usize,
        ordinal: u64,
        before: Option<Key>,
        texts: BlockTexts<'_>,
        holder: &Edges,
        around: &Around<'_>,
    ) -> Option<Seen<Key>>
        requires few { ordinal ≤ 4503599627370496 }
        requires marks { AreRising around.now.marks }
        ensures good { IfSome result (λ seen. IsGoodRecord Map map_boxing key_of (beside around.now) (box_of holder.now) before texts.entry ordinal at (range_of window.entry) seen.ordinal seen.key) }
        ensures few { IfSome result (λ seen. seen.ordinal ≤ 4503599627370496) }
    {
        let Some(read) = read_fields(window) else {
            return None;
        };
        if read.step > FARTHEST {
            return None;
        }
        let Some(count) = points_in(window.part(read.from, read.to), holder) else {
            return None;
        };
        let next = ordinal + read.step;
        let key = Key {
            ordinal: u128::from(next),
            rule: read.rule,
        };
        if next > LAST
            || !is_good(
                around,
                texts.count,
                before,
                key,
                read.shape,
                read.name,
                count,
            )
        {
            return None;
        }
        Some(Seen { ordinal: next, key })
    }
}

/// The record in a window, whose field begins at `at`, after one of this ordinal.
fn see_entry(window: Window<'_>, at: usize, ordinal: u128, holder: &Edges) -> EntrySeen
    requires few { ordinal ≤ 340282366920938463444927863358058659840 }
    ensures seen { (fields : Fields) → message_at (Record Map) (range_of window.entry) ≡ Ok fields
        → IsSeen (box_of holder.now) (record { at = at; ordinal = ordinal + step_of fields; fields = fields }) result }
    ensures step { result.ordinal ≤ ordinal + 18446744073709551615 }
{
    let fields = read_entry(window);
    let points = window.part(fields.points.from, fields.points.to);
    EntrySeen {
        at,
        ordinal: ordinal + u128::from(fields.step.value),
        fields,
        points: see_points(points, holder),
    }
}

/// What the order of records goes by.
fn key_of(entry: &EntrySeen) -> Key
    ensures { result ≡ key_seen entry.now }
{
    Key {
        ordinal: entry.ordinal,
        rule: entry.fields.rule.value,
    }
}

/// The fields of the record in a window, in a straight line.
fn read_fields(window: Window<'_>) -> Option<MapRead>
    ensures read { IfSome result (IsMapRead (range_of window.entry)) }
    ensures ordered { IfSome result (λ read. (read.from ≤ read.to) × (read.to ≤ window.entry.to)) }
{
    let Some(step) = expected(window, window.from(), STEP) else {
        return None;
    };
    let Some(rule) = expected(window, step.to, RULE) else {
        return None;
    };
    let Some(shape) = expected(window, rule.to, SHAPE) else {
        return None;
    };
    let Some(name) = expected(window, shape.to, NAME) else {
        return None;
    };
    let Some(points) = expected(window, name.to, POINTS) else {
        return None;
    };
    if points.to != window.to() {
        return None;
    }
    Some(MapRead {
        step: step.value,
        rule: rule.value,
        shape: shape.value,
        name: name.value,
        from: points.from,
        to: points.to,
    })
}
