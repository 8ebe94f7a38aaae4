//! Roads as a class of boxed records, to be checked.

ghost use Rattle.std.specs.Prelude.{◌≡◌, ◌≤◌, ◌+◌, Option, Ok, IfSome, length};
ghost use Rattle.std.specs.Option.{option_map};
ghost use Rattle.obf_wire.specs.Windows.{range_of};
ghost use Rattle.file_grammar.specs.declared.parts.Boxed.TheVariants.{Road};
ghost use Rattle.file_grammar.specs.declared.parts.Part.TheVariants.{Record};
ghost use Rattle.file_grammar.specs.RoadRules.{road_boxing};
ghost use Rattle.file_grammar.specs.Messages.{Fields};
ghost use Rattle.file_grammar.specs.Readings.{message_at};
ghost use Rattle.file_grammar.specs.Sections.{Block, Entry, step_of};
ghost use Rattle.boxed_exact.specs.Boxes.{box_of};
ghost use Rattle.boxed_exact.specs.Records.{IsGoodRecord, IsRecordChecked};
ghost use Rattle.boxed_exact.specs.Sides.{AreRising, beside};
ghost use Rattle.boxed_exact.specs.Texts.{AreTexts};
ghost use Rattle.road_section.specs.SeenFacts.{IsRoadSeen, key_of};
ghost use Rattle.road_section.specs.Straight.{IsRoadLine};

use crate::good_nodes::nodes_in;
use crate::order::{FARTHEST, LAST};
use crate::road_class::RoadClass;
use crate::road_entries::read_road;
use crate::road_rules::{RoadSeen, check_road, is_good_road};
use crate::stops::see_nodes;
use boxed_exact::{Around, BlockTexts, CheckClass, Checked, Edges, Seen};
use file_grammar::{Boxed, FirstBreak};
use obf_wire::{Window, expected};

/// The keys of a road: the step to its ordinal, its rule, its value, its direction, and the steps from node to node.
const STEP: u8 = 8;

const RULE: u8 = 16;

const VALUE: u8 = 24;

const DIRECTION: u8 = 32;

const NODES: u8 = 42;

/// The fields of a road, and the range of the steps from node to node.
#[derive(Clone, Copy, Debug)]
pub(crate) struct RoadLine {
    pub(crate) step: u64,
    pub(crate) rule: u64,
    pub(crate) value: u64,
    pub(crate) direction: u64,
    pub(crate) start: usize,
    pub(crate) end: usize,
}

impl CheckClass for RoadClass {
    type Key = u128;

    ghost class = { Road };

    ghost boxing = { road_boxing };

    ghost key_of = { key_of };

    fn class() -> Boxed
        ensures { result ≡ Road }
    {
        Boxed::Road
    }

    fn check(
        window: Window<'_>,
        at: usize,
        ordinal: u128,
        before: Option<u128>,
        texts: BlockTexts<'_>,
        holder: &Edges,
        around: &Around<'_>,
        first: &mut FirstBreak,
    ) -> Checked<u128>
        requires few { ordinal ≤ 340282366920938463444927863358058659840 }
        requires marks { AreRising around.now.marks }
        ensures checked { (fields : Fields) (block : Block) (prev : Option Entry) → message_at (Record Road) (range_of window.entry) ≡ Ok fields
            → AreTexts texts.entry block.texts → option_map key_of prev ≡ before
            → IsRecordChecked road_boxing key_of (beside around.now) (box_of holder.now) block prev (record { at = at; ordinal = ordinal + step_of fields; fields = fields }) first.old first.new result.ordinal result.key result.in_box }
        ensures step { result.ordinal ≤ ordinal + 18446744073709551615 }
    {
        let road = see_road(window, at, ordinal, holder);
        check_road(&road, before, texts, around, first);
        Checked {
            ordinal: road.ordinal,
            key: road.ordinal,
            in_box: road.nodes.in_box,
        }
    }

    fn see(
        window: Window<'_>,
        at: usize,
        ordinal: u64,
        before: Option<u128>,
        texts: BlockTexts<'_>,
        holder: &Edges,
        around: &Around<'_>,
    ) -> Option<Seen<u128>>
        requires few { ordinal ≤ 4503599627370496 }
        requires marks { AreRising around.now.marks }
        ensures good { IfSome result (λ seen. IsGoodRecord Road road_boxing key_of (beside around.now) (box_of holder.now) before texts.entry ordinal at (range_of window.entry) seen.ordinal seen.key) }
        ensures few { IfSome result (λ seen. seen.ordinal ≤ 4503599627370496) }
    {
        let Some(line) = road_line(window) else {
            return None;
        };
        if line.step > FARTHEST {
            return None;
        }
        let Some(count) = nodes_in(window.part(line.start, line.end), holder) else {
            return None;
        };
        let next = ordinal + line.step;
        if next > LAST || !is_good_road(around, texts, before, next, &line, count) {
            return None;
        }
        Some(Seen {
            ordinal: next,
            key: u128::from(next),
        })
    }
}

/// The road in a window, whose field begins at `at`, after a record of this ordinal.
fn see_road(window: Window<'_>, at: usize, ordinal: u128, holder: &Edges) -> RoadSeen
    requires few { ordinal ≤ 340282366920938463444927863358058659840 }
    ensures seen { (fields : Fields) → message_at (Record Road) (range_of window.entry) ≡ Ok fields
        → IsRoadSeen (box_of holder.now) (record { at = at; ordinal = ordinal + step_of fields; fields = fields }) result }
    ensures step { result.ordinal ≤ ordinal + 18446744073709551615 }
{
    let fields = read_road(window);
    let nodes = window.part(fields.nodes.from, fields.nodes.to);
    RoadSeen {
        at,
        ordinal: ordinal + u128::from(fields.step.value),
        fields,
        nodes: see_nodes(nodes, holder),
    }
}

/// The fields of the road in a window, in a straight line.
fn road_line(window: Window<'_>) -> Option<RoadLine>
    ensures read { IfSome result (IsRoadLine (range_of window.entry)) }
    ensures inside { IfSome result (λ line. (line.start ≤ line.end) × (line.end ≤ length window.entry.bytes.now)) }
{
    let Some(step) = expected(window, window.from(), STEP) else {
        return None;
    };
    let Some(rule) = expected(window, step.to, RULE) else {
        return None;
    };
    let Some(value) = expected(window, rule.to, VALUE) else {
        return None;
    };
    let Some(direction) = expected(window, value.to, DIRECTION) else {
        return None;
    };
    let Some(nodes) = expected(window, direction.to, NODES) else {
        return None;
    };
    if nodes.to != window.to() {
        return None;
    }
    Some(RoadLine {
        step: step.value,
        rule: rule.value,
        value: value.value,
        direction: direction.value,
        start: nodes.from,
        end: nodes.to,
    })
}
