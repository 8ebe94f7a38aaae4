//! Roads as a class of boxed records, to be read.

ghost use Rattle.std.specs.Prelude.{◌≡◌, ◌<◌, ◌^◌, ◌+ℤ◌, true, pos, ℕ, List, Ok, map, IfOk};
ghost use Rattle.obf_wire.specs.Windows.{range_of};
ghost use Rattle.file_grammar.specs.declared.parts.Boxed.TheVariants.{Road};
ghost use Rattle.file_grammar.specs.declared.parts.Part.TheVariants.{Record, Texts};
ghost use Rattle.file_grammar.specs.BoxRules.{is_on_grid, is_ordinal};
ghost use Rattle.file_grammar.specs.Messages.{Fields};
ghost use Rattle.file_grammar.specs.Readings.{message_at, numbers_at};
ghost use Rattle.file_grammar.specs.RecordRules.{is_object_number};
ghost use Rattle.file_grammar.specs.RoadRules.{direction_from, road_boxing, road_node_of, stops};
ghost use Rattle.file_grammar.specs.Sections.{object_of, texts_in};
ghost use Rattle.boxed_read.specs.Records.{only_fields, only_texts};
ghost use Rattle.boxed_read.specs.Sound.{IsSoundRecord};
ghost use Rattle.road_section.specs.Readings.{HoldsStops, road_id, road_is_read, road_reading};
ghost use Rattle.road_section.specs.RoadLawful.{stop_of};
ghost use Rattle.road_section.specs.Roads.{start};
ghost use Rattle.road_section.specs.Stops.{stop_behind};

use crate::road_class::RoadClass;
use crate::road_entries::{RoadRead, read_road};
use crate::stops::{Triple, next_triple};
use boxed_read::{ReadClass, object, point_after, text};
use live_model::{Dir, Point, RoadNode, RoadRec};
use obf_wire::Window;
use owned_data::{List, Mem, Text};
use std::alloc::Global;

impl ReadClass for RoadClass {
    type Record = RoadRec;

    ghost reads = { road_reading };

    ghost id_of = { road_id };

    fn read(
        alloc: Global,
        window: Window<'_>,
        ordinal: u64,
        texts: Window<'_>,
        group: &str,
    ) -> Mem<RoadRec>
        requires { IsSoundRecord Road road_boxing (range_of texts) (range_of window) ordinal }
        ensures { IfOk result (λ item. (fields named : Fields) → message_at (Record Road) (range_of window.entry) ≡ Ok fields → message_at Texts (range_of texts.entry) ≡ Ok named
            → item ≡ road_reading group.now (only_texts (texts_in named)) (only_fields ordinal fields)) }
    {
        let fields = read_road(window);
        let value = text(texts, fields.value.value);
        let steps = window.part(fields.nodes.from, fields.nodes.to);
        road_of(alloc, ordinal, &fields, value, steps)
    }

    ghost reading = { road_is_read };
}

/// The road of this ordinal with these fields, this value, and the nodes to which these steps lead.
fn road_of(
    alloc: Global,
    ordinal: u64,
    fields: &RoadRead,
    value: &str,
    steps: Window<'_>,
) -> Mem<RoadRec>
    requires object { is_ordinal ordinal ≡ true }
    requires rule { fields.now.rule.value < 2 ^ 32 }
    requires nodes { HoldsStops (stop_of start) (range_of steps) }
    ensures { IfOk result (λ item. (numbers : List ℕ) → numbers_at (range_of steps.entry) ≡ Ok numbers
        → item ≡ record { id = object_of ordinal; rule = fields.now.rule.value; value = value.now; dir = direction_from fields.now.direction.value; nodes = map road_node_of (stops numbers) }) }
{
    let value = Text::copied(alloc, value)?;
    let nodes = read_nodes(alloc, steps)?;
    Ok(RoadRec {
        id: object(ordinal),
        rule: fields.rule.value as u32,
        value,
        dir: direction_from(fields.direction.value),
        nodes: List::from_vec(nodes),
    })
}

/// The direction of a number.
fn direction_from(number: u64) -> Dir
    ensures { result ≡ direction_from number }
{
    match number {
        0 => Dir::Both,
        1 => Dir::Forward,
        _ => Dir::Backward,
    }
}

/// The nodes to which the steps in a window lead.
fn read_nodes(alloc: Global, window: Window<'_>) -> Mem<Vec<RoadNode>>
    requires { HoldsStops (stop_of start) (range_of window) }
    ensures { IfOk result (λ nodes. (numbers : List ℕ) → numbers_at (range_of window.entry) ≡ Ok numbers → nodes.items ≡ map road_node_of (stops numbers)) }
{
    let mut node = RoadNode {
        id: 0,
        point: Point { x: 0, y: 0 },
    };
    let mut nodes = Vec::new(alloc);
    let mut at = window.from();
    while let Some(triple) = next_triple(window, at) {
        node = node_after(node, triple);
        nodes.push(node)?;
        at = triple.step.next;
    }
    Ok(nodes)
}

/// The node that a step leads to.
pub(crate) fn node_after(from: RoadNode, triple: Triple) -> RoadNode
    requires number { is_object_number (from.id +ℤ triple.number) ≡ true }
    requires location { is_on_grid (pos from.point.x +ℤ triple.step.east, pos from.point.y +ℤ triple.step.south) ≡ true }
    ensures id { result.id ≡ from.id +ℤ triple.number }
    ensures x { pos result.point.x ≡ pos from.point.x +ℤ triple.step.east }
    ensures y { pos result.point.y ≡ pos from.point.y +ℤ triple.step.south }
{
    RoadNode {
        id: from.id + triple.number,
        point: point_after(from.point, triple.step),
    }
}
