//! Roads as a class of boxed records, to be written.

ghost use Rattle.std.specs.Prelude.{◌≡◌};
ghost use Rattle.live_model.specs.Records.{direction_rank};
ghost use Rattle.road_section.specs.Roads.{IsDrawn, road_box, road_packing};
ghost use Rattle.road_section.specs.Orders.{road_laws};

use crate::nodes::put_node_list;
use box_tree::around;
use boxed_write::{WriteClass, add_text, text_number};
use live_model::{Dir, Rect, RoadNode, RoadRec};
use obf_wire::Out;
use owned_data::Mem;
use std::cmp::Ordering;
use text_table::TextTable;

/// The numbers of the fields of a road after its ordinal.
const RULE: u64 = 2;

const VALUE: u64 = 3;

const DIRECTION: u64 = 4;

const NODES: u64 = 5;

/// The class of roads.
pub struct RoadClass;

impl WriteClass for RoadClass {
    type Record = RoadRec;

    ghost packing = { road_packing };

    ghost fits = { IsDrawn };

    fn compare(one: &RoadRec, other: &RoadRec) -> Ordering {
        one.compare(other)
    }

    fn ordinal(item: &RoadRec) -> u64 {
        item.id.ordinal()
    }

    fn rect(item: &RoadRec) -> Rect {
        road_box(item.nodes.as_slice())
    }

    fn add_texts(item: &RoadRec, texts: &mut TextTable) -> Mem<()> {
        add_text(texts, item.value.as_str())
    }

    fn put_fields(texts: &TextTable, item: &RoadRec, out: &mut Out) -> Mem<()> {
        out.put_number(RULE, u64::from(item.rule))?;
        out.put_number(VALUE, text_number(texts, item.value.as_str()))?;
        out.put_number(DIRECTION, rank(item.dir))?;
        put_node_list(NODES, item.nodes.as_slice(), out)
    }

    ghost laws = { road_laws };
}

/// The smallest box around nodes; of none, that of the corner.
fn road_box(nodes: &[RoadNode]) -> Rect
    ensures { result ≡ road_box nodes.now }
{
    let [first, others @ ..] = nodes else {
        return around(&[]);
    };
    let mut all = Rect::of_point(&first.point);
    let mut others = others;
    while let [next, after @ ..] = others {
        all = all.with_point(&next.point);
        others = after;
    }
    all
}

/// Both ways, forward and backward, counted from 0.
fn rank(direction: Dir) -> u64
    ensures { result ≡ direction_rank direction }
{
    match direction {
        Dir::Both => 0,
        Dir::Forward => 1,
        Dir::Backward => 2,
    }
}
