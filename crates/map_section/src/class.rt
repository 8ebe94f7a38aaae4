//! Map records as a class of boxed records, to be written.

ghost use Rattle.std.specs.Prelude.{◌≡◌};
ghost use Rattle.live_model.specs.Rules.{shape_rank};
ghost use Rattle.map_section.specs.Packed.{IsDrawn, drawn_box, map_packing};
ghost use Rattle.map_section.specs.MapOrder.{map_laws};

use box_tree::around;
use boxed_write::{WriteClass, add_text, put_point_list, text_number};
use live_model::{MapRec, Point, Rect, Shape};
use obf_wire::Out;
use owned_data::Mem;
use std::cmp::Ordering;
use text_table::TextTable;

/// The numbers of the fields of a map record after its ordinal.
const RULE: u64 = 2;

const SHAPE: u64 = 3;

const NAME: u64 = 4;

const POINTS: u64 = 5;

/// The class of map records.
pub struct MapClass;

impl WriteClass for MapClass {
    type Record = MapRec;

    ghost packing = { map_packing };

    ghost fits = { IsDrawn };

    fn compare(one: &MapRec, other: &MapRec) -> Ordering {
        match one.id.ordinal().cmp(&other.id.ordinal()) {
            Ordering::Less => Ordering::Less,
            Ordering::Equal => one.compare(other),
            Ordering::Greater => Ordering::Greater,
        }
    }

    fn ordinal(item: &MapRec) -> u64 {
        item.id.ordinal()
    }

    fn rect(item: &MapRec) -> Rect {
        drawn_box(item.points.as_slice())
    }

    fn add_texts(item: &MapRec, texts: &mut TextTable) -> Mem<()> {
        add_text(texts, item.name.as_str())
    }

    fn put_fields(texts: &TextTable, item: &MapRec, out: &mut Out) -> Mem<()> {
        out.put_number(RULE, u64::from(item.rule))?;
        out.put_number(SHAPE, rank(item.shape))?;
        out.put_number(NAME, text_number(texts, item.name.as_str()))?;
        put_point_list(POINTS, item.points.as_slice(), out)
    }

    ghost laws = { map_laws };
}

/// The smallest box around points; of none, that of the corner.
fn drawn_box(points: &[Point]) -> Rect
    ensures { result ≡ drawn_box points.now }
{
    match points {
        [first, others @ ..] => Rect::around(first, others),
        [] => around(&[]),
    }
}

/// Points, lines and areas, counted from 0.
fn rank(shape: Shape) -> u64
    ensures { result ≡ shape_rank shape }
{
    match shape {
        Shape::Point => 0,
        Shape::Line => 1,
        Shape::Area => 2,
    }
}
