//! Points of interest as a class of boxed records, to be written.

ghost use Rattle.std.specs.Prelude.{◌≡◌};
ghost use Rattle.poi_section.specs.Packed.{IsPlaced, poi_packing};
ghost use Rattle.poi_section.specs.PoiOrder.{poi_laws};

use boxed_write::{WriteClass, add_text, put_point_list, text_number};
use live_model::{PoiRec, Rect};
use obf_wire::Out;
use owned_data::Mem;
use std::cmp::Ordering;
use text_table::TextTable;

/// The numbers of the fields of a point of interest after its ordinal.
const NAME: u64 = 2;

const POINTS: u64 = 3;

/// The class of points of interest of one category.
pub struct PoiClass;

impl WriteClass for PoiClass {
    type Record = PoiRec;

    ghost packing = { poi_packing };

    ghost fits = { IsPlaced };

    fn compare(one: &PoiRec, other: &PoiRec) -> Ordering {
        one.compare(other)
    }

    fn ordinal(item: &PoiRec) -> u64 {
        item.id.ordinal()
    }

    fn rect(item: &PoiRec) -> Rect {
        Rect::of_point(&item.point)
    }

    fn add_texts(item: &PoiRec, texts: &mut TextTable) -> Mem<()> {
        add_text(texts, item.name.as_str())
    }

    fn put_fields(texts: &TextTable, item: &PoiRec, out: &mut Out) -> Mem<()> {
        out.put_number(NAME, text_number(texts, item.name.as_str()))?;
        put_point_list(POINTS, &[item.point], out)
    }

    ghost laws = { poi_laws };
}
