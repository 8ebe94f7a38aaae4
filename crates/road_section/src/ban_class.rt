//! Turn restrictions as a class of boxed records, to be written.

ghost use Rattle.std.specs.Prelude.{◌≡◌, ◌++◌, OnOk};
ghost use Rattle.road_section.specs.Restrictions.{IsNumbered, ban_packing, turn_fields};
ghost use Rattle.road_section.specs.Orders.{ban_laws};

use boxed_write::{WriteClass, add_text, put_point_list, text_number};
use live_model::{BanRec, Rect};
use obf_wire::{Out, zigzag};
use owned_data::Mem;
use std::cmp::Ordering;
use text_table::TextTable;

/// The numbers of the fields of a restriction after its ordinal.
const VALUE: u64 = 2;

const FROM: u64 = 3;

const VIA: u64 = 4;

const TO: u64 = 5;

const POINTS: u64 = 6;

/// The class of turn restrictions.
pub struct BanClass;

impl WriteClass for BanClass {
    type Record = BanRec;

    ghost packing = { ban_packing };

    ghost fits = { IsNumbered };

    fn compare(one: &BanRec, other: &BanRec) -> Ordering {
        one.compare(other)
    }

    fn ordinal(item: &BanRec) -> u64 {
        item.id.ordinal()
    }

    fn rect(item: &BanRec) -> Rect {
        Rect::of_point(&item.point)
    }

    fn add_texts(item: &BanRec, texts: &mut TextTable) -> Mem<()> {
        add_text(texts, item.value.as_str())
    }

    fn put_fields(texts: &TextTable, item: &BanRec, out: &mut Out) -> Mem<()> {
        out.put_number(VALUE, text_number(texts, item.value.as_str()))?;
        put_turn(item, out)?;
        put_point_list(POINTS, &[item.point], out)
    }

    ghost laws = { ban_laws };
}

/// Appends the way that is left, the node and the way that is entered.
fn put_turn(item: &BanRec, out: &mut Out) -> Mem<()>
    ensures { OnOk result (out.new ≡ out.old ++ turn_fields item.now) }
{
    out.put_number(FROM, zigzag(item.from))?;
    out.put_number(VIA, zigzag(item.via))?;
    out.put_number(TO, zigzag(item.to))
}
