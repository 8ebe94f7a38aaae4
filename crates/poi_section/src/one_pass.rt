//! Groups of points of interest in one pass.

ghost use Rattle.std.specs.Prelude.{◌≡◌, IfOk, IfSome};
ghost use Rattle.std.specs.Ordering.{is_le};
ghost use Rattle.text_table.specs.Tables.{text_cmp};
ghost use Rattle.obf_wire.specs.Windows.{range_of};
ghost use Rattle.boxed_exact.specs.Sides.{AreRising, beside};
ghost use Rattle.poi_section.specs.Groups.{ArePoisKept, IsGoodGroup, may_rise};

use crate::categories::is_category;
use crate::class::PoiClass;
use crate::kept::{GroupKept, PoisKept};
use boxed_check::see_section;
use boxed_exact::{Around, Payload, is_utf8};
use obf_wire::{Field, Window, expected, expected_wide};
use owned_data::{Mem, NoMemory};
use std::alloc::Global;
use std::cmp::Ordering;

/// The keys of a group, and in it of its category and its records.
const GROUP: u8 = 14;

const CATEGORY: u8 = 10;

const RECORDS: u8 = 22;

/// Reads the groups in a window in one pass. `Some` only where their form is good and all that has to hold of them holds.
/// `None` says nothing.
pub fn see_groups(alloc: Global, window: Window<'_>, around: &Around<'_>) -> Mem<Option<PoisKept>>
    requires marks { AreRising around.now.marks }
    ensures { IfOk result (λ found. IfSome found (ArePoisKept (beside around.now) (range_of window.entry))) }
{
    let mut groups = Vec::new(alloc);
    let mut records: usize = 0;
    let mut before: &[u8] = &[];
    let mut at = window.from();
    while at < window.to() {
        let Some(field) = expected_wide(window, at, GROUP) else {
            return Ok(None);
        };
        let found = see_group(alloc, window.part(field.from, field.to), around)?;
        let Some(group) = found else {
            return Ok(None);
        };
        let category = &window.all()[group.category.from..group.category.to];
        if !may_rise(before, category) {
            return Ok(None);
        }
        let Some(sum) = records.checked_add(group.kept.records()) else {
            return Ok(None);
        };
        records = sum;
        groups.push(group)?;
        before = category;
        at = field.to;
    }
    Ok(Some(PoisKept { groups, records }))
}

/// Reads the group in a window in one pass. `Some` only where its form is good, it has a category and a block, and every rule
/// holds of its records.
fn see_group(alloc: Global, window: Window<'_>, around: &Around<'_>) -> Mem<Option<GroupKept>>
    requires marks { AreRising around.now.marks }
    ensures good { IfOk result (λ found. IfSome found (IsGoodGroup (beside around.now) (range_of window.entry))) }
{
    let Some(category) = expected(window, window.from(), CATEGORY) else {
        return Ok(None);
    };
    let Some(records) = expected_wide(window, category.to, RECORDS) else {
        return Ok(None);
    };
    if records.to != window.to() || !is_category(&window.all()[category.from..category.to]) {
        return Ok(None);
    }
    let found = see_section::<PoiClass>(alloc, window.part(records.from, records.to), around)?;
    let Some(kept) = found else {
        return Ok(None);
    };
    if kept.blocks().is_empty() {
        return Ok(None);
    }
    Ok(Some(GroupKept {
        category: span_of(category),
        records: span_of(records),
        kept,
    }))
}

/// Where the payload of a field stands.
fn span_of(field: Field) -> Payload
    ensures { result ≡ record { at = field.at; from = field.from; to = field.to } }
{
    Payload {
        at: field.at,
        from: field.from,
        to: field.to,
    }
}

/// Whether a category may stand after another one: not below it, where both are UTF-8.
pub(crate) fn may_rise(before: &[u8], category: &[u8]) -> bool
    ensures { result ≡ may_rise before.now category.now }
{
    is_not_above(before, category) || !(is_utf8(before) && is_utf8(category))
}

/// Whether a text is not above another one.
fn is_not_above(before: &[u8], text: &[u8]) -> bool
    ensures { result ≡ is_le (text_cmp before.now text.now) }
{
    before.cmp(text) != Ordering::Greater
}
