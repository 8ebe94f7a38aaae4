//! The section of points of interest, written.

ghost use Rattle.std.specs.Prelude.{◌≡◌, ◌≤◌, ◌++◌, drop, length, take, IfOk, OnOk, OnErr};
ghost use Rattle.std.specs.List.{AllByRecursion};
ghost use Rattle.std.specs.Ordering.{is_eq};
ghost use Rattle.live_model.specs.Fits.{FitsPoi};
ghost use Rattle.text_table.specs.Tables.{text_cmp};
ghost use Rattle.boxed_write.specs.Classes.{held};
ghost use Rattle.boxed_write.proofs.Sorting.{AreUp};
ghost use Rattle.poi_section.specs.Packed.{IsPlaced, category_cmp, group, packed_pois, run_of};

use crate::class::PoiClass;
use live_model::PoiRec;
use obf_wire::Out;
use owned_data::{Mem, NoMemory};
use std::alloc::Global;
use std::cmp::Ordering;

/// The number of the field that a group is.
const GROUP: u64 = 1;

/// The numbers of the fields of a group: its category, and its records.
const CATEGORY: u64 = 1;

const RECORDS: u64 = 2;

/// Appends the bytes of the section of these records, in whichever order they are given. Equal records may be among them.
/// After out of memory `out` is as it was. It takes n log n time, however many categories there are.
pub fn write(alloc: Global, records: &[&PoiRec], out: &mut Vec<u8>) -> Mem<()>
    requires { AllByRecursion FitsPoi (held records.now) }
    ensures ok { OnOk result (out.new.items ≡ out.old.items ++ packed_pois (held records.now)) }
    ensures err { OnErr result (out.new.items ≡ out.old.items) }
{
    let order = by_category(alloc, records)?;
    let mut groups = Out::new(alloc);
    put_groups(alloc, &order, &mut groups)?;
    match out.extend_from_slice(groups.as_slice()) {
        Ok(()) => Ok(()),
        Err(_) => Err(NoMemory),
    }
}

/// The records in the order of their categories. Those of one category stay as they stood.
fn by_category<'a>(alloc: Global, records: &[&'a PoiRec]) -> Mem<Vec<&'a PoiRec>>
    requires { AllByRecursion IsPlaced (held records.now) }
    ensures up { IfOk result (λ order. AreUp category_cmp (held order.items)) }
    ensures placed { IfOk result (λ order. AllByRecursion IsPlaced (held order.items)) }
    ensures same { IfOk result (λ order. packed_pois (held order.items) ≡ packed_pois (held records.now)) }
{
    let mut order = Vec::from_slice(alloc, records)?;
    order.sort_by(|one, other| compare_categories(one, other))?;
    Ok(order)
}

/// By the bytes of the category.
fn compare_categories(one: &PoiRec, other: &PoiRec) -> Ordering
    ensures { result ≡ category_cmp one.now other.now }
{
    one.category.as_bytes().cmp(other.category.as_bytes())
}

/// Appends a group for each category of records that stand in the order of their categories.
fn put_groups(alloc: Global, records: &[&PoiRec], out: &mut Out) -> Mem<()>
    requires up { AreUp category_cmp (held records.now) }
    requires placed { AllByRecursion IsPlaced (held records.now) }
    ensures { OnOk result (out.new ≡ out.old ++ packed_pois (held records.now)) }
{
    let mut rest = records;
    while !rest.is_empty() {
        let count = put_first(alloc, rest, out)?;
        rest = behind(rest, count);
    }
    Ok(())
}

/// Appends the group of the first record's category, and tells how many records are of it.
fn put_first(alloc: Global, records: &[&PoiRec], out: &mut Out) -> Mem<usize>
    requires some { 1 ≤ length records.now }
    requires up { AreUp category_cmp (held records.now) }
    requires placed { AllByRecursion IsPlaced (held records.now) }
    ensures put { IfOk result (λ count. out.new ++ packed_pois (held (drop count records.now)) ≡ out.old ++ packed_pois (held records.now)) }
    ensures up { IfOk result (λ count. AreUp category_cmp (held (drop count records.now))) }
    ensures placed { IfOk result (λ count. AllByRecursion IsPlaced (held (drop count records.now))) }
    ensures some { IfOk result (λ count. (1 ≤ count) × (count ≤ length records.now)) }
{
    let first = records[0];
    let category = first.category.as_bytes();
    let count = run_of(category, records);
    put_group(alloc, category, front(records, count), out)?;
    Ok(count)
}

/// The first so many records.
fn front<'a, 'b>(records: &'b [&'a PoiRec], count: usize) -> &'b [&'a PoiRec]
    requires { count ≤ length records.now }
    ensures { result.now ≡ take count records.now }
{
    &records[..count]
}

/// The records after so many.
fn behind<'a, 'b>(records: &'b [&'a PoiRec], count: usize) -> &'b [&'a PoiRec]
    requires { count ≤ length records.now }
    ensures { result.now ≡ drop count records.now }
{
    &records[count..]
}

/// How many records at the front are of this category.
fn run_of(category: &[u8], records: &[&PoiRec]) -> usize
    ensures count { result ≡ run_of category.now (held records.now) }
    ensures within { result ≤ length records.now }
{
    let mut count = 0;
    let mut rest = records;
    while let [first, after @ ..] = rest {
        if !is_of(category, first) {
            return count;
        }
        count += 1;
        rest = after;
    }
    count
}

/// Whether an item is of this category.
fn is_of(category: &[u8], item: &PoiRec) -> bool
    ensures { result ≡ is_eq (text_cmp category.now item.now.category) }
{
    category.cmp(item.category.as_bytes()) == Ordering::Equal
}

/// Appends the group of a category with these records.
fn put_group(alloc: Global, category: &[u8], records: &[&PoiRec], out: &mut Out) -> Mem<()>
    requires { AllByRecursion IsPlaced (held records.now) }
    ensures { OnOk result (out.new ≡ out.old ++ group category.now (held records.now)) }
{
    let mut boxes = Vec::new(alloc);
    boxed_write::write::<PoiClass>(alloc, records, &mut boxes)?;
    let start = out.begin_section(GROUP)?;
    out.put_short(CATEGORY, category)?;
    out.put_section(RECORDS, &boxes)?;
    out.end_section(start);
    Ok(())
}
