//! The order in which records are packed.

ghost use Rattle.std.specs.Prelude.{◌≡◌, map, IfOk};
ghost use Rattle.std.specs.List.{AllByRecursion};
ghost use Rattle.std.specs.List.Sorted.{IsSorted, IsPermutation};
ghost use Rattle.boxed_write.specs.Packed.{packing_cmp, sorted_by};
ghost use Rattle.boxed_write.specs.Classes.{held, items_of, IsPlaced, placed_cmp};

use crate::class::WriteClass;
use box_tree::code;
use live_model::Rect;
use owned_data::Mem;
use std::alloc::Global;
use std::cmp::Ordering;

/// The code of the centre of a record's box, the box, and the record.
pub(crate) type Placed<'a, R> = (u64, Rect, &'a R);

/// The items of a list, each borrowed.
pub fn borrowed<T>(alloc: Global, items: &[T]) -> Mem<Vec<&T>>
    ensures { IfOk result (λ all. held all.items ≡ items.now) }
{
    let mut all = Vec::with_capacity(alloc, items.len())?;
    let mut rest = items;
    while let [item, after @ ..] = rest {
        all.push(item)?;
        rest = after;
    }
    Ok(all)
}

/// The records in packing order, each with its box.
pub(crate) fn packed<'a, C: WriteClass>(
    alloc: Global,
    records: &[&'a C::Record],
) -> Mem<Vec<Placed<'a, C::Record>>>
    requires { AllByRecursion C.fits (held records.now) }
    ensures order { IfOk result (λ order. items_of order.items ≡ sorted_by (packing_cmp C.packing) (held records.now)) }
    ensures placed { IfOk result (λ order. AllByRecursion (IsPlaced C.packing) order.items) }
{
    let mut order = placed::<C>(alloc, records)?;
    sort_placed::<C>(&mut order);
    Ok(order)
}

/// Each record with its box and the code of the box's centre.
fn placed<'a, C: WriteClass>(
    alloc: Global,
    records: &[&'a C::Record],
) -> Mem<Vec<Placed<'a, C::Record>>>
    ensures records { IfOk result (λ placed. items_of placed.items ≡ held records.now) }
    ensures placed { IfOk result (λ placed. AllByRecursion (IsPlaced C.packing) placed.items) }
{
    let mut placed = Vec::with_capacity(alloc, records.len())?;
    let mut rest = records;
    while let [record, after @ ..] = rest {
        let rect = C::rect(record);
        placed.push((code(&rect), rect, *record))?;
        rest = after;
    }
    Ok(placed)
}

/// Puts records in packing order. Records that tie are one, so it does not matter that the sort is not stable.
fn sort_placed<C: WriteClass>(placed: &mut Vec<Placed<'_, C::Record>>)
    ensures all { IsPermutation placed.old.items placed.new.items }
    ensures sorted { IsSorted (placed_cmp C.packing) placed.new.items }
{
    placed.sort_unstable_by(|one, other| compare_placed::<C>(one, other));
}

/// By the code, then in the order of records, which is asked only where the codes are equal.
fn compare_placed<C: WriteClass>(
    one: &Placed<'_, C::Record>,
    other: &Placed<'_, C::Record>,
) -> Ordering
    ensures { result ≡ placed_cmp C.packing one.now other.now }
{
    match one.0.cmp(&other.0) {
        Ordering::Less => Ordering::Less,
        Ordering::Equal => C::compare(one.2, other.2),
        Ordering::Greater => Ordering::Greater,
    }
}

/// The records of a block, in the order of records.
pub(crate) fn in_order<'a, C: WriteClass>(
    alloc: Global,
    records: &[Placed<'a, C::Record>],
) -> Mem<Vec<Placed<'a, C::Record>>>
    requires fits { AllByRecursion C.fits (items_of records.now) }
    requires placed { AllByRecursion (IsPlaced C.packing) records.now }
    ensures order { IfOk result (λ ordered. items_of ordered.items ≡ sorted_by C.packing.cmp (items_of records.now)) }
    ensures placed { IfOk result (λ ordered. AllByRecursion (IsPlaced C.packing) ordered.items) }
{
    let mut ordered = Vec::from_slice(alloc, records)?;
    sort::<C>(&mut ordered);
    Ok(ordered)
}

/// Puts records in order.
fn sort<C: WriteClass>(records: &mut Vec<Placed<'_, C::Record>>)
    ensures all { IsPermutation records.old.items records.new.items }
    ensures sorted { IsSorted (λ a b. C.packing.cmp a.2.now b.2.now) records.new.items }
{
    records.sort_unstable_by(|one, other| C::compare(one.2, other.2));
}
