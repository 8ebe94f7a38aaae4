//! Blocks of boxed records.

ghost use Rattle.std.specs.Prelude.{◌≡◌, ◌-◌, ◌++◌, map, IfOk, OnOk};
ghost use Rattle.std.specs.List.{AllByRecursion};
ghost use Rattle.obf_wire.specs.Fields.{number_field, short_field, section};
ghost use Rattle.text_table.specs.Tables.{table_bytes};
ghost use Rattle.box_tree.specs.Trees.{around};
ghost use Rattle.boxed_write.specs.Packed.{texts_of, records_behind, block};
ghost use Rattle.boxed_write.specs.Classes.{items_of, boxes_of, IsNamedIn};

use crate::class::WriteClass;
use crate::order::Placed;
use box_tree::around;
use live_model::Rect;
use obf_wire::Out;
use owned_data::Mem;
use std::alloc::Global;
use text_table::TextTable;

/// The number of the field that a block is.
const BLOCK: u64 = 2;

/// The number of the field of a block's texts.
const TEXTS: u64 = 1;

/// The number of the field that a record is.
const RECORD: u64 = 2;

/// The number of the field of a record's ordinal, as the step from the record before.
const ORDINAL: u64 = 1;

/// The smallest box around those of some records; of none, that of the corner.
pub(crate) fn around_placed<R>(records: &[Placed<'_, R>]) -> Rect
    ensures { result ≡ around (boxes_of records.now) }
{
    let [first, others @ ..] = records else {
        return around(&[]);
    };
    let mut all = first.1;
    let mut others = others;
    while let [next, rest @ ..] = others {
        all = all.union(&next.1);
        others = rest;
    }
    all
}

/// Appends a whole block of these records. After out of memory a part of it may have been appended.
pub(crate) fn put_block<C: WriteClass>(
    alloc: Global,
    records: &[Placed<'_, C::Record>],
    out: &mut Out,
) -> Mem<()>
    requires { AllByRecursion C.fits (items_of records.now) }
    ensures { OnOk result (out.new ≡ out.old ++ block C.packing (items_of records.now)) }
{
    let texts = texts_of::<C>(alloc, records)?;
    let start = out.begin_section(BLOCK)?;
    put_texts(&texts, out)?;
    put_records::<C>(&texts, records, out)?;
    out.end_section(start);
    Ok(())
}

/// Just the texts that records name, each once; the empty text is none.
fn texts_of<C: WriteClass>(alloc: Global, records: &[Placed<'_, C::Record>]) -> Mem<TextTable>
    ensures { IfOk result (λ texts. texts ≡ texts_of C.packing (items_of records.now)) }
{
    let mut texts = TextTable::new(alloc);
    let mut rest = records;
    while let [record, after @ ..] = rest {
        C::add_texts(record.2, &mut texts)?;
        rest = after;
    }
    Ok(texts)
}

/// Appends the texts of a block.
fn put_texts(texts: &TextTable, out: &mut Out) -> Mem<()>
    ensures { OnOk result (out.new ≡ out.old ++ section 1 (table_bytes texts.now)) }
{
    let start = out.begin_section(TEXTS)?;
    texts.put(out)?;
    out.end_section(start);
    Ok(())
}

/// Appends the records of a block with these texts.
fn put_records<C: WriteClass>(
    texts: &TextTable,
    records: &[Placed<'_, C::Record>],
    out: &mut Out,
) -> Mem<()>
    requires fits { AllByRecursion C.fits (items_of records.now) }
    requires known { AllByRecursion (IsNamedIn C.packing texts.now) (items_of records.now) }
    ensures { OnOk result (out.new ≡ out.old ++ records_behind C.packing texts.now 0 (items_of records.now)) }
{
    let mut before = 0;
    let mut rest = records;
    while let [record, after @ ..] = rest {
        put_record::<C>(texts, before, record.2, out)?;
        before = C::ordinal(record.2);
        rest = after;
    }
    Ok(())
}

/// Appends a record after one with this ordinal.
fn put_record<C: WriteClass>(
    texts: &TextTable,
    before: u64,
    item: &C::Record,
    out: &mut Out,
) -> Mem<()>
    requires fits { C.fits item.now }
    requires known { IsNamedIn C.packing texts.now item.now }
    ensures { OnOk result (out.new ≡ out.old ++ short_field 2 (number_field 1 (C.packing.ordinal item.now - before) ++ C.packing.fields texts.now item.now)) }
{
    let start = out.begin_short(RECORD)?;
    out.put_number(ORDINAL, C::ordinal(item).saturating_sub(before))?;
    C::put_fields(texts, item, out)?;
    out.end_short(start)
}
