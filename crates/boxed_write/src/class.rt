//! What a class of boxed records brings to be written.

ghost use Rattle.std.specs.Prelude.{◌≡◌, ◌++◌, OnOk};
ghost use Rattle.boxed_write.specs.Packed.{Packing};
ghost use Rattle.boxed_write.specs.Classes.{IsPackedBy, IsNamedIn, nonempty, with_texts};

use live_model::Rect;
use obf_wire::Out;
use owned_data::Mem;
use std::cmp::Ordering;
use text_table::TextTable;

/// A class of records that stand in blocks under a tree of boxes. The type that implements it has no values: it names the
/// class, while the records are of a type of their own.
pub trait WriteClass {
    type Record: Drop;

    // How records of the class are packed.
    ghost packing: { Packing Self.Record };

    // Which records can be packed.
    ghost fits: { Self.Record → Type 0 };

    /// The order of records, which begins with the ordinal.
    fn compare(one: &Self::Record, other: &Self::Record) -> Ordering
        ensures { result ≡ packing.cmp one.now other.now };

    /// The ordinal of the record's object.
    fn ordinal(item: &Self::Record) -> u64
        ensures { result ≡ packing.ordinal item.now };

    /// The smallest box around the points of a record.
    fn rect(item: &Self::Record) -> Rect
        ensures { result ≡ packing.box item.now };

    /// Adds the texts that a record names; the empty text is none.
    fn add_texts(item: &Self::Record, texts: &mut TextTable) -> Mem<()>
        ensures { OnOk result (texts.new ≡ with_texts (nonempty (packing.texts item.now)) texts.old) };

    /// Appends the fields that follow the ordinal of a record, whose texts are in the table. After out of memory some of
    /// them may have been appended.
    fn put_fields(texts: &TextTable, item: &Self::Record, out: &mut Out) -> Mem<()>
        requires fits { fits item.now }
        requires known { IsNamedIn packing texts.now item.now }
        ensures { OnOk result (out.new ≡ out.old ++ packing.fields texts.now item.now) };

    // The order is total, and records that fit and tie are one.
    ghost laws: { IsPackedBy packing fits };
}
