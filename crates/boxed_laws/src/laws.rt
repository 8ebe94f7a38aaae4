//! The laws of packed sections of any class.

ghost use Rattle.std.specs.Prelude.{◌≡◌, ℕ, List};
ghost use Rattle.live_model.specs.declared.rules.Rule.{Rule};
ghost use Rattle.file_grammar.specs.Sections.{Block, Entry};
ghost use Rattle.boxed_laws.specs.Bare.{Bare};
ghost use Rattle.boxed_laws.specs.Classes.{BoxedClass, IsLawful};
ghost use Rattle.boxed_laws.specs.Laws.{AnyOrderLaw, FittingLaw, KeptLaw, MarkedLaw, PackedLaw, PackedMarkedLaw, PackedReadLaw};

use boxed_exact::CheckClass;
use boxed_write::WriteClass;

/// A class whose writer and readers agree: what is checked of a section is what the laws say of what is packed.
pub trait SectionLaws: WriteClass + CheckClass {
    // The record of an entry, which records suit a table of rules, and the fields of a record after its ordinal.
    ghost reads: { Block → Entry → Self.Record };

    ghost suits: { List Rule → Self.Record → Type 0 };

    ghost bare: { List (List ℕ) → Self.Record → Bare };

    // What the class shows of one record.
    ghost lawful: { IsLawful (record { class = Self.CheckClass.class; packing = Self.WriteClass.packing; boxing = Self.CheckClass.boxing; reads = reads; bare = bare }) suits };
}

/// That what is packed of records that suit the rules is a section of these records, in the order of its blocks, and that
/// every rule holds of it. Read in memory, it gives these records, and no rule fails.
pub fn packed_sections_are_good<C: SectionLaws>()
    ensures spelled { PackedLaw (record { class = C.class; packing = C.packing; boxing = C.boxing; reads = C.reads; bare = C.bare }) C.suits }
    ensures read { PackedReadLaw (record { class = C.class; packing = C.packing; boxing = C.boxing; reads = C.reads; bare = C.bare }) C.suits }
{}

/// That a section in which every rule holds without marks is good beside marks that contain the object of each of its records; and so is
/// what is packed of such records.
pub fn marked_sections_are_good<C: SectionLaws>()
    ensures sound { MarkedLaw (record { class = C.class; packing = C.packing; boxing = C.boxing; reads = C.reads; bare = C.bare }) }
    ensures packed { PackedMarkedLaw (record { class = C.class; packing = C.packing; boxing = C.boxing; reads = C.reads; bare = C.bare }) C.suits }
{}

/// That the records of a section in which every rule holds suit the rules, however it is packed.
pub fn sound_sections_suit<C: SectionLaws>()
    ensures { FittingLaw (record { class = C.class; packing = C.packing; boxing = C.boxing; reads = C.reads; bare = C.bare }) C.suits }
{}

/// That each record stands in one block of a packed section, as often as it was given.
pub fn packing_keeps_each_record<C: WriteClass>()
    ensures { KeptLaw C.packing }
{}

/// That records which can be packed are packed to the same bytes in whatever order they are given.
pub fn any_order_packs_the_same<C: WriteClass>()
    ensures { AnyOrderLaw C.packing C.fits }
{}
