//! What a class of boxed records brings to be read.

ghost use Rattle.std.specs.Prelude.{◌≡◌, ℕ, List, Ok, IfOk};
ghost use Rattle.live_model.specs.Ids.{Id};
ghost use Rattle.obf_wire.specs.Windows.{range_of};
ghost use Rattle.file_grammar.specs.declared.parts.Part.TheVariants.{Record as RecordPart, Texts};
ghost use Rattle.file_grammar.specs.Messages.{Fields};
ghost use Rattle.file_grammar.specs.Readings.{message_at};
ghost use Rattle.file_grammar.specs.Sections.{Block, Entry, texts_in};
ghost use Rattle.boxed_read.specs.Records.{IsReading, only_fields, only_texts};
ghost use Rattle.boxed_read.specs.Sound.{IsSoundRecord};

use boxed_exact::CheckClass;
use obf_wire::Window;
use owned_data::Mem;
use std::alloc::Global;

/// A class of boxed records that are read. A group is what a file keeps several sections of a class apart by: for points of
/// interest their category; where a file has one section of the class, it is empty.
pub trait ReadClass: CheckClass {
    type Record: Drop;

    // The record in a group that an entry of a block stands for, and whose it is.
    ghost reads: { List ℕ → Block → Entry → Self.Record };

    ghost id_of: { Self.Record → Id };

    /// The record of this ordinal in a window, in a block with the texts in another. Memory is taken for the record alone.
    fn read(
        alloc: Global,
        window: Window<'_>,
        ordinal: u64,
        texts: Window<'_>,
        group: &str,
    ) -> Mem<Self::Record>
        requires { IsSoundRecord Self.class Self.boxing (range_of texts) (range_of window) ordinal }
        ensures { IfOk result (λ item. (fields named : Fields) → message_at (RecordPart Self.class) (range_of window.entry) ≡ Ok fields → message_at Texts (range_of texts.entry) ≡ Ok named
            → item ≡ reads group.now (only_texts (texts_in named)) (only_fields ordinal fields)) };

    ghost reading: { IsReading Self.CheckClass.boxing reads id_of };
}
