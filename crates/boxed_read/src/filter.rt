//! Filters of records at a rectangle.

ghost use Rattle.std.specs.Prelude.{◌≡◌, ℕ, List, Bool, Ok};
ghost use Rattle.live_model.specs.declared.points.Rect.{Rect};
ghost use Rattle.obf_wire.specs.Windows.{range_of};
ghost use Rattle.file_grammar.specs.declared.parts.Part.TheVariants.{Record as RecordPart, Texts};
ghost use Rattle.file_grammar.specs.Messages.{Fields};
ghost use Rattle.file_grammar.specs.Readings.{message_at};
ghost use Rattle.file_grammar.specs.Sections.{texts_in};
ghost use Rattle.boxed_read.specs.Filters.{PassesOnlyNear};
ghost use Rattle.boxed_read.specs.Records.{only_fields, only_texts};
ghost use Rattle.boxed_read.specs.Sound.{IsSoundRecord};

use crate::class::ReadClass;
use live_model::Rect as Bounds;
use obf_wire::Window;

/// What a question asks of the records of a class: a test that a record passes only near a rectangle, so that no block has to be read whose
/// box does not meet it.
pub trait SpatialFilter<C: ReadClass>: Drop {
    ghost rect_of: { Self → Rect };

    ghost passing: { Self → C.Record → Bool };

    /// The rectangle.
    fn rect(&self) -> Bounds
        ensures { result ≡ rect_of self.now };

    /// Whether the record of this ordinal in a window passes, in a block with the texts in another.
    fn passes(&self, window: Window<'_>, ordinal: u64, texts: Window<'_>) -> bool
        requires { IsSoundRecord C.class C.boxing (range_of texts) (range_of window) ordinal }
        ensures { (group : List ℕ) (fields named : Fields) → message_at (RecordPart C.class) (range_of window.entry) ≡ Ok fields → message_at Texts (range_of texts.entry) ≡ Ok named
            → result ≡ passing self.now (C.reads group (only_texts (texts_in named)) (only_fields ordinal fields)) };

    ghost near: { (it : Self) → PassesOnlyNear C.boxing C.reads (passing it) (rect_of it) };
}
