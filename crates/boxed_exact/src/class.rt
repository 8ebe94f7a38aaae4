//! What a class of boxed records brings to be checked.

ghost use Rattle.std.specs.Prelude.{◌≡◌, ◌≤◌, ◌+◌, Option, IfSome, Ok};
ghost use Rattle.std.specs.Option.{option_map};
ghost use Rattle.obf_wire.specs.Windows.{range_of};
ghost use Rattle.file_grammar.specs.declared.parts.Boxed.{Boxed};
ghost use Rattle.file_grammar.specs.declared.parts.Part.TheVariants.{Record as RecordPart};
ghost use Rattle.file_grammar.specs.BoxRules.{Boxing};
ghost use Rattle.file_grammar.specs.Messages.{Fields};
ghost use Rattle.file_grammar.specs.Readings.{message_at};
ghost use Rattle.file_grammar.specs.Sections.{Block, Entry, step_of};
ghost use Rattle.boxed_exact.specs.Boxes.{box_of};
ghost use Rattle.boxed_exact.specs.Records.{IsGoodRecord, IsRecordChecked};
ghost use Rattle.boxed_exact.specs.Sides.{AreRising, beside};
ghost use Rattle.boxed_exact.specs.Texts.{AreTexts};

use crate::around::Around;
use crate::block_texts::BlockTexts;
use crate::edges::Edges;
use file_grammar::{Boxed as Class, FirstBreak};
use obf_wire::Window;

/// What was seen of a record that was checked: its ordinal, what the order of records goes by, and whether its points are
/// in a box.
#[derive(Clone, Copy, Debug)]
pub struct Checked<K> {
    pub ordinal: u128,
    pub key: K,
    pub in_box: bool,
}

/// What was seen of a good record: its ordinal, and what the order of records goes by.
#[derive(Clone, Copy, Debug)]
pub struct Seen<K> {
    pub ordinal: u64,
    pub key: K,
}

/// A class of boxed records that are checked, as a type of its own: which class it is, what has to hold of its records and where
/// their points lie, and two ways to check one record.
pub trait CheckClass {
    /// What the order of records goes by.
    type Key: Copy;

    ghost class: { Boxed };

    ghost boxing: { Boxing };

    ghost key_of: { Entry → Self.Key };

    /// The class.
    fn class() -> Class
        ensures { result ≡ class };

    /// Checks every rule of the record in a window, whose form is good and whose field begins at `at`, after one of this ordinal and key, in a block of
    /// these texts, and whether its points are in a box.
    fn check(
        window: Window<'_>,
        at: usize,
        ordinal: u128,
        before: Option<Self::Key>,
        texts: BlockTexts<'_>,
        holder: &Edges,
        around: &Around<'_>,
        first: &mut FirstBreak,
    ) -> Checked<Self::Key>
        requires few { ordinal ≤ 340282366920938463444927863358058659840 }
        requires marks { AreRising around.now.marks }
        ensures checked { (fields : Fields) (block : Block) (prev : Option Entry) → message_at (RecordPart class) (range_of window.entry) ≡ Ok fields
            → AreTexts texts.entry block.texts → option_map key_of prev ≡ before
            → IsRecordChecked boxing key_of (beside around.now) (box_of holder.now) block prev (record { at = at; ordinal = ordinal + step_of fields; fields = fields }) first.old first.new result.ordinal result.key result.in_box }
        ensures step { result.ordinal ≤ ordinal + 18446744073709551615 };

    /// The record in a window, whose field begins at `at`, after one of this ordinal and key, in a block of these texts: `Some` only where its form is good
    /// and every rule holds, and its points are in the box. `None` says nothing.
    fn see(
        window: Window<'_>,
        at: usize,
        ordinal: u64,
        before: Option<Self::Key>,
        texts: BlockTexts<'_>,
        holder: &Edges,
        around: &Around<'_>,
    ) -> Option<Seen<Self::Key>>
        requires few { ordinal ≤ 4503599627370496 }
        requires marks { AreRising around.now.marks }
        ensures good { IfSome result (λ seen. IsGoodRecord class boxing key_of (beside around.now) (box_of holder.now) before texts.entry ordinal at (range_of window.entry) seen.ordinal seen.key) }
        ensures few { IfSome result (λ seen. seen.ordinal ≤ 4503599627370496) };
}
