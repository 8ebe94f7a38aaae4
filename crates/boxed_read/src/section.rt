//! A section that was checked.

ghost use Rattle.std.specs.Prelude.{◌≡◌, [], Ok, length};
ghost use Rattle.obf_wire.specs.Windows.{range_of};
ghost use Rattle.file_grammar.specs.declared.parts.Part.TheVariants.{Boxes};
ghost use Rattle.file_grammar.specs.Messages.{Fields};
ghost use Rattle.file_grammar.specs.Readings.{message_at};
ghost use Rattle.file_grammar.specs.Sections.{section_in};
ghost use Rattle.boxed_read.specs.Filters.{hits};
ghost use Rattle.boxed_read.specs.Meeting.{in_boxes, meeting};
ghost use Rattle.boxed_read.specs.Sound.{IsChecked};
ghost use Rattle.boxed_read.specs.Steps.{joined};

use crate::class::ReadClass;
use crate::cursor::AllCursor;
use crate::filter::SpatialFilter;
use crate::hits::HitCursor;
use crate::meeting::MeetingCursor;
use boxed_check::Kept;
use live_model::Rect;
use obf_wire::Window;
use std::marker::{Model, PhantomData};

/// A section of which every rule holds, seen as the records of its blocks, in the order of the file, and the boxes of their leaves. It borrows the
/// bytes and what the check left of them.
#[derive(Drop)]
pub struct Section<'a, C: ReadClass> {
    window: Window<'a>,
    kept: &'a Kept,
    group: &'a str,
    class: PhantomData<C>,
}

impl<'a, C: ReadClass> Model for Section<'a, C> {
    ghost use Rattle.obf_wire.specs.Windows.{range_of};
    ghost use Rattle.boxed_read.specs.Meeting.{InBoxes};
    ghost use Rattle.boxed_read.specs.Records.{records_of};
    ghost use Rattle.boxed_read.specs.Sound.{IsChecked};

    ghost Value = { InBoxes C.Record };

    ghost view = { λ s. record { blocks = records_of C.class (C.reads s.group.now) s.window.bytes.now s.kept.now.blocks.items; boxes = s.kept.now.tree } };

    ghost invariant = { λ s. IsChecked C.class C.boxing (range_of s.window) s.kept.now };
}

impl<'a, C: ReadClass> Section<'a, C> {
    /// The section in a window of which a check left this.
    pub fn new(window: Window<'a>, kept: &'a Kept) -> Section<'a, C>
        requires { IsChecked C.class C.boxing (range_of window) kept.now }
        ensures { (fields : Fields) → message_at (Boxes C.class) (range_of window.entry) ≡ Ok fields → result ≡ in_boxes (C.reads []) (section_in fields) }
    {
        Section::of_group(window, kept, "")
    }

    /// The same in a group of this name.
    pub fn of_group(window: Window<'a>, kept: &'a Kept, group: &'a str) -> Section<'a, C>
        requires { IsChecked C.class C.boxing (range_of window) kept.now }
        ensures { (fields : Fields) → message_at (Boxes C.class) (range_of window.entry) ≡ Ok fields → result ≡ in_boxes (C.reads group.entry.now) (section_in fields) }
    {
        Section {
            window,
            kept,
            group,
            class: PhantomData,
        }
    }

    /// How many records it has.
    pub fn len(&self) -> usize
        ensures { result ≡ length (joined self.now.blocks) }
    {
        self.kept.records()
    }

    /// All records, in the order of the file.
    pub fn all(&self) -> AllCursor<'a, C>
        ensures { result ≡ record { here = []; blocks = self.now.blocks } }
    {
        AllCursor::new(self.window, self.kept.blocks(), self.group)
    }

    /// The records of the blocks whose leaf has a box that meets the rectangle, edges included, in the order of the file.
    pub fn meeting(&self, rect: Rect) -> MeetingCursor<'a, C>
        ensures { result ≡ record { here = []; blocks = meeting rect self.now.boxes self.now.blocks } }
    {
        MeetingCursor::new(self.window, self.kept, self.group, rect)
    }

    /// The records that pass a filter, in the order of the file. Only blocks are read whose leaf has a box that meets the filter's rectangle.
    pub fn hits<F: SpatialFilter<C>>(&self, filter: F) -> HitCursor<'a, C, F>
        ensures { result ≡ hits (F.passing filter) (F.rect_of filter) self.now }
    {
        let met = MeetingCursor::new(self.window, self.kept, self.group, filter.rect());
        HitCursor::new(met, filter)
    }
}
