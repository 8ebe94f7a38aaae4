//! The records of a block, one after another.

ghost use Rattle.std.specs.Prelude.{◌≡◌, ◌∷◌, [], Ok, MatchOption};
ghost use Rattle.obf_wire.specs.Windows.{range_of};
ghost use Rattle.file_grammar.specs.declared.parts.Part.TheVariants.{Record as RecordPart};
ghost use Rattle.file_grammar.specs.Messages.{Fields};
ghost use Rattle.file_grammar.specs.Readings.{message_at};
ghost use Rattle.file_grammar.specs.Sections.{step_of};
ghost use Rattle.boxed_read.specs.Records.{records_at};
ghost use Rattle.boxed_read.specs.Sound.{HoldsBlock};

use crate::class::ReadClass;
use crate::view::View;
use boxed_exact::next_payload;
use file_grammar::{FieldWalk, Part};
use obf_wire::Window;
use std::marker::{Model, PhantomData};

/// The records of a block, seen as those that are still to come. It takes no memory.
#[derive(Drop)]
pub struct Entries<'a, C: ReadClass> {
    walk: FieldWalk<'a>,
    texts: Window<'a>,
    before: u64,
    group: &'a str,
    class: PhantomData<C>,
}

impl<'a, C: ReadClass> Model for Entries<'a, C> {
    ghost use Rattle.std.specs.Prelude.{◌≡◌, List};
    ghost use Rattle.obf_wire.specs.Windows.{range_of};
    ghost use Rattle.boxed_read.specs.Records.{records_left};
    ghost use Rattle.boxed_read.specs.Sound.{AreSoundLeft};

    ghost Value = { List C.Record };

    ghost view = { λ e. records_left C.class (C.reads e.group.now) (range_of e.texts) e.before e.walk };

    ghost invariant = { λ e. (e.walk.window.bytes ≡ e.texts.bytes.now) × AreSoundLeft C.class C.boxing (range_of e.texts) e.before e.walk };
}

impl<'a, C: ReadClass> Entries<'a, C> {
    /// The records of the block in a window, of which every rule holds.
    pub(crate) fn of_block(window: Window<'a>, group: &'a str) -> Entries<'a, C>
        requires { HoldsBlock C.class C.boxing (range_of window) }
        ensures { result ≡ records_at C.class (C.reads group.entry.now) (range_of window.entry) }
    {
        let mut walk = FieldWalk::new(Part::Block(C::class()), window);
        let texts = next_payload(&mut walk);
        Entries {
            walk,
            texts: window.part(texts.from, texts.to),
            before: 0,
            group,
            class: PhantomData,
        }
    }

    /// The next record, or `None` where none is left.
    pub fn next(&mut self) -> Option<View<'a, C>>
        ensures { MatchOption result (self.old ≡ []) (λ view. self.old ≡ view ∷ self.new) }
    {
        match self.walk.next() {
            Some(field) => {
                let window = self.texts.part(field.from, field.to);
                let ordinal = self.before + step_in::<C>(window);
                self.before = ordinal;
                Some(View::new(window, self.texts, ordinal, self.group))
            }
            None => None,
        }
    }
}

/// The number with which a record begins.
fn step_in<C: ReadClass>(window: Window<'_>) -> u64
    ensures { (fields : Fields) → message_at (RecordPart C.class) (range_of window.entry) ≡ Ok fields → result ≡ step_of fields }
{
    let mut walk = FieldWalk::new(Part::Record(C::class()), window);
    match walk.next() {
        Some(field) => field.value,
        None => 0,
    }
}
