//! The texts of a block, where they stand.

ghost use Rattle.std.specs.Prelude.{◌≡◌, ◌+◌, List, ℕ, Ok};
ghost use Rattle.obf_wire.specs.Windows.{range_of};
ghost use Rattle.file_grammar.specs.declared.parts.Part.TheVariants.{Texts};
ghost use Rattle.file_grammar.specs.Messages.{Fields};
ghost use Rattle.file_grammar.specs.Readings.{message_at};
ghost use Rattle.file_grammar.specs.Sections.{Placed, text_of, texts_in};
ghost use Rattle.boxed_exact.specs.Texts.{AreTexts};

use file_grammar::{FieldWalk, Part};
use obf_wire::Window;

/// The texts of a block: the range of their message, and how many there are.
#[derive(Clone, Copy, Debug)]
pub struct BlockTexts<'a> {
    pub window: Window<'a>,
    pub count: usize,
}

impl<'a> BlockTexts<'a> {
    /// The text of a number: the empty one for 0, else the one at the index before it; the empty one too where there is none. It
    /// goes over the texts before it.
    pub fn get(self, number: u64) -> &'a [u8]
        ensures { (there : List (Placed (List ℕ))) → AreTexts self.entry there → result.now ≡ text_of there number }
    {
        text_of(self.window, number)
    }
}

/// The text of a number among those in a window: the empty one for 0, else the one at the index before it; the empty one too
/// where there is none. It goes over the texts before it.
pub fn text_of(window: Window<'_>, number: u64) -> &[u8]
    ensures { (fields : Fields) → message_at Texts (range_of window.entry) ≡ Ok fields → result.now ≡ text_of (texts_in fields) number }
{
    if number == 0 {
        return &[];
    }
    text_at(window, number - 1)
}

/// The text of an index; the empty one where there is none.
fn text_at(window: Window<'_>, index: u64) -> &[u8]
    ensures { (fields : Fields) → message_at Texts (range_of window.entry) ≡ Ok fields → result.now ≡ text_of (texts_in fields) (index + 1) }
{
    let bytes = window.all();
    let mut walk = FieldWalk::new(Part::Texts, window);
    let mut left = index;
    while let Some(field) = walk.next() {
        if left == 0 {
            return &bytes[field.from..field.to];
        }
        left -= 1;
    }
    &[]
}
