//! The texts of a block.

ghost use Rattle.std.specs.Prelude.{◌≡◌, ◌≤◌, Ok, None, map, length};
ghost use Rattle.std.specs.Ordering.{is_lt};
ghost use Rattle.std.specs.Str.{is_utf8};
ghost use Rattle.file_grammar.specs.declared.parts.Part.TheVariants.{Texts};
ghost use Rattle.file_grammar.specs.BoxRules.{text_fact, with_before};
ghost use Rattle.file_grammar.specs.Facts.{earlier, first_failing};
ghost use Rattle.file_grammar.specs.Messages.{Fields};
ghost use Rattle.file_grammar.specs.Readings.{message_at};
ghost use Rattle.file_grammar.specs.Sections.{texts_in};
ghost use Rattle.obf_wire.specs.Windows.{range_of};
ghost use Rattle.text_table.specs.Tables.{text_cmp};
ghost use Rattle.boxed_exact.specs.Fields.{is_text_behind};

use file_grammar::{FieldWalk, FirstBreak, Part};
use obf_wire::{FileKind, Window};
use std::cmp::Ordering;
use std::str::from_utf8;

/// Asks what has to hold of the texts in a window, and counts them.
pub(crate) fn check_texts(window: Window<'_>, first: &mut FirstBreak) -> usize
    ensures asked { (fields : Fields) → message_at Texts (range_of window.entry) ≡ Ok fields
        → first.new ≡ earlier first.old (first_failing (map text_fact (with_before None (texts_in fields)))) }
    ensures counted { (fields : Fields) → message_at Texts (range_of window.entry) ≡ Ok fields → result ≡ length (texts_in fields) }
{
    let bytes = window.all();
    let mut walk = FieldWalk::new(Part::Texts, window);
    let mut before: &[u8] = &[];
    let mut count = 0;
    while let Some(field) = walk.next() {
        let text = &bytes[field.from..field.to];
        first.ask(field.at, FileKind::BadText, is_text(before, text));
        before = text;
        count += 1;
    }
    count
}

/// Whether a text may stand behind another one: UTF-8, not empty, and rising where both are UTF-8. The empty
/// text may be before the first one, since it comes before all others.
fn is_text(before: &[u8], text: &[u8]) -> bool
    ensures { result ≡ is_text_behind before.now text.now }
{
    is_utf8(text)
        && !text.is_empty()
        && (text_rises(before, text) || !(is_utf8(before) && is_utf8(text)))
}

pub fn text_rises(a: &[u8], b: &[u8]) -> bool
    ensures { result ≡ is_lt (text_cmp a.now b.now) }
{
    a.cmp(b) == Ordering::Less
}

#[tactic(auto, using(tag_rules::proofs::Texts::seen_text, tag_rules::proofs::Texts::seen_other))]
pub fn is_utf8(bytes: &[u8]) -> bool
    ensures { result ≡ is_utf8 bytes.now }
{
    match from_utf8(bytes) {
        Ok(_) => true,
        Err(_) => false,
    }
}
