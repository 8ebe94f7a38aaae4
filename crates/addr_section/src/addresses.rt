//! The fields of an address.

ghost use Rattle.std.specs.Prelude.{◌≡◌, ℕ, List, None, Ok, Some};
ghost use Rattle.obf_wire.specs.Fields.{IsWindow};
ghost use Rattle.obf_wire.specs.Windows.{range_of};
ghost use Rattle.file_grammar.specs.declared.parts.Part.TheVariants.{Address as AddressPart};
ghost use Rattle.file_grammar.specs.Messages.{Fields, ends, has_bytes};
ghost use Rattle.file_grammar.specs.Readings.{message_at};
ghost use Rattle.file_grammar.specs.Sections.{placed};
ghost use Rattle.file_grammar.specs.Walks.{left_in};
ghost use Rattle.addr_section.specs.Seen.{IsRead, lang_of, sort_key};

use crate::spans::text_at;
use boxed_exact::{Edges, Number, PointsSeen, next_number, next_payload, see_points};
use file_grammar::{FieldWalk, Part, Version};
use obf_wire::Window;

/// The whole grid.
pub(crate) const GRID: Edges = Edges {
    left: 0,
    top: 0,
    right: 3_600_000_000,
    bottom: 1_800_000_000,
};

/// A text, and the offset of its field.
#[derive(Clone, Copy)]
pub(crate) struct TextSeen<'a> {
    pub(crate) at: usize,
    pub(crate) text: &'a [u8],
}

/// An address as it was seen: the offset of its field, and its fields. It has a language in a file of the second version alone.
#[derive(Clone, Copy)]
pub(crate) struct AddressSeen<'a> {
    pub(crate) at: usize,
    pub(crate) ordinal: Number,
    pub(crate) kind: Number,
    pub(crate) key: TextSeen<'a>,
    pub(crate) name: TextSeen<'a>,
    pub(crate) number: TextSeen<'a>,
    pub(crate) points_at: usize,
    pub(crate) points: PointsSeen,
    pub(crate) lang: Option<TextSeen<'a>>,
}

/// What the order of addresses goes by.
#[derive(Clone, Copy)]
pub(crate) struct SortKey<'a> {
    pub(crate) key: &'a [u8],
    pub(crate) kind: u64,
    pub(crate) ordinal: u64,
}

impl<'a> AddressSeen<'a> {
    /// What the order goes by.
    pub(crate) fn sort_key(&self) -> SortKey<'a>
        ensures { result ≡ sort_key self.now }
    {
        SortKey {
            key: self.key.text,
            kind: self.kind.value,
            ordinal: self.ordinal.value,
        }
    }
}

/// The address in a window, whose form is good and whose field begins at `at`.
pub(crate) fn read_address(version: Version, window: Window<'_>, at: usize) -> AddressSeen<'_>
    ensures { (fields : Fields) → message_at (AddressPart version) (range_of window.entry) ≡ Ok fields → IsRead at fields result }
{
    let bytes = window.all();
    let mut walk = FieldWalk::new(Part::Address(version), window);
    let ordinal = next_number(&mut walk);
    let kind = next_number(&mut walk);
    let key = next_text(&mut walk, bytes);
    let name = next_text(&mut walk, bytes);
    let number = next_text(&mut walk, bytes);
    let points = next_payload(&mut walk);
    let lang = last_text(&mut walk, bytes);
    AddressSeen {
        at,
        ordinal,
        kind,
        key,
        name,
        number,
        points_at: points.at,
        points: see_points(window.part(points.from, points.to), &GRID),
        lang,
    }
}

/// The text that is next in a message of good form.
fn next_text<'a>(walk: &mut FieldWalk<'_>, bytes: &'a [u8]) -> TextSeen<'a>
    requires same { walk.old.window.bytes ≡ bytes.now }
    ensures text { (at key : ℕ) (text : List ℕ) (rest : Fields) → left_in walk.old ≡ Ok (has_bytes at key text rest)
        → (result.at ≡ at) × (result.text.now ≡ text) × (left_in walk.new ≡ Ok rest) }
    ensures part { walk.new.part ≡ walk.old.part }
    ensures same { walk.new.window.bytes ≡ walk.old.window.bytes }
    ensures window { IsWindow walk.new.window }
{
    let payload = next_payload(walk);
    TextSeen {
        at: payload.at,
        text: text_at(bytes, payload),
    }
}

/// The text that is last in a message of good form, where one is left.
fn last_text<'a>(walk: &mut FieldWalk<'_>, bytes: &'a [u8]) -> Option<TextSeen<'a>>
    requires same { walk.old.window.bytes ≡ bytes.now }
    requires window { IsWindow walk.old.window }
    ensures none { left_in walk.old ≡ Ok ends → lang_of result ≡ None }
    ensures text { (at key : ℕ) (text : List ℕ) (rest : Fields) → left_in walk.old ≡ Ok (has_bytes at key text rest) → lang_of result ≡ Some (placed at text) }
{
    let Some(field) = walk.next() else {
        return None;
    };
    Some(TextSeen {
        at: field.at,
        text: &bytes[field.from..field.to],
    })
}
