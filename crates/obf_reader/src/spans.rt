//! Where the parts of a file stand.

ghost use Rattle.std.specs.Prelude.{◌≡◌, ◌≤◌, Ok, length};
ghost use Rattle.file_grammar.specs.declared.parts.Part.TheVariants.{Marks};
ghost use Rattle.file_grammar.specs.Messages.{Fields};
ghost use Rattle.file_grammar.specs.Readings.{message_at};
ghost use Rattle.obf_reader.specs.Spread.{AreInside, HoldsMarks, IsInBytes, IsSpread, read_file};

use boxed_exact::{Number, Payload, next_number, next_payload};
use file_grammar::{FieldWalk, Part, Version};
use obf_wire::Window;

/// Where the sections of records stand.
#[derive(Clone, Copy, Debug)]
pub struct Sections {
    pub(crate) map: Payload,
    pub(crate) addresses: Payload,
    pub(crate) pois: Payload,
    pub(crate) roads: Payload,
}

/// Where the parts of a file stand, and the version at its beginning and again at its end.
#[derive(Clone, Copy, Debug)]
pub(crate) struct Spans {
    pub(crate) version: Number,
    pub(crate) head: Payload,
    pub(crate) rules: Payload,
    pub(crate) sections: Sections,
    pub(crate) marks: Payload,
    pub(crate) again: Number,
}

/// Goes over the fields of a file whose form is good.
pub(crate) fn file_spans(bytes: &[u8]) -> Spans
    ensures inside { AreInside bytes.now result }
    ensures spread { (fields : Fields) → read_file bytes.now ≡ Ok fields → IsSpread bytes.now result fields }
{
    let mut walk = FieldWalk::new(Part::File(Version::of(bytes)), Window::whole(bytes));
    let version = next_number(&mut walk);
    let head = next_payload(&mut walk);
    let rules = next_payload(&mut walk);
    let map = next_payload(&mut walk);
    let addresses = next_payload(&mut walk);
    let pois = next_payload(&mut walk);
    let roads = next_payload(&mut walk);
    let marks = next_payload(&mut walk);
    let again = next_number(&mut walk);
    Spans {
        version,
        head,
        rules,
        sections: Sections {
            map,
            addresses,
            pois,
            roads,
        },
        marks,
        again,
    }
}

/// Where the list of marks stands in the message that holds it.
pub(crate) fn list_of_marks(bytes: &[u8], marks: Payload) -> Payload
    requires inside { IsInBytes bytes.now marks }
    ensures inside { IsInBytes bytes.now result }
    ensures list { (inner : Fields) → message_at Marks (record { bytes = bytes.now; place = marks.from; end = marks.to }) ≡ Ok inner → HoldsMarks bytes.now result inner }
{
    let mut walk = FieldWalk::new(Part::Marks, Window::new(bytes, marks.from, marks.to));
    next_payload(&mut walk)
}
