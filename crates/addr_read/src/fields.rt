//! Where the fields of an address stand.

ghost use Rattle.std.specs.Prelude.{◌≡◌, Ok, Some, ℕ};
ghost use Rattle.obf_wire.specs.Windows.{range_of};
ghost use Rattle.file_grammar.specs.declared.parts.Part.TheVariants.{Address as AddressPart};
ghost use Rattle.file_grammar.specs.AddressRules.{Address, address_with};
ghost use Rattle.file_grammar.specs.Messages.{Fields, ends, has_bytes};
ghost use Rattle.file_grammar.specs.Readings.{message_at};
ghost use Rattle.file_grammar.specs.Walks.{left_in};
ghost use Rattle.addr_read.specs.Sound.{AreInside, HoldsAddress, IsInside, IsTextLeft};

use boxed_exact::{Payload, next_number, next_payload};
use file_grammar::{FieldWalk, Part, Version};
use obf_wire::Window;

/// The numbers of an address, and where its texts and the steps to its point stand; an empty text where it has no language.
#[derive(Clone, Copy, Debug)]
pub(crate) struct AddressFields {
    pub(crate) ordinal: u64,
    pub(crate) kind: u64,
    pub(crate) key: Payload,
    pub(crate) name: Payload,
    pub(crate) number: Payload,
    pub(crate) points: Payload,
    pub(crate) lang: Payload,
}

/// The fields of the address in a window.
pub(crate) fn read_fields(version: Version, window: Window<'_>) -> AddressFields
    ensures inside { AreInside window.entry.bytes.now result }
    ensures read { (fields : Fields) (at : ℕ) (a : Address) → message_at (AddressPart version) (range_of window.entry) ≡ Ok fields → address_with at fields ≡ Some a → HoldsAddress window.entry.bytes.now result a }
{
    let mut walk = FieldWalk::new(Part::Address(version), window);
    let ordinal = next_number(&mut walk);
    let kind = next_number(&mut walk);
    let key = next_payload(&mut walk);
    let name = next_payload(&mut walk);
    let number = next_payload(&mut walk);
    let points = next_payload(&mut walk);
    let lang = last_text(&mut walk);
    AddressFields {
        ordinal: ordinal.value,
        kind: kind.value,
        key,
        name,
        number,
        points,
        lang,
    }
}

/// Where the last text of a message stands; an empty one where none is left.
fn last_text(walk: &mut FieldWalk<'_>) -> Payload
    ensures inside { IsInside walk.old.window.bytes result }
    ensures none { left_in walk.old ≡ Ok ends → IsTextLeft walk.old.window.bytes result ends }
    ensures text { (at key : ℕ) (text : _) (rest : Fields) → left_in walk.old ≡ Ok (has_bytes at key text rest) → IsTextLeft walk.old.window.bytes result (has_bytes at key text rest) }
{
    match walk.next() {
        Some(field) => Payload {
            at: field.at,
            from: field.from,
            to: field.to,
        },
        None => Payload {
            at: 0,
            from: 0,
            to: 0,
        },
    }
}
