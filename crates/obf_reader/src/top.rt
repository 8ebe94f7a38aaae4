//! The fields of a file, whose form is good where that of its sections of records is.

ghost use Rattle.std.specs.Prelude.{◌≡◌, ◌≤◌, ◌∷◌, [], length, true, false, None, Some, Ok, IfSome};
ghost use Rattle.obf_wire.specs.Fields.{are_keys, field_at};
ghost use Rattle.file_grammar.specs.Readings.{break_in, message_at};
ghost use Rattle.obf_wire.specs.KnownKeys.{IsInside};
ghost use Rattle.obf_reader.specs.Tops.{IsTop};

use file_grammar::{Part, Version, form};
use obf_wire::{Cursor, Field, Window};

/// The keys of the fields of a file, in their order.
const VERSION: u64 = 8;

const HEAD: u64 = 18;

const RULES: u64 = 26;

const MAP: u64 = 54;

const ADDRESSES: u64 = 62;

const POIS: u64 = 70;

const ROADS: u64 = 78;

const MARKS: u64 = 134;

const AGAIN: u64 = 256;

/// The fields of the sections of records.
#[derive(Clone, Copy, Debug)]
pub(crate) struct TopFields {
    pub(crate) map: Field,
    pub(crate) addresses: Field,
    pub(crate) pois: Field,
    pub(crate) roads: Field,
}

/// The fields of a file, all of good form but the sections of records, of which nothing is asked.
pub(crate) fn top_of(bytes: &[u8]) -> Option<TopFields>
    ensures { IfSome result (IsTop bytes.now) }
{
    let Some(version) = keyed(bytes, 0, VERSION) else {
        return None;
    };
    let Some(head) = keyed(bytes, version.to, HEAD) else {
        return None;
    };
    let Some(rules) = keyed(bytes, head.to, RULES) else {
        return None;
    };
    let Some(map) = keyed(bytes, rules.to, MAP) else {
        return None;
    };
    let Some(addresses) = keyed(bytes, map.to, ADDRESSES) else {
        return None;
    };
    let Some(pois) = keyed(bytes, addresses.to, POIS) else {
        return None;
    };
    let Some(roads) = keyed(bytes, pois.to, ROADS) else {
        return None;
    };
    let Some(marks) = keyed(bytes, roads.to, MARKS) else {
        return None;
    };
    let Some(again) = keyed(bytes, marks.to, AGAIN) else {
        return None;
    };
    if again.to != bytes.len() || version.value != Version::of(bytes).number() {
        return None;
    }
    if !is_form(Part::Head, bytes, &head) || !is_form(Part::Marks, bytes, &marks) {
        return None;
    }
    Some(TopFields {
        map,
        addresses,
        pois,
        roads,
    })
}

/// Whether the payload of a field has the form of a message.
fn is_form(part: Part, bytes: &[u8], field: &Field) -> bool
    requires ordered { field.now.from ≤ field.now.to }
    requires within { field.now.to ≤ length bytes.now }
    ensures { result ≡ true → break_in (message_at part (record { bytes = bytes.now; place = field.now.from; end = field.now.to })) ≡ None }
{
    form(part, Window::new(bytes, field.from, field.to)).is_ok()
}

/// The field of this key that stands there.
fn keyed(bytes: &[u8], at: usize, key: u64) -> Option<Field>
    requires within { at ≤ length bytes.now }
    requires good { are_keys (key ∷ []) ≡ true }
    ensures read { IfSome result (λ f. field_at (record { bytes = bytes.now; place = at; end = length bytes.now }) (key ∷ []) false ≡ Ok (Some f)) }
    ensures key { IfSome result (λ f. f.key ≡ key) }
    ensures inside { IfSome result (IsInside (record { bytes = bytes.now; place = at; end = length bytes.now })) }
{
    let mut cursor = Cursor::new(Window::new(bytes, at, bytes.len()));
    match cursor.next_field(&[key], false) {
        Ok(Some(field)) => field_of(field, key),
        Ok(None) => None,
        Err(_) => None,
    }
}

/// The field, where it has this key.
fn field_of(field: Field, key: u64) -> Option<Field>
    ensures { IfSome result (λ f. (f ≡ field) × (f.key ≡ key)) }
{
    if field.key == key { Some(field) } else { None }
}
