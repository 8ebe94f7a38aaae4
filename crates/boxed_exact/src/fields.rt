//! The next field of a message of good form, where its kind is known.

ghost use Rattle.std.specs.Prelude.{◌≡◌, ◌≤◌, ℕ, List, Ok, length, slice_range};
ghost use Rattle.obf_wire.specs.Fields.{IsWindow};
ghost use Rattle.file_grammar.specs.Messages.{Fields, has_bytes, has_message, has_number, has_numbers};
ghost use Rattle.file_grammar.specs.Readings.{numbers_at};
ghost use Rattle.file_grammar.specs.Walks.{left_in};
ghost use Rattle.boxed_exact.specs.Fields.{HoldsInner};

use file_grammar::FieldWalk;

/// A number, and the place of its field.
#[derive(Clone, Copy, Debug)]
pub struct Number {
    pub at: usize,
    pub value: u64,
}

/// Where a payload stands, and the place of its field.
#[derive(Clone, Copy, Debug)]
pub struct Payload {
    pub at: usize,
    pub from: usize,
    pub to: usize,
}

/// The number that is next.
pub fn next_number(walk: &mut FieldWalk<'_>) -> Number
    ensures number { (at key value : ℕ) (rest : Fields) → left_in walk.old ≡ Ok (has_number at key value rest)
        → (result.at ≡ at) × (result.value ≡ value) × (left_in walk.new ≡ Ok rest) }
    ensures part { walk.new.part ≡ walk.old.part }
    ensures same { walk.new.window.bytes ≡ walk.old.window.bytes }
    ensures window { IsWindow walk.new.window }
{
    match walk.next() {
        Some(field) => Number {
            at: field.at,
            value: field.value,
        },
        None => Number { at: 0, value: 0 },
    }
}

/// The text, the numbers or the message that is next.
pub fn next_payload(walk: &mut FieldWalk<'_>) -> Payload
    ensures text { (at key : ℕ) (text : List ℕ) (rest : Fields) → left_in walk.old ≡ Ok (has_bytes at key text rest)
        → (result.at ≡ at) × (slice_range walk.old.window.bytes result.from result.to ≡ text) × (left_in walk.new ≡ Ok rest) }
    ensures numbers { (at key : ℕ) (values : List ℕ) (rest : Fields) → left_in walk.old ≡ Ok (has_numbers at key values rest)
        → (result.at ≡ at) × (numbers_at (record { bytes = walk.old.window.bytes; place = result.from; end = result.to }) ≡ Ok values) × (left_in walk.new ≡ Ok rest) }
    ensures message { (at key : ℕ) (inner rest : Fields) → left_in walk.old ≡ Ok (has_message at key inner rest)
        → (result.at ≡ at) × HoldsInner walk.old result.from result.to key inner × (left_in walk.new ≡ Ok rest) }
    ensures part { walk.new.part ≡ walk.old.part }
    ensures same { walk.new.window.bytes ≡ walk.old.window.bytes }
    ensures window { IsWindow walk.new.window }
    ensures ordered { result.from ≤ result.to }
    ensures within { result.to ≤ length walk.old.window.bytes }
{
    match walk.next() {
        Some(field) => Payload {
            at: field.at,
            from: field.from,
            to: field.to,
        },
        None => Payload {
            at: 0,
            from: 0,
            to: 0,
        },
    }
}
