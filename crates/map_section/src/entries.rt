//! The fields of a map record.

ghost use Rattle.std.specs.Prelude.{◌≡◌, ◌≤◌, Ok, length};
ghost use Rattle.obf_wire.specs.Windows.{range_of};
ghost use Rattle.file_grammar.specs.declared.parts.Boxed.TheVariants.{Map};
ghost use Rattle.file_grammar.specs.declared.parts.Part.TheVariants.{Record};
ghost use Rattle.file_grammar.specs.MapRules.{map_fields};
ghost use Rattle.file_grammar.specs.Messages.{Fields};
ghost use Rattle.file_grammar.specs.Readings.{message_at};
ghost use Rattle.file_grammar.specs.Sections.{step_of};
ghost use Rattle.map_section.specs.Fields.{IsRead};

use boxed_exact::{Number, Payload, next_number, next_payload};
use file_grammar::{Boxed, FieldWalk, Part};
use obf_wire::Window;

/// The fields of a map record: the step to its ordinal, the numbers of its rule, shape and name, and where
/// the steps from point to point stand.
#[derive(Clone, Copy, Debug)]
pub(crate) struct EntryFields {
    pub(crate) step: Number,
    pub(crate) rule: Number,
    pub(crate) shape: Number,
    pub(crate) name: Number,
    pub(crate) points: Payload,
}

/// The fields of the record in a window.
pub(crate) fn read_entry(window: Window<'_>) -> EntryFields
    ensures read { (fields : Fields) → message_at (Record Map) (range_of window.entry) ≡ Ok fields → IsRead window.entry.bytes.now result (map_fields fields) }
    ensures step { (fields : Fields) → message_at (Record Map) (range_of window.entry) ≡ Ok fields → result.step.value ≡ step_of fields }
    ensures ordered { result.points.from ≤ result.points.to }
    ensures within { result.points.to ≤ length window.entry.bytes.now }
{
    let mut walk = FieldWalk::new(Part::Record(Boxed::Map), window);
    let step = next_number(&mut walk);
    let rule = next_number(&mut walk);
    let shape = next_number(&mut walk);
    let name = next_number(&mut walk);
    let points = next_payload(&mut walk);
    EntryFields {
        step,
        rule,
        shape,
        name,
        points,
    }
}
