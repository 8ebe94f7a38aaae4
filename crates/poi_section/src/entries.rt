//! The fields of a point of interest.

ghost use Rattle.std.specs.Prelude.{◌≡◌, ◌≤◌, Ok, length};
ghost use Rattle.obf_wire.specs.Windows.{range_of};
ghost use Rattle.file_grammar.specs.declared.parts.Boxed.TheVariants.{Poi};
ghost use Rattle.file_grammar.specs.declared.parts.Part.TheVariants.{Record};
ghost use Rattle.file_grammar.specs.Messages.{Fields};
ghost use Rattle.file_grammar.specs.PoiRules.{poi_fields};
ghost use Rattle.file_grammar.specs.Readings.{message_at};
ghost use Rattle.file_grammar.specs.Sections.{step_of};
ghost use Rattle.poi_section.specs.Fields.{IsRead};

use boxed_exact::{Number, Payload, next_number, next_payload};
use file_grammar::{Boxed, FieldWalk, Part};
use obf_wire::Window;

/// The fields of a point of interest: the step to its ordinal, the number of its name, and where the steps to its point
/// stand.
#[derive(Clone, Copy, Debug)]
pub(crate) struct EntryFields {
    pub(crate) step: Number,
    pub(crate) name: Number,
    pub(crate) points: Payload,
}

/// The fields of the record in a window.
pub(crate) fn read_entry(window: Window<'_>) -> EntryFields
    ensures read { (fields : Fields) → message_at (Record Poi) (range_of window.entry) ≡ Ok fields → IsRead window.entry.bytes.now result (poi_fields fields) }
    ensures step { (fields : Fields) → message_at (Record Poi) (range_of window.entry) ≡ Ok fields → result.step.value ≡ step_of fields }
    ensures ordered { result.points.from ≤ result.points.to }
    ensures within { result.points.to ≤ length window.entry.bytes.now }
{
    let mut walk = FieldWalk::new(Part::Record(Boxed::Poi), window);
    let step = next_number(&mut walk);
    let name = next_number(&mut walk);
    let points = next_payload(&mut walk);
    EntryFields { step, name, points }
}
