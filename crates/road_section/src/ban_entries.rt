//! The fields of a turn restriction.

ghost use Rattle.std.specs.Prelude.{◌≡◌, ◌≤◌, Ok, length};
ghost use Rattle.obf_wire.specs.Windows.{range_of};
ghost use Rattle.file_grammar.specs.declared.parts.Boxed.TheVariants.{Restriction};
ghost use Rattle.file_grammar.specs.declared.parts.Part.TheVariants.{Record};
ghost use Rattle.file_grammar.specs.RoadRules.{ban_fields};
ghost use Rattle.file_grammar.specs.Messages.{Fields};
ghost use Rattle.file_grammar.specs.Readings.{message_at};
ghost use Rattle.file_grammar.specs.Sections.{step_of};
ghost use Rattle.road_section.specs.Held.{IsBanRead};

use boxed_exact::{Number, Payload, next_number, next_payload};
use file_grammar::{Boxed, FieldWalk, Part};
use obf_wire::Window;

/// The fields of a restriction: the step to its ordinal, the number of its value, the way that is left, the node and the way
/// that is entered, and where the steps to its point stand.
#[derive(Clone, Copy, Debug)]
pub(crate) struct BanRead {
    pub(crate) step: Number,
    pub(crate) value: Number,
    pub(crate) from: Number,
    pub(crate) via: Number,
    pub(crate) to: Number,
    pub(crate) points: Payload,
}

/// The fields of the restriction in a window.
pub(crate) fn read_ban(window: Window<'_>) -> BanRead
    ensures read { (fields : Fields) → message_at (Record Restriction) (range_of window.entry) ≡ Ok fields → IsBanRead window.entry.bytes.now result (ban_fields fields) }
    ensures step { (fields : Fields) → message_at (Record Restriction) (range_of window.entry) ≡ Ok fields → result.step.value ≡ step_of fields }
    ensures ordered { result.points.from ≤ result.points.to }
    ensures within { result.points.to ≤ length window.entry.bytes.now }
{
    let mut walk = FieldWalk::new(Part::Record(Boxed::Restriction), window);
    let step = next_number(&mut walk);
    let value = next_number(&mut walk);
    let from = next_number(&mut walk);
    let via = next_number(&mut walk);
    let to = next_number(&mut walk);
    let points = next_payload(&mut walk);
    BanRead {
        step,
        value,
        from,
        via,
        to,
        points,
    }
}
