//! The fields of a road.

ghost use Rattle.std.specs.Prelude.{◌≡◌, ◌≤◌, Ok, length};
ghost use Rattle.obf_wire.specs.Windows.{range_of};
ghost use Rattle.file_grammar.specs.declared.parts.Boxed.TheVariants.{Road};
ghost use Rattle.file_grammar.specs.declared.parts.Part.TheVariants.{Record};
ghost use Rattle.file_grammar.specs.RoadRules.{road_fields};
ghost use Rattle.file_grammar.specs.Messages.{Fields};
ghost use Rattle.file_grammar.specs.Readings.{message_at};
ghost use Rattle.file_grammar.specs.Sections.{step_of};
ghost use Rattle.road_section.specs.Held.{IsRoadRead};

use boxed_exact::{Number, Payload, next_number, next_payload};
use file_grammar::{Boxed, FieldWalk, Part};
use obf_wire::Window;

/// The fields of a road: the step to its ordinal, the numbers of its rule, value and direction, and where the steps from node
/// to node stand.
#[derive(Clone, Copy, Debug)]
pub(crate) struct RoadRead {
    pub(crate) step: Number,
    pub(crate) rule: Number,
    pub(crate) value: Number,
    pub(crate) direction: Number,
    pub(crate) nodes: Payload,
}

/// The fields of the road in a window.
pub(crate) fn read_road(window: Window<'_>) -> RoadRead
    ensures read { (fields : Fields) → message_at (Record Road) (range_of window.entry) ≡ Ok fields → IsRoadRead window.entry.bytes.now result (road_fields fields) }
    ensures step { (fields : Fields) → message_at (Record Road) (range_of window.entry) ≡ Ok fields → result.step.value ≡ step_of fields }
    ensures ordered { result.nodes.from ≤ result.nodes.to }
    ensures within { result.nodes.to ≤ length window.entry.bytes.now }
{
    let mut walk = FieldWalk::new(Part::Record(Boxed::Road), window);
    let step = next_number(&mut walk);
    let rule = next_number(&mut walk);
    let value = next_number(&mut walk);
    let direction = next_number(&mut walk);
    let nodes = next_payload(&mut walk);
    RoadRead {
        step,
        rule,
        value,
        direction,
        nodes,
    }
}
