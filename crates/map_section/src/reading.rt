//! Map records as a class of boxed records, to be read.

ghost use Rattle.std.specs.Prelude.{◌≡◌, ◌<◌, ◌^◌, true, pos, ℕ, List, Ok, map, IfOk};
ghost use Rattle.obf_wire.specs.Windows.{range_of};
ghost use Rattle.coord_delta.specs.Steps.{places};
ghost use Rattle.file_grammar.specs.declared.parts.Boxed.TheVariants.{Map};
ghost use Rattle.file_grammar.specs.declared.parts.Part.TheVariants.{Record, Texts};
ghost use Rattle.file_grammar.specs.BoxRules.{is_ordinal};
ghost use Rattle.file_grammar.specs.MapRules.{map_boxing, point_from, shape_from};
ghost use Rattle.file_grammar.specs.Messages.{Fields};
ghost use Rattle.file_grammar.specs.Readings.{message_at, numbers_at};
ghost use Rattle.file_grammar.specs.Sections.{object_of, texts_in};
ghost use Rattle.boxed_read.specs.Records.{only_fields, only_texts};
ghost use Rattle.boxed_read.specs.Sound.{HoldsSteps, IsSoundRecord};
ghost use Rattle.map_section.specs.MapReading.{id_of, map_is_read, map_reading};

use crate::class::MapClass;
use crate::entries::{EntryFields, read_entry};
use boxed_read::{ReadClass, object, points, text};
use live_model::{MapRec, Shape};
use obf_wire::Window;
use owned_data::{List, Mem, Text};
use std::alloc::Global;

impl ReadClass for MapClass {
    type Record = MapRec;

    ghost reads = { map_reading };

    ghost id_of = { id_of };

    fn read(
        alloc: Global,
        window: Window<'_>,
        ordinal: u64,
        texts: Window<'_>,
        group: &str,
    ) -> Mem<MapRec>
        requires { IsSoundRecord Map map_boxing (range_of texts) (range_of window) ordinal }
        ensures { IfOk result (λ item. (fields named : Fields) → message_at (Record Map) (range_of window.entry) ≡ Ok fields → message_at Texts (range_of texts.entry) ≡ Ok named
            → item ≡ map_reading group.now (only_texts (texts_in named)) (only_fields ordinal fields)) }
    {
        let fields = read_entry(window);
        let name = text(texts, fields.name.value);
        let steps = window.part(fields.points.from, fields.points.to);
        record_of(alloc, ordinal, &fields, name, steps)
    }

    ghost reading = { map_is_read };
}

/// The record of this ordinal with these fields, this name, and the points to which these steps lead.
fn record_of(
    alloc: Global,
    ordinal: u64,
    fields: &EntryFields,
    name: &str,
    steps: Window<'_>,
) -> Mem<MapRec>
    requires object { is_ordinal ordinal ≡ true }
    requires rule { fields.now.rule.value < 2 ^ 32 }
    requires points { HoldsSteps (pos 0, pos 0) (range_of steps) }
    ensures { IfOk result (λ item. (numbers : List ℕ) → numbers_at (range_of steps.entry) ≡ Ok numbers
        → item ≡ record { id = object_of ordinal; rule = fields.now.rule.value; shape = shape_from fields.now.shape.value; name = name.now; points = map point_from (places numbers) }) }
{
    let name = Text::copied(alloc, name)?;
    let points = points(alloc, steps)?;
    Ok(MapRec {
        id: object(ordinal),
        rule: fields.rule.value as u32,
        shape: shape_from(fields.shape.value),
        name,
        points: List::from_vec(points),
    })
}

/// The shape of a number.
fn shape_from(number: u64) -> Shape
    ensures { result ≡ shape_from number }
{
    match number {
        0 => Shape::Point,
        1 => Shape::Line,
        _ => Shape::Area,
    }
}
