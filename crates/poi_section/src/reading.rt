//! Points of interest as a class of boxed records, to be read.

ghost use Rattle.std.specs.Prelude.{◌≡◌, Ok, IfOk};
ghost use Rattle.obf_wire.specs.Windows.{range_of};
ghost use Rattle.file_grammar.specs.declared.parts.Boxed.TheVariants.{Poi};
ghost use Rattle.file_grammar.specs.declared.parts.Part.TheVariants.{Record, Texts};
ghost use Rattle.file_grammar.specs.Messages.{Fields};
ghost use Rattle.file_grammar.specs.PoiRules.{poi_boxing, poi_read};
ghost use Rattle.file_grammar.specs.Readings.{message_at};
ghost use Rattle.file_grammar.specs.Sections.{texts_in};
ghost use Rattle.boxed_read.specs.Records.{only_fields, only_texts};
ghost use Rattle.boxed_read.specs.Sound.{IsSoundRecord};
ghost use Rattle.poi_section.specs.PoiReading.{id_of, poi_is_read};

use crate::class::PoiClass;
use crate::entries::read_entry;
use boxed_read::{ReadClass, object, one_point, text};
use live_model::PoiRec;
use obf_wire::Window;
use owned_data::{Mem, Text};
use std::alloc::Global;

impl ReadClass for PoiClass {
    type Record = PoiRec;

    ghost reads = { poi_read };

    ghost id_of = { id_of };

    fn read(
        alloc: Global,
        window: Window<'_>,
        ordinal: u64,
        texts: Window<'_>,
        group: &str,
    ) -> Mem<PoiRec>
        requires { IsSoundRecord Poi poi_boxing (range_of texts) (range_of window) ordinal }
        ensures { IfOk result (λ item. (fields named : Fields) → message_at (Record Poi) (range_of window.entry) ≡ Ok fields → message_at Texts (range_of texts.entry) ≡ Ok named
            → item ≡ poi_read group.now (only_texts (texts_in named)) (only_fields ordinal fields)) }
    {
        let fields = read_entry(window);
        let steps = window.part(fields.points.from, fields.points.to);
        Ok(PoiRec {
            id: object(ordinal),
            category: Text::copied(alloc, group)?,
            name: Text::copied(alloc, text(texts, fields.name.value))?,
            point: one_point(steps),
        })
    }

    ghost reading = { poi_is_read };
}
