//! Turn restrictions as a class of boxed records, to be read.

ghost use Rattle.std.specs.Prelude.{◌≡◌, Ok, IfOk};
ghost use Rattle.obf_wire.specs.Windows.{range_of};
ghost use Rattle.file_grammar.specs.declared.parts.Boxed.TheVariants.{Restriction};
ghost use Rattle.file_grammar.specs.declared.parts.Part.TheVariants.{Record, Texts};
ghost use Rattle.file_grammar.specs.Messages.{Fields};
ghost use Rattle.file_grammar.specs.Readings.{message_at};
ghost use Rattle.file_grammar.specs.RoadRules.{ban_boxing};
ghost use Rattle.file_grammar.specs.Sections.{texts_in};
ghost use Rattle.boxed_read.specs.Records.{only_fields, only_texts};
ghost use Rattle.boxed_read.specs.Sound.{IsSoundRecord};
ghost use Rattle.road_section.specs.Readings.{ban_id, ban_is_read, ban_reading};

use crate::ban_class::BanClass;
use crate::ban_entries::read_ban;
use boxed_read::{ReadClass, object, one_point, text};
use live_model::BanRec;
use obf_wire::{Window, unzigzag};
use owned_data::{Mem, Text};
use std::alloc::Global;

impl ReadClass for BanClass {
    type Record = BanRec;

    ghost reads = { ban_reading };

    ghost id_of = { ban_id };

    fn read(
        alloc: Global,
        window: Window<'_>,
        ordinal: u64,
        texts: Window<'_>,
        group: &str,
    ) -> Mem<BanRec>
        requires { IsSoundRecord Restriction ban_boxing (range_of texts) (range_of window) ordinal }
        ensures { IfOk result (λ item. (fields named : Fields) → message_at (Record Restriction) (range_of window.entry) ≡ Ok fields → message_at Texts (range_of texts.entry) ≡ Ok named
            → item ≡ ban_reading group.now (only_texts (texts_in named)) (only_fields ordinal fields)) }
    {
        let fields = read_ban(window);
        let steps = window.part(fields.points.from, fields.points.to);
        Ok(BanRec {
            id: object(ordinal),
            value: Text::copied(alloc, text(texts, fields.value.value))?,
            from: unzigzag(fields.from.value),
            via: unzigzag(fields.via.value),
            to: unzigzag(fields.to.value),
            point: one_point(steps),
        })
    }

    ghost reading = { ban_is_read };
}
