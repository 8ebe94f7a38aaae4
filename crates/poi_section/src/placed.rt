//! Points of interest in a rectangle.

ghost use Rattle.std.specs.Prelude.{◌≡◌, ℕ, List, Ok};
ghost use Rattle.obf_wire.specs.Windows.{range_of};
ghost use Rattle.file_grammar.specs.declared.parts.Boxed.TheVariants.{Poi};
ghost use Rattle.file_grammar.specs.declared.parts.Part.TheVariants.{Record, Texts};
ghost use Rattle.file_grammar.specs.Messages.{Fields};
ghost use Rattle.file_grammar.specs.PoiRules.{poi_boxing, poi_read};
ghost use Rattle.file_grammar.specs.Readings.{message_at};
ghost use Rattle.file_grammar.specs.Sections.{texts_in};
ghost use Rattle.boxed_read.specs.Records.{only_fields, only_texts};
ghost use Rattle.boxed_read.specs.Sound.{IsSoundRecord};
ghost use Rattle.poi_section.specs.PoiNear.{placed_in, placed_near};

use crate::class::PoiClass;
use crate::entries::read_entry;
use boxed_read::{SpatialFilter, one_point};
use live_model::Rect;
use obf_wire::Window;

/// The points of interest whose point is in a rectangle or on an edge.
#[derive(Drop)]
pub struct PlacedIn {
    pub rect: Rect,
}

impl SpatialFilter<PoiClass> for PlacedIn {
    ghost rect_of = { λ it. it.rect };

    ghost passing = { λ it. placed_in it.rect };

    fn rect(&self) -> Rect {
        self.rect
    }

    fn passes(&self, window: Window<'_>, ordinal: u64, texts: Window<'_>) -> bool
        requires { IsSoundRecord Poi poi_boxing (range_of texts) (range_of window) ordinal }
        ensures { (group : List ℕ) (fields named : Fields) → message_at (Record Poi) (range_of window.entry) ≡ Ok fields → message_at Texts (range_of texts.entry) ≡ Ok named
            → result ≡ placed_in self.now.rect (poi_read group (only_texts (texts_in named)) (only_fields ordinal fields)) }
    {
        let fields = read_entry(window);
        let point = one_point(window.part(fields.points.from, fields.points.to));
        self.rect.contains(&point)
    }

    ghost near = { λ it. placed_near it.rect };
}
