//! What is shown of a map in a rectangle at a zoom.

ghost use Rattle.std.specs.Prelude.{◌≡◌, ℕ, List, Ok};
ghost use Rattle.live_model.specs.Maps.{is_shown};
ghost use Rattle.obf_wire.specs.Windows.{range_of};
ghost use Rattle.file_grammar.specs.declared.parts.Boxed.TheVariants.{Map};
ghost use Rattle.file_grammar.specs.declared.parts.Part.TheVariants.{Record, Texts};
ghost use Rattle.file_grammar.specs.MapRules.{map_boxing};
ghost use Rattle.file_grammar.specs.Messages.{Fields};
ghost use Rattle.file_grammar.specs.Readings.{message_at};
ghost use Rattle.file_grammar.specs.Sections.{texts_in};
ghost use Rattle.boxed_read.specs.Records.{only_fields, only_texts};
ghost use Rattle.boxed_read.specs.Sound.{IsSoundRecord};
ghost use Rattle.map_section.specs.MapNear.{shown_in, shown_near};
ghost use Rattle.map_section.specs.MapReading.{map_reading};

use crate::class::MapClass;
use crate::entries::read_entry;
use boxed_read::{SpatialFilter, meets};
use live_model::Rect;
use obf_wire::Window;
use tag_rules::Rules;

/// What is shown in a rectangle at a zoom: the records whose rule has at most this zoom, and whose points have a box that meets the rectangle, edges
/// included.
#[derive(Drop)]
pub struct Shown<'a> {
    pub rules: &'a Rules,
    pub rect: Rect,
    pub zoom: u8,
}

impl<'a> SpatialFilter<MapClass> for Shown<'a> {
    ghost rect_of = { λ shown. shown.rect };

    ghost passing = { λ shown. shown_in shown.rules.now shown.rect shown.zoom };

    fn rect(&self) -> Rect {
        self.rect
    }

    fn passes(&self, window: Window<'_>, ordinal: u64, texts: Window<'_>) -> bool
        requires { IsSoundRecord Map map_boxing (range_of texts) (range_of window) ordinal }
        ensures { (group : List ℕ) (fields named : Fields) → message_at (Record Map) (range_of window.entry) ≡ Ok fields → message_at Texts (range_of texts.entry) ≡ Ok named
            → result ≡ shown_in self.now.rules.now self.now.rect self.now.zoom (map_reading group (only_texts (texts_in named)) (only_fields ordinal fields)) }
    {
        let fields = read_entry(window);
        is_shown(self.rules, self.zoom, fields.rule.value)
            && meets(
                window.part(fields.points.from, fields.points.to),
                &self.rect,
            )
    }

    ghost near = { λ shown. shown_near shown.rules.now shown.rect shown.zoom };
}

/// Whether the rule of this number in the table has at most this zoom.
fn is_shown(rules: &Rules, zoom: u8, rule: u64) -> bool
    ensures { result ≡ is_shown rules.now zoom rule }
{
    match rules.as_slice().get(rule as usize) {
        Some(rule) => rule.zoom <= zoom,
        None => false,
    }
}
