//! Roads and turn restrictions in a rectangle.

ghost use Rattle.std.specs.Prelude.{◌≡◌, ℕ, List, Ok, map};
ghost use Rattle.obf_wire.specs.Windows.{range_of};
ghost use Rattle.file_grammar.specs.declared.parts.Boxed.TheVariants.{Restriction, Road};
ghost use Rattle.file_grammar.specs.declared.parts.Part.TheVariants.{Record, Texts};
ghost use Rattle.file_grammar.specs.Messages.{Fields};
ghost use Rattle.file_grammar.specs.Readings.{message_at, numbers_at};
ghost use Rattle.file_grammar.specs.RoadRules.{ban_boxing, road_boxing, road_node_of, stops};
ghost use Rattle.file_grammar.specs.Sections.{texts_in};
ghost use Rattle.boxed_read.specs.Records.{only_fields, only_texts};
ghost use Rattle.boxed_read.specs.Sound.{IsSoundRecord};
ghost use Rattle.road_section.specs.Readings.{HoldsStops, ban_reading, road_reading};
ghost use Rattle.road_section.specs.RoadLawful.{stop_of};
ghost use Rattle.road_section.specs.RoadNear.{ban_near, banned_in, meets_segment, passes_by, road_near};
ghost use Rattle.road_section.specs.Roads.{start};
ghost use Rattle.road_section.specs.Segments.{touches};

use crate::ban_class::BanClass;
use crate::ban_entries::read_ban;
use crate::road_class::RoadClass;
use crate::road_entries::read_road;
use crate::road_reading::node_after;
use crate::stops::next_triple;
use boxed_read::{SpatialFilter, one_point, overlaps};
use live_model::{Point, Rect, RoadNode};
use obf_wire::Window;

/// The roads with a segment whose box meets a rectangle, and the restrictions whose point is in it, edges included.
#[derive(Drop)]
pub struct Near {
    pub rect: Rect,
}

impl SpatialFilter<RoadClass> for Near {
    ghost rect_of = { λ it. it.rect };

    ghost passing = { λ it. passes_by it.rect };

    fn rect(&self) -> Rect {
        self.rect
    }

    fn passes(&self, window: Window<'_>, ordinal: u64, texts: Window<'_>) -> bool
        requires { IsSoundRecord Road road_boxing (range_of texts) (range_of window) ordinal }
        ensures { (group : List ℕ) (fields named : Fields) → message_at (Record Road) (range_of window.entry) ≡ Ok fields → message_at Texts (range_of texts.entry) ≡ Ok named
            → result ≡ passes_by self.now.rect (road_reading group (only_texts (texts_in named)) (only_fields ordinal fields)) }
    {
        let fields = read_road(window);
        meets_segment(window.part(fields.nodes.from, fields.nodes.to), &self.rect)
    }

    ghost near = { λ it. road_near it.rect };
}

impl SpatialFilter<BanClass> for Near {
    ghost rect_of = { λ it. it.rect };

    ghost passing = { λ it. banned_in it.rect };

    fn rect(&self) -> Rect {
        self.rect
    }

    fn passes(&self, window: Window<'_>, ordinal: u64, texts: Window<'_>) -> bool
        requires { IsSoundRecord Restriction ban_boxing (range_of texts) (range_of window) ordinal }
        ensures { (group : List ℕ) (fields named : Fields) → message_at (Record Restriction) (range_of window.entry) ≡ Ok fields → message_at Texts (range_of texts.entry) ≡ Ok named
            → result ≡ banned_in self.now.rect (ban_reading group (only_texts (texts_in named)) (only_fields ordinal fields)) }
    {
        let fields = read_ban(window);
        let point = one_point(window.part(fields.points.from, fields.points.to));
        self.rect.contains(&point)
    }

    ghost near = { λ it. ban_near it.rect };
}

/// Whether a segment between the nodes to which the steps in a window lead has a box that meets a rectangle, edges included.
fn meets_segment(window: Window<'_>, rect: &Rect) -> bool
    requires { HoldsStops (stop_of start) (range_of window) }
    ensures { (numbers : List ℕ) → numbers_at (range_of window.entry) ≡ Ok numbers → result ≡ meets_segment rect.now (map road_node_of (stops numbers)) }
{
    let mut node = RoadNode {
        id: 0,
        point: Point { x: 0, y: 0 },
    };
    let mut before = None;
    let mut at = window.from();
    while let Some(triple) = next_triple(window, at) {
        node = node_after(node, triple);
        if touches(rect, before, &node) {
            return true;
        }
        before = Some(node);
        at = triple.step.next;
    }
    false
}

/// Whether the segment from the node before, if there is one, has a box that meets the rectangle.
fn touches(rect: &Rect, before: Option<RoadNode>, node: &RoadNode) -> bool
    ensures { result ≡ touches rect.now before node.now }
{
    match before {
        Some(before) => overlaps(&Rect::of_point(&before.point).with_point(&node.point), rect),
        None => false,
    }
}
