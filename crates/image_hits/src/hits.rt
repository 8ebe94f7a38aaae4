//! The cursors of questions at a rectangle.

ghost use Rattle.std.specs.Prelude.{◌≡◌};
ghost use Rattle.image_hits.specs.Hits.{ban_hits, map_hits, poi_hits, road_hits};

use boxed_read::HitCursor;
use live_model::Rect;
use map_section::{MapClass, Shown};
use obf_reader::Image;
use poi_section::CategoryCursor;
use road_section::{BanClass, Near, RoadClass};

/// Map records that are shown.
pub type MapHits<'a> = HitCursor<'a, MapClass, Shown<'a>>;

/// Points of interest of a category.
pub type PoiHits<'a> = CategoryCursor<'a>;

/// Roads with a segment in a rectangle.
pub type RoadHits<'a> = HitCursor<'a, RoadClass, Near>;

/// Turn restrictions in a rectangle.
pub type BanHits<'a> = HitCursor<'a, BanClass, Near>;

/// The map records that are shown in a rectangle at a zoom, edges included.
#[tactic(auto, using(crate::proofs::HitRows::maps_hit))]
pub fn map_hits<'a>(image: &'a Image, rect: Rect, zoom: u8) -> MapHits<'a>
    ensures { result ≡ map_hits image.entry.now rect zoom }
{
    image.map().hits(Shown {
        rules: image.rules(),
        rect,
        zoom,
    })
}

/// The points of interest of a category in a rectangle, edges included.
#[tactic(auto, using(crate::proofs::HitRows::pois_hit))]
pub fn poi_hits<'a>(image: &'a Image, category: &'a str, rect: Rect) -> PoiHits<'a>
    ensures { result ≡ poi_hits image.entry.now category.entry.now rect }
{
    image.pois().category(category, rect)
}

/// The roads with a segment whose box meets a rectangle, edges included.
#[tactic(auto, using(crate::proofs::HitRows::roads_hit))]
pub fn road_hits<'a>(image: &'a Image, rect: Rect) -> RoadHits<'a>
    ensures { result ≡ road_hits image.entry.now rect }
{
    image.roads().hits(Near { rect })
}

/// The turn restrictions whose point is in a rectangle, edges included.
#[tactic(auto, using(crate::proofs::HitRows::bans_hit))]
pub fn ban_hits<'a>(image: &'a Image, rect: Rect) -> BanHits<'a>
    ensures { result ≡ ban_hits image.entry.now rect }
{
    image.restrictions().hits(Near { rect })
}
