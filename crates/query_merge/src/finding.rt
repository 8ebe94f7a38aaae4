//! What a question finds in one file.

ghost use Rattle.std.specs.Prelude.{◌≡◌, ℕ, List, [], ◌∷◌, ◌++◌, filter, map, OnOk};
ghost use Rattle.std.specs.Arc.{arc_value};
ghost use Rattle.std.specs.List.{list_any};
ghost use Rattle.live_model.specs.declared.queries.Query.TheVariants.{Category, Prefix, Roads, Street, View};
ghost use Rattle.live_model.specs.Maps.{is_mark};
ghost use Rattle.map_laws.specs.Laws.{untouched_by};
ghost use Rattle.obf_reader.specs.Overlays.{overlay_of, parts_of};
ghost use Rattle.query_merge.specs.Gathering.{found_in, key_of};
ghost use Rattle.query_merge.specs.Hits.{blocks_left, hits_left, record_of};
ghost use Rattle.query_merge.specs.Questions.{due_in};

use crate::hits::{Hit, Hits, RoadsAndBans};
use image_hits::{ban_hits, map_hits, poi_hits, road_hits};
use live_model::{ObjId, Query, Rec, Rect};
use obf_reader::Image;
use owned_data::Mem;
use std::alloc::Global;
use std::sync::Arc;

/// The hits of a question, the key of whose name is this, in an image.
pub(crate) fn hits_of<'a>(image: &'a Image, query: &'a Query, key: &'a str) -> Hits<'a>
    requires { key.now ≡ key_of query.now }
    ensures left { hits_left result ≡ found_in query.entry.now image.entry.now }
    ensures due { blocks_left result ≡ due_in query.entry.now (parts_of image.entry.now) }
{
    match query {
        Query::View { rect, zoom } => shown_in(image, *rect, *zoom),
        Query::Category { category, rect } => in_category(image, category.as_str(), *rect),
        Query::Prefix { .. } => with_prefix(image, key),
        Query::Street { .. } => in_street(image, key),
        Query::Roads { rect } => roads_in(image, *rect),
    }
}

/// The map records that are shown.
fn shown_in(image: &Image, rect: Rect, zoom: u8) -> Hits<'_>
    ensures left { hits_left result ≡ found_in (View rect zoom) image.entry.now }
    ensures due { blocks_left result ≡ due_in (View rect zoom) (parts_of image.entry.now) }
{
    let _ = image.bytes();
    Hits::Maps(map_hits(image, rect, zoom))
}

/// The points of interest of a category.
fn in_category<'a>(image: &'a Image, category: &'a str, rect: Rect) -> Hits<'a>
    ensures left { hits_left result ≡ found_in (Category category.entry.now rect) image.entry.now }
    ensures due { blocks_left result ≡ due_in (Category category.entry.now rect) (parts_of image.entry.now) }
{
    let _ = image.bytes();
    Hits::Pois(poi_hits(image, category, rect))
}

/// The places and streets whose key begins with this one.
fn with_prefix<'a>(image: &'a Image, key: &'a str) -> Hits<'a>
    ensures left { (text : List ℕ) → key.entry.now ≡ key_of (Prefix text) → hits_left result ≡ found_in (Prefix text) image.entry.now }
    ensures due { (text : List ℕ) → key.entry.now ≡ key_of (Prefix text) → blocks_left result ≡ due_in (Prefix text) (parts_of image.entry.now) }
{
    let _ = image.bytes();
    Hits::Addresses(image.addresses().by_prefix(key))
}

/// The houses of the street with this key.
fn in_street<'a>(image: &'a Image, key: &'a str) -> Hits<'a>
    ensures left { (text : List ℕ) → key.entry.now ≡ key_of (Street text) → hits_left result ≡ found_in (Street text) image.entry.now }
    ensures due { (text : List ℕ) → key.entry.now ≡ key_of (Street text) → blocks_left result ≡ due_in (Street text) (parts_of image.entry.now) }
{
    let _ = image.bytes();
    Hits::Addresses(image.addresses().by_street(key))
}

/// The roads with a segment at the rectangle, and the turn restrictions in it.
fn roads_in(image: &Image, rect: Rect) -> Hits<'_>
    ensures left { hits_left result ≡ found_in (Roads rect) image.entry.now }
    ensures due { blocks_left result ≡ due_in (Roads rect) (parts_of image.entry.now) }
{
    let _ = image.bytes();
    Hits::Roads(RoadsAndBans {
        roads: Some(road_hits(image, rect)),
        bans: ban_hits(image, rect),
    })
}

/// Puts the record of a hit at the end, unless a later image decides on its object.
pub(crate) fn put_hit(
    alloc: Global,
    found: &mut Vec<Rec>,
    hit: &Hit<'_>,
    later: &[Arc<Image>],
) -> Mem<()>
    ensures { OnOk result (found.new.items ≡ found.old.items ++ filter (untouched_by (map overlay_of (map arc_value later.now))) (record_of hit.now ∷ [])) }
{
    if is_marked(later, &hit.id()) {
        return Ok(());
    }
    let record = hit.copy(alloc)?;
    found.push(record)?;
    Ok(())
}

/// Whether one of the images decides on the records of the object.
fn is_marked(images: &[Arc<Image>], id: &ObjId) -> bool
    ensures { result ≡ list_any (λ o. is_mark o id.now) (map overlay_of (map arc_value images.now)) }
{
    let mut rest = images;
    while let Some((image, more)) = rest.split_first() {
        if decides_on(image, id) {
            return true;
        }
        rest = more;
    }
    false
}

/// Whether the image decides on the records of the object.
fn decides_on(image: &Image, id: &ObjId) -> bool
    ensures { result ≡ is_mark (overlay_of image.now) id.now }
{
    let _ = image.bytes();
    image.marks_has(id)
}
