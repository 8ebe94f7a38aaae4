//! What a question finds in one file, hit by hit.

ghost use Rattle.std.specs.Prelude.{◌≡◌, ◌∷◌, ◌+◌, [], length, IfOk, MatchOption};
ghost use Rattle.live_model.specs.Records.{record_id};
ghost use Rattle.boxed_read.specs.Filters.{no_hits};
ghost use Rattle.boxed_read.specs.Steps.{nothing_left};
ghost use Rattle.query_merge.specs.Hits.{addresses_left, blocks_left, hits_left, record_of, road_blocks, road_hits, roads_left};

use addr_read::FoundCursor;
use boxed_read::View;
use image_hits::{BanHits, MapHits, PoiHits, RoadHits};
use live_model::{ObjId, Rec, Steps};
use map_section::MapClass;
use owned_data::Mem;
use poi_section::PoiClass;
use road_section::{BanClass, RoadClass};
use std::alloc::Global;
use std::sync::ledger::Ledger;

/// A record that was found, where it stands.
#[derive(Drop)]
pub(crate) enum Hit<'a> {
    Map(View<'a, MapClass>),
    Poi(View<'a, PoiClass>),
    Addr(addr_read::View<'a>),
    Road(View<'a, RoadClass>),
    Ban(View<'a, BanClass>),
}

impl<'a> Hit<'a> {
    /// Whose record it is.
    pub(crate) fn id(&self) -> ObjId
        ensures { result ≡ record_id (record_of self.now) }
    {
        match self {
            Hit::Map(view) => view.id(),
            Hit::Poi(view) => view.id(),
            Hit::Addr(view) => view.id(),
            Hit::Road(view) => view.id(),
            Hit::Ban(view) => view.id(),
        }
    }

    /// The record.
    pub(crate) fn copy(&self, alloc: Global) -> Mem<Rec>
        ensures { IfOk result (λ copied. copied ≡ record_of self.now) }
    {
        match self {
            Hit::Map(view) => {
                let record = view.copy(alloc)?;
                Ok(Rec::Map(record))
            }
            Hit::Poi(view) => {
                let record = view.copy(alloc)?;
                Ok(Rec::Poi(record))
            }
            Hit::Addr(view) => {
                let record = view.copy(alloc)?;
                Ok(Rec::Addr(record))
            }
            Hit::Road(view) => {
                let record = view.copy(alloc)?;
                Ok(Rec::Road(record))
            }
            Hit::Ban(view) => {
                let record = view.copy(alloc)?;
                Ok(Rec::Ban(record))
            }
        }
    }
}

/// What a question finds in a file, as a cursor.
#[derive(Drop)]
pub(crate) enum Hits<'a> {
    Maps(MapHits<'a>),
    Pois(PoiHits<'a>),
    Addresses(FoundCursor<'a, 'a>),
    Roads(RoadsAndBans<'a>),
}

/// Roads, and then turn restrictions.
#[derive(Drop)]
pub(crate) struct RoadsAndBans<'a> {
    pub(crate) roads: Option<RoadHits<'a>>,
    pub(crate) bans: BanHits<'a>,
}

impl<'a> Hits<'a> {
    /// The next hit, or `None` where none is left. A step is counted for each block that is read for it.
    pub(crate) fn next<L: Ledger>(&mut self, steps: &mut Steps<L>) -> Option<Hit<'a>>
        ensures first { MatchOption result ((hits_left self.old ≡ []) × (blocks_left self.new ≡ 0)) (λ hit. hits_left self.old ≡ record_of hit ∷ hits_left self.new) }
        ensures steps { steps.new + blocks_left self.new ≡ steps.old + blocks_left self.old }
    {
        match self {
            Hits::Maps(hits) => match hits.next(steps) {
                Some(view) => Some(Hit::Map(view)),
                None => None,
            },
            Hits::Pois(hits) => match hits.next(steps) {
                Some(view) => Some(Hit::Poi(view)),
                None => None,
            },
            Hits::Addresses(hits) => next_address(hits, steps),
            Hits::Roads(hits) => hits.next(steps),
        }
    }
}

/// The next address that is found.
fn next_address<'a, L: Ledger>(
    hits: &mut FoundCursor<'a, 'a>,
    steps: &mut Steps<L>,
) -> Option<Hit<'a>>
    ensures first { MatchOption result ((addresses_left hits.old ≡ []) × (hits.new ≡ nothing_left)) (λ hit. addresses_left hits.old ≡ record_of hit ∷ addresses_left hits.new) }
    ensures steps { steps.new + length hits.new.blocks ≡ steps.old + length hits.old.blocks }
{
    match hits.next(steps) {
        Some(view) => Some(Hit::Addr(view)),
        None => None,
    }
}

impl<'a> RoadsAndBans<'a> {
    /// The next hit: a road, and where none is left a turn restriction.
    fn next<L: Ledger>(&mut self, steps: &mut Steps<L>) -> Option<Hit<'a>>
        ensures first { MatchOption result ((roads_left self.old ≡ []) × (road_blocks self.new ≡ 0)) (λ hit. roads_left self.old ≡ record_of hit ∷ roads_left self.new) }
        ensures steps { steps.new + road_blocks self.new ≡ steps.old + road_blocks self.old }
    {
        if let Some(view) = next_road(&mut self.roads, steps) {
            return Some(Hit::Road(view));
        }
        self.roads = None;
        match self.bans.next(steps) {
            Some(view) => Some(Hit::Ban(view)),
            None => None,
        }
    }
}

/// The next road, if there is one.
fn next_road<'a, L: Ledger>(
    roads: &mut Option<RoadHits<'a>>,
    steps: &mut Steps<L>,
) -> Option<View<'a, RoadClass>>
    ensures first { MatchOption result (((road_hits roads.old).records ≡ []) × (road_hits roads.new ≡ no_hits)) (λ view. (road_hits roads.old).records ≡ view ∷ (road_hits roads.new).records) }
    ensures steps { steps.new + (road_hits roads.new).blocks ≡ steps.old + (road_hits roads.old).blocks }
{
    match roads {
        Some(roads) => roads.next(steps),
        None => None,
    }
}
