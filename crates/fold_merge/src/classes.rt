//! Classes of boxed records, as records of any class.

ghost use Rattle.std.specs.Prelude.{◌≡◌};
ghost use Rattle.live_model.specs.declared.records.Rec.{Rec};
ghost use Rattle.live_model.specs.declared.records.Rec.TheVariants.{Ban, Map, Poi, Road};
ghost use Rattle.fold_merge.specs.Classes.{IsOwn, own_ban, own_map, own_poi, own_road};

use boxed_read::ReadClass;
use live_model::{BanRec, MapRec, PoiRec, Rec, RoadRec};
use map_section::MapClass;
use poi_section::PoiClass;
use road_section::{BanClass, RoadClass};

/// A class of boxed records, each of which is a record.
pub(crate) trait RecordClass: ReadClass {
    ghost as_record: { Self.Record → Rec };

    /// The record of any class.
    fn record(item: Self::Record) -> Rec
        ensures { result ≡ as_record item };

    ghost own: { IsOwn as_record Self.ReadClass.id_of };
}

impl RecordClass for MapClass {
    ghost as_record = { λ m. Map m };

    fn record(item: MapRec) -> Rec {
        Rec::Map(item)
    }

    ghost own = { own_map };
}

impl RecordClass for PoiClass {
    ghost as_record = { λ p. Poi p };

    fn record(item: PoiRec) -> Rec {
        Rec::Poi(item)
    }

    ghost own = { own_poi };
}

impl RecordClass for RoadClass {
    ghost as_record = { λ r. Road r };

    fn record(item: RoadRec) -> Rec {
        Rec::Road(item)
    }

    ghost own = { own_road };
}

impl RecordClass for BanClass {
    ghost as_record = { λ b. Ban b };

    fn record(item: BanRec) -> Rec {
        Rec::Ban(item)
    }

    ghost own = { own_ban };
}
