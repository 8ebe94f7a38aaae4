//! Records by their classes.

ghost use Rattle.std.specs.Prelude.{◌≡◌, ◌++◌, [], IfOk, OnOk};
ghost use Rattle.boxed_write.specs.Classes.{held};
ghost use Rattle.obf_writer.specs.Classes.{AreByClass, address_of, ban_of, map_of, poi_of, road_of};

use live_model::{AddrRec, BanRec, MapRec, PoiRec, Rec, RoadRec};
use owned_data::Mem;
use std::alloc::Global;

/// The records of a list by their classes, each borrowed, those of a class in the order of the list.
#[derive(Debug, Drop)]
pub(crate) struct ByClass<'a> {
    pub(crate) maps: Vec<&'a MapRec>,
    pub(crate) addresses: Vec<&'a AddrRec>,
    pub(crate) pois: Vec<&'a PoiRec>,
    pub(crate) roads: Vec<&'a RoadRec>,
    pub(crate) bans: Vec<&'a BanRec>,
}

impl<'a> ByClass<'a> {
    /// No records.
    fn none(alloc: Global) -> ByClass<'a>
        ensures { AreByClass result [] }
    {
        ByClass {
            maps: Vec::new(alloc),
            addresses: Vec::new(alloc),
            pois: Vec::new(alloc),
            roads: Vec::new(alloc),
            bans: Vec::new(alloc),
        }
    }

    /// Appends a record to those of its class.
    fn push(&mut self, item: &'a Rec) -> Mem<()>
        ensures maps { OnOk result (held self.new.maps.items ≡ held self.old.maps.items ++ map_of item.now) }
        ensures addresses { OnOk result (held self.new.addresses.items ≡ held self.old.addresses.items ++ address_of item.now) }
        ensures pois { OnOk result (held self.new.pois.items ≡ held self.old.pois.items ++ poi_of item.now) }
        ensures roads { OnOk result (held self.new.roads.items ≡ held self.old.roads.items ++ road_of item.now) }
        ensures bans { OnOk result (held self.new.bans.items ≡ held self.old.bans.items ++ ban_of item.now) }
    {
        match item {
            Rec::Map(map) => self.maps.push(map)?,
            Rec::Poi(poi) => self.pois.push(poi)?,
            Rec::Addr(address) => self.addresses.push(address)?,
            Rec::Road(road) => self.roads.push(road)?,
            Rec::Ban(ban) => self.bans.push(ban)?,
        }
        Ok(())
    }
}

/// The records by their classes.
pub(crate) fn by_class(alloc: Global, records: &[Rec]) -> Mem<ByClass<'_>>
    ensures { IfOk result (λ by. AreByClass by records.now) }
{
    let mut by = ByClass::none(alloc);
    let mut rest = records;
    while let [record, after @ ..] = rest {
        by.push(record)?;
        rest = after;
    }
    Ok(by)
}
