//! The sections of records.

ghost use Rattle.std.specs.Prelude.{◌≡◌, ◌++◌, IfOk, OnOk};
ghost use Rattle.live_model.specs.Fits.{FitsRules};
ghost use Rattle.obf_wire.specs.Fields.{section};
ghost use Rattle.boxed_write.specs.Classes.{held};
ghost use Rattle.live_model.specs.Fits.{FitsAddress, FitsMap, FitsPoi, FitsRestriction, FitsRoad};
ghost use Rattle.std.specs.List.{AllByRecursion};
ghost use Rattle.addr_section.specs.Packed.{packed_addresses};
ghost use Rattle.map_section.specs.Packed.{packed_map};
ghost use Rattle.poi_section.specs.Packed.{packed_pois};
ghost use Rattle.road_section.specs.Routing.{packed_routing};
ghost use Rattle.obf_writer.specs.PackedFile.{AreSections};

use crate::by_class::by_class;
use live_model::{AddrRec, BanRec, MapRec, PoiRec, Rec, RoadRec};
use obf_wire::Out;
use owned_data::Mem;
use std::alloc::Global;
use tag_rules::Rules;

/// The numbers of the fields of the sections.
const MAP_FIELD: u64 = 6;

const ADDRESSES_FIELD: u64 = 7;

const POIS_FIELD: u64 = 8;

const ROADS_FIELD: u64 = 9;

/// The bytes of each section of records.
#[derive(Debug, Drop)]
pub(crate) struct Sections {
    map: Vec<u8>,
    addresses: Vec<u8>,
    pois: Vec<u8>,
    roads: Vec<u8>,
}

/// The sections of these records, each of its class.
pub(crate) fn sections_of(alloc: Global, rules: &Rules, records: &[Rec]) -> Mem<Sections>
    requires { FitsRules rules.now records.now }
    ensures { IfOk result (λ sections. AreSections sections records.now) }
{
    let by = by_class(alloc, records)?;
    Ok(Sections {
        map: map_bytes(alloc, &by.maps, rules)?,
        addresses: addresses_bytes(alloc, &by.addresses)?,
        pois: pois_bytes(alloc, &by.pois)?,
        roads: roads_bytes(alloc, &by.roads, &by.bans, rules)?,
    })
}

/// The section of map records.
fn map_bytes(alloc: Global, records: &[&MapRec], rules: &Rules) -> Mem<Vec<u8>>
    requires { AllByRecursion (FitsMap rules.now) (held records.now) }
    ensures { IfOk result (λ bytes. bytes.items ≡ packed_map (held records.now)) }
{
    let mut out = Vec::new(alloc);
    map_section::write(alloc, records, rules, &mut out)?;
    Ok(out)
}

/// The section of addresses.
fn addresses_bytes(alloc: Global, records: &[&AddrRec]) -> Mem<Vec<u8>>
    requires { AllByRecursion FitsAddress (held records.now) }
    ensures { IfOk result (λ bytes. bytes.items ≡ packed_addresses (held records.now)) }
{
    let mut out = Vec::new(alloc);
    addr_section::write(alloc, records, &mut out)?;
    Ok(out)
}

/// The section of points of interest.
fn pois_bytes(alloc: Global, records: &[&PoiRec]) -> Mem<Vec<u8>>
    requires { AllByRecursion FitsPoi (held records.now) }
    ensures { IfOk result (λ bytes. bytes.items ≡ packed_pois (held records.now)) }
{
    let mut out = Vec::new(alloc);
    poi_section::write(alloc, records, &mut out)?;
    Ok(out)
}

/// The section of roads and restrictions.
fn roads_bytes(alloc: Global, roads: &[&RoadRec], bans: &[&BanRec], rules: &Rules) -> Mem<Vec<u8>>
    requires roads { AllByRecursion (FitsRoad rules.now) (held roads.now) }
    requires bans { AllByRecursion FitsRestriction (held bans.now) }
    ensures { IfOk result (λ bytes. bytes.items ≡ packed_routing (held roads.now) (held bans.now)) }
{
    let mut out = Vec::new(alloc);
    road_section::write(alloc, roads, bans, rules, &mut out)?;
    Ok(out)
}

/// Appends the sections, each after its length.
pub(crate) fn put_sections(sections: &Sections, out: &mut Out) -> Mem<()>
    ensures { OnOk result (out.new ≡ out.old ++ section 6 sections.now.map.items ++ section 7 sections.now.addresses.items ++ section 8 sections.now.pois.items ++ section 9 sections.now.roads.items) }
{
    out.put_section(MAP_FIELD, &sections.map)?;
    out.put_section(ADDRESSES_FIELD, &sections.addresses)?;
    out.put_section(POIS_FIELD, &sections.pois)?;
    out.put_section(ROADS_FIELD, &sections.roads)
}
