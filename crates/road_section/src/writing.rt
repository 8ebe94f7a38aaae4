//! The section of roads and turn restrictions, written.

ghost use Rattle.std.specs.Prelude.{◌≡◌, ◌++◌, IfOk, OnOk, OnErr};
ghost use Rattle.std.specs.List.{AllByRecursion};
ghost use Rattle.live_model.specs.Fits.{FitsRestriction, FitsRoad};
ghost use Rattle.obf_wire.specs.Fields.{section};
ghost use Rattle.boxed_write.specs.Classes.{held};
ghost use Rattle.road_section.specs.Restrictions.{packed_bans};
ghost use Rattle.road_section.specs.Roads.{packed_roads};
ghost use Rattle.road_section.specs.Routing.{packed_routing};

use crate::ban_class::BanClass;
use crate::road_class::RoadClass;
use live_model::{BanRec, RoadRec};
use obf_wire::Out;
use owned_data::{Mem, NoMemory};
use std::alloc::Global;
use tag_rules::Rules;

/// The numbers of the fields of boxed roads and of boxed restrictions.
const ROADS: u64 = 1;

const BANS: u64 = 2;

/// Appends the bytes of the section of these roads, which fit the rules, and of these restrictions, in whichever order they
/// are given. Equal records may be among them. After out of memory `out` is as it was. It takes n log n time.
pub fn write(
    alloc: Global,
    roads: &[&RoadRec],
    bans: &[&BanRec],
    rules: &Rules,
    out: &mut Vec<u8>,
) -> Mem<()>
    requires roads { AllByRecursion (FitsRoad rules.now) (held roads.now) }
    requires bans { AllByRecursion FitsRestriction (held bans.now) }
    ensures ok { OnOk result (out.new.items ≡ out.old.items ++ packed_routing (held roads.now) (held bans.now)) }
    ensures err { OnErr result (out.new.items ≡ out.old.items) }
{
    let roads = boxed_roads(alloc, roads, rules)?;
    let bans = boxed_bans(alloc, bans)?;
    let both = both_of(alloc, &roads, &bans)?;
    match out.extend_from_slice(&both) {
        Ok(()) => Ok(()),
        Err(_) => Err(NoMemory),
    }
}

/// The two fields with these payloads.
fn both_of(alloc: Global, roads: &[u8], bans: &[u8]) -> Mem<Vec<u8>>
    ensures { IfOk result (λ bytes. bytes.items ≡ section 1 roads.now ++ section 2 bans.now) }
{
    let mut out = Out::new(alloc);
    out.put_section(ROADS, roads)?;
    out.put_section(BANS, bans)?;
    Ok(out.finish())
}

/// Roads in boxes.
fn boxed_roads(alloc: Global, roads: &[&RoadRec], rules: &Rules) -> Mem<Vec<u8>>
    requires { AllByRecursion (FitsRoad rules.now) (held roads.now) }
    ensures { IfOk result (λ bytes. bytes.items ≡ packed_roads (held roads.now)) }
{
    let mut bytes = Vec::new(alloc);
    boxed_write::write::<RoadClass>(alloc, roads, &mut bytes)?;
    Ok(bytes)
}

/// Restrictions in boxes.
fn boxed_bans(alloc: Global, bans: &[&BanRec]) -> Mem<Vec<u8>>
    requires { AllByRecursion FitsRestriction (held bans.now) }
    ensures { IfOk result (λ bytes. bytes.items ≡ packed_bans (held bans.now)) }
{
    let mut bytes = Vec::new(alloc);
    boxed_write::write::<BanClass>(alloc, bans, &mut bytes)?;
    Ok(bytes)
}
