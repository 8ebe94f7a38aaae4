//! All records of an object.

ghost use Rattle.std.specs.Prelude.{◌≡◌, ◌+◌, ◌≤◌, ◌++◌, map, OnOk};
ghost use Rattle.live_model.specs.declared.records.Rec.TheVariants.{Map, Poi, Addr};
ghost use Rattle.live_model.specs.Records as Records;

use entity_store::Look;
use live_model::{AddrRec, MapRec, Mem, ObjId, PoiRec, Rec, Steps};
use std::alloc::Global;
use std::sync::ledger::Ledger;
use tag_rules::Rules;

/// Puts all records of the object with this id at the end, in the order of records; none where it is not there. It
/// counts four steps, one for each crate that derives, and at most that where memory is refused.
pub fn put_records<L: Ledger>(
    alloc: Global,
    rules: &Rules,
    look: &Look<'_>,
    id: &ObjId,
    steps: &mut Steps<L>,
    records: &mut Vec<Rec>,
) -> Mem<()>
    ensures records { OnOk result (records.new.items ≡ records.old.items ++ Records.records rules.now look.now id.now) }
    ensures counted { OnOk result (steps.new ≡ steps.old + 4) }
    ensures most { steps.new ≤ steps.old + 4 }
{
    put_maps(derive_map::derive(alloc, rules, look, id, steps)?, records)?;
    put_pois(derive_poi::derive(alloc, rules, look, id, steps)?, records)?;
    put_addresses(derive_addr::derive(alloc, rules, look, id, steps)?, records)?;
    let mut roads = derive_road::derive(alloc, rules, look, id, steps)?;
    records.append(&mut roads)?;
    Ok(())
}

/// Puts map records at the end.
fn put_maps(maps: Vec<MapRec>, records: &mut Vec<Rec>) -> Mem<()>
    ensures { OnOk result (records.new.items ≡ records.old.items ++ map Map maps.items) }
{
    for record in maps {
        records.push(Rec::Map(record))?;
    }
    Ok(())
}

/// Puts points of interest at the end.
fn put_pois(pois: Vec<PoiRec>, records: &mut Vec<Rec>) -> Mem<()>
    ensures { OnOk result (records.new.items ≡ records.old.items ++ map Poi pois.items) }
{
    for record in pois {
        records.push(Rec::Poi(record))?;
    }
    Ok(())
}

/// Puts addresses at the end.
fn put_addresses(addresses: Vec<AddrRec>, records: &mut Vec<Rec>) -> Mem<()>
    ensures { OnOk result (records.new.items ≡ records.old.items ++ map Addr addresses.items) }
{
    for record in addresses {
        records.push(Rec::Addr(record))?;
    }
    Ok(())
}
