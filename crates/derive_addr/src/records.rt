//! Addresses.

ghost use Rattle.std.specs.Prelude.{◌≡◌, ◌+◌, ◌||◌, not, IfOk};
ghost use Rattle.live_model.specs.Records.{address_records, address_records_of};
ghost use Rattle.object_geometry.specs.Referred.{referred_in};
ghost use Rattle.object_geometry.specs.declared.matches.Wanted.TheVariants.{Place, Road};
ghost use Rattle.derive_addr.specs.Addresses.{addresses, is_called, is_house};

use crate::houses::{is_house, put_house};
use crate::named::put_named;
use entity_store::Look;
use live_model::{AddrKind, AddrRec, Entity, Mem, ObjId, Point, Steps};
use object_geometry::{Matches, Wanted, one_point, points};
use std::alloc::Global;
use std::sync::ledger::Ledger;
use tag_rules::Rules;

/// The addresses of the object with this id: as a place and as a street by each of its names, the plain one first
/// and then by languages, and as a house; none where it is not there. It counts one step, also where memory is
/// refused.
pub fn derive<L: Ledger>(
    alloc: Global,
    rules: &Rules,
    look: &Look<'_>,
    id: &ObjId,
    steps: &mut Steps<L>,
) -> Mem<Vec<AddrRec>>
    ensures records { IfOk result (λ records. records.items ≡ address_records_of rules.now look.now id.now) }
    ensures step { steps.new ≡ steps.old + 1 }
{
    steps.tick();
    records_at(alloc, rules, look, id)
}

/// The addresses of the object with this id.
fn records_at(alloc: Global, rules: &Rules, look: &Look<'_>, id: &ObjId) -> Mem<Vec<AddrRec>>
    ensures { IfOk result (λ records. records.items ≡ address_records_of rules.now look.now id.now) }
{
    match look.get(id) {
        Some(entity) => records_of(alloc, rules, look, entity),
        None => Ok(Vec::new(alloc)),
    }
}

/// The addresses of an object. Its points are looked for only where it is a place, a street or a house.
fn records_of(alloc: Global, rules: &Rules, look: &Look<'_>, entity: &Entity) -> Mem<Vec<AddrRec>>
    ensures { IfOk result (λ records. records.items ≡ address_records rules.now entity.now (referred_in look.now entity.now)) }
{
    let called = what_is_called(rules, entity);
    if called.is_nothing() {
        return Ok(Vec::new(alloc));
    }
    let points = points(alloc, look, entity)?;
    let Some(point) = one_point(points.as_slice()) else {
        return Ok(Vec::new(alloc));
    };
    records_in(alloc, entity, &called, point)
}

/// What an object is called, if it has a point: by rules a place or a street, by its tags a house.
#[derive(Clone, Copy)]
struct Called {
    place: bool,
    street: bool,
    house: bool,
}

impl Called {
    fn is_nothing(&self) -> bool
        ensures { result ≡ not (self.now.place || (self.now.street || self.now.house)) }
    {
        !(self.place || self.street || self.house)
    }
}

/// What an object is called, if it has a point.
fn what_is_called(rules: &Rules, entity: &Entity) -> Called
    ensures place { result.place ≡ is_called Place rules.now entity.now }
    ensures street { result.street ≡ is_called Road rules.now entity.now }
    ensures house { result.house ≡ is_house entity.now }
{
    Called {
        place: matches_class(rules, entity, Wanted::Place),
        street: matches_class(rules, entity, Wanted::Road),
        house: is_house(entity),
    }
}

/// The addresses of an object at this point.
fn records_in(alloc: Global, entity: &Entity, called: &Called, point: Point) -> Mem<Vec<AddrRec>>
    ensures { IfOk result (λ records. records.items ≡ addresses called.now.place called.now.street called.now.house entity.now point) }
{
    let mut records = Vec::new(alloc);
    if called.place {
        put_named(alloc, entity, AddrKind::Place, point, &mut records)?;
    }
    if called.street {
        put_named(alloc, entity, AddrKind::Street, point, &mut records)?;
    }
    if called.house {
        put_house(alloc, entity, point, &mut records)?;
    }
    Ok(records)
}

/// Whether a rule of this class matches an object, if it has points.
fn matches_class(rules: &Rules, entity: &Entity, wanted: Wanted) -> bool
    ensures { result ≡ is_called wanted rules.now entity.now }
{
    match Matches::new(rules, entity).next_of(wanted) {
        Some(_) => true,
        None => false,
    }
}
