//! Houses.

ghost use Rattle.std.specs.Prelude.{◌≡◌, ◌∷◌, [], ◌++◌, IfOk};
ghost use Rattle.derive_addr.specs.Addresses.{house_of, is_house};

use live_model::{AddrKind, AddrRec, Entity, Mem, Point, Text};
use object_geometry::tag_or_empty;
use std::alloc::Global;

/// Whether an object has a street and a number, so that it is a house where it has a point.
pub(crate) fn is_house(entity: &Entity) -> bool
    ensures { result ≡ is_house entity.now }
{
    !tag_or_empty(entity, STREET).is_empty() && !tag_or_empty(entity, NUMBER).is_empty()
}

/// Puts an object at the end as a house at this point.
pub(crate) fn put_house(
    alloc: Global,
    entity: &Entity,
    point: Point,
    records: &mut Vec<AddrRec>,
) -> Mem<()>
    ensures { IfOk result (λ _. records.new.items ≡ records.old.items ++ house_of entity.now point ∷ []) }
{
    let name = Text::copied(alloc, tag_or_empty(entity, STREET))?;
    let number = Text::copied(alloc, tag_or_empty(entity, NUMBER))?;
    records.push(AddrRec {
        id: entity.id,
        kind: AddrKind::House,
        lang: Text::new(alloc),
        name,
        number,
        point,
    })?;
    Ok(())
}

/// The key of the street of a house.
const STREET: &str = "addr:street";

/// The key of the number of a house.
const NUMBER: &str = "addr:housenumber";
