//! Turn restrictions.

ghost use Rattle.std.specs.Prelude.{◌≡◌, ◌==◌, IfOk, bytes_eq, codes, option_to_list};
ghost use Rattle.std.specs.Option.{option_and_then, option_map};
ghost use Rattle.live_model.specs.Geometry.{node_at};
ghost use Rattle.live_model.specs.declared.ids.Kind.TheVariants.{Node};
ghost use Rattle.live_model.specs.Ids.{rank};
ghost use Rattle.live_model.specs.Records.{located_among, restriction_of, restriction_records, tag_or_empty, target_as};
ghost use Rattle.object_geometry.specs.Referred.{referred_in};
ghost use Rattle.derive_road.specs.Turns.{is_member_as};

use entity_store::Look;
use live_model::{BanRec, Entity, Kind, Mem, Member, ObjId, Point, RoadNode};
use object_geometry::{tag_or_empty, tagged};
use std::alloc::Global;

/// The turn restriction of an object, where it is a relation that is tagged as one with exactly one way from
/// which, one located node over which, and one way into which it holds.
pub(crate) fn restriction(alloc: Global, look: &Look<'_>, entity: &Entity) -> Mem<Option<BanRec>>
    ensures { IfOk result (λ found. option_to_list found ≡ restriction_records entity.now (referred_in look.now entity.now)) }
{
    if is_tagged_restriction(entity) {
        restriction_of(alloc, look, entity)
    } else {
        Ok(None)
    }
}

/// Whether the object's type is `restriction`.
fn is_tagged_restriction(entity: &Entity) -> bool
    ensures { result ≡ bytes_eq (tag_or_empty (codes "type") entity.now.tags) (codes "restriction") }
{
    tag_or_empty(entity, "type") == "restriction"
}

/// The turn restriction by the members of an object and its tag `restriction`.
fn restriction_of(alloc: Global, look: &Look<'_>, entity: &Entity) -> Mem<Option<BanRec>>
    ensures { IfOk result (λ found. option_to_list found ≡ restriction_of entity.now (referred_in look.now entity.now)) }
{
    let Some(value) = tagged(entity, "restriction") else {
        return Ok(None);
    };
    let Some(from) = target_as(entity, Kind::Way, "from") else {
        return Ok(None);
    };
    let Some(via) = located_via(look, entity) else {
        return Ok(None);
    };
    let Some(to) = target_as(entity, Kind::Way, "to") else {
        return Ok(None);
    };
    let value = value.copy(alloc)?;
    Ok(Some(BanRec {
        id: entity.id,
        value,
        from: from.number(),
        via: via.id,
        to: to.number(),
        point: via.point,
    }))
}

/// The node over which the turn goes, where exactly one is named and it has a place. It takes one look-up.
fn located_via(look: &Look<'_>, entity: &Entity) -> Option<RoadNode>
    ensures { result ≡ option_and_then (located_among (referred_in look.now entity.now)) (target_as Node (codes "via") entity.now) }
{
    let Some(via) = target_as(entity, Kind::Node, "via") else {
        return None;
    };
    let Some(node) = look.get(&via) else {
        return None;
    };
    node_at(&via, node.place)
}

/// The node with this id, where it has a place.
fn node_at(id: &ObjId, place: Option<Point>) -> Option<RoadNode>
    ensures { result ≡ option_map (node_at id.now.number) place }
{
    let Some(point) = place else {
        return None;
    };
    Some(RoadNode {
        id: id.number(),
        point,
    })
}

/// The object that the only member of this kind and role names. `None` exactly where there are none or several
/// such members; they are counted as they are written.
fn target_as(entity: &Entity, kind: Kind, role: &str) -> Option<ObjId>
    ensures { result ≡ target_as kind role.now entity.now }
{
    let mut found = None;
    let mut rest = entity.members.as_slice();
    while let [member, after @ ..] = rest {
        if is_member_as(member, kind, role) {
            if found.is_some() {
                return None;
            }
            found = Some(member.target);
        }
        rest = after;
    }
    found
}

/// Whether a member is of this kind and has this role.
fn is_member_as(member: &Member, kind: Kind, role: &str) -> bool
    ensures { result ≡ is_member_as kind role.now member.now }
{
    are_same(member.target.kind(), kind) && member.role.as_bytes() == role.as_bytes()
}

fn are_same(a: Kind, b: Kind) -> bool
    ensures { result ≡ (rank a == rank b) }
{
    matches!(
        (a, b),
        (Kind::Node, Kind::Node) | (Kind::Way, Kind::Way) | (Kind::Relation, Kind::Relation)
    )
}
