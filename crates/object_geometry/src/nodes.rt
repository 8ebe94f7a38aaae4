//! The nodes and the points of an object.

ghost use Rattle.std.specs.Prelude.{◌≡◌, ◌≢◌, ◌↔◌, ◌++◌, [], map, IfOk, IsTrue, option_to_list};
ghost use Rattle.std.specs.Option.{option_copied, option_map, option_and_then};
ghost use Rattle.live_model.specs.Closures.{node_id, looked_up};
ghost use Rattle.live_model.specs.Geometry.{located, located_nodes, node_at, kind_points, way_points, points_of};
ghost use Rattle.object_geometry.specs.Referred.{referred_in};

use entity_store::Look;
use live_model::{Entity, Kind, List, Mem, Member, Point, RoadNode};
use std::alloc::Global;

/// The located ones among the nodes that an object refers to, in order and as often as they are named. It
/// takes a look-up for each.
pub fn located_nodes(alloc: Global, look: &Look<'_>, entity: &Entity) -> Mem<List<RoadNode>>
    ensures { IfOk result (λ nodes. nodes ≡ located_nodes (referred_in look.now entity.now)) }
{
    let mut nodes = List::new(alloc);
    put_nodes(look, entity.refs.as_slice(), &mut nodes)?;
    put_members(look, entity.members.as_slice(), &mut nodes)?;
    Ok(nodes)
}

/// The points of an object: the place of a node, and the located nodes of a way, if there are two or more.
/// There are none where the object has no geometry.
pub fn points(alloc: Global, look: &Look<'_>, entity: &Entity) -> Mem<List<Point>>
    ensures { IfOk result (λ points. points ≡ points_of entity.now (referred_in look.now entity.now)) }
{
    match entity.id.kind() {
        Kind::Node => point_list(alloc, entity.place),
        Kind::Way => {
            let nodes = located_nodes(alloc, look, entity)?;
            points_of_way(alloc, nodes.as_slice())
        }
        Kind::Relation => Ok(List::new(alloc)),
    }
}

/// Whether an object whose located nodes are these has points. It makes no look-up.
pub fn has_points(entity: &Entity, nodes: &[RoadNode]) -> bool
    ensures { IsTrue result ↔ (kind_points entity.now.id.kind entity.now.place nodes.now ≢ []) }
{
    match entity.id.kind() {
        Kind::Node => entity.place.is_some(),
        Kind::Way => nodes.len() >= 2,
        Kind::Relation => false,
    }
}

/// The nodes with these numbers that are there and have a place, put at the end.
fn put_nodes(look: &Look<'_>, refs: &[i64], nodes: &mut List<RoadNode>) -> Mem<()>
    ensures { IfOk result (λ _. nodes.new ≡ nodes.old ++ located_nodes (map (looked_up look.now) (map node_id refs.now))) }
{
    let mut rest = refs;
    while let [number, after @ ..] = rest {
        put_located(*number, look.node(*number), nodes)?;
        rest = after;
    }
    Ok(())
}

/// The members that are there and have a place, put at the end. A good way has no members.
fn put_members(look: &Look<'_>, members: &[Member], nodes: &mut List<RoadNode>) -> Mem<()>
    ensures { IfOk result (λ _. nodes.new ≡ nodes.old ++ located_nodes (map (looked_up look.now) (map (λ m. m.target) members.now))) }
{
    let mut rest = members;
    while let [member, after @ ..] = rest {
        put_located(member.target.number(), look.get(&member.target), nodes)?;
        rest = after;
    }
    Ok(())
}

/// The object of this number, put at the end if it is there and has a place.
fn put_located(number: i64, object: Option<&Entity>, nodes: &mut List<RoadNode>) -> Mem<()>
    ensures { IfOk result (λ _. nodes.new ≡ nodes.old ++ option_to_list (option_and_then (λ e. option_map (node_at number) e.place) (option_copied object.entry))) }
{
    let Some(entity) = object else {
        return Ok(());
    };
    if let Some(point) = entity.place {
        nodes.push(RoadNode { id: number, point })?;
    }
    Ok(())
}

/// The points of two or more nodes, and none of fewer.
fn points_of_way(alloc: Global, nodes: &[RoadNode]) -> Mem<List<Point>>
    ensures { IfOk result (λ points. points ≡ way_points (map (λ n. n.point) nodes.now)) }
{
    if nodes.len() < 2 {
        return Ok(List::new(alloc));
    }
    points_at(alloc, nodes)
}

/// Where the nodes lie.
fn points_at(alloc: Global, nodes: &[RoadNode]) -> Mem<List<Point>>
    ensures { IfOk result (λ points. points ≡ map (λ n. n.point) nodes.now) }
{
    let mut points = List::new(alloc);
    let mut rest = nodes;
    while let [node, after @ ..] = rest {
        points.push(node.point)?;
        rest = after;
    }
    Ok(points)
}

fn point_list(alloc: Global, place: Option<Point>) -> Mem<List<Point>>
    ensures { IfOk result (λ points. points ≡ option_to_list place) }
{
    let mut points = List::new(alloc);
    if let Some(point) = place {
        points.push(point)?;
    }
    Ok(points)
}
