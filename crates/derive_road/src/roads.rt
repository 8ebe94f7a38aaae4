//! Roads.

ghost use Rattle.std.specs.Prelude.{◌≡◌, IfOk, option_to_list};
ghost use Rattle.live_model.specs.Records.{direction, road_records};
ghost use Rattle.object_geometry.specs.Referred.{referred_in};
ghost use Rattle.derive_road.specs.Roads.{road_along};

use entity_store::Look;
use live_model::{Dir, Entity, List, Mem, RoadNode, RoadRec, Rule, Text};
use object_geometry::{Matches, Wanted, has_points, located_nodes, tag_or_empty};
use std::alloc::Global;
use tag_rules::Rules;

/// The road of an object, by the first rule of roads that matches it; none where it is no road. Its nodes are
/// looked for only where a rule of roads can match.
pub(crate) fn road(
    alloc: Global,
    rules: &Rules,
    look: &Look<'_>,
    entity: &Entity,
) -> Mem<Option<RoadRec>>
    ensures { IfOk result (λ road. option_to_list road ≡ road_records rules.now entity.now (referred_in look.now entity.now)) }
{
    let Some((index, rule)) = Matches::new(rules, entity).next_of(Wanted::Road) else {
        return Ok(None);
    };
    let nodes = located_nodes(alloc, look, entity)?;
    if !has_points(entity, nodes.as_slice()) {
        return Ok(None);
    }
    Ok(Some(road_along(alloc, entity, index, rule, nodes)?))
}

/// The object as a road along these nodes, by the rule at this index.
fn road_along(
    alloc: Global,
    entity: &Entity,
    index: u32,
    rule: &Rule,
    nodes: List<RoadNode>,
) -> Mem<RoadRec>
    ensures { IfOk result (λ road. road ≡ road_along entity.now nodes (index, rule.now)) }
{
    let value = Text::copied(alloc, tag_or_empty(entity, rule.key.as_str()))?;
    Ok(RoadRec {
        id: entity.id,
        rule: index,
        value,
        dir: direction(tag_or_empty(entity, "oneway")),
        nodes,
    })
}

/// The direction that a value of `oneway` gives a road; a value that says nothing gives both.
fn direction(oneway: &str) -> Dir
    ensures { result ≡ direction oneway.now }
{
    match oneway {
        "yes" | "true" | "1" => Dir::Forward,
        "-1" | "reverse" => Dir::Backward,
        _ => Dir::Both,
    }
}
