//! The base of a made session: nodes, and streets through them.

ghost use Rattle.std.specs.Prelude.{◌≡◌, ◌*◌, ◌^◌, ◌++◌, ◌≤◌, IfOk, length, unsigned_abs};
ghost use Rattle.std.specs.List.{AllByRecursion};
ghost use Rattle.live_model.specs.Objects.{AreTags, IsGoodLine};
ghost use Rattle.made_session.specs.Draws.{state_after};
ghost use Rattle.made_session.specs.Loads.{base_nodes, base_ways, drawn_node, drawn_refs, drawn_way, made_base, node_tags, way_tags};

use crate::draws::Draws;
use live_model::{Entity, Kind, Line, Lines, List, Mem, ObjId, Tag, Text};
use std::alloc::Global;

/// How many nodes a base has.
pub const NODES: u32 = 2_000;

/// How many ways it has.
const WAYS: u32 = 200;

/// How many nodes a way goes through.
const REFS: u32 = 5;

/// A key and its value.
fn tag(alloc: Global, key: &str, value: &str) -> Mem<Tag>
    ensures { IfOk result (λ t. (t.key ≡ key.now) × (t.value ≡ value.now)) }
{
    let key = Text::copied(alloc, key)?;
    let value = Text::copied(alloc, value)?;
    Ok(Tag { key, value })
}

/// What a node of this number has: each tenth is a café.
fn tags_of(alloc: Global, number: u32) -> Mem<List<Tag>>
    ensures { IfOk result (λ tags. tags ≡ node_tags number) }
{
    let mut tags = List::new(alloc);
    if number % 10 == 0 {
        let cafe = tag(alloc, "amenity", "cafe")?;
        tags.push(cafe)?;
    }
    Ok(tags)
}

/// A node with a number and a version, at a location that is drawn.
pub fn node(alloc: Global, draws: &mut Draws, number: u32, version: u32) -> Mem<Line>
    requires number { (1 ≤ number) × (number ≤ 2000) }
    ensures node { IfOk result (λ line. line ≡ drawn_node draws.old number version) }
    ensures good { IfOk result IsGoodLine }
    ensures after { IfOk result (λ _. draws.new ≡ state_after draws.old 2) }
{
    let place = draws.point();
    let tags = tags_of(alloc, number)?;
    let id = ObjId::new(Kind::Node, i64::from(number)).unwrap();
    Ok(Line::Live(Entity {
        id,
        version,
        tags,
        place: Some(place),
        refs: List::new(alloc),
        members: List::new(alloc),
    }))
}

/// Adds this many nodes, with numbers from 1 on.
fn add_nodes(alloc: Global, draws: &mut Draws, lines: &mut Lines, count: u32) -> Mem<()>
    requires count { count ≤ 2000 }
    ensures nodes { IfOk result (λ _. lines.new ≡ lines.old ++ base_nodes draws.old count) }
    ensures good { IfOk result (λ _. AllByRecursion IsGoodLine lines.old → AllByRecursion IsGoodLine lines.new) }
    ensures after { IfOk result (λ _. draws.new ≡ state_after draws.old (2 * count)) }
{
    for index in 0..count {
        let node = node(alloc, draws, index + 1, 1)?;
        lines.push(node)?;
    }
    Ok(())
}

/// The numbers of this many nodes.
fn refs(alloc: Global, draws: &mut Draws, count: u32) -> Mem<List<i64>>
    ensures refs { IfOk result (λ refs. refs ≡ drawn_refs draws.old count) }
    ensures count { IfOk result (λ refs. length refs ≡ count) }
    ensures good { IfOk result (λ refs. AllByRecursion (λ n. unsigned_abs n ≤ 2 ^ 48) refs) }
    ensures after { IfOk result (λ _. draws.new ≡ state_after draws.old count) }
{
    let mut refs = List::new(alloc);
    for index in 0..count {
        refs.push(1 + i64::from(draws.below(NODES)))?;
    }
    Ok(refs)
}

/// What a way of this number has: it is a street, with a name.
fn street_tags(alloc: Global, number: u32) -> Mem<List<Tag>>
    ensures tags { IfOk result (λ tags. tags ≡ way_tags number) }
    ensures good { IfOk result AreTags }
{
    let mut tags = List::new(alloc);
    let street = tag(alloc, "highway", "residential")?;
    tags.push(street)?;
    let name = format!(in alloc; "S{number}")?;
    let named = tag(alloc, "name", name.as_str())?;
    tags.push(named)?;
    Ok(tags)
}

/// A way of this number through nodes that are drawn.
fn way(alloc: Global, draws: &mut Draws, number: u32) -> Mem<Line>
    requires number { (1 ≤ number) × (number ≤ 200) }
    ensures way { IfOk result (λ line. line ≡ drawn_way draws.old number) }
    ensures good { IfOk result IsGoodLine }
    ensures after { IfOk result (λ _. draws.new ≡ state_after draws.old 5) }
{
    let refs = refs(alloc, draws, REFS)?;
    let tags = street_tags(alloc, number)?;
    let id = ObjId::new(Kind::Way, i64::from(number)).unwrap();
    Ok(Line::Live(Entity {
        id,
        version: 1,
        tags,
        place: None,
        refs,
        members: List::new(alloc),
    }))
}

/// Adds this many ways, with numbers from 1 on.
fn add_ways(alloc: Global, draws: &mut Draws, lines: &mut Lines, count: u32) -> Mem<()>
    requires count { count ≤ 200 }
    ensures ways { IfOk result (λ _. lines.new ≡ lines.old ++ base_ways draws.old count) }
    ensures good { IfOk result (λ _. AllByRecursion IsGoodLine lines.old → AllByRecursion IsGoodLine lines.new) }
    ensures after { IfOk result (λ _. draws.new ≡ state_after draws.old (5 * count)) }
{
    for index in 0..count {
        let way = way(alloc, draws, index + 1)?;
        lines.push(way)?;
    }
    Ok(())
}

/// The base: its nodes, then its ways.
pub fn base(alloc: Global, draws: &mut Draws) -> Mem<Lines>
    ensures base { IfOk result (λ lines. lines ≡ made_base draws.old) }
    ensures good { IfOk result (λ lines. AllByRecursion IsGoodLine lines) }
    ensures after { IfOk result (λ _. draws.new ≡ state_after draws.old 5000) }
{
    let mut lines = List::new(alloc);
    add_nodes(alloc, draws, &mut lines, NODES)?;
    add_ways(alloc, draws, &mut lines, WAYS)?;
    Ok(lines)
}
