//! Each public function once.

ghost use Rattle.std.specs.Prelude.{◌≡◌, ◌<◌};

use live_model::{
    AddrKind, AddrRec, BanRec, Class, Dir, Entity, Kind, Level, Line, Lines, List, MapRec, Mem,
    Member, NoMemory, ObjId, PoiRec, Point, Rec, Rect, RoadNode, RoadRec, Rule, Shape, Steps, Tag,
    Text,
};
use std::alloc::Global;
use std::cmp::Ordering;
use std::marker::Brand;
use std::sync::ledger::{Blank, Ledger};
use std::test::Fail;

fn shared<T: Send + Sync>(_: &T) {}

#[test]
fn ids_and_points(rt: HostRuntime) -> Result<(), Fail> {
    let first = ObjId::new(Kind::Node, 1).ok_or("an id")?;
    assert_eq!(rt; first.ordinal(), 281_474_976_710_657);
    assert_eq!(rt; ObjId::from_ordinal(281_474_976_710_657), Some(first));
    assert_eq!(rt;
        ObjId::from_ordinal(1 << 50 | 1 << 48)
            .ok_or("a way")?
            .kind(),
        Kind::Way
    );
    assert_eq!(rt; ObjId::new(Kind::Relation, -3).ok_or("an id")?.number(), -3);
    assert_eq!(rt; ObjId::new(Kind::Node, (1 << 48) + 1), None);
    let corner = Point::from_degrees(1_800_000_000, -900_000_000).ok_or("a point")?;
    assert_eq!(rt;
        corner,
        Point {
            x: 3_600_000_000,
            y: 1_800_000_000
        }
    );
    assert_eq!(rt;
        (corner.longitude(), corner.latitude()),
        (1_800_000_000, -900_000_000)
    );
    let town = Rect::read(" 13 52\t14 53 ").ok_or("a rectangle")?;
    assert_eq!(rt;
        Rect::new(130_000_000, 520_000_000, 140_000_000, 530_000_000),
        Ok(town)
    );
    assert!(rt;
        town.contains(&Point {
            x: 1_931_000_000,
            y: 376_000_000
        })
    );
    let east = Rect::read("14 53 15 54").ok_or("a rectangle")?;
    assert!(rt; town.meets(&east));
    assert_eq!(rt; (town.left, east.right), (1_930_000_000, 1_950_000_000));
    Ok(())
}

fn copies(alloc: Global) -> Mem<Line> {
    let mut tags = List::new(alloc);
    tags.push(Tag {
        key: Text::copied(alloc, "place")?,
        value: Text::copied(alloc, "town")?,
    })?;
    let mut members = List::new(alloc);
    if let Some(target) = ObjId::new(Kind::Way, 20) {
        members.push(Member {
            target,
            role: Text::copied(alloc, "from")?,
        })?;
    }
    let mut refs = List::new(alloc);
    refs.push(7)?;
    match ObjId::new(Kind::Node, 1) {
        None => Err(NoMemory),
        Some(id) => Line::Live(Entity {
            id,
            version: 2,
            tags,
            place: None,
            refs,
            members,
        })
        .copy(alloc),
    }
}

#[test]
fn object_lines(rt: HostRuntime) -> Result<(), Fail> {
    let mut lines: Lines = List::new(rt.alloc());
    lines.push(copies(rt.alloc())?)?;
    shared(&lines);
    let copied = match lines.as_slice() {
        [Line::Live(entity)] => entity.tags.len() + entity.refs.len() + entity.members.len(),
        _ => 0,
    };
    assert_eq!(rt; copied, 3);
    Ok(())
}

fn count<L: Ledger>(blank: Blank)
    requires name { blank.name ≡ L.name }
    requires parts { blank.parts ≡ L.parts }
    requires some { 0 < blank.parts }
{
    let mut steps = Steps::<L>::new(blank);
    steps.tick();
}

#[test]
fn steps(_rt: HostRuntime) -> Result<(), Fail> {
    count::<Brand>(Blank::new(1));
    Ok(())
}

#[test]
fn levels(rt: HostRuntime) -> Result<(), Fail> {
    assert_eq!(rt; Level::Hour.number(), 1);
    assert_eq!(rt; Level::from_number(3), Some(Level::Month));
    assert_eq!(rt; Level::from_number(4), None);
    Ok(())
}

#[test]
fn rules(rt: HostRuntime) -> Result<(), Fail> {
    let rule = Rule {
        shape: Shape::Point,
        key: Text::copied(rt.alloc(), "amenity")?,
        value: Some(Text::copied(rt.alloc(), "cafe")?),
        zoom: 15,
        class: Class::Poi(Text::copied(rt.alloc(), "cafe")?),
    };
    let copied = rule.copy(rt.alloc())?;
    assert_eq!(rt; (copied.shape, copied.zoom), (Shape::Point, 15));
    assert_eq!(rt; copied.key.as_str(), "amenity");
    assert_eq!(rt; copied.value.ok_or("a value")?.as_str(), "cafe");
    let category = match copied.class.copy(rt.alloc())? {
        Class::Poi(category) => category,
        _ => Text::new(rt.alloc()),
    };
    assert_eq!(rt; category.as_str(), "cafe");
    Ok(())
}

const FIRST_CORNER: Point = Point {
    x: 1_931_000_000,
    y: 375_998_000,
};

const SECOND_CORNER: Point = Point {
    x: 1_931_010_000,
    y: 375_998_000,
};

fn drawn(alloc: Global, id: ObjId, name: &str, corner: Point) -> Mem<Rec> {
    let mut points = List::new(alloc);
    points.push(corner)?;
    points.push(SECOND_CORNER)?;
    Ok(Rec::Map(MapRec {
        id,
        rule: 3,
        shape: Shape::Line,
        name: Text::copied(alloc, name)?,
        points,
    }))
}

fn poi(alloc: Global, id: ObjId, category: &str, name: &str) -> Mem<Rec> {
    Ok(Rec::Poi(PoiRec {
        id,
        category: Text::copied(alloc, category)?,
        name: Text::copied(alloc, name)?,
        point: FIRST_CORNER,
    }))
}

fn address(alloc: Global, id: ObjId, kind: AddrKind, name: &str) -> Mem<Rec> {
    Ok(Rec::Addr(AddrRec {
        id,
        kind,
        lang: Text::new(alloc),
        name: Text::copied(alloc, name)?,
        number: Text::copied(alloc, "3")?,
        point: FIRST_CORNER,
    }))
}

fn road(alloc: Global, id: ObjId, dir: Dir, last: i64) -> Mem<Rec> {
    let mut nodes = List::new(alloc);
    nodes.push(RoadNode {
        id: 3,
        point: FIRST_CORNER,
    })?;
    nodes.push(RoadNode {
        id: last,
        point: SECOND_CORNER,
    })?;
    Ok(Rec::Road(RoadRec {
        id,
        rule: 4,
        value: Text::copied(alloc, "residential")?,
        dir,
        nodes,
    }))
}

fn turn(alloc: Global, id: ObjId, from: i64, to: i64) -> Mem<Rec> {
    Ok(Rec::Ban(BanRec {
        id,
        value: Text::copied(alloc, "no_left_turn")?,
        from,
        via: 5,
        to,
        point: SECOND_CORNER,
    }))
}

// A second owner compares as equal, and is of the same object.
fn is_kept(alloc: Global, record: Rec) -> Mem<bool> {
    let copied = record.copy(alloc)?;
    Ok(copied.id() == record.id() && copied.compare(&record) == Ordering::Equal)
}

fn comes_before(a: Rec, b: Rec) -> bool {
    a.compare(&b) == Ordering::Less && b.compare(&a) == Ordering::Greater
}

#[test]
fn records_are_copied(rt: HostRuntime) -> Result<(), Fail> {
    let id = ObjId::new(Kind::Way, 20).ok_or("a way")?;
    let drawn = is_kept(
        rt.alloc(),
        drawn(rt.alloc(), id, "Main Street", FIRST_CORNER)?,
    )?;
    let poi = is_kept(rt.alloc(), poi(rt.alloc(), id, "cafe", "Bo Bar")?)?;
    let address = is_kept(
        rt.alloc(),
        address(rt.alloc(), id, AddrKind::House, "Main Street")?,
    )?;
    let road = is_kept(rt.alloc(), road(rt.alloc(), id, Dir::Both, 4)?)?;
    let turn = is_kept(rt.alloc(), turn(rt.alloc(), id, 20, 22)?)?;
    assert_eq!(rt;
        (drawn, poi, address, road, turn),
        (true, true, true, true, true)
    );
    Ok(())
}

#[test]
fn records_in_order(rt: HostRuntime) -> Result<(), Fail> {
    let id = ObjId::new(Kind::Way, 20).ok_or("a way")?;
    let first = drawn(rt.alloc(), id, "a", SECOND_CORNER)?;
    let second = drawn(rt.alloc(), id, "b", FIRST_CORNER)?;
    let by_name = comes_before(first, second);
    let road = road(rt.alloc(), id, Dir::Both, 4)?;
    let turn = turn(rt.alloc(), id, 1, 1)?;
    let by_class = comes_before(road, turn);
    assert_eq!(rt; (by_name, by_class), (true, true));
    Ok(())
}
