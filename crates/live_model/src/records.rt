//! The records that rules make of objects.

ghost use Rattle.std.specs.Prelude.{◌≡◌, IfOk};
ghost use Rattle.live_model.specs.Records.{drawing_cmp, map_cmp, poi_cmp, turn_cmp, road_cmp, restriction_cmp, record_cmp, record_id, class_cmp, class_rank};

use crate::addresses::AddrRec;
use crate::directions::Dir;
use crate::ids::ObjId;
use crate::points::Point;
use crate::shapes::Shape;
use owned_data::{List, Mem, Text};
use std::alloc::Global;
use std::cmp::Ordering;

/// An object as one rule of the map draws it; `rule` counts from 0. A point has one point, a line or an
/// area two or more.
#[derive(Debug, Drop)]
pub struct MapRec {
    pub id: ObjId,
    pub rule: u32,
    pub shape: Shape,
    pub name: Text,
    pub points: List<Point>,
}

impl MapRec {
    /// A second owner of the same record.
    pub fn copy(&self, alloc: Global) -> Mem<MapRec>
        ensures { IfOk result (λ copied. copied ≡ self.now) }
    {
        let name = self.name.copy(alloc)?;
        let points = self.points.as_slice().to_vec(alloc)?;
        Ok(MapRec {
            id: self.id,
            rule: self.rule,
            shape: self.shape,
            name,
            points: List::from_vec(points),
        })
    }

    /// By object and rule, then by shape, name and points.
    pub fn compare(&self, other: &MapRec) -> Ordering
        ensures { result ≡ map_cmp self.now other.now }
    {
        self.id
            .ordinal()
            .cmp(&other.id.ordinal())
            .then(self.rule.cmp(&other.rule))
            .then(self.compare_drawings(other))
    }

    // By shape, name and points.
    fn compare_drawings(&self, other: &MapRec) -> Ordering
        ensures { result ≡ drawing_cmp self.now other.now }
    {
        self.shape
            .cmp(&other.shape)
            .then(self.name.as_bytes().cmp(other.name.as_bytes()))
            .then(self.points.as_slice().cmp(other.points.as_slice()))
    }
}

/// A point of interest of one category.
#[derive(Debug, Drop)]
pub struct PoiRec {
    pub id: ObjId,
    pub category: Text,
    pub name: Text,
    pub point: Point,
}

impl PoiRec {
    /// A second owner of the same record.
    pub fn copy(&self, alloc: Global) -> Mem<PoiRec>
        ensures { IfOk result (λ copied. copied ≡ self.now) }
    {
        let category = self.category.copy(alloc)?;
        let name = self.name.copy(alloc)?;
        Ok(PoiRec {
            id: self.id,
            category,
            name,
            point: self.point,
        })
    }

    /// By object and category, then by name and point.
    pub fn compare(&self, other: &PoiRec) -> Ordering
        ensures { result ≡ poi_cmp self.now other.now }
    {
        self.id
            .ordinal()
            .cmp(&other.id.ordinal())
            .then(self.category.as_bytes().cmp(other.category.as_bytes()))
            .then(self.name.as_bytes().cmp(other.name.as_bytes()))
            .then(self.point.cmp(&other.point))
    }
}

/// A node of a road: its number and where it lies.
#[derive(Clone, Copy, PartialEq, Eq, PartialOrd, Ord, Debug)]
pub struct RoadNode {
    pub id: i64,
    pub point: Point,
}

/// A road: the first rule of roads that matches, counted from 0, the value of the tag that it names, and
/// the nodes that are located, two or more.
#[derive(Debug, Drop)]
pub struct RoadRec {
    pub id: ObjId,
    pub rule: u32,
    pub value: Text,
    pub dir: Dir,
    pub nodes: List<RoadNode>,
}

impl RoadRec {
    /// A second owner of the same record.
    pub fn copy(&self, alloc: Global) -> Mem<RoadRec>
        ensures { IfOk result (λ copied. copied ≡ self.now) }
    {
        let value = self.value.copy(alloc)?;
        let nodes = self.nodes.as_slice().to_vec(alloc)?;
        Ok(RoadRec {
            id: self.id,
            rule: self.rule,
            value,
            dir: self.dir,
            nodes: List::from_vec(nodes),
        })
    }

    /// By object, then by rule, value, direction and nodes.
    pub fn compare(&self, other: &RoadRec) -> Ordering
        ensures { result ≡ road_cmp self.now other.now }
    {
        self.id
            .ordinal()
            .cmp(&other.id.ordinal())
            .then(self.rule.cmp(&other.rule))
            .then(self.value.as_bytes().cmp(other.value.as_bytes()))
            .then(self.dir.cmp(&other.dir))
            .then(self.nodes.as_slice().cmp(other.nodes.as_slice()))
    }
}

/// A turn restriction from one way by a node to another way, with the node's point.
#[derive(Debug, Drop)]
pub struct BanRec {
    pub id: ObjId,
    pub value: Text,
    pub from: i64,
    pub via: i64,
    pub to: i64,
    pub point: Point,
}

impl BanRec {
    /// A second owner of the same record.
    pub fn copy(&self, alloc: Global) -> Mem<BanRec>
        ensures { IfOk result (λ copied. copied ≡ self.now) }
    {
        let value = self.value.copy(alloc)?;
        Ok(BanRec {
            id: self.id,
            value,
            from: self.from,
            via: self.via,
            to: self.to,
            point: self.point,
        })
    }

    /// By object, then by value, the three members and the point.
    pub fn compare(&self, other: &BanRec) -> Ordering
        ensures { result ≡ restriction_cmp self.now other.now }
    {
        self.id
            .ordinal()
            .cmp(&other.id.ordinal())
            .then(self.value.as_bytes().cmp(other.value.as_bytes()))
            .then(self.compare_turns(other))
            .then(self.point.cmp(&other.point))
    }

    // By the way that is left, the node and the way that is entered.
    fn compare_turns(&self, other: &BanRec) -> Ordering
        ensures { result ≡ turn_cmp self.now other.now }
    {
        self.from
            .cmp(&other.from)
            .then(self.via.cmp(&other.via))
            .then(self.to.cmp(&other.to))
    }
}

/// A record of any class.
#[derive(Debug, Drop)]
pub enum Rec {
    Map(MapRec),
    Poi(PoiRec),
    Addr(AddrRec),
    Road(RoadRec),
    Ban(BanRec),
}

impl Rec {
    /// The object that the record was made of.
    pub fn id(&self) -> ObjId
        ensures { result ≡ record_id self.now }
    {
        match self {
            Rec::Map(record) => record.id,
            Rec::Poi(record) => record.id,
            Rec::Addr(record) => record.id,
            Rec::Road(record) => record.id,
            Rec::Ban(record) => record.id,
        }
    }

    /// A second owner of the same record.
    pub fn copy(&self, alloc: Global) -> Mem<Rec>
        ensures { IfOk result (λ copied. copied ≡ self.now) }
    {
        match self {
            Rec::Map(record) => {
                let copied = record.copy(alloc)?;
                Ok(Rec::Map(copied))
            }
            Rec::Poi(record) => {
                let copied = record.copy(alloc)?;
                Ok(Rec::Poi(copied))
            }
            Rec::Addr(record) => {
                let copied = record.copy(alloc)?;
                Ok(Rec::Addr(copied))
            }
            Rec::Road(record) => {
                let copied = record.copy(alloc)?;
                Ok(Rec::Road(copied))
            }
            Rec::Ban(record) => {
                let copied = record.copy(alloc)?;
                Ok(Rec::Ban(copied))
            }
        }
    }

    /// By object; then map records, points of interest, addresses, roads and restrictions, each in its
    /// order.
    pub fn compare(&self, other: &Rec) -> Ordering
        ensures { result ≡ record_cmp self.now other.now }
    {
        self.id()
            .ordinal()
            .cmp(&other.id().ordinal())
            .then(self.compare_classes(other))
    }

    // Two records of one class in its order, and others by their classes.
    fn compare_classes(&self, other: &Rec) -> Ordering
        ensures { result ≡ class_cmp self.now other.now }
    {
        match (self, other) {
            (Rec::Map(a), Rec::Map(b)) => a.compare(b),
            (Rec::Poi(a), Rec::Poi(b)) => a.compare(b),
            (Rec::Addr(a), Rec::Addr(b)) => a.compare(b),
            (Rec::Road(a), Rec::Road(b)) => a.compare(b),
            (Rec::Ban(a), Rec::Ban(b)) => a.compare(b),
            _ => self.class_rank().cmp(&other.class_rank()),
        }
    }

    fn class_rank(&self) -> u8
        ensures { result ≡ class_rank self.now }
    {
        match self {
            Rec::Map(_) => 0,
            Rec::Poi(_) => 1,
            Rec::Addr(_) => 2,
            Rec::Road(_) => 3,
            Rec::Ban(_) => 4,
        }
    }
}
