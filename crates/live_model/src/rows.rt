//! Rows of answers.

use crate::addresses::AddrRec;
use crate::directions::Dir;
use crate::ids::ObjId;
use crate::records::{BanRec, MapRec, PoiRec, RoadNode};
use owned_data::Text;

/// A segment of a road between a node and the next one; `index` counts the road's segments from 0.
#[derive(Debug, Drop)]
pub struct SegRow {
    pub id: ObjId,
    pub index: u64,
    pub a: RoadNode,
    pub b: RoadNode,
    pub dir: Dir,
    pub value: Text,
}

/// A row of an answer: a record, or a segment of a road.
#[derive(Debug, Drop)]
pub enum Row {
    Map(MapRec),
    Poi(PoiRec),
    Addr(AddrRec),
    Seg(SegRow),
    Ban(BanRec),
}
