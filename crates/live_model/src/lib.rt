//! The map's model: objects of OpenStreetMap, stores of them, and the texts that spell them.
//!
//! The crates above read, keep and print these values; what each of them owes is stated here, once, in
//! `specs/`: ids and their order, points and rectangles, good entities, stores and how lines are applied
//! to them, the object lines of a text, and the canonical line. An id and a store are compared by the
//! id's ordinal, one natural number. What the layer above may rely on: every value that it is given is
//! good in the words of `specs/Objects.antt`, and keeps to the grid of `specs/Points.antt`.
#![tactic(auto)]

mod addresses;
mod classes;
mod directions;
mod ids;
mod levels;
mod objects;
mod opl;
mod points;
mod queries;
mod records;
mod rows;
mod rules;
mod shapes;
mod steps;

pub use addresses::{AddrKind, AddrRec};
pub use classes::Class;
pub use directions::Dir;
pub use ids::{Kind, ObjId};
pub use levels::Level;
pub use objects::{Entity, Line, Lines, Member, Tag};
pub use opl::{Letter, OplBreak, OplKind};
pub use owned_data::{List, Mem, NoMemory, Text};
pub use points::{BadRect, Point, Rect};
pub use queries::Query;
pub use records::{BanRec, MapRec, PoiRec, Rec, RoadNode, RoadRec};
pub use rows::{Row, SegRow};
pub use rules::{Rule, RuleBreak, RuleKind};
pub use shapes::Shape;
pub use steps::Steps;
pub use text_pieces::{EscapeError, put_degrees, put_escaped, read_degrees, read_escaped};
