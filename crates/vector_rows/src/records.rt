//! Points, objects and records in an answer.

use crate::answer::Answer;
use crate::fields::RowError;
use live_model::{Kind, MapRec, ObjId, Point, Shape};

/// Puts the location of a point on the grid, its distance to the east and to the south.
pub fn put_point(point: &Point, out: &mut Answer) -> Result<(), RowError> {
    out.number(u64::from(point.x))?;
    out.number(u64::from(point.y))?;
    Ok(())
}

/// Puts the locations of points on the grid.
pub fn put_points(points: &[Point], out: &mut Answer) -> Result<(), RowError> {
    for point in points {
        put_point(point, out)?;
    }
    Ok(())
}

/// The name of a shape.
pub fn shape_name(shape: Shape) -> &'static str {
    match shape {
        Shape::Point => "point",
        Shape::Line => "line",
        Shape::Area => "area",
    }
}

/// Puts the kind and the number of an object.
pub fn put_id(id: &ObjId, out: &mut Answer) -> Result<(), RowError> {
    out.word(match id.kind() {
        Kind::Node => "node",
        Kind::Way => "way",
        Kind::Relation => "relation",
    })?;
    out.signed(id.number())?;
    Ok(())
}

/// Puts map records: the object, the rule, the shape, the name and the points of each.
pub fn put_records(records: &[MapRec], out: &mut Answer) -> Result<(), RowError> {
    for record in records {
        put_id(&record.id, out)?;
        out.number(u64::from(record.rule))?;
        out.word(shape_name(record.shape))?;
        out.quoted(record.name.as_bytes())?;
        put_points(record.points.as_slice(), out)?;
    }
    Ok(())
}
