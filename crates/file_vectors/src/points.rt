//! Lists of points as bytes.

ghost use Rattle.std.specs.Prelude.{IfOk};
ghost use Rattle.std.specs.List.{AllByRecursion};
ghost use Rattle.live_model.specs.Points.{IsInGrid};

use crate::wire::{next_range, put_break};
use coord_delta::{CoordError, decode, encode};
use live_model::Point;
use obf_wire::FileBreak;
use std::alloc::Global;
use vector_rows::{Answer, Fields, RowError, put_points};

/// Answers a row about lists of points, if it is one.
pub fn answer(
    alloc: Global,
    verb: &str,
    fields: &mut Fields<'_>,
    out: &mut Answer,
) -> Result<bool, RowError> {
    match verb {
        "points" => read(alloc, fields, out)?,
        "put_points" => written(alloc, fields, out)?,
        _ => return Ok(false),
    }
    Ok(true)
}

/// The points of a range.
fn read(alloc: Global, fields: &mut Fields<'_>, out: &mut Answer) -> Result<(), RowError> {
    let range = next_range(alloc, fields)?;
    match decode(alloc, &range.bytes, range.from, range.to) {
        Ok(points) => put_points(&points, out),
        Err(CoordError::OffGrid { index }) => {
            out.word("off the grid")?;
            out.number(index as u64)?;
            Ok(())
        }
        Err(CoordError::Wire(found)) => put_break(FileBreak::from(found), out),
        Err(CoordError::NoMemory) => Err(RowError::NoMemory),
    }
}

/// The bytes of points.
fn written(alloc: Global, fields: &mut Fields<'_>, out: &mut Answer) -> Result<(), RowError> {
    let points = given(alloc, fields)?;
    let mut bytes = Vec::new(alloc);
    encode(&points, &mut bytes)?;
    out.hexadecimal(&bytes)?;
    Ok(())
}

/// The points that the fields say, an east and a south location each.
fn given(alloc: Global, fields: &mut Fields<'_>) -> Result<Vec<Point>, RowError>
    ensures { IfOk result (λ points. AllByRecursion IsInGrid points.items) }
{
    let mut points = Vec::new(alloc);
    for _ in 0..fields.count() / 2 {
        let point = point(fields)?;
        points.push(point).or(Err(RowError::NoMemory))?;
    }
    Ok(points)
}

fn point(fields: &mut Fields<'_>) -> Result<Point, RowError>
    ensures { IfOk result (λ point. IsInGrid point) }
{
    let x = fields.number()?;
    let y = fields.number()?;
    if x <= 3_600_000_000 && y <= 1_800_000_000 {
        Ok(Point {
            x: x as u32,
            y: y as u32,
        })
    } else {
        Err(RowError::BadRow)
    }
}
