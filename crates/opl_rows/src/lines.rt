//! The line that a row stands for, as a value of its own.

ghost use Rattle.std.specs.Prelude.{◌≡◌, [], Some, IfOk, IfSome, unwrap_or};
ghost use Rattle.live_model.specs.ObjectLines.{line_of};
ghost use Rattle.opl_reader.specs.FoundFields.{line_of_found, point_of};
ghost use Rattle.opl_rows.specs.Rows.{found_of};

use crate::rows::{Row, read_row};
use live_model::{Entity, Line, List, Mem, Member, ObjId, Point, Tag};
use std::alloc::Global;
use std::mem::replace;

/// The line that the bytes of an object line spell, read over a row that is used again. Where it answers nothing the bytes
/// may spell a line all the same, or break: the exact reader tells.
pub fn read_line(alloc: Global, bytes: &[u8], row: &mut Row) -> Mem<Option<Line>>
    ensures { IfOk result (λ r. IfSome r (λ line. line_of bytes.now ≡ Some line)) }
{
    let Some(object) = read_row(bytes, row)? else {
        return Ok(None);
    };
    let Some(line) = line(alloc, object, row)? else {
        return Ok(None);
    };
    Ok(Some(line))
}

/// The line of an object whose values a row holds. The members are moved out of the row.
fn line(alloc: Global, object: ObjId, row: &mut Row) -> Mem<Option<Line>>
    ensures { IfOk result (λ r. IfSome r (λ line. line ≡ line_of_found object (found_of row.old))) }
{
    let version = row.version.unwrap_or(0);
    if row.gone.unwrap_or(false) {
        return Ok(Some(Line::Gone(object, version)));
    }
    let Some(tags) = tags(alloc, row)? else {
        return Ok(None);
    };
    Ok(Some(Line::Live(Entity {
        id: object,
        version,
        tags,
        place: place(row.lon.unwrap_or(None), row.lat.unwrap_or(None)),
        refs: refs(alloc, row)?,
        members: members(alloc, row),
    })))
}

/// The tags that a row holds, if it holds any.
fn tags(alloc: Global, row: &Row) -> Mem<Option<List<Tag>>>
    ensures { IfOk result (λ r. IfSome r (λ tags. tags ≡ unwrap_or (found_of row.now).tags [])) }
{
    if !row.has_tags {
        return Ok(Some(List::new(alloc)));
    }
    row.tags.copy(alloc)
}

/// The references that a row holds, if it holds any.
fn refs(alloc: Global, row: &Row) -> Mem<List<i64>>
    ensures { IfOk result (λ refs. refs ≡ unwrap_or (found_of row.now).refs []) }
{
    if !row.has_refs {
        return Ok(List::new(alloc));
    }
    Ok(List::from_vec(row.refs.to_vec(alloc)?))
}

/// The members that a row holds, if it holds any. They are moved out of it.
fn members(alloc: Global, row: &mut Row) -> List<Member>
    ensures { result ≡ unwrap_or (found_of row.old).members [] }
{
    if !row.has_members {
        return List::new(alloc);
    }
    List::from_vec(replace(&mut row.members, Vec::new(alloc)))
}

/// The point at a longitude and a latitude, where both are there.
fn place(lon: Option<i64>, lat: Option<i64>) -> Option<Point>
    ensures { result ≡ point_of lon lat }
{
    Point::from_degrees(lon?, lat?)
}
