//! The rows of records that were found.

ghost use Rattle.std.specs.Prelude.{◌≡◌, ◌++◌, ◌∷◌, [], flat_map, IfOk, OnOk};
ghost use Rattle.live_model.specs.declared.rows.Row.TheVariants.{Seg as SegmentRow};
ghost use Rattle.live_model.specs.Maps.{meets, row_if, segment, segments_in};
ghost use Rattle.query_merge.specs.Rows.{rows_found};

use boxed_read::overlaps;
use live_model::{Query, Rec, Rect, RoadNode, RoadRec, Row, SegRow};
use owned_data::Mem;
use std::alloc::Global;

/// The rows of records each of which gives some to the question, in their order: a record becomes its row, and of a road each segment that meets
/// the rectangle becomes one.
pub fn rows_of(alloc: Global, records: Vec<Rec>, query: &Query) -> Mem<Vec<Row>>
    ensures { IfOk result (λ found. found.items ≡ flat_map (rows_found query.now) records.items) }
{
    let mut found = Vec::new(alloc);
    for record in records {
        put_rows(alloc, &mut found, record, query)?;
    }
    Ok(found)
}

/// Puts the rows of a record that gives some at the end.
fn put_rows(alloc: Global, found: &mut Vec<Row>, record: Rec, query: &Query) -> Mem<()>
    ensures { OnOk result (found.new.items ≡ found.old.items ++ rows_found query.now «record») }
{
    match record {
        Rec::Map(record) => found.push(Row::Map(record))?,
        Rec::Poi(record) => found.push(Row::Poi(record))?,
        Rec::Addr(record) => found.push(Row::Addr(record))?,
        Rec::Ban(record) => found.push(Row::Ban(record))?,
        Rec::Road(road) => {
            if let Query::Roads { rect } = query {
                put_segments(alloc, found, &road, rect)?;
            }
        }
    }
    Ok(())
}

/// Puts the segments of a road that meet the rectangle at the end.
fn put_segments(alloc: Global, found: &mut Vec<Row>, road: &RoadRec, rect: &Rect) -> Mem<()>
    ensures { OnOk result (found.new.items ≡ found.old.items ++ segments_in rect.now road.now 0 road.now.nodes) }
{
    let mut index = 0;
    let mut rest = road.nodes.as_slice();
    while let [a, after @ ..] = rest {
        if let Some(b) = after.first() {
            put_segment(alloc, found, road, index, a, b, rect)?;
        }
        index += 1;
        rest = after;
    }
    Ok(())
}

/// Puts the segment between two nodes at the end, where it meets the rectangle.
fn put_segment(
    alloc: Global,
    found: &mut Vec<Row>,
    road: &RoadRec,
    index: u64,
    a: &RoadNode,
    b: &RoadNode,
    rect: &Rect,
) -> Mem<()>
    ensures { OnOk result (found.new.items ≡ found.old.items ++ row_if (meets rect.now (a.now.point ∷ b.now.point ∷ [])) (SegmentRow (segment road.now index a.now b.now))) }
{
    if !overlaps(&Rect::of_point(&a.point).with_point(&b.point), rect) {
        return Ok(());
    }
    let value = road.value.copy(alloc)?;
    found.push(Row::Seg(SegRow {
        id: road.id,
        index,
        a: *a,
        b: *b,
        dir: road.dir,
        value,
    }))?;
    Ok(())
}
