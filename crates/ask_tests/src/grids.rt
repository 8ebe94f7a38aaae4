//! A base of nodes in a square grid, and questions over it.

ghost use Rattle.std.specs.Prelude.{◌≡◌, ◌<◌, map, IfOk, None};
ghost use Rattle.std.specs.Arc.{arc_value};
ghost use Rattle.file_order.specs.Runs.{not_run};
ghost use Rattle.live_model.specs.Stores.{IsStore};
ghost use Rattle.obf_reader.specs.Images.{Seen};

use change_diff::base_records;
use entity_store::Store;
use file_order::follows;
use live_model::{Level, Mem, Point, Query, Rect, Row, Steps, put_degrees};
use obf_reader::Image;
use opl_reader::read_all;
use packed_image::pack;
use query_merge::ask;
use stamp_core::Head;
use std::alloc::Global;
use std::marker::Brand;
use std::sync::Arc;
use std::sync::ledger::{Blank, Ledger};
use std::test::Fail;
use tag_rules::Rules;

/// How many nodes stand in a row, and how many rows there are.
const SIDE: u8 = 64;

/// How far nodes that stand beside each other are apart.
const STEP: u32 = 1024;

/// Each node is drawn from zoom 0 on.
const RULES: &str = "point a b 0 map\n";

/// A base has no hours.
const BASE: Head = Head {
    level: Level::Base,
    first: None,
    last: None,
};

/// The number of the node in a column of a row.
fn number_at(column: u8, row: u8) -> i64 {
    i64::from(SIDE) * i64::from(row) + i64::from(column) + 1
}

/// Where the node in a column of a row stands.
fn point_at(column: u8, row: u8) -> Point {
    Point {
        x: STEP * u32::from(column),
        y: STEP * u32::from(row),
    }
}

/// Puts the line of a node.
fn put_node(alloc: Global, text: &mut Vec<u8>, column: u8, row: u8) -> Mem<()> {
    let number = number_at(column, row);
    let point = point_at(column, row);
    let begin = format!(in alloc; "n{number} Ta=b x")?;
    text.extend_from_slice(begin.as_bytes())?;
    put_degrees(text, point.longitude())?;
    text.extend_from_slice(b" y")?;
    put_degrees(text, point.latitude())?;
    text.push(b'\n')?;
    Ok(())
}

/// Puts the lines of a row.
fn put_row(alloc: Global, text: &mut Vec<u8>, row: u8) -> Mem<()> {
    for column in 0..SIDE {
        put_node(alloc, text, column, row)?;
    }
    Ok(())
}

/// The lines of all nodes.
fn grid_text(alloc: Global) -> Mem<Vec<u8>> {
    let mut text = Vec::new(alloc);
    for row in 0..SIDE {
        put_row(alloc, &mut text, row)?;
    }
    Ok(text)
}

/// The image of the base of all nodes.
pub fn grid_image(alloc: Global) -> Result<Image, Fail> {
    let text = grid_text(alloc)?;
    let store = Store::from_lines(alloc, read_all(alloc, &text)?)?;
    let rules = Rules::read(alloc, RULES.as_bytes())?;
    let image = packed_base::<Brand>(alloc, &rules, &store, Blank::new(1))?;
    Ok(image)
}

/// The image of the base of a store.
fn packed_base<L: Ledger>(alloc: Global, rules: &Rules, store: &Store, blank: Blank) -> Mem<Image>
    requires name { blank.name ≡ L.name }
    requires parts { blank.parts ≡ L.parts }
    requires some { 0 < blank.parts }
    requires good { IsStore store.now.entities }
{
    let mut steps = Steps::<L>::new(blank);
    let records = base_records(alloc, rules, store, &mut steps)?;
    pack(alloc, &BASE, rules, &[], &records)
}

/// The rectangle between two nodes, each of which stands in the column and in the row of one number.
pub fn square(from: u8, to: u8) -> Rect {
    let upper = point_at(from, from);
    let lower = point_at(to, to);
    Rect {
        left: upper.x,
        top: upper.y,
        right: lower.x,
        bottom: lower.y,
    }
}

/// Puts the numbers of the nodes of a row in these columns.
fn put_numbers(numbers: &mut Vec<i64>, from: u8, to: u8, row: u8) -> Mem<()> {
    for column in from..=to {
        numbers.push(number_at(column, row))?;
    }
    Ok(())
}

/// The numbers of the nodes in a square, row by row, in which they rise.
pub fn numbers_in(alloc: Global, from: u8, to: u8) -> Mem<Vec<i64>> {
    let mut numbers = Vec::new(alloc);
    for row in from..=to {
        put_numbers(&mut numbers, from, to, row)?;
    }
    Ok(numbers)
}

/// The number of the object of a map record; 0 for any other row.
fn number_of(row: &Row) -> i64 {
    match row {
        Row::Map(record) => record.id.number(),
        _ => 0,
    }
}

/// The numbers of the objects that a view of a square shows, in the order of rows.
pub fn numbers_shown(alloc: Global, image: Arc<Image>, from: u8, to: u8) -> Result<Vec<i64>, Fail> {
    let images = vec![in alloc; image]?;
    let query = Query::View {
        rect: square(from, to),
        zoom: 22,
    };
    let Ok(()) = follows(&images) else {
        return Ok(Vec::new(alloc));
    };
    let rows = rows_of::<Brand>(alloc, &images, &query, Blank::new(1))?;
    let mut numbers = Vec::new(alloc);
    for row in rows.iter() {
        numbers.push(number_of(row))?;
    }
    Ok(numbers)
}

fn rows_of<L: Ledger>(
    alloc: Global,
    images: &[Arc<Image>],
    query: &Query,
    blank: Blank,
) -> Mem<Vec<Row>>
    requires name { blank.name ≡ L.name }
    requires parts { blank.parts ≡ L.parts }
    requires some { 0 < blank.parts }
    requires follow { not_run (map (λ f. record { head = (arc_value {X = Seen} f).head; rules = (arc_value {X = Seen} f).rules }) images.now) ≡ None }
{
    let mut steps = Steps::<L>::new(blank);
    ask(alloc, images, query, &mut steps)
}

/// How many records the blocks hold that are read for a view of a square.
pub fn records_read(image: &Image, from: u8, to: u8) -> usize {
    records_met::<Brand>(image, square(from, to), Blank::new(1))
}

fn records_met<L: Ledger>(image: &Image, rect: Rect, blank: Blank) -> usize
    requires name { blank.name ≡ L.name }
    requires parts { blank.parts ≡ L.parts }
    requires some { 0 < blank.parts }
{
    let mut steps = Steps::<L>::new(blank);
    let mut met = image.map().meeting(rect);
    let mut count: usize = 0;
    while met.next(&mut steps).is_some() {
        count = count.wrapping_add(1);
    }
    count
}
