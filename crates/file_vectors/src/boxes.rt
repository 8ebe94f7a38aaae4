//! The order of boxes, and trees of them.

ghost use Rattle.std.specs.Prelude.{◌≡◌, ◌<◌};

use box_tree::{Tree, pack};
use live_model::{Rect, Steps};
use std::alloc::Global;
use std::marker::Brand;
use std::sync::ledger::{Blank, Ledger};
use vector_rows::{Answer, Fields, RowError, shared};

/// Answers a row about boxes, if it is one.
pub fn answer(
    alloc: Global,
    verb: &str,
    fields: &mut Fields<'_>,
    out: &mut Answer,
) -> Result<bool, RowError> {
    match verb {
        "pack" => packed(alloc, fields, out)?,
        "levels" => levels(alloc, fields, out)?,
        "leaf" => leaf(alloc, fields, out)?,
        _ => return Ok(false),
    }
    Ok(true)
}

/// A number of at most 32 bits.
fn edge(fields: &mut Fields<'_>) -> Result<u32, RowError> {
    match fields.word()?.parse::<u32>() {
        Ok(edge) => Ok(edge),
        Err(_) => Err(RowError::BadRow),
    }
}

/// The box of the next four fields: left, top, right and bottom.
fn boxed(fields: &mut Fields<'_>) -> Result<Rect, RowError> {
    let left = edge(fields)?;
    let top = edge(fields)?;
    let right = edge(fields)?;
    let bottom = edge(fields)?;
    Ok(Rect {
        left,
        top,
        right,
        bottom,
    })
}

/// The order of boxes, each with a number.
fn packed(alloc: Global, fields: &mut Fields<'_>, out: &mut Answer) -> Result<(), RowError> {
    let mut items = Vec::new(alloc);
    for _ in 0..fields.count() / 5 {
        let rect = boxed(fields)?;
        let number = fields.number()?;
        items.push((rect, number)).or(Err(RowError::NoMemory))?;
    }
    for position in &pack(alloc, &items)? {
        out.number(*position as u64)?;
    }
    Ok(())
}

/// The tree over the boxes that are left in the row.
fn tree(alloc: Global, fields: &mut Fields<'_>) -> Result<Tree, RowError> {
    let mut leaves = Vec::new(alloc);
    for _ in 0..fields.count() / 4 {
        let rect = boxed(fields)?;
        leaves.push(rect).or(Err(RowError::NoMemory))?;
    }
    Ok(Tree::build(alloc, &leaves)?)
}

/// How many leaves a tree has, and the boxes of each level above them.
fn levels(alloc: Global, fields: &mut Fields<'_>, out: &mut Answer) -> Result<(), RowError> {
    let tree = tree(alloc, fields)?;
    shared(&tree);
    out.number(tree.leaves().len() as u64)?;
    for height in 0..tree.height() + 1 {
        out.word("level")?;
        match tree.level(height) {
            Some(boxes) => put_boxes(boxes, out)?,
            None => out.word("none")?,
        }
    }
    Ok(())
}

fn put_boxes(boxes: &[Rect], out: &mut Answer) -> Result<(), RowError> {
    for rect in boxes {
        out.number(u64::from(rect.left))?;
        out.number(u64::from(rect.top))?;
        out.number(u64::from(rect.right))?;
        out.number(u64::from(rect.bottom))?;
    }
    Ok(())
}

/// The first leaf at or after an index that meets a box.
fn leaf(alloc: Global, fields: &mut Fields<'_>, out: &mut Answer) -> Result<(), RowError> {
    let from = edge(fields)? as usize;
    let rect = boxed(fields)?;
    let tree = tree(alloc, fields)?;
    let found = next_leaf::<Brand>(&tree, &rect, from, Blank::new(1));
    out.number_or_none(found.map(|leaf| leaf as u64))?;
    Ok(())
}

fn next_leaf<L: Ledger>(tree: &Tree, rect: &Rect, from: usize, blank: Blank) -> Option<usize>
    requires name { blank.name ≡ L.name }
    requires parts { blank.parts ≡ L.parts }
    requires some { 0 < blank.parts }
{
    let mut steps = Steps::<L>::new(blank);
    tree.next_leaf(rect, from, &mut steps)
}
