//! Questions over several files.

ghost use Rattle.std.specs.Prelude.{◌≡◌, ◌≤◌, ◌+◌, ◌++◌, filter, map, None, IfOk, OnOk};
ghost use Rattle.std.specs.Arc.{arc_value};
ghost use Rattle.std.specs.List.{AllByRecursion};
ghost use Rattle.live_model.specs.Maps.{in_order};
ghost use Rattle.map_laws.specs.Laws.{untouched_by};
ghost use Rattle.file_order.specs.Runs.{not_run};
ghost use Rattle.obf_reader.specs.Images.{IsImage, Seen};
ghost use Rattle.obf_reader.specs.Overlays.{overlay_of, parts_of};
ghost use Rattle.query_merge.specs.Gathering.{found_in, found_over, key_of};
ghost use Rattle.query_merge.specs.Hits.{blocks_left, hits_left};
ghost use Rattle.query_merge.specs.Questions.{answer_over, due_in, due_over};

use crate::finding::{hits_of, put_hit};
use crate::hits::Hits;
use crate::rows::rows_of;
use live_model::{Query, Rec, Row, Steps};
use name_fold::key;
use obf_reader::Image;
use owned_data::{Mem, Text};
use std::alloc::{AllocError, Global};
use std::sync::Arc;
use std::sync::ledger::Ledger;

/// The rows of a question over map files that follow one another: of a record the last file that decides on its object tells, and the rows
/// stand in the order of records. A step is counted for each block that is read: as many as are due, or fewer where memory runs out; no file
/// is read where it has no block that is due. Memory is taken for what is found.
pub fn ask<L: Ledger>(
    alloc: Global,
    images: &[Arc<Image>],
    query: &Query,
    steps: &mut Steps<L>,
) -> Mem<Vec<Row>>
    requires { not_run (map (λ f. record { head = (arc_value {X = Seen} f).head; rules = (arc_value {X = Seen} f).rules }) images.now) ≡ None }
    ensures rows { IfOk result (λ rows. rows.items ≡ answer_over query.now (map arc_value images.now)) }
    ensures steps { steps.new ≤ steps.old + due_over query.now (map arc_value images.now) }
    ensures read { OnOk result (steps.new ≡ steps.old + due_over query.now (map arc_value images.now)) }
{
    are_images(images);
    let key = name_key(alloc, query)?;
    let gathered = gather(alloc, images, query, key.as_str(), steps)?;
    let ordered = sorted(gathered)?;
    let rows = rows_of(alloc, ordered, query)?;
    Ok(rows)
}

/// That images are what was read of good files.
fn are_images(images: &[Arc<Image>])
    ensures { AllByRecursion IsImage (map arc_value images.now) }
{
    for image in images {
        let _ = image.bytes();
    }
}

/// The key of the name that is looked for; an empty one where none is.
fn name_key(alloc: Global, query: &Query) -> Mem<Text>
    ensures { IfOk result (λ found. found ≡ key_of query.now) }
{
    match query {
        Query::Prefix { text } => key(alloc, text.as_str()),
        Query::Street { text } => key(alloc, text.as_str()),
        _ => Ok(Text::new(alloc)),
    }
}

/// What is found in each image, file by file, without the records on whose objects a later one decides.
fn gather<L: Ledger>(
    alloc: Global,
    images: &[Arc<Image>],
    query: &Query,
    key: &str,
    steps: &mut Steps<L>,
) -> Mem<Vec<Rec>>
    requires { key.now ≡ key_of query.now }
    ensures found { IfOk result (λ found. found.items ≡ found_over query.now (map arc_value images.now)) }
    ensures steps { steps.new ≤ steps.old + due_over query.now (map arc_value images.now) }
    ensures read { OnOk result (steps.new ≡ steps.old + due_over query.now (map arc_value images.now)) }
{
    let mut found = Vec::new(alloc);
    let mut rest = images;
    while let Some((image, later)) = rest.split_first() {
        put_found(alloc, &mut found, image, later, query, key, steps)?;
        rest = later;
    }
    Ok(found)
}

/// Puts what is found in an image at the end, without the records on whose objects a later one decides.
fn put_found<L: Ledger>(
    alloc: Global,
    found: &mut Vec<Rec>,
    image: &Image,
    later: &[Arc<Image>],
    query: &Query,
    key: &str,
    steps: &mut Steps<L>,
) -> Mem<()>
    requires { key.now ≡ key_of query.now }
    ensures found { OnOk result (found.new.items ≡ found.old.items ++ filter (untouched_by (map overlay_of (map arc_value later.now))) (found_in query.now image.now)) }
    ensures steps { steps.new ≤ steps.old + due_in query.now (parts_of image.now) }
    ensures read { OnOk result (steps.new ≡ steps.old + due_in query.now (parts_of image.now)) }
{
    let mut hits = hits_of(image, query, key);
    drain(alloc, found, &mut hits, later, steps)
}

/// Puts the records of all hits at the end, without those on whose objects one of the images decides.
fn drain<L: Ledger>(
    alloc: Global,
    found: &mut Vec<Rec>,
    hits: &mut Hits<'_>,
    later: &[Arc<Image>],
    steps: &mut Steps<L>,
) -> Mem<()>
    ensures found { OnOk result (found.new.items ≡ found.old.items ++ filter (untouched_by (map overlay_of (map arc_value later.now))) (hits_left hits.old)) }
    ensures steps { steps.new ≤ steps.old + blocks_left hits.old }
    ensures read { OnOk result (steps.new ≡ steps.old + blocks_left hits.old) }
{
    while let Some(hit) = hits.next(steps) {
        put_hit(alloc, found, &hit, later)?;
    }
    Ok(())
}

/// The records in order; equal ones stay as they stand.
fn sorted(records: Vec<Rec>) -> Result<Vec<Rec>, AllocError>
    ensures { IfOk result (λ sorted. sorted.items ≡ in_order records.items) }
{
    let mut records = records;
    records.sort_by(|one, other| one.compare(other))?;
    Ok(records)
}
