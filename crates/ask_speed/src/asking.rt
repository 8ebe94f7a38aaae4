//! Questions over map files that are kept.

ghost use Rattle.std.specs.Prelude.{◌≡◌, ◌<◌, map, None};
ghost use Rattle.std.specs.Arc.{arc_value};
ghost use Rattle.file_order.specs.Runs.{not_run};
ghost use Rattle.obf_reader.specs.Images.{Seen};

use file_order::follows;
use live_model::{Query, Steps};
use obf_reader::Image;
use outside::{Files, HostFiles, read_whole};
use owned_data::Mem;
use query_merge::ask;
use query_text::read_query;
use std::alloc::Global;
use std::marker::Brand;
use std::sync::Arc;
use std::sync::ledger::{Blank, Ledger};

/// The most bytes of a file.
const MOST: usize = 268_435_456;

/// The question that a text spells.
pub fn question(alloc: Global, text: &str) -> Option<Query> {
    read_query(alloc, text).ok()
}

/// The map files of these names, where all can be read and are good.
pub fn images(alloc: Global, rt: &HostRuntime, names: &[String]) -> Option<Vec<Arc<Image>>> {
    let mut files = HostFiles::new(alloc, rt);
    let mut images = Vec::new(alloc);
    for name in names {
        let image = image(alloc, &mut files, name.as_str())?;
        images.push(image).ok()?;
    }
    Some(images)
}

/// The map file of a name.
fn image<F: Files>(alloc: Global, files: &mut F, name: &str) -> Option<Arc<Image>> {
    let bytes = read_whole(alloc, files, name, MOST).ok()?;
    let image = Image::read(alloc, bytes).ok()?;
    Arc::new(alloc, image).ok()
}

/// Asks so often over images, where they follow one another, and counts no steps. Answers how many rows were found in all.
pub fn rows_found(
    alloc: Global,
    images: &[Arc<Image>],
    query: &Query,
    times: u32,
) -> Option<Mem<u64>> {
    follows(images).ok()?;
    Some(asked_often::<Brand>(alloc, images, query, times, Blank::new(1)))
}

fn asked_often<L: Ledger>(
    alloc: Global,
    images: &[Arc<Image>],
    query: &Query,
    times: u32,
    blank: Blank,
) -> Mem<u64>
    requires name { blank.name ≡ L.name }
    requires parts { blank.parts ≡ L.parts }
    requires some { 0 < blank.parts }
    requires follow { not_run (map (λ f. record { head = (arc_value {X = Seen} f).head; rules = (arc_value {X = Seen} f).rules }) images.now) ≡ None }
{
    let mut steps = Steps::<L>::new(blank);
    let mut found = 0u64;
    for _ in 0..times {
        let rows = ask(alloc, images, query, &mut steps)?;
        found = found.wrapping_add(rows.len() as u64);
    }
    Ok(found)
}
