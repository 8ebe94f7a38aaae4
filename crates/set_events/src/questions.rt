//! Questions to sets.

ghost use Rattle.std.specs.Prelude.{◌≡◌, IfOk, OnOk, map};
ghost use Rattle.std.specs.Arc.{arc_value};
ghost use Rattle.std.specs.List.{AllByRecursion};
ghost use Rattle.live_model.specs.Maps.{answer};
ghost use Rattle.obf_reader.specs.Images.{IsImage};
ghost use Rattle.overlay_set.specs.Sets.{shown};
ghost use Rattle.published_set.specs.Sets.{rules_of};
ghost use Rattle.set_events.specs.Asking.{IsCounted, IsCountedWhole, StandsOver};

use live_model::{Mem, Query, Row, Steps};
use obf_reader::Image;
use published_set::OverlaySet;
use query_merge::ask;
use std::alloc::Global;
use std::sync::Arc;
use std::sync::ledger::Ledger;

/// The rows of a question over the files of a set that stands. A step is counted for each block that is due, and fewer where memory runs
/// out. `NoMemory` is the only error.
pub fn ask_set<L: Ledger>(
    alloc: Global,
    set: &OverlaySet,
    query: &Query,
    steps: &mut Steps<L>,
) -> Mem<Vec<Row>>
    requires { StandsOver set.now }
    ensures rows { IfOk result (λ rows. rows.items ≡ answer (rules_of set.now) query.now (shown set.now.state.files)) }
    ensures most { IsCounted set.now.state query.now steps.old steps.new }
    ensures whole { OnOk result (IsCountedWhole set.now.state query.now steps.old steps.new) }
{
    let images = set.images();
    are_images(images);
    ask(alloc, images, query, steps)
}

/// That images are what was read of good files. There is nothing to run.
fn are_images(images: &[Arc<Image>])
    ensures { AllByRecursion IsImage (map arc_value images.now) }
{
    for image in images {
        let _ = image.bytes();
    }
}
