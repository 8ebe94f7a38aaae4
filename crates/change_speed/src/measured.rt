//! What an overlay and its image cost.

ghost use Rattle.std.specs.Prelude.{◌≡◌, ◌<◌, IfSome};
ghost use Rattle.std.specs.List.{AllByRecursion};
ghost use Rattle.live_model.specs.Objects.{IsGoodLine};
ghost use Rattle.change_diff.specs.Overlays.{CanBeWritten, IsChange};

use crate::hours::{Base, base_of, images_made, images_read, overlay_of};
use change_diff::Change;
use change_image::hour_image;
use live_model::Line;
use obf_reader::Image;
use stamp_core::Stamp;
use std::alloc::Global;
use std::sync::ledger::{Blank, Ledger};
use std::time::Instant;
use tag_rules::Rules;

/// The hour of the change.
const HOUR: &str = "2024-01-05-10";

/// The marks and records of an hour, and nanoseconds.
#[derive(Copy, Clone)]
pub struct Costs {
    pub marks: usize,
    pub records: usize,
    pub overlay: u128,
    pub images: u128,
    pub reading: u128,
}

/// The overlay of a change, and the nanoseconds that it took.
#[derive(Drop)]
struct Compared {
    change: Change,
    took: u128,
}

/// What the overlay of lines over a base costs, making its image so often, and reading it again as often. `None` where memory or the
/// clock was refused.
pub fn measure<L: Ledger>(
    alloc: Global,
    rt: &HostRuntime,
    rules: &Rules,
    base: Vec<Line>,
    lines: &[Line],
    times: u32,
    blank: Blank,
) -> Option<Costs>
    requires name { blank.name ≡ L.name }
    requires parts { blank.parts ≡ L.parts }
    requires some { 0 < blank.parts }
    requires good_base { AllByRecursion IsGoodLine base.items }
    requires good { AllByRecursion IsGoodLine lines.now }
{
    let mut base = base_of(alloc, base).ok()?;
    let compared = compare::<L>(alloc, rt, rules, &mut base, lines, blank)?;
    costs_of(alloc, rt, rules, &compared, times)
}

fn compare<L: Ledger>(
    alloc: Global,
    rt: &HostRuntime,
    rules: &Rules,
    base: &mut Base,
    lines: &[Line],
    blank: Blank,
) -> Option<Compared>
    requires name { blank.name ≡ L.name }
    requires parts { blank.parts ≡ L.parts }
    requires some { 0 < blank.parts }
    requires good { IsChange base.old.store.entities base.old.index.map lines.now }
    ensures { IfSome result (λ compared. CanBeWritten rules.now compared.change.marks.items compared.change.records.items) }
{
    let began = Instant::now(rt).ok()?;
    let change = overlay_of::<L>(alloc, rules, base, lines, blank).ok()?;
    let took = began.elapsed(rt).ok()?.as_nanos();
    Some(Compared { change, took })
}

fn costs_of(
    alloc: Global,
    rt: &HostRuntime,
    rules: &Rules,
    compared: &Compared,
    times: u32,
) -> Option<Costs>
    requires { CanBeWritten rules.now compared.now.change.marks.items compared.now.change.records.items }
{
    let hour = Stamp::parse(HOUR)?;
    let images = making(alloc, rt, rules, hour, &compared.change, times)?;
    let image = hour_image(alloc, rules, hour, &compared.change).ok()?;
    let reading = reading(alloc, rt, &image, times)?;
    Some(Costs {
        marks: compared.change.marks.len(),
        records: compared.change.records.len(),
        overlay: compared.took,
        images,
        reading,
    })
}

/// The nanoseconds that making the image so often takes.
fn making(
    alloc: Global,
    rt: &HostRuntime,
    rules: &Rules,
    hour: Stamp,
    change: &Change,
    times: u32,
) -> Option<u128>
    requires { CanBeWritten rules.now change.now.marks.items change.now.records.items }
{
    let began = Instant::now(rt).ok()?;
    let _ = images_made(alloc, rules, hour, change, times).ok()?;
    let took = began.elapsed(rt).ok()?;
    Some(took.as_nanos())
}

/// The nanoseconds that reading copies of its bytes so often takes.
fn reading(alloc: Global, rt: &HostRuntime, image: &Image, times: u32) -> Option<u128> {
    let began = Instant::now(rt).ok()?;
    let _ = images_read(alloc, image.bytes(), times).ok()?;
    let took = began.elapsed(rt).ok()?;
    Some(took.as_nanos())
}
