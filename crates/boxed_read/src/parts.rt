//! The parts of a record: what classes read their records of.

ghost use Rattle.std.specs.Prelude.{◌≡◌, ◌≤ℤ◌, ◌+ℤ◌, pos, true, ℕ, List, Ok, map, IfOk, IsUtf8};
ghost use Rattle.live_model.specs.Maps.{meets};
ghost use Rattle.live_model.specs.Points.{overlaps};
ghost use Rattle.obf_wire.specs.Windows.{range_of};
ghost use Rattle.coord_delta.specs.Steps.{places};
ghost use Rattle.file_grammar.specs.declared.parts.Part.TheVariants.{Texts};
ghost use Rattle.file_grammar.specs.BoxRules.{is_on_grid, is_ordinal};
ghost use Rattle.file_grammar.specs.MapRules.{point_from};
ghost use Rattle.file_grammar.specs.Messages.{Fields};
ghost use Rattle.file_grammar.specs.Readings.{message_at, numbers_at};
ghost use Rattle.file_grammar.specs.RecordRules.{only_point};
ghost use Rattle.file_grammar.specs.Sections.{object_of, text_of, texts_in};
ghost use Rattle.boxed_read.specs.Bounds.{bounds_of, widened};
ghost use Rattle.boxed_read.specs.Sound.{Amid, HoldsSteps};

use boxed_exact::{Step, next_step, text_of};
use live_model::{ObjId, Point, Rect};
use obf_wire::Window;
use owned_data::Mem;
use std::alloc::Global;
use std::str::from_utf8;

/// The text of a number among the texts of a sound block: the empty one for 0, else the one at the index before it. It goes
/// over the texts before it.
pub fn text<'a>(texts: Window<'a>, number: u64) -> &'a str
    requires { Amid (range_of texts) }
    ensures { (named : Fields) → message_at Texts (range_of texts.entry) ≡ Ok named → result.now ≡ text_of (texts_in named) number }
{
    utf8(text_of(texts, number))
}

/// The text that these bytes are.
fn utf8(bytes: &[u8]) -> &str
    requires { IsUtf8 bytes.now }
    ensures { result.now ≡ bytes.now }
{
    from_utf8(bytes).unwrap()
}

/// The object of an ordinal.
pub fn object(ordinal: u64) -> ObjId
    requires { is_ordinal ordinal ≡ true }
    ensures { result ≡ object_of ordinal }
{
    ObjId::from_ordinal(ordinal).unwrap()
}

/// The points to which the steps in a window lead.
pub fn points(alloc: Global, window: Window<'_>) -> Mem<Vec<Point>>
    requires { HoldsSteps (pos 0, pos 0) (range_of window) }
    ensures { IfOk result (λ points. (numbers : List ℕ) → numbers_at (range_of window.entry) ≡ Ok numbers → points.items ≡ map point_from (places numbers)) }
{
    let mut point = Point { x: 0, y: 0 };
    let mut points = Vec::new(alloc);
    let mut at = window.from();
    while let Some(step) = next_step(window, at) {
        point = point_after(point, step);
        points.push(point)?;
        at = step.next;
    }
    Ok(points)
}

/// The first point to which the steps in a window lead; the north-west corner where there is none.
pub fn one_point(window: Window<'_>) -> Point
    requires { HoldsSteps (pos 0, pos 0) (range_of window) }
    ensures { (numbers : List ℕ) → numbers_at (range_of window.entry) ≡ Ok numbers → result ≡ only_point (places numbers) }
{
    let corner = Point { x: 0, y: 0 };
    match next_step(window, window.from()) {
        Some(step) => point_after(corner, step),
        None => corner,
    }
}

/// Whether the box of the points to which the steps in a window lead meets a rectangle, edges included.
pub fn meets(window: Window<'_>, rect: &Rect) -> bool
    requires { HoldsSteps (pos 0, pos 0) (range_of window) }
    ensures { (numbers : List ℕ) → numbers_at (range_of window.entry) ≡ Ok numbers → result ≡ meets rect.now (map point_from (places numbers)) }
{
    match bounds(window) {
        Some(bounds) => overlaps(&bounds, rect),
        None => false,
    }
}

/// The smallest rectangle around the points to which the steps in a window lead; `None` where there is none.
fn bounds(window: Window<'_>) -> Option<Rect>
    requires { HoldsSteps (pos 0, pos 0) (range_of window) }
    ensures { (numbers : List ℕ) → numbers_at (range_of window.entry) ≡ Ok numbers → result ≡ bounds_of (map point_from (places numbers)) }
{
    let mut point = Point { x: 0, y: 0 };
    let mut bounds = None;
    let mut at = window.from();
    while let Some(step) = next_step(window, at) {
        point = point_after(point, step);
        bounds = Some(widened(bounds, &point));
        at = step.next;
    }
    bounds
}

/// The smallest rectangle around some points, if there are any, and one more.
fn widened(bounds: Option<Rect>, point: &Point) -> Rect
    ensures { result ≡ widened bounds point.now }
{
    match bounds {
        Some(bounds) => bounds.with_point(point),
        None => Rect::of_point(point),
    }
}

/// Whether no edge of the one lies beyond the opposite edge of the other.
pub fn overlaps(one: &Rect, other: &Rect) -> bool
    ensures { result ≡ overlaps one.now other.now }
{
    one.left <= other.right
        && other.left <= one.right
        && one.top <= other.bottom
        && other.top <= one.bottom
}

/// The point that a step leads to, which is on the grid.
pub fn point_after(from: Point, step: Step) -> Point
    requires { is_on_grid (pos from.x +ℤ step.east, pos from.y +ℤ step.south) ≡ true }
    ensures x { pos result.x ≡ pos from.x +ℤ step.east }
    ensures y { pos result.y ≡ pos from.y +ℤ step.south }
{
    Point {
        x: moved(from.x, step.east),
        y: moved(from.y, step.south),
    }
}

/// Where a step leads.
fn moved(from: u32, by: i64) -> u32
    requires low { pos 0 ≤ℤ (pos from +ℤ by) }
    requires high { (pos from +ℤ by) ≤ℤ pos 3600000000 }
    ensures { pos result ≡ pos from +ℤ by }
{
    (i64::from(from) + by) as u32
}
