//! The section of roads and turn restrictions, checked.

ghost use Rattle.std.specs.Prelude.{◌≡◌, ◌≤◌, None, Ok, IfErr, IfOk, IfSome};
ghost use Rattle.obf_wire.specs.Windows.{range_of};
ghost use Rattle.file_grammar.specs.declared.parts.Boxed.TheVariants.{Restriction, Road};
ghost use Rattle.file_grammar.specs.declared.parts.Part.TheVariants.{Routing};
ghost use Rattle.file_grammar.specs.BoxRules.{Beside};
ghost use Rattle.file_grammar.specs.Facts.{earlier};
ghost use Rattle.file_grammar.specs.Messages.{Fields};
ghost use Rattle.file_grammar.specs.Readings.{message_at};
ghost use Rattle.file_grammar.specs.RoadRules.{ban_boxing, road_boxing};
ghost use Rattle.boxed_exact.specs.Breaks.{Breaks, section_break};
ghost use Rattle.boxed_exact.specs.Sides.{AreRising, beside};
ghost use Rattle.road_section.specs.Routing.{AreInside, AreParts, ArePartsOf, IsRoutingKept, bans_window, roads_window, routing_break};

use crate::ban_class::BanClass;
use crate::road_class::RoadClass;
use boxed_check::{Kept as KeptClass, see_section};
use boxed_exact::{Around, CheckClass, Payload, next_payload};
use file_grammar::{FieldWalk, FirstBreak, Part, form};
use obf_wire::{Field, FileBreak, FileError, Window, expected_wide};
use owned_data::{Mem, NoMemory};
use std::alloc::Global;

/// The keys of boxed roads and of boxed restrictions.
const ROADS: u8 = 14;

const BANS: u8 = 22;

/// Where the two parts of a section stand.
#[derive(Clone, Copy, Debug)]
pub struct Spans {
    pub roads: Payload,
    pub bans: Payload,
}

/// What a check leaves of a section: where its parts stand, and what there is of the roads and of the restrictions.
#[derive(Debug, Drop)]
pub struct Kept {
    pub spans: Spans,
    pub roads: KeptClass,
    pub bans: KeptClass,
}

/// Checks the section of roads and restrictions in a window, and says what there is of it: in one pass where it is good. `Broken`
/// with the first break of form, or else with the first rule that fails, exactly where there is one, unless memory was refused
/// before.
#[tactic(auto, using(crate::proofs::Parts::kept_good))]
pub fn check(alloc: Global, window: Window<'_>, around: &Around<'_>) -> Result<Kept, FileError>
    requires marks { AreRising around.now.marks }
    ensures good { IfOk result (λ _. routing_break (beside around.now) (range_of window.entry) ≡ None) }
    ensures kept { IfOk result (IsRoutingKept (beside around.now) (range_of window.entry)) }
    ensures broken { IfErr result (λ error. Breaks error (routing_break (beside around.now) (range_of window.entry))) }
{
    let found = see(alloc, window, around)?;
    if let Some(kept) = found {
        return Ok(kept);
    }
    check_exactly(alloc, window, around)?;
    let kept = survey(alloc, window)?;
    Ok(kept)
}

/// The same in one pass: `Some` only where the form is good and every rule holds. `None` says nothing.
pub fn see(alloc: Global, window: Window<'_>, around: &Around<'_>) -> Mem<Option<Kept>>
    requires marks { AreRising around.now.marks }
    ensures { IfOk result (λ found. IfSome found (IsRoutingKept (beside around.now) (range_of window.entry))) }
{
    let Some(spans) = spans_of(window) else {
        return Ok(None);
    };
    let found = see_section::<RoadClass>(alloc, roads_in(window, spans), around)?;
    let Some(roads) = found else {
        return Ok(None);
    };
    let found = see_section::<BanClass>(alloc, bans_in(window, spans), around)?;
    let Some(bans) = found else {
        return Ok(None);
    };
    Ok(Some(Kept { spans, roads, bans }))
}

/// The same, first the form and then rule by rule, for the first break.
pub fn check_exactly(
    alloc: Global,
    window: Window<'_>,
    around: &Around<'_>,
) -> Result<(), FileError>
    requires marks { AreRising around.now.marks }
    ensures good { IfOk result (λ _. routing_break (beside around.now) (range_of window.entry) ≡ None) }
    ensures broken { IfErr result (λ error. Breaks error (routing_break (beside around.now) (range_of window.entry))) }
{
    form(Part::Routing, window)?;
    let spans = read_spans(window);
    let found = first_break(alloc, window, spans, around)?;
    match found {
        None => Ok(()),
        Some(found) => Err(FileError::Broken(found)),
    }
}

/// What a check leaves of the section in a window of which every rule holds.
pub fn survey(alloc: Global, window: Window<'_>) -> Mem<Kept>
    ensures { IfOk result (λ kept. (beside : Beside) → routing_break beside (range_of window.entry) ≡ None → IsRoutingKept beside (range_of window.entry) kept) }
{
    let spans = read_spans(window);
    let roads = boxed_check::survey::<RoadClass>(alloc, roads_in(window, spans))?;
    let bans = boxed_check::survey::<BanClass>(alloc, bans_in(window, spans))?;
    Ok(Kept { spans, roads, bans })
}

/// The first break of the two parts, each of good form.
fn first_break(
    alloc: Global,
    window: Window<'_>,
    spans: Spans,
    around: &Around<'_>,
) -> Mem<Option<FileBreak>>
    requires inside { AreInside window.bytes.now spans }
    requires marks { AreRising around.now.marks }
    ensures { IfOk result (λ found. found ≡ earlier (section_break Road road_boxing (beside around.now) (roads_window window.entry.bytes.now spans)) (section_break Restriction ban_boxing (beside around.now) (bans_window window.entry.bytes.now spans))) }
{
    let mut first = FirstBreak::none();
    let found = break_of::<RoadClass>(alloc, roads_in(window, spans), around)?;
    ask_found(&mut first, found);
    let found = break_of::<BanClass>(alloc, bans_in(window, spans), around)?;
    ask_found(&mut first, found);
    Ok(first.found())
}

/// The first break of a section of a class.
fn break_of<C: CheckClass>(
    alloc: Global,
    window: Window<'_>,
    around: &Around<'_>,
) -> Mem<Option<FileBreak>>
    requires marks { AreRising around.now.marks }
    ensures { IfOk result (λ found. found ≡ section_break C.class C.boxing (beside around.now) (range_of window.entry)) }
{
    match boxed_exact::check_exactly::<C>(alloc, window, around) {
        Ok(_) => Ok(None),
        Err(FileError::Broken(found)) => Ok(Some(found)),
        Err(FileError::NoMemory) => Err(NoMemory),
    }
}

/// A break, where there is one, among those that were found before.
fn ask_found(first: &mut FirstBreak, found: Option<FileBreak>)
    ensures { first.new ≡ earlier first.old found }
{
    if let Some(found) = found {
        first.ask(found.at, found.kind, false);
    }
}

/// The roads, where they stand in the window.
fn roads_in(window: Window<'_>, spans: Spans) -> Window<'_>
    requires { AreInside window.bytes.now spans }
    ensures { range_of result ≡ roads_window window.entry.bytes.now spans }
{
    window.part(spans.roads.from, spans.roads.to)
}

/// The restrictions, where they stand in the window.
fn bans_in(window: Window<'_>, spans: Spans) -> Window<'_>
    requires { AreInside window.bytes.now spans }
    ensures { range_of result ≡ bans_window window.entry.bytes.now spans }
{
    window.part(spans.bans.from, spans.bans.to)
}

/// Where the parts of a section stand, whose form is good.
fn read_spans(window: Window<'_>) -> Spans
    ensures read { (fields : Fields) → message_at Routing (range_of window.entry) ≡ Ok fields → ArePartsOf window.entry.bytes.now result fields }
    ensures inside { AreInside window.entry.bytes.now result }
{
    let mut walk = FieldWalk::new(Part::Routing, window);
    let roads = next_payload(&mut walk);
    let bans = next_payload(&mut walk);
    Spans { roads, bans }
}

/// Where the parts of a section stand, in a straight line.
fn spans_of(window: Window<'_>) -> Option<Spans>
    ensures parts { IfSome result (AreParts (range_of window.entry)) }
    ensures inside { IfSome result (AreInside window.entry.bytes.now) }
{
    let Some(roads) = expected_wide(window, window.from(), ROADS) else {
        return None;
    };
    let Some(bans) = expected_wide(window, roads.to, BANS) else {
        return None;
    };
    if bans.to != window.to() {
        return None;
    }
    Some(Spans {
        roads: span_of(roads),
        bans: span_of(bans),
    })
}

/// Where the payload of a field stands.
fn span_of(field: Field) -> Payload
    ensures { result ≡ record { at = field.at; from = field.from; to = field.to } }
{
    Payload {
        at: field.at,
        from: field.from,
        to: field.to,
    }
}
