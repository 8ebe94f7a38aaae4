//! The hours of a made session: in each, ten nodes move, and then a question is asked.

ghost use Rattle.std.specs.Prelude.{◌≡◌, ◌≢◌, ◌*◌, ◌≤◌, [], IfOk};
ghost use Rattle.std.specs.List.{AllByRecursion};
ghost use Rattle.live_model.specs.Objects.{IsGoodLine};
ghost use Rattle.live_model.specs.QueryTexts.{IsQuery};
ghost use Rattle.script_text.specs.Scripts.{IsStep};
ghost use Rattle.made_session.specs.Draws.{state_after};
ghost use Rattle.made_session.specs.Loads.{asking_of, drawn_question, drawn_rect, file_name, made_change, moved_node, moved_nodes, publication_of};

use crate::base::{NODES, node};
use crate::draws::Draws;
use live_model::{Line, Lines, List, Mem, Query, Rect, Text};
use script_text::{Step, What};
use stamp_core::Stamp;
use std::alloc::Global;

/// How many nodes move in an hour.
const MOVED: u32 = 10;

/// A node that is drawn, at a new location.
fn moved(alloc: Global, draws: &mut Draws, version: u32) -> Mem<Line>
    ensures node { IfOk result (λ line. line ≡ moved_node draws.old version) }
    ensures good { IfOk result IsGoodLine }
    ensures after { IfOk result (λ _. draws.new ≡ state_after draws.old 3) }
{
    let number = 1 + draws.below(NODES);
    node(alloc, draws, number, version)
}

/// This many nodes that move in an hour, counted from 1.
fn moves(alloc: Global, draws: &mut Draws, hour: u32, count: u32) -> Mem<Lines>
    requires hour { hour ≤ 10000 }
    ensures moves { IfOk result (λ lines. lines ≡ moved_nodes draws.old hour count) }
    ensures good { IfOk result (λ lines. AllByRecursion IsGoodLine lines) }
    ensures after { IfOk result (λ _. draws.new ≡ state_after draws.old (3 * count)) }
{
    let mut lines = List::new(alloc);
    for index in 0..count {
        let node = moved(alloc, draws, hour + 1)?;
        lines.push(node)?;
    }
    Ok(lines)
}

/// The change of an hour, counted from 1.
pub fn change(alloc: Global, draws: &mut Draws, hour: u32) -> Mem<Lines>
    requires hour { hour ≤ 10000 }
    ensures change { IfOk result (λ lines. lines ≡ made_change draws.old hour) }
    ensures good { IfOk result (λ lines. AllByRecursion IsGoodLine lines) }
    ensures after { IfOk result (λ _. draws.new ≡ state_after draws.old 30) }
{
    moves(alloc, draws, hour, MOVED)
}

/// A rectangle of a hundredth of a degree from edge to edge.
fn rect(draws: &mut Draws) -> Rect
    ensures rect { result ≡ drawn_rect draws.old }
    ensures after { draws.new ≡ state_after draws.old 2 }
{
    let east = draws.below(900_000);
    let north = draws.below(900_000);
    let left = 1_800_000_000 + 130_000_000 + east;
    let bottom = 900_000_000 - 520_000_000 - north;
    Rect {
        left,
        top: bottom - 100_000,
        right: left + 100_000,
        bottom,
    }
}

/// What is asked in an hour: what is drawn in a rectangle at zoom 15.
pub fn question(draws: &mut Draws) -> Query
    ensures question { result ≡ drawn_question draws.old }
    ensures good { IsQuery result }
    ensures after { draws.new ≡ state_after draws.old 2 }
{
    Query::View {
        rect: rect(draws),
        zoom: 15,
    }
}

/// The name of the file of an hour, counted from 1.
fn named(alloc: Global, hour: u32) -> Mem<Text>
    ensures name { IfOk result (λ name. name ≡ file_name hour) }
    ensures some { IfOk result (λ name. name ≢ []) }
{
    let name = format!(in alloc; "h{hour}")?;
    Ok(Text::from_string(name))
}

/// A line of the script by which the change of an hour is published.
pub fn publication(alloc: Global, hour: u32, stamp: Stamp) -> Mem<Step>
    ensures step { IfOk result (λ step. step ≡ publication_of hour stamp) }
    ensures good { IfOk result IsStep }
{
    let file = named(alloc, hour)?;
    Ok(Step {
        lane: 0,
        what: What::Publish { stamp, file },
    })
}

/// A line of the script that asks a question.
pub fn asking(question: Query) -> Step
    requires good { IsQuery question }
    ensures step { result ≡ asking_of question }
    ensures good { IsStep result }
{
    Step {
        lane: 0,
        what: What::Ask(question),
    }
}
