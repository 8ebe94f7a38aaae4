//! The lines of a script, played one after another.

ghost use Rattle.std.specs.Prelude.{◌≡◌, ◌+◌, ◌++◌, ◌<◌, ◌≤◌, [], ◌∷◌, IfOk, length, map};
ghost use Rattle.std.specs.Arc.{arc_value};
ghost use Rattle.std.specs.List.{AllByRecursion};
ghost use Rattle.live_model.specs.QueryTexts.{IsQuery};
ghost use Rattle.script_text.specs.Scripts.{IsStep};
ghost use Rattle.session_text.specs.Plays.{events_of};
ghost use Rattle.session_text.specs.Sessions.{reply_text};
ghost use Rattle.overlay_set.specs.Machines.{Publish, Take, Ask, Drop};
ghost use Rattle.overlay_set.specs.Standing.{Stands};
ghost use Rattle.live_core.specs.Running.{after_event, after_events, answer_to};
ghost use Rattle.live_model.specs.Objects.{IsGoodLine};
ghost use Rattle.live_session.specs.Scripts.{publications, publishing};
ghost use Rattle.live_session.specs.Lines.{IsAlone, IsLinePlayed, lines_text};

use live_core::Machine;
use live_model::{Lines, Mem, Query};
use overlay_set::Event;
use script_text::{Step, What};
use session_text::put_reply;
use stamp_core::Stamp;
use std::alloc::Global;
use std::sync::Arc;

/// A second owner of the same question.
fn copied(alloc: Global, query: &Query) -> Mem<Query>
    ensures { IfOk result (λ q. q ≡ query.now) }
{
    match query {
        Query::View { rect, zoom } => Ok(Query::View {
            rect: *rect,
            zoom: *zoom,
        }),
        Query::Category { category, rect } => {
            let category = category.copy(alloc)?;
            Ok(Query::Category {
                category,
                rect: *rect,
            })
        }
        Query::Prefix { text } => {
            let text = text.copy(alloc)?;
            Ok(Query::Prefix { text })
        }
        Query::Street { text } => {
            let text = text.copy(alloc)?;
            Ok(Query::Street { text })
        }
        Query::Roads { rect } => Ok(Query::Roads { rect: *rect }),
    }
}

/// Publishes a change under the number of a line, and puts the reply.
fn publish(
    alloc: Global,
    machine: &mut Machine,
    line: u32,
    stamp: Stamp,
    change: &Arc<Lines>,
    out: &mut Vec<u8>,
) -> Mem<()>
    requires alone { IsAlone machine.old }
    requires good { AllByRecursion IsGoodLine (arc_value change.now) }
    ensures machine { IfOk result (λ _. machine.new ≡ after_event machine.old (Publish 0 stamp line (arc_value change.now))) }
    ensures text { IfOk result (λ _. out.new.items ≡ out.old.items ++ reply_text line (answer_to machine.old (Publish 0 stamp line (arc_value change.now)))) }
    ensures stands { IfOk result (λ _. Stands machine.new.rules machine.new.base machine.new.now) }
{
    let lines = Arc::try_clone(change)?;
    let event = Event::Publish {
        pass: 0,
        stamp,
        tag: line,
        lines,
    };
    let reply = machine.step(alloc, &event)?;
    put_reply(out, u64::from(line), &reply)
}

/// Asks a question of the present set, and puts the reply.
fn ask(alloc: Global, machine: &mut Machine, line: u32, query: &Query, out: &mut Vec<u8>) -> Mem<()>
    requires alone { IsAlone machine.old }
    ensures machine { IfOk result (λ _. machine.new ≡ after_event (after_event (after_event machine.old (Take 0)) (Ask 0 query.now)) (Drop 0)) }
    ensures text { IfOk result (λ _. out.new.items ≡ out.old.items ++ reply_text line (answer_to (after_event machine.old (Take 0)) (Ask 0 query.now))) }
    ensures stands { IfOk result (λ _. Stands machine.new.rules machine.new.base machine.new.now) }
{
    let query = copied(alloc, query)?;
    let _ = machine.step(alloc, &Event::Take { pass: 0 })?;
    let reply = machine.step(alloc, &Event::Ask { pass: 0, query })?;
    let _ = machine.step(alloc, &Event::Drop { pass: 0 })?;
    put_reply(out, u64::from(line), &reply)
}

/// Plays a line, with the change at an index where it publishes. The index of the next change.
fn play_line(
    alloc: Global,
    machine: &mut Machine,
    line: u32,
    step: &Step,
    changes: &[Arc<Lines>],
    used: usize,
    out: &mut Vec<u8>,
) -> Mem<usize>
    requires alone { IsAlone machine.old }
    requires good { AllByRecursion (λ lines. AllByRecursion IsGoodLine lines) (map arc_value changes.now) }
    requires there { used + length (publishing (step.now.what ∷ [])) ≤ length changes.now }
    ensures alone { IfOk result (λ _. IsAlone machine.new) }
    ensures stands { IfOk result (λ _. Stands machine.new.rules machine.new.base machine.new.now) }
    ensures played { IfOk result (IsLinePlayed machine.old line step.now.what (map arc_value changes.now) used out.old.items machine.new out.new.items) }
{
    match &step.what {
        What::Publish { stamp, file: _ } => {
            publish(alloc, machine, line, *stamp, &changes[used], out)?;
            Ok(used + 1)
        }
        What::Ask(query) => {
            ask(alloc, machine, line, query, out)?;
            Ok(used)
        }
    }
}

/// Plays lines in turn, and puts the replies.
pub fn play_lines(
    alloc: Global,
    machine: &mut Machine,
    steps: &[Step],
    changes: &[Arc<Lines>],
    out: &mut Vec<u8>,
) -> Mem<()>
    requires alone { IsAlone machine.old }
    requires count { length changes.now ≡ publications steps.now }
    requires stands { Stands machine.old.rules machine.old.base machine.old.now }
    requires few { length steps.now ≤ 100000 }
    requires good { AllByRecursion (λ lines. AllByRecursion IsGoodLine lines) (map arc_value changes.now) }
    ensures alone { IfOk result (λ _. IsAlone machine.new) }
    ensures stands { IfOk result (λ _. Stands machine.new.rules machine.new.base machine.new.now) }
    ensures machine { IfOk result (λ _. machine.new ≡ after_events machine.old (events_of steps.now (map arc_value changes.now))) }
    ensures text { IfOk result (λ _. out.new.items ≡ out.old.items ++ lines_text 1 machine.old (map (λ s. s.what) steps.now) (map arc_value changes.now)) }
{
    let mut used = 0;
    for index in 0..steps.len() {
        used = play_line(
            alloc,
            machine,
            index as u32 + 1,
            &steps[index],
            changes,
            used,
            out,
        )?;
    }
    Ok(())
}
