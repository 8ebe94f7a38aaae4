//! Machines that take events in turn.

ghost use Rattle.std.specs.Prelude.{◌≡◌, IfErr, IfOk, OnErr, map};
ghost use Rattle.std.specs.List.{AllByRecursion};
ghost use Rattle.overlay_set.specs.Events.{event_of, reply_of};
ghost use Rattle.overlay_set.specs.MachineLaws.{IsGoodEvent};
ghost use Rattle.overlay_set.specs.Standing.{Stands};
ghost use Rattle.live_core.specs.Running.{HasBegun, HasPlayed, IsNamed, IsPlayed};

use crate::machine::Machine;
use live_model::Mem;
use overlay_set::{Event, Reply};
use std::alloc::Global;

/// Takes events in turn, and puts what each is answered at the end of the replies. The passes and workers that the events name are there,
/// and the lines of publications are good. After `NoMemory` there are the replies of the first events, and the machine is as after these.
pub fn replay(
    alloc: Global,
    machine: &mut Machine,
    events: &[Event],
    replies: &mut Vec<Reply>,
) -> Mem<()>
    requires named { AllByRecursion (IsNamed machine.old) (map event_of events.now) }
    requires good { AllByRecursion IsGoodEvent (map event_of events.now) }
    ensures played { IfOk result (λ _. HasPlayed machine.old (map event_of events.now) machine.new (map reply_of replies.old.items) (map reply_of replies.new.items)) }
    ensures begun { IfErr result (λ _. HasBegun machine.old (map event_of events.now) machine.new (map reply_of replies.old.items) (map reply_of replies.new.items)) }
    ensures stands { Stands machine.new.rules machine.new.base machine.new.now }
{
    machine.stands();
    for event in events {
        play(alloc, machine, event, replies)?;
    }
    Ok(())
}

/// Takes an event, and puts what it is answered at the end of the replies. Room for it is taken first.
fn play(alloc: Global, machine: &mut Machine, event: &Event, replies: &mut Vec<Reply>) -> Mem<()>
    requires named { IsNamed machine.old (event_of event.now) }
    requires good { IsGoodEvent (event_of event.now) }
    ensures played { IfOk result (λ _. IsPlayed machine.old (event_of event.now) machine.new (map reply_of replies.old.items) (map reply_of replies.new.items)) }
    ensures machine { OnErr result (machine.new ≡ machine.old) }
    ensures replies { OnErr result (map reply_of replies.new.items ≡ map reply_of replies.old.items) }
    ensures stands { Stands machine.new.rules machine.new.base machine.new.now }
{
    machine.stands();
    replies.reserve(1)?;
    let reply = machine.step(alloc, event)?;
    replies.push_reserved(reply);
    Ok(())
}
