//! The machine.

ghost use Rattle.std.specs.Prelude.{◌≡◌, ◌<◌, ◌≤◌, IfOk, None, OnErr, Some, length, slice_set};
ghost use Rattle.std.specs.Arc.{arc_value};
ghost use Rattle.std.specs.List.{AllByRecursion};
ghost use Rattle.live_model.specs.Objects.{IsGoodLine};
ghost use Rattle.overlay_set.specs.Events.{event_of, reply_of};
ghost use Rattle.overlay_set.specs.MachineLaws.{IsGoodEvent, MachineStands};
ghost use Rattle.overlay_set.specs.Machines.{Ask, Commit, Drop, Plan, Shrink, Take, limits_of_a_board, publish, refused};
ghost use Rattle.overlay_set.specs.Standing.{Stands};
ghost use Rattle.published_set.specs.Sets.{IsStanding};
ghost use Rattle.live_core.specs.Running.{IsMadeAnew, IsNamed, IsStep, after_event, answer_to, begun, machine_of, with_now};
ghost use Rattle.set_events.specs.Kept.{entry_for};

use crate::folds::bring;
use crate::places::{empty_places, item_at, put_at, take_at};
use crate::publications::{make_room, uncounted};
use crate::questions::answered;
use crate::refusals::reply_for;
use entity_store::Store;
use fold_sets::fold_plan;
use live_model::{Lines, Mem, Query};
use overlay_set::{Event, Reply};
use published_set::{FoldPlan, OverlaySet};
use ref_index::RefIndex;
use set_events::{Prepared, base_image, due_plan, front, refusal, room_for, shrunk};
use stamp_core::Stamp;
use std::alloc::Global;
use std::marker::{Brand, Model};
use std::sync::Arc;
use std::sync::ledger::Blank;
use tag_rules::Rules;

/// A set, with the sets that passes hold and the plans of workers. It is seen as its rules and base lines, the present state, the
/// states that are held, and the plans. Beside them it keeps the store after its history, and the index of that store.
#[derive(Drop)]
pub struct Machine {
    set: OverlaySet,
    store: Store,
    index: RefIndex,
    held: Vec<Option<OverlaySet>>,
    plans: Vec<Option<FoldPlan>>,
}

impl Model for Machine {
    ghost use Rattle.live_core.specs.Running.{Running};
    ghost use Rattle.live_core.specs.Kept.{IsKept, running_over};

    ghost Value = { Running };

    ghost view = { λ m. running_over m.set m.held.items m.plans.items };

    ghost invariant = { λ m. IsKept (running_over m.set m.held.items m.plans.items) m.store.entities m.index.map };
}

impl Machine {
    /// The machine of a base, with so many passes, 1 to 16, and workers, 4 at most. No pass holds anything, and no worker has a plan.
    /// The base lines have to be good. `NoMemory` is the only error.
    pub fn new(
        alloc: Global,
        rules: &Rules,
        base: Arc<Lines>,
        passes: u8,
        workers: u8,
    ) -> Mem<Machine>
        requires passes { (1 ≤ passes) × (passes ≤ 16) }
        requires workers { workers ≤ 4 }
        requires good { AllByRecursion IsGoodLine (arc_value base) }
        ensures { IfOk result (λ machine. machine ≡ begun rules.now (arc_value base) passes workers) }
    {
        let store = Store::build(alloc, base.as_slice())?;
        let index = RefIndex::build(alloc, &store)?;
        let image = base_image(alloc, rules, &store)?;
        let set = OverlaySet::new(alloc, base, image)?;
        let held = empty_places(alloc, passes)?;
        let plans = empty_places(alloc, workers)?;
        Ok(Machine {
            set,
            store,
            index,
            held,
            plans,
        })
    }

    /// Takes an event, and answers it. The passes and workers that it names are there, and the lines of a publication are good.
    ///
    /// `Late`, `HistoryFull` and `FilesFull` come in this order where a publication does not come in; `Overtaken` where a file of the plan is
    /// in the set no more, with the first such number; `NothingPlanned` where the worker has no plan, `NotTaken` where the pass holds nothing;
    /// `Planned(false)` where nothing is foldable, and at a `Shrink` where nothing can be shrunk. After `NoMemory` the machine is as before:
    /// a publication takes all memory before its first change, with the fold that makes room in a full set.
    pub fn step(&mut self, alloc: Global, event: &Event) -> Mem<Reply>
        requires named { IsNamed self.old (event_of event.now) }
        requires good { IsGoodEvent (event_of event.now) }
        ensures reply { IfOk result (λ reply. reply_of reply ≡ answer_to self.old (event_of event.now)) }
        ensures next { IfOk result (λ _. self.new ≡ after_event self.old (event_of event.now)) }
        ensures stays { OnErr result (self.new ≡ self.old) }
        ensures stands { Stands self.new.rules self.new.base self.new.now }
        ensures rows { IfOk result (λ reply. IsMadeAnew self.new (event_of event.now) (reply_of reply)) }
    {
        self.stands();
        let answer = self.take_event(alloc, event);
        self.stands();
        answer
    }

    /// The set, which stands.
    pub fn set(&self) -> &OverlaySet
        ensures set { result.now ≡ record { base = self.now.base; state = self.now.now } }
        ensures standing { IsStanding result.now }
    {
        &self.set
    }

    /// The same, for the machine alone.
    fn take_event(&mut self, alloc: Global, event: &Event) -> Mem<Reply>
        requires named { IsNamed self.old (event_of event.now) }
        requires good { IsGoodEvent (event_of event.now) }
        ensures step { IfOk result (λ reply. IsStep self.old (event_of event.now) (reply_of reply) self.new) }
        ensures stays { OnErr result (self.new ≡ self.old) }
    {
        match event {
            Event::Publish {
                pass: _,
                stamp,
                tag,
                lines,
            } => self.publish(alloc, *stamp, *tag, lines),
            Event::Plan { worker } => self.plan(alloc, *worker),
            Event::Commit { worker } => self.commit(alloc, *worker),
            Event::Take { pass } => self.take(alloc, *pass),
            Event::Ask { pass, query } => self.ask(alloc, *pass, query),
            Event::Drop { pass } => Ok(self.give_back(*pass)),
            Event::Tell { from: _, to: _ } => Ok(Reply::Done),
            Event::Shrink => self.shrink(alloc),
        }
    }

    /// Takes in a publication, unless it is refused.
    fn publish(&mut self, alloc: Global, stamp: Stamp, tag: u32, lines: &Arc<Lines>) -> Mem<Reply>
        requires { AllByRecursion IsGoodLine (arc_value lines.now) }
        ensures next { IfOk result (λ _. self.new ≡ with_now self.old (publish limits_of_a_board self.old.rules self.old.base self.old.now (entry_for stamp tag (arc_value lines.now))).0) }
        ensures reply { IfOk result (λ reply. reply_of reply ≡ (publish limits_of_a_board self.old.rules self.old.base self.old.now (entry_for stamp tag (arc_value lines.now))).1) }
        ensures stays { OnErr result (self.new ≡ self.old) }
    {
        match refusal(&self.set, &stamp) {
            Some(cause) => Ok(reply_for(front(&self.set), cause)),
            None => self.accept(alloc, stamp, tag, lines),
        }
    }

    /// Takes in a publication that is not refused. Memory is taken first, and then nothing can fail.
    fn accept(&mut self, alloc: Global, stamp: Stamp, tag: u32, lines: &Arc<Lines>) -> Mem<Reply>
        requires good { AllByRecursion IsGoodLine (arc_value lines.now) }
        requires wanted { refused limits_of_a_board self.old.rules self.old.base self.old.now stamp ≡ None }
        ensures next { IfOk result (λ _. self.new ≡ with_now self.old (publish limits_of_a_board self.old.rules self.old.base self.old.now (entry_for stamp tag (arc_value lines.now))).0) }
        ensures reply { IfOk result (λ reply. reply_of reply ≡ (publish limits_of_a_board self.old.rules self.old.base self.old.now (entry_for stamp tag (arc_value lines.now))).1) }
        ensures stays { OnErr result (self.new ≡ self.old) }
    {
        let room = room_for(alloc, &self.set)?;
        let prepared = uncounted::<Brand>(
            alloc,
            &self.set,
            &mut self.store,
            &mut self.index,
            stamp,
            tag,
            lines,
            Blank::new(1),
        )?;
        let Prepared {
            published,
            image,
            staged,
            refs,
        } = prepared;
        self.store.commit(staged);
        self.index.commit(refs);
        make_room(&mut self.set, room);
        self.set.add(published, image);
        Ok(Reply::Accepted {
            front: front(&self.set),
        })
    }

    /// Plans the first fold that is due, for a worker.
    fn plan(&mut self, alloc: Global, worker: u8) -> Mem<Reply>
        requires { worker < length self.old.plans }
        ensures step { IfOk result (λ reply. IsStep self.old (Plan worker) (reply_of reply) self.new) }
        ensures stays { OnErr result (self.new ≡ self.old) }
    {
        let plan = due_plan(alloc, &self.set)?;
        let found = plan.is_some();
        put_at(&mut self.plans, worker, plan);
        Ok(Reply::Planned(found))
    }

    /// Brings in the fold of a worker's plan, which is spent then.
    fn commit(&mut self, alloc: Global, worker: u8) -> Mem<Reply>
        requires { worker < length self.old.plans }
        ensures step { IfOk result (λ reply. IsStep self.old (Commit worker) (reply_of reply) self.new) }
        ensures stays { OnErr result (self.new ≡ self.old) }
    {
        match item_at(self.plans.as_slice(), worker) {
            None => Ok(Reply::NothingPlanned),
            Some(plan) => {
                let image = fold_plan(alloc, plan)?;
                match take_at(&mut self.plans, worker) {
                    None => Ok(Reply::NothingPlanned),
                    Some(plan) => Ok(bring(&mut self.set, plan.finish(image))),
                }
            }
        }
    }

    /// Holds the present set for a pass.
    fn take(&mut self, alloc: Global, pass: u8) -> Mem<Reply>
        requires { pass < length self.old.held }
        ensures step { IfOk result (λ reply. IsStep self.old (Take pass) (reply_of reply) self.new) }
        ensures stays { OnErr result (self.new ≡ self.old) }
    {
        let copied = self.set.copy(alloc)?;
        put_at(&mut self.held, pass, Some(copied));
        Ok(Reply::Done)
    }

    /// Asks the set that a pass holds.
    fn ask(&self, alloc: Global, pass: u8, query: &Query) -> Mem<Reply>
        requires { pass < length self.now.held }
        ensures { IfOk result (λ reply. reply_of reply ≡ answer_to self.now (Ask pass query.now)) }
    {
        match item_at(self.held.as_slice(), pass) {
            None => Ok(Reply::NotTaken),
            Some(set) => answered(alloc, set, query),
        }
    }

    /// Gives back the set that a pass holds.
    fn give_back(&mut self, pass: u8) -> Reply
        requires { pass < length self.old.held }
        ensures { IsStep self.old (Drop pass) (reply_of result) self.new }
    {
        put_at(&mut self.held, pass, None);
        Reply::Done
    }

    /// Folds the first day or month that can be shrunk.
    fn shrink(&mut self, alloc: Global) -> Mem<Reply>
        ensures step { IfOk result (λ reply. IsStep self.old Shrink (reply_of reply) self.new) }
        ensures stays { OnErr result (self.new ≡ self.old) }
    {
        match shrunk(alloc, &self.set)? {
            None => Ok(Reply::Planned(false)),
            Some(work) => Ok(bring(&mut self.set, work)),
        }
    }

    /// That the machine stands. There is nothing to run.
    pub(crate) fn stands(&self)
        ensures machine { MachineStands self.now.rules self.now.base (machine_of self.now) }
        ensures good { AllByRecursion IsGoodLine self.now.base }
    {
        let _ = &self.set;
    }
}
