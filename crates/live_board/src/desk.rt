//! The writer, under its lock, and what lies beside it.

ghost use Rattle.std.specs.Prelude.{◌≡◌, ◌⊎◌, ◌<◌, ◌≤◌, ◌+◌, ◌*◌, ◌++◌, ◌∷◌, [], IfErr, IfOk, IfSome, MatchBool, MatchOption, MatchResult, None, OnErr, Some, drop, length, sum_by};
ghost use Rattle.std.specs.Arc.{arc_value};
ghost use Rattle.std.specs.List.{AllByRecursion};
ghost use mathlib.Core.List.{IsPrefix};
ghost use Rattle.live_model.specs.Maps.{published};
ghost use Rattle.live_model.specs.Objects.{IsGoodLine};
ghost use Rattle.live_model.specs.Stores.{apply};
ghost use Rattle.live_model.specs.Users.{touched};
ghost use Rattle.overlay_set.specs.Machines.{limits_of_a_board, refused};
ghost use Rattle.overlay_set.specs.Periods.{foldable};
ghost use Rattle.overlay_set.specs.Sets.{lines_of};
ghost use Rattle.overlay_set.specs.Swaps.{Fits, IsLater, missing};
ghost use Rattle.published_set.specs.Ops.{HasRoomFor, swap_of};
ghost use Rattle.published_set.specs.Sets.{IsStanding, IsStandingOver};
ghost use Rattle.stamp_core.specs.Hours.{CivilHour};
ghost use Rattle.set_events.specs.Causes.{refusal_for};
ghost use Rattle.set_events.specs.Kept.{entry_for};
ghost use Rattle.board_journal.specs.Journals.{IsBoardJournal, MayCome, state_after};
ghost use Rattle.board_journal.specs.Views.{IsSound};
ghost use Rattle.live_board.specs.Answers.{IsSettled};
ghost use Rattle.live_board.specs.Causes.{IsOvertaken, IsRefusal, overtaken_receipt, receipt_of};
ghost use Rattle.live_board.specs.Desks.{Agrees, IsChangeOf};
ghost use Rattle.live_board.specs.Events.{AreFolds, entry_swap, fold_swap, published_after, with_room};

use crate::causes::{FoldRefused, PublishError};
use crate::pass::Pass;
use crate::receipt::Receipt;
use board_journal::{BoardName, Change, Front, Head, Pen, Shown, shown_next};
use core::mem::replace_with;
use entity_store::Store;
use fold_sets::fold_plan;
use live_model::{Lines, Mem, NoMemory, Steps};
use published_set::{FoldWork, OverlaySet, SetOp};
use ref_index::RefIndex;
use set_events::{Cause, Prepared, due_plan, is_full, prepare, refusal, room_for};
use stamp_core::Stamp;
use std::alloc::Global;
use std::marker::Model;
use std::sync::ledger::{Book, Ledger, Share};
use std::sync::{Arc, Wait};

/// The writer of what a board publishes, with the store and the index after its history, and the count of publications. It is seen as the journal of the board.
pub struct Desk<N: BoardName> {
    pen: Pen<N>,
    head: Head<N>,
    front: Front<N>,
    total: Book<N>,
    rest: Share<N>,
    store: Store,
    index: RefIndex,
}

impl<N: BoardName> Model for Desk<N> {
    ghost use Rattle.std.specs.Prelude.{◌≡◌, List, drop, []};
    ghost use Rattle.overlay_set.specs.Swaps.{Swap};
    ghost use Rattle.board_journal.specs.Journals.{state_after};
    ghost use Rattle.board_journal.specs.Views.{IsSound};
    ghost use Rattle.live_board.specs.Desks.{Agrees};

    ghost Value = { List Swap };

    ghost view = { λ d. d.front };

    ghost invariant = { λ d. IsSound N.book N.rules N.base d.pen.desk.shown.value × (d.pen.desk.shown.value.seen.log ≡ d.front) × (drop d.pen.behind d.pen.log.items ≡ []) × Agrees N.base (state_after N.rules N.base d.front) d.total.total d.store.entities d.index.map × (d.rest.parts ≡ 0) × (d.rest.amount ≡ 0) };
}

impl<N: BoardName> Desk<N> {
    /// The desk of a board that opens.
    pub fn new(
        pen: Pen<N>,
        head: Head<N>,
        front: Front<N>,
        total: Book<N>,
        rest: Share<N>,
        store: Store,
        index: RefIndex,
    ) -> Desk<N>
        requires sound { IsSound N.book N.rules N.base pen.desk.shown.value }
        requires log { pen.desk.shown.value.seen.log ≡ front }
        requires pending { drop pen.behind pen.log.items ≡ [] }
        requires agrees { Agrees N.base (state_after N.rules N.base front) total.total store.entities index.map }
        requires rest { (rest.parts ≡ 0) × (rest.amount ≡ 0) }
        ensures { result ≡ front }
    {
        Desk {
            pen,
            head,
            front,
            total,
            rest,
            store,
            index,
        }
    }

    /// The receipt of the present state.
    pub fn receipt(&self) -> Receipt<N>
        ensures { result ≡ self.now }
    {
        Receipt::of(&self.front, &self.pen.published().set)
    }

    /// The published set, which stands.
    fn set(&self) -> &OverlaySet
        ensures set { result.now ≡ record { base = N.base; state = state_after N.rules N.base self.now } }
        ensures standing { IsStanding result.now }
        ensures over { IsStandingOver N.rules N.base result.now.state }
    {
        &self.pen.published().set
    }

    /// That the journal is one of the board, and how much there is at most. There is nothing to run.
    fn is_sound(&self)
        ensures journal { IsBoardJournal N.rules N.base self.now }
        ensures entries { length (state_after N.rules N.base self.now).history ≤ 65536 }
        ensures files { length (state_after N.rules N.base self.now).files ≤ 1024 }
        ensures swaps { length self.now ≤ 262144 }
    {
        let _ = self.front.len();
        let _ = self.pen.published().set.history();
        let _ = is_full(&self.pen.published().set);
    }

    /// Whether the journal begins with what a pass has seen, as it always does.
    fn meets(&self, pass: &Pass<N>) -> bool
        ensures { MatchBool result (IsPrefix pass.now.log self.now × IsLater (state_after N.rules N.base pass.now.log) (state_after N.rules N.base self.now)) (Unit {0}) }
    {
        pass.front().begins(&self.front)
    }

    /// Takes in a publication, unless it is refused. After `NoMemory` nothing has changed, but that room may have been made in a full set.
    pub fn publish<R: Wait, L: Ledger>(
        &mut self,
        rt: &R,
        alloc: Global,
        pass: &mut Pass<N>,
        stamp: Stamp,
        tag: u32,
        lines: &Arc<Lines>,
        steps: &mut Steps<L>,
    ) -> Result<Receipt<N>, PublishError<Receipt<N>>>
        requires parts { 0 < pass.old.parts }
        requires good { AllByRecursion IsGoodLine (arc_value lines.now) }
        ensures done { IfOk result (λ r. (r ≡ published_after N.rules N.base self.old (entry_for stamp tag (arc_value lines.now))) × (self.new ≡ r)) }
        ensures wanted { IfOk result (λ _. refused limits_of_a_board N.rules N.base (state_after N.rules N.base self.old) stamp ≡ None) }
        ensures refused { IfErr result (λ e. IsRefusal N.rules N.base stamp e) }
        ensures named { IfErr result (λ e. MatchOption (receipt_of e) ((self.new ≡ self.old) ⊎ (self.new ≡ with_room N.rules N.base self.old)) (λ r. (r ≡ self.old) × (self.new ≡ r))) }
        ensures before { MatchResult result (λ _. IsPrefix pass.old.log self.old) (λ e. MatchOption (receipt_of e) (Unit {0}) (λ r. IsPrefix pass.old.log r)) }
        ensures told { MatchResult result (λ r. pass.new.log ≡ r) (λ e. MatchOption (receipt_of e) (pass.new.log ≡ pass.old.log) (λ r. pass.new.log ≡ r)) }
        ensures counted { MatchResult result (λ _. pass.new.made ≡ pass.old.made + 1) (λ _. pass.new.made ≡ pass.old.made) }
        ensures parts { pass.new.parts ≡ pass.old.parts }
        ensures most { steps.new ≤ steps.old + 8 * length (touched (published (apply [] N.base) (lines_of (state_after N.rules N.base self.old).history)) (arc_value lines.now)) }
    {
        if !self.meets(pass) {
            return Err(PublishError::NoMemory);
        }
        if let Some(cause) = refusal(self.set(), &stamp) {
            pass.learn(self.receipt());
            return Err(refused_for(cause, self.receipt()));
        }
        match self.accept(rt, alloc, pass, stamp, tag, lines, steps) {
            Err(_) => Err(PublishError::NoMemory),
            Ok(()) => {
                pass.learn(self.receipt());
                Ok(self.receipt())
            }
        }
    }

    /// Takes in a publication that is not refused: room is made first, as an event of its own, and stays where memory is refused afterwards.
    fn accept<R: Wait, L: Ledger>(
        &mut self,
        rt: &R,
        alloc: Global,
        pass: &mut Pass<N>,
        stamp: Stamp,
        tag: u32,
        lines: &Arc<Lines>,
        steps: &mut Steps<L>,
    ) -> Mem<()>
        requires parts { 0 < pass.old.parts }
        requires good { AllByRecursion IsGoodLine (arc_value lines.now) }
        requires wanted { refused limits_of_a_board N.rules N.base (state_after N.rules N.base self.old) stamp ≡ None }
        ensures done { IfOk result (λ _. self.new ≡ published_after N.rules N.base self.old (entry_for stamp tag (arc_value lines.now))) }
        ensures stays { OnErr result ((self.new ≡ self.old) ⊎ (self.new ≡ with_room N.rules N.base self.old)) }
        ensures pass { MatchResult result (λ _. pass.new ≡ record pass.old { made = pass.old.made + 1 }) (λ _. pass.new ≡ pass.old) }
        ensures most { steps.new ≤ steps.old + 8 * length (touched (published (apply [] N.base) (lines_of (state_after N.rules N.base self.old).history)) (arc_value lines.now)) }
    {
        self.is_sound();
        match self.make_room(rt, alloc) {
            Err(_) => Err(NoMemory),
            Ok(()) => self.add(rt, alloc, pass, stamp, tag, lines, steps),
        }
    }

    /// Makes room for a file in a full set, by the fold of what can be shrunk.
    fn make_room<R: Wait>(&mut self, rt: &R, alloc: Global) -> Mem<()>
        ensures { MatchResult result (λ _. self.new ≡ with_room N.rules N.base self.old) (λ _. self.new ≡ self.old) }
    {
        match room_for(alloc, self.set())? {
            None => Ok(()),
            Some(work) => self.place_fold(rt, work),
        }
    }

    /// Adds a publication for which there is room.
    fn add<R: Wait, L: Ledger>(
        &mut self,
        rt: &R,
        alloc: Global,
        pass: &mut Pass<N>,
        stamp: Stamp,
        tag: u32,
        lines: &Arc<Lines>,
        steps: &mut Steps<L>,
    ) -> Mem<()>
        requires parts { 0 < pass.old.parts }
        requires good { AllByRecursion IsGoodLine (arc_value lines.now) }
        requires comes { MayCome N.rules N.base self.old (entry_swap N.rules N.base self.old (entry_for stamp tag (arc_value lines.now))) }
        requires room { HasRoomFor (state_after N.rules N.base self.old) (entry_swap N.rules N.base self.old (entry_for stamp tag (arc_value lines.now))) }
        ensures done { MatchResult result (λ _. self.new ≡ self.old ++ entry_swap N.rules N.base self.old (entry_for stamp tag (arc_value lines.now)) ∷ []) (λ _. self.new ≡ self.old) }
        ensures pass { MatchResult result (λ _. pass.new ≡ record pass.old { made = pass.old.made + 1 }) (λ _. pass.new ≡ pass.old) }
        ensures most { steps.new ≤ steps.old + 8 * length (touched (published (apply [] N.base) (lines_of (state_after N.rules N.base self.old).history)) (arc_value lines.now)) }
    {
        self.is_sound();
        let prepared = prepare(
            alloc,
            &self.pen.published().set,
            &mut self.store,
            &mut self.index,
            stamp,
            tag,
            lines,
            steps,
        )?;
        let Prepared {
            published,
            image,
            staged,
            refs,
        } = prepared;
        let op = SetOp::Add { published, image };
        let Some((after, change)) = next_change(&self.front, &self.head, op) else {
            return Err(NoMemory);
        };
        replace_with(&mut self.pen, change, |pen, change| {
            (shown_next(rt, pen, change), ())
        });
        self.front = after;
        self.store.commit(staged);
        self.index.commit(refs);
        pass.count(&mut self.total);
        Ok(())
    }

    /// Puts a fold in the place of its files, which are there.
    fn place_fold<R: Wait>(&mut self, rt: &R, work: FoldWork) -> Mem<()>
        requires { MayCome N.rules N.base self.old (fold_swap work) }
        ensures { MatchResult result (λ _. self.new ≡ self.old ++ fold_swap work ∷ []) (λ _. self.new ≡ self.old) }
    {
        self.is_sound();
        let op = SetOp::Replace { work };
        let Some((after, change)) = next_change(&self.front, &self.head, op) else {
            return Err(NoMemory);
        };
        replace_with(&mut self.pen, change, |pen, change| {
            (shown_next(rt, pen, change), ())
        });
        self.front = after;
        Ok(())
    }

    /// Puts a fold in the place of its files, unless one of them is there no more. After a refusal nothing has changed.
    pub fn commit_fold<R: Wait>(
        &mut self,
        rt: &R,
        pass: &mut Pass<N>,
        work: FoldWork,
    ) -> Result<Receipt<N>, FoldRefused<Receipt<N>>>
        requires { Fits work (state_after N.rules N.base pass.old.log) }
        ensures done { IfOk result (λ r. (r ≡ self.old ++ fold_swap work ∷ []) × (self.new ≡ r)) }
        ensures all { IfOk result (λ _. missing work (state_after N.rules N.base self.old) ≡ None) }
        ensures refused { IfErr result (λ e. IsOvertaken N.rules N.base work e) }
        ensures named { IfErr result (λ e. (self.new ≡ self.old) × MatchOption (overtaken_receipt e) (Unit {0}) (λ r. r ≡ self.old)) }
        ensures before { MatchResult result (λ _. IsPrefix pass.old.log self.old) (λ e. MatchOption (overtaken_receipt e) (Unit {0}) (λ r. IsPrefix pass.old.log r)) }
        ensures told { MatchResult result (λ r. pass.new.log ≡ r) (λ e. MatchOption (overtaken_receipt e) (pass.new.log ≡ pass.old.log) (λ r. pass.new.log ≡ r)) }
        ensures kept { (pass.new.parts ≡ pass.old.parts) × (pass.new.made ≡ pass.old.made) }
    {
        if !self.meets(pass) {
            return Err(FoldRefused::NoMemory);
        }
        if let Some(file) = self.set().missing(&work) {
            pass.learn(self.receipt());
            return Err(FoldRefused::Overtaken {
                receipt: self.receipt(),
                file,
            });
        }
        match self.place_fold(rt, work) {
            Err(_) => Err(FoldRefused::NoMemory),
            Ok(()) => {
                pass.learn(self.receipt());
                Ok(self.receipt())
            }
        }
    }

    /// Folds until nothing is to be folded. After `NoMemory` the folds that were made stay.
    pub fn settle<R: Wait>(&mut self, rt: &R, alloc: Global, pass: &mut Pass<N>) -> Mem<Receipt<N>>
        ensures folds { AreFolds self.old self.new }
        ensures done { IfOk result (λ r. self.new ≡ r) }
        ensures settled { IfOk result (λ r. IsSettled N.rules N.base pass.old.log r) }
        ensures told { MatchResult result (λ r. pass.new.log ≡ r) (λ _. pass.new.log ≡ pass.old.log) }
        ensures kept { (pass.new.parts ≡ pass.old.parts) × (pass.new.made ≡ pass.old.made) }
    {
        if !self.meets(pass) {
            return Err(NoMemory);
        }
        match self.fold_all(rt, alloc) {
            Err(_) => Err(NoMemory),
            Ok(()) => {
                self.is_sound();
                pass.learn(self.receipt());
                Ok(self.receipt())
            }
        }
    }

    fn fold_all<R: Wait>(&mut self, rt: &R, alloc: Global) -> Mem<()>
        ensures folds { AreFolds self.old self.new }
        ensures settled { IfOk result (λ _. foldable (state_after N.rules N.base self.new) ≡ None) }
    {
        while self.fold_once(rt, alloc)? {}
        Ok(())
    }

    /// Folds what is first to be folded, if there is anything: whether there was.
    fn fold_once<R: Wait>(&mut self, rt: &R, alloc: Global) -> Mem<bool>
        ensures folds { AreFolds self.old self.new }
        ensures left { IfOk result (λ b. MatchBool b ((length self.new ≡ length self.old + 1) × (length self.new ≤ 262144)) (foldable (state_after N.rules N.base self.new) ≡ None)) }
    {
        match due_plan(alloc, self.set())? {
            None => Ok(false),
            Some(plan) => {
                let image = fold_plan(alloc, &plan)?;
                match self.place_fold(rt, plan.finish(image)) {
                    Err(_) => Err(NoMemory),
                    Ok(()) => {
                        self.is_sound();
                        Ok(true)
                    }
                }
            }
        }
    }

    /// Ends a desk whose passes are not all there.
    pub fn abandon<R: Wait>(self, rt: &R) {
        let Desk {
            pen,
            head: _,
            front: _,
            total: _,
            rest: _,
            store: _,
            index: _,
        } = self;
        drop(pen.take(rt));
    }

    /// Ends the desk, and gives out its set. Its history has as many publications as the passes count together.
    pub fn close<R: Wait>(self, rt: &R, passes: Vec<Pass<N>>) -> Mem<OverlaySet>
        requires { sum_by (λ p. p.parts) passes.items ≡ N.parts }
        ensures set { IfOk result (λ s. s ≡ record { base = N.base; state = state_after N.rules N.base self }) }
        ensures standing { IfOk result IsStanding }
        ensures counted { IfOk result (λ s. length s.state.history ≡ sum_by (λ p. p.made) passes.items) }
        ensures seen { IfOk result (λ _. AllByRecursion (λ p. IsPrefix p.log self) passes.items) }
    {
        let all_met = self.meets_all(passes.as_slice());
        let Desk {
            pen,
            head: _,
            front: _,
            mut total,
            rest,
            store: _,
            index: _,
        } = self;
        let mut all = merged(passes, rest);
        total.audit(&mut all);
        let Shown {
            set,
            seen: _,
            len: _,
        } = Box::into_inner(pen.take(rt));
        if all_met { Ok(set) } else { Err(NoMemory) }
    }

    /// Whether the journal begins with what each pass has seen, as it always does.
    fn meets_all(&self, passes: &[Pass<N>]) -> bool
        ensures { MatchBool result (AllByRecursion (λ p. IsPrefix p.log self.now) passes.now) (Unit {0}) }
    {
        let mut rest = passes;
        while let [pass, after @ ..] = rest {
            if !self.meets(pass) {
                return false;
            }
            rest = after;
        }
        true
    }
}

/// What a publication is answered for a cause.
fn refused_for<N: BoardName>(cause: Cause, receipt: Receipt<N>) -> PublishError<Receipt<N>>
    ensures cause { (stamp : CivilHour) → Some (refusal_for (length (state_after N.rules N.base receipt).history) cause) ≡ refused limits_of_a_board N.rules N.base (state_after N.rules N.base receipt) stamp → IsRefusal N.rules N.base stamp result }
    ensures named { receipt_of result ≡ Some receipt }
{
    match cause {
        Cause::Late { last } => PublishError::Late { receipt, last },
        Cause::HistoryFull => PublishError::HistoryFull { receipt },
        Cause::FilesFull => PublishError::FilesFull { receipt },
    }
}

/// The journal with the swap of an operation, and the change that publishes it. `None` where the journal has become longer, as it never has under the lock.
fn next_change<N: BoardName>(
    front: &Front<N>,
    head: &Head<N>,
    op: SetOp,
) -> Option<(Front<N>, Change)>
    requires room { length front.now ≤ 262144 }
    requires comes { MayCome N.rules N.base front.now (swap_of op) }
    ensures after { IfSome result (λ r. r.0 ≡ front.now ++ swap_of op ∷ []) }
    ensures change { IfSome result (λ r. IsChangeOf N.book N.rules N.base front.now op r.1) }
{
    let after = front.added(head, &op)?;
    let change = Change {
        op,
        at: front.len(),
        after: after.seen(),
        next: after.len(),
    };
    Some((after, change))
}

/// All parts of the ledger in one.
fn merged<N: BoardName>(passes: Vec<Pass<N>>, rest: Share<N>) -> Share<N>
    ensures parts { result.parts ≡ rest.parts + sum_by (λ p. p.parts) passes.items }
    ensures amount { result.amount ≡ rest.amount + sum_by (λ p. p.made) passes.items }
{
    let mut all = rest;
    let mut passes = passes;
    while let Some(pass) = passes.pop() {
        all.merge(pass.into_share());
    }
    all
}
