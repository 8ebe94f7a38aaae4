//! The board that threads share.

ghost use Rattle.std.specs.Prelude.{◌≡◌, ◌<◌, ◌≤◌, ◌+◌, [], List, IfErr, IfOk, MatchOption, MatchResult, length, replicate, sum_by};
ghost use Rattle.std.specs.Arc.{arc_value};
ghost use Rattle.std.specs.List.{AllByRecursion};
ghost use mathlib.Core.List.{IsPrefix};
ghost use Rattle.live_model.specs.Objects.{IsGoodLine};
ghost use Rattle.live_model.specs.Stores.{apply};
ghost use Rattle.overlay_set.specs.Sets.{opening};
ghost use Rattle.overlay_set.specs.Swaps.{Fits};
ghost use Rattle.set_events.specs.Kept.{entry_for};
ghost use Rattle.board_journal.specs.Journals.{state_after};
ghost use Rattle.live_board.specs.Answers.{CameIn, FoldCameIn, IsBounded, IsClosed, IsSettled};
ghost use Rattle.live_board.specs.Causes.{IsOvertaken, IsRefusal, overtaken_receipt, receipt_of};
ghost use Rattle.live_board.specs.Events.{FoldedLaw, PublishedLaw};
ghost use Rattle.live_board.specs.Known.{fresh};
ghost use Rattle.live_model.specs.declared.objects.Line.{Line};
ghost use Rattle.live_model.specs.declared.rules.Rule.{Rule};

use crate::causes::{FoldRefused, PublishError};
use crate::desk::Desk;
use crate::pass::Pass;
use crate::receipt::Receipt;
use board_journal::{BoardName, Front, Opened, Pen, Shown};
use entity_store::Store;
use left_right::writer::Writer;
use live_model::{Lines, Mem, NoMemory, Steps};
use outside::Gate;
use published_set::{FoldWork, OverlaySet};
use ref_index::RefIndex;
use set_events::base_image;
use stamp_core::Stamp;
use std::alloc::Global;
use std::sync::ledger::{Blank, Ledger, Share};
use std::sync::{Arc, Mutex, MutexGuard, Wait};
use tag_rules::Rules;

/// A set that is published and folded by one writer at a time, under a lock, and asked by passes without it.
pub struct Board<N: BoardName> {
    desk: Mutex<Desk<N>>,
}

impl<N: BoardName> Board<N> {
    /// A board over rules and base lines, and its passes, 1 to 16, each of which has seen the base alone. The lines have to be good. All room of both copies of the
    /// set is taken here. `NoMemory` is the only error.
    pub fn start<R: Wait>(
        rt: &R,
        alloc: Global,
        opened: Opened,
        rules: &Rules,
        base: &Arc<Lines>,
        passes: u8,
        blank: Blank,
    ) -> Mem<(Board<N>, Vec<Pass<N>>)>
        requires book { opened.seen.book ≡ N.book }
        requires rules { N.rules ≡ rules.now }
        requires base { N.base ≡ arc_value base.now }
        requires good { AllByRecursion IsGoodLine (arc_value base.now) }
        requires name { blank.name ≡ N.name }
        requires parts { (blank.parts ≡ N.parts) × (N.parts ≡ passes) }
        requires passes { (0 < passes) × (passes ≤ 16) }
        ensures { IfOk result (λ r. r.1.items ≡ replicate passes fresh) }
    {
        let (head, front) = opened.named::<N>();
        let store = Store::build(alloc, base.as_slice())?;
        let index = RefIndex::build(alloc, &store)?;
        let set = base_set(alloc, rules, base, &store)?;
        let further = set.copy(alloc)?;
        let first = Shown {
            set,
            seen: front.seen(),
            len: 0,
        };
        let second = Shown {
            set: further,
            seen: first.seen.again(),
            len: 0,
        };
        let pen: Pen<N> = match Writer::new(alloc, first, second, usize::from(passes)) {
            Ok(pen) => pen,
            Err(_) => return Err(NoMemory),
        };
        let (total, mut all) = blank.open::<N>();
        match seats(alloc, &pen, &front, &mut all, passes) {
            Ok(list) => {
                let desk = Desk::new(pen, head, front, total, all, store, index);
                let board = Board {
                    desk: Mutex::new(desk),
                };
                Ok((board, list))
            }
            Err(_) => {
                drop(pen.take(rt));
                Err(NoMemory)
            }
        }
    }

    /// Publishes a change under an hour, with the publisher's own number for it, for a pass of this board. The lines have to be good. It waits for the lock, calls the
    /// gate's `inside` with the number as soon as it has it, and may wait for passes to leave what they read.
    ///
    /// The receipt names the state directly after the publication, or the state that refuses it; the pass has seen it then. `Late`, `HistoryFull` and `FilesFull`
    /// come in this order, each exactly where it holds of the state of its receipt. A full set is shrunk first, as an event of its own; that fold stays
    /// where memory is refused afterwards, and else nothing has changed after `NoMemory`. Eight steps are counted at most for each object that the lines touch.
    pub fn publish<R: Wait, G: Gate, L: Ledger>(
        &self,
        rt: &R,
        alloc: Global,
        gate: &G,
        pass: &mut Pass<N>,
        stamp: Stamp,
        tag: u32,
        lines: &Arc<Lines>,
        steps: &mut Steps<L>,
    ) -> Result<Receipt<N>, PublishError<Receipt<N>>>
        requires parts { 0 < pass.old.parts }
        requires good { AllByRecursion IsGoodLine (arc_value lines.now) }
        ensures done { IfOk result (λ r. CameIn N.rules N.base pass.old.log (entry_for stamp tag (arc_value lines.now)) r) }
        ensures refused { IfErr result (λ e. IsRefusal N.rules N.base stamp e) }
        ensures before { IfErr result (λ e. MatchOption (receipt_of e) (Unit {0}) (λ r. IsPrefix pass.old.log r)) }
        ensures told { MatchResult result (λ r. pass.new.log ≡ r) (λ e. MatchOption (receipt_of e) (pass.new.log ≡ pass.old.log) (λ r. pass.new.log ≡ r)) }
        ensures counted { MatchResult result (λ _. pass.new.made ≡ pass.old.made + 1) (λ _. pass.new.made ≡ pass.old.made) }
        ensures parts { pass.new.parts ≡ pass.old.parts }
        ensures most { IsBounded N.rules N.base (arc_value lines.now) steps.old steps.new }
    {
        let mut desk = self.desk.lock(rt);
        gate.inside(tag);
        let done = desk.publish(rt, alloc, pass, stamp, tag, lines, steps);
        MutexGuard::unlock(desk);
        done
    }

    /// Puts a fold in the place of its files, for a pass that has seen a state which its plan fits. It waits for the lock, and may wait for passes to leave what they read.
    ///
    /// The receipt names the state directly after the fold, or the one that refuses it; the pass has seen it then. `Overtaken` exactly where the state of its receipt
    /// lacks a file of the plan, with the first such number. After a refusal nothing has changed; the fold is spent in each case.
    pub fn commit_fold<R: Wait>(
        &self,
        rt: &R,
        pass: &mut Pass<N>,
        work: FoldWork,
    ) -> Result<Receipt<N>, FoldRefused<Receipt<N>>>
        requires { Fits work (state_after N.rules N.base pass.old.log) }
        ensures done { IfOk result (λ r. FoldCameIn N.rules N.base pass.old.log work r) }
        ensures refused { IfErr result (λ e. IsOvertaken N.rules N.base work e) }
        ensures before { IfErr result (λ e. MatchOption (overtaken_receipt e) (Unit {0}) (λ r. IsPrefix pass.old.log r)) }
        ensures told { MatchResult result (λ r. pass.new.log ≡ r) (λ e. MatchOption (overtaken_receipt e) (pass.new.log ≡ pass.old.log) (λ r. pass.new.log ≡ r)) }
        ensures kept { (pass.new.parts ≡ pass.old.parts) × (pass.new.made ≡ pass.old.made) }
    {
        let mut desk = self.desk.lock(rt);
        let done = desk.commit_fold(rt, pass, work);
        MutexGuard::unlock(desk);
        done
    }

    /// Folds until nothing is to be folded. The receipt names the state then, which the pass has seen: its files have the settled shape, and folds alone led to it from the
    /// state that the call found, which is the one that the pass had seen or a later one. `NoMemory` is the only error; the folds that were made stay.
    pub fn settle<R: Wait>(&self, rt: &R, alloc: Global, pass: &mut Pass<N>) -> Mem<Receipt<N>>
        ensures settled { IfOk result (λ r. IsSettled N.rules N.base pass.old.log r) }
        ensures told { MatchResult result (λ r. pass.new.log ≡ r) (λ _. pass.new.log ≡ pass.old.log) }
        ensures kept { (pass.new.parts ≡ pass.old.parts) × (pass.new.made ≡ pass.old.made) }
    {
        let mut desk = self.desk.lock(rt);
        let done = desk.settle(rt, alloc, pass);
        MutexGuard::unlock(desk);
        done
    }

    /// Ends the board, and gives out its set, where all passes of it are there and no other. Its history begins with what each pass had seen, and has as many publications as
    /// came in for the passes. `NoMemory` is the only error, and never comes but for a board that is broken.
    pub fn close<R: Wait>(self, rt: &R, passes: Vec<Pass<N>>) -> Mem<OverlaySet>
        requires { sum_by (λ p. p.parts) passes.items ≡ N.parts }
        ensures closed { IfOk result (λ s. IsClosed N.rules N.base passes.items s) }
        ensures counted { IfOk result (λ s. length s.state.history ≡ sum_by (λ p. p.made) passes.items) }
    {
        let Board { desk } = self;
        desk.into_inner().close(rt, passes)
    }

    /// Gives up a board whose passes are not all there. They are answered `NoMemory` from then on.
    pub fn abandon<R: Wait>(self, rt: &R) {
        let Board { desk } = self;
        desk.into_inner().abandon(rt);
    }
}

/// The set of a base alone.
fn base_set(alloc: Global, rules: &Rules, base: &Arc<Lines>, store: &Store) -> Mem<OverlaySet>
    requires store { store.now.entities ≡ apply [] (arc_value base.now) }
    requires good { AllByRecursion IsGoodLine (arc_value base.now) }
    ensures { IfOk result (λ s. s ≡ record { base = arc_value base.now; state = opening rules.now (arc_value base.now) }) }
{
    let image = base_image(alloc, rules, store)?;
    let lines = further(base)?;
    OverlaySet::new(alloc, lines, image)
}

/// A further owner of lines.
fn further(lines: &Arc<Lines>) -> Mem<Arc<Lines>>
    ensures { IfOk result (λ l. arc_value l ≡ arc_value lines.now) }
{
    match Arc::try_clone(lines) {
        Ok(lines) => Ok(lines),
        Err(_) => Err(NoMemory),
    }
}

/// A pass for each part of the ledger.
fn seats<N: BoardName>(
    alloc: Global,
    pen: &Pen<N>,
    front: &Front<N>,
    all: &mut Share<N>,
    count: u8,
) -> Mem<Vec<Pass<N>>>
    requires all { (all.old.parts ≡ count) × (all.old.amount ≡ 0) }
    requires front { front.now ≡ [] }
    ensures made { IfOk result (λ list. list.items ≡ replicate count fresh) }
    ensures rest { IfOk result (λ _. (all.new.parts ≡ 0) × (all.new.amount ≡ 0)) }
{
    let mut list = Vec::new(alloc);
    let mut left = count;
    while left > 0 {
        let reader = match pen.factory().reader() {
            Ok(reader) => reader,
            Err(_) => return Err(NoMemory),
        };
        let share = all.split_off(1, 0);
        list.push(Pass::new(reader, front.again(), share))?;
        left -= 1;
    }
    Ok(list)
}

/// That the state after a publication or a fold is the one that the machine has after its event. There is nothing to run.
pub fn events_are_those_of_machines()
    ensures published { (rules : List Rule) (base : List Line) → PublishedLaw rules base }
    ensures folded { (rules : List Rule) (base : List Line) → FoldedLaw rules base }
{}

/// That threads may share a board and its receipts, and hand passes over. There is nothing to run.
pub fn boards_may_be_shared<N: BoardName + Send + Sync>(
    board: &Board<N>,
    pass: &Pass<N>,
    receipt: &Receipt<N>,
) {
    shared(board);
    handed(pass);
    shared(receipt);
}

/// Takes a value that threads may share: a call of it is refused for any other.
fn shared<S: Send + Sync>(_: &S) {}

/// Takes a value that threads may hand over: a call of it is refused for any other.
fn handed<S: Send>(_: &S) {}
