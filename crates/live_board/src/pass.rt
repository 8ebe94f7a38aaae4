//! Passes, which ask without a lock.

ghost use Rattle.std.specs.Prelude.{◌≡◌, ◌⊎◌, ◌<◌, ◌+◌, IfOk, IfSome, MatchOption, OnErr, None, Some};
ghost use Rattle.std.specs.Option.{option_map};
ghost use mathlib.Core.List.{IsPrefix};
ghost use Rattle.live_model.specs.Maps.{answer, rebuilt};
ghost use Rattle.overlay_set.specs.Periods.{foldable};
ghost use Rattle.overlay_set.specs.Sets.{lines_of, shown};
ghost use Rattle.overlay_set.specs.Swaps.{Fits, IsLater, plan_of};
ghost use Rattle.published_set.specs.Sets.{IsStandingOver};
ghost use Rattle.set_events.specs.Asking.{IsCounted, IsCountedWhole};
ghost use Rattle.board_journal.specs.Journals.{state_after};
ghost use Rattle.board_journal.specs.Views.{IsSound};

use crate::receipt::Receipt;
use crate::sight::Sight;
use board_journal::{BoardName, Front, Journaled, Looks, Shown, View};
use left_right::reader::Reader;
use live_model::{Mem, NoMemory, Query, Row, Steps};
use published_set::FoldPlan;
use set_events::{ask_set, due_plan};
use std::alloc::Global;
use std::marker::Model;
use std::sync::ledger::{Book, Ledger, Share};

/// A reader of what a board publishes.
pub(crate) type Chair<N> = Reader<Shown, View, Journaled<N>>;

/// Whoever asks a board, and publishes and folds at it, one call after another. It is seen as the journal that it has seen, how many of its publications
/// came in, and its parts of the ledger of them.
#[derive(Drop)]
pub struct Pass<N: BoardName> {
    chair: Option<Chair<N>>,
    front: Front<N>,
    share: Share<N>,
}

impl<N: BoardName> Model for Pass<N> {
    ghost use Rattle.std.specs.Prelude.{◌≢◌, None};
    ghost use Rattle.live_board.specs.Known.{Known};

    ghost Value = { Known };

    ghost view = { λ p. record { log = p.front; parts = p.share.parts; made = p.share.amount } };

    ghost invariant = { λ p. p.chair ≢ None };
}

/// What a pass is answered.
#[derive(Drop)]
pub struct Answer {
    /// The state that was asked.
    pub receipt: Sight,
    /// The rows of the question.
    pub rows: Vec<Row>,
}

/// What may be folded in a state that a pass saw.
#[derive(Drop)]
pub struct Planned {
    /// The state.
    pub receipt: Sight,
    /// The plan of the first day or month that is to be folded in it, if there is one.
    pub plan: Option<FoldPlan>,
}

/// What was seen by entering, the journal of it, and what was found in it.
struct Entered<N: BoardName, T> {
    sight: Sight,
    front: Front<N>,
    found: Mem<T>,
}

impl<N: BoardName> Pass<N> {
    /// A pass that has seen this journal.
    pub(crate) fn new(chair: Chair<N>, front: Front<N>, share: Share<N>) -> Pass<N>
        ensures { result ≡ record { log = front; parts = share.parts; made = share.amount } }
    {
        Pass {
            chair: Some(chair),
            front,
            share,
        }
    }

    /// Asks the state that is published: the same that this pass saw last, or a later one. It waits for nobody. The rows are those of the map made anew of the base
    /// and the history of that state, which the pass has seen afterwards. A step is counted for each block of its files that is due for the question.
    /// `NoMemory` where memory was refused, or the board was given up; the pass has seen no less than before then, and counted no block that is not due.
    pub fn ask<L: Ledger>(
        &mut self,
        alloc: Global,
        query: &Query,
        steps: &mut Steps<L>,
    ) -> Mem<Answer>
        ensures sight { IfOk result (λ a. a.receipt ≡ state_after N.rules N.base self.new.log) }
        ensures standing { IfOk result (λ a. IsStandingOver N.rules N.base a.receipt) }
        ensures rows { IfOk result (λ a. a.rows.items ≡ answer N.rules query.now (rebuilt N.rules N.base (lines_of a.receipt.history))) }
        ensures counted { IfOk result (λ a. IsCountedWhole a.receipt query.now steps.old steps.new) }
        ensures most { OnErr result ((steps.new ≡ steps.old) ⊎ IsCounted (state_after N.rules N.base self.new.log) query.now steps.old steps.new) }
        ensures seen { IsPrefix self.old.log self.new.log }
        ensures later { IsLater (state_after N.rules N.base self.old.log) (state_after N.rules N.base self.new.log) }
        ensures kept { (self.new.parts ≡ self.old.parts) × (self.new.made ≡ self.old.made) }
    {
        let Some(chair) = self.chair.take() else {
            return Err(NoMemory);
        };
        let (chair, entered) = ask_entered(chair, alloc, &self.front, query, steps);
        self.chair = Some(chair);
        match entered {
            None => Err(NoMemory),
            Some(
                Entered {
                    sight,
                    front,
                    found,
                },
            ) => {
                self.front = front;
                match found {
                    Ok(rows) => Ok(Answer {
                        receipt: sight,
                        rows,
                    }),
                    Err(_) => Err(NoMemory),
                }
            }
        }
    }

    /// Plans the first fold that is due in the state that is published, which the pass has seen afterwards. It waits for nobody. The plan fits every later state too.
    /// `NoMemory` where memory was refused, or the board was given up.
    pub fn plan_fold(&mut self, alloc: Global) -> Mem<Planned>
        ensures sight { IfOk result (λ p. p.receipt ≡ state_after N.rules N.base self.new.log) }
        ensures standing { IfOk result (λ p. IsStandingOver N.rules N.base p.receipt) }
        ensures plan { IfOk result (λ p. p.plan ≡ option_map (λ q. plan_of q p.receipt.files) (foldable p.receipt)) }
        ensures fits { IfOk result (λ p. MatchOption p.plan (Unit {0}) (λ q. Fits q p.receipt)) }
        ensures seen { IsPrefix self.old.log self.new.log }
        ensures later { IsLater (state_after N.rules N.base self.old.log) (state_after N.rules N.base self.new.log) }
        ensures kept { (self.new.parts ≡ self.old.parts) × (self.new.made ≡ self.old.made) }
    {
        let Some(chair) = self.chair.take() else {
            return Err(NoMemory);
        };
        let (chair, entered) = plan_entered(chair, alloc, &self.front);
        self.chair = Some(chair);
        match entered {
            None => Err(NoMemory),
            Some(
                Entered {
                    sight,
                    front,
                    found,
                },
            ) => {
                self.front = front;
                match found {
                    Ok(plan) => Ok(Planned {
                        receipt: sight,
                        plan,
                    }),
                    Err(_) => Err(NoMemory),
                }
            }
        }
    }

    /// Takes in that the board had the state of a receipt: what the pass is answered next is that state or a later one. It takes no memory, and waits for nobody.
    pub fn learn(&mut self, receipt: Receipt<N>)
        ensures seen { IsPrefix self.old.log self.new.log }
        ensures told { IsPrefix receipt self.new.log }
        ensures longer { IsPrefix self.old.log receipt → self.new.log ≡ receipt }
        ensures kept { (self.new.parts ≡ self.old.parts) × (self.new.made ≡ self.old.made) }
    {
        let front = receipt.into_journal();
        if self.front.begins(&front) {
            self.front = front;
        }
    }

    /// Counts a publication that came in.
    pub(crate) fn count(&mut self, total: &mut Book<N>)
        requires { 0 < self.old.parts }
        ensures pass { self.new ≡ record self.old { made = self.old.made + 1 } }
        ensures total { total.new.total ≡ total.old.total + 1 }
    {
        total.add(&mut self.share, 1);
    }

    /// Its part of the ledger.
    pub(crate) fn into_share(self) -> Share<N>
        ensures { (result.parts ≡ self.parts) × (result.amount ≡ self.made) }
    {
        self.share
    }

    /// The journal that it has seen.
    pub(crate) fn front(&self) -> &Front<N>
        ensures { result.now ≡ self.now.log }
    {
        &self.front
    }
}

/// Enters, and asks what is published.
fn ask_entered<N: BoardName, L: Ledger>(
    chair: Chair<N>,
    alloc: Global,
    front: &Front<N>,
    query: &Query,
    steps: &mut Steps<L>,
) -> (Chair<N>, Option<Entered<N, Vec<Row>>>)
    ensures seen { IfSome result.1 (λ e. IsPrefix front.now e.front × IsLater (state_after N.rules N.base front.now) (state_after N.rules N.base e.front)) }
    ensures sight { IfSome result.1 (λ e. e.sight ≡ state_after N.rules N.base e.front) }
    ensures standing { IfSome result.1 (λ e. IsStandingOver N.rules N.base e.sight) }
    ensures rows { IfSome result.1 (λ e. IfOk e.found (λ rows. rows.items ≡ answer N.rules query.now (rebuilt N.rules N.base (lines_of e.sight.history)))) }
    ensures counted { IfSome result.1 (λ e. IfOk e.found (λ _. IsCountedWhole e.sight query.now steps.old steps.new)) }
    ensures most { MatchOption result.1 (steps.new ≡ steps.old) (λ e. IsCounted e.sight query.now steps.old steps.new) }
{
    match chair.enter_as::<Looks<N>>() {
        Ok(reading) => {
            let entered = ask_shown(reading.get(), alloc, front, query, steps);
            (reading.leave(), entered)
        }
        Err(chair) => (chair, None),
    }
}

/// Asks what is published, where that is no older than what was seen.
fn ask_shown<N: BoardName, L: Ledger>(
    shown: &Shown,
    alloc: Global,
    front: &Front<N>,
    query: &Query,
    steps: &mut Steps<L>,
) -> Option<Entered<N, Vec<Row>>>
    requires { IsSound N.book N.rules N.base shown.now }
    ensures seen { IfSome result (λ e. IsPrefix front.now e.front × IsLater (state_after N.rules N.base front.now) (state_after N.rules N.base e.front)) }
    ensures sight { IfSome result (λ e. e.sight ≡ state_after N.rules N.base e.front) }
    ensures standing { IfSome result (λ e. IsStandingOver N.rules N.base e.sight) }
    ensures rows { IfSome result (λ e. IfOk e.found (λ rows. rows.items ≡ answer N.rules query.now (rebuilt N.rules N.base (lines_of e.sight.history)))) }
    ensures counted { IfSome result (λ e. IfOk e.found (λ _. IsCountedWhole e.sight query.now steps.old steps.new)) }
    ensures most { MatchOption result (steps.new ≡ steps.old) (λ e. IsCounted e.sight query.now steps.old steps.new) }
{
    let front = front_in(shown, front)?;
    let found = ask_set(alloc, &shown.set, query, steps);
    Some(Entered {
        sight: Sight::of(&shown.set),
        front,
        found,
    })
}

/// Enters, and plans what is due in what is published.
fn plan_entered<N: BoardName>(
    chair: Chair<N>,
    alloc: Global,
    front: &Front<N>,
) -> (Chair<N>, Option<Entered<N, Option<FoldPlan>>>)
    ensures seen { IfSome result.1 (λ e. IsPrefix front.now e.front × IsLater (state_after N.rules N.base front.now) (state_after N.rules N.base e.front)) }
    ensures sight { IfSome result.1 (λ e. e.sight ≡ state_after N.rules N.base e.front) }
    ensures standing { IfSome result.1 (λ e. IsStandingOver N.rules N.base e.sight) }
    ensures plan { IfSome result.1 (λ e. IfOk e.found (λ plan. plan ≡ option_map (λ q. plan_of q e.sight.files) (foldable e.sight))) }
    ensures fits { IfSome result.1 (λ e. IfOk e.found (λ plan. MatchOption plan (Unit {0}) (λ q. Fits q e.sight))) }
{
    match chair.enter_as::<Looks<N>>() {
        Ok(reading) => {
            let entered = plan_shown(reading.get(), alloc, front);
            (reading.leave(), entered)
        }
        Err(chair) => (chair, None),
    }
}

/// Plans what is due in what is published, where that is no older than what was seen.
fn plan_shown<N: BoardName>(
    shown: &Shown,
    alloc: Global,
    front: &Front<N>,
) -> Option<Entered<N, Option<FoldPlan>>>
    requires { IsSound N.book N.rules N.base shown.now }
    ensures seen { IfSome result (λ e. IsPrefix front.now e.front × IsLater (state_after N.rules N.base front.now) (state_after N.rules N.base e.front)) }
    ensures sight { IfSome result (λ e. e.sight ≡ state_after N.rules N.base e.front) }
    ensures standing { IfSome result (λ e. IsStandingOver N.rules N.base e.sight) }
    ensures plan { IfSome result (λ e. IfOk e.found (λ plan. plan ≡ option_map (λ q. plan_of q e.sight.files) (foldable e.sight))) }
    ensures fits { IfSome result (λ e. IfOk e.found (λ plan. MatchOption plan (Unit {0}) (λ q. Fits q e.sight))) }
{
    let front = front_in(shown, front)?;
    let found = due_plan(alloc, &shown.set);
    Some(Entered {
        sight: Sight::of(&shown.set),
        front,
        found,
    })
}

/// The journal of what is published, where it is no shorter than what was seen, as it always is.
fn front_in<N: BoardName>(shown: &Shown, front: &Front<N>) -> Option<Front<N>>
    requires { IsSound N.book N.rules N.base shown.now }
    ensures is { IfSome result (λ f. f ≡ shown.now.seen.log) }
    ensures seen { IfSome result (λ f. IsPrefix front.now f × IsLater (state_after N.rules N.base front.now) (state_after N.rules N.base f)) }
{
    let new: Front<N> = Front::of(&shown.seen, shown.len);
    if front.begins(&new) { Some(new) } else { None }
}
