//! The writer of what is published.

ghost use Rattle.std.specs.Prelude.{◌≡◌, [], ◌∷◌, ◌++◌, length, drop};
ghost use mathlib.Core.List.{IsPrefix};
ghost use Rattle.published_set.specs.Ops.{HasRoomFor, swap_of};
ghost use Rattle.board_journal.specs.Journals.{IsBoardJournal};
ghost use Rattle.board_journal.specs.Views.{IsNext, IsSound, swapped};

use crate::history::BoardName;
use crate::shown::{Change, Journaled, Looks, Shown};
use crate::view::View;
use left_right::writer::Writer;
use std::snapshot::Snapshot;
use std::sync::Wait;

/// The writer of what a board publishes.
pub type Pen<N> = Writer<Shown, Change, View, Journaled<N>>;

/// Publishes a change that comes next, however often memory is refused for it. It may wait for readers.
pub fn shown_next<N: BoardName, R: Wait>(rt: &R, pen: Pen<N>, change: Change) -> Pen<N>
    requires sound { IsSound N.book N.rules N.base pen.desk.shown.value }
    requires next { IsNext N.book N.rules N.base pen.desk.shown.value change }
    requires pending { drop pen.behind pen.log.items ≡ [] }
    ensures sound { IsSound N.book N.rules N.base result.desk.shown.value }
    ensures log { result.desk.shown.value.seen.log ≡ change.after.log }
    ensures pending { drop result.behind result.log.items ≡ [] }
{
    let told = Snapshot::of(&change);
    let pen = pend(rt, pen, change);
    show(rt, pen, told)
}

/// Hands the change to the writer, however often memory is refused.
fn pend<N: BoardName, R: Wait>(rt: &R, mut pen: Pen<N>, change: Change) -> Pen<N>
    requires { drop pen.behind pen.log.items ≡ [] }
    ensures pending { drop result.behind result.log.items ≡ change ∷ [] }
    ensures shown { result.desk.shown.value ≡ pen.desk.shown.value }
{
    let mut swap = change;
    for _ in rt.forever() {
        match pen.append(swap) {
            Ok(()) => return pen,
            Err(back) => swap = back,
        }
    }
    unreachable!()
}

/// Publishes what was handed over, however often that is refused.
fn show<N: BoardName, R: Wait>(rt: &R, mut pen: Pen<N>, swap: Snapshot<Change>) -> Pen<N>
    requires before { IsSound N.book N.rules N.base pen.desk.shown.value }
    requires sound { IsSound N.book N.rules N.base (swapped pen.desk.shown.value swap.value) }
    requires grows { IsPrefix pen.desk.shown.value.seen.log (swapped pen.desk.shown.value swap.value).seen.log }
    requires pending { drop pen.behind pen.log.items ≡ swap.value ∷ [] }
    ensures shown { result.desk.shown.value ≡ swapped pen.desk.shown.value swap.value }
    ensures pending { drop result.behind result.log.items ≡ [] }
{
    for _ in rt.forever() {
        let (next, done) = pen.publish_as::<Looks<N>, R>(rt);
        pen = next;
        if done.is_ok() {
            return pen;
        }
    }
    unreachable!()
}
