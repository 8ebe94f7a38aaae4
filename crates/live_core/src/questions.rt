//! Questions to sets.

ghost use Rattle.std.specs.Prelude.{◌≡◌, ◌<◌, IfOk, length};
ghost use Rattle.live_model.specs.Maps.{answer};
ghost use Rattle.overlay_set.specs.Events.{reply_of};
ghost use Rattle.overlay_set.specs.Machines.{Rows};
ghost use Rattle.overlay_set.specs.Sets.{shown};
ghost use Rattle.published_set.specs.Sets.{rules_of};
ghost use Rattle.set_events.specs.Asking.{StandsOver};

use live_model::{List, Mem, Query, Row, Steps};
use overlay_set::Reply;
use published_set::OverlaySet;
use set_events::{ask_set, front};
use std::alloc::Global;
use std::marker::Brand;
use std::sync::ledger::{Blank, Ledger};

/// The rows of a question to a set, with the length of its history.
pub fn answered(alloc: Global, set: &OverlaySet, query: &Query) -> Mem<Reply>
    requires { StandsOver set.now }
    ensures { IfOk result (λ reply. reply_of reply ≡ Rows (length set.now.state.history) (answer (rules_of set.now) query.now (shown set.now.state.files))) }
{
    let rows = rows_of::<Brand>(alloc, set, query, Blank::new(1))?;
    Ok(Reply::Rows {
        front: front(set),
        rows: List::from_vec(rows),
    })
}

/// The rows of a question, with no step counted.
fn rows_of<L: Ledger>(alloc: Global, set: &OverlaySet, query: &Query, blank: Blank) -> Mem<Vec<Row>>
    requires name { blank.name ≡ L.name }
    requires parts { blank.parts ≡ L.parts }
    requires some { 0 < blank.parts }
    requires stands { StandsOver set.now }
    ensures { IfOk result (λ rows. rows.items ≡ answer (rules_of set.now) query.now (shown set.now.state.files)) }
{
    let mut steps = Steps::<L>::new(blank);
    ask_set(alloc, set, query, &mut steps)
}
