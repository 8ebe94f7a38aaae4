//! Folding all that can be folded.

ghost use Rattle.std.specs.Prelude.{◌≢◌, IfOk, None};
ghost use Rattle.overlay_set.specs.Periods.{foldable};
ghost use Rattle.overlay_set.specs.Standing.{Stands};
ghost use Rattle.live_session.specs.Folding.{HasWorker, IsFoldedOn, IsSettledOn};

use live_core::Machine;
use live_model::Mem;
use overlay_set::Event;
use std::alloc::Global;

/// Plans the first fold that is due, and brings it in.
fn fold_once(alloc: Global, machine: &mut Machine) -> Mem<()>
    requires worker { HasWorker machine.old }
    requires stands { Stands machine.old.rules machine.old.base machine.old.now }
    requires due { foldable machine.old.now ≢ None }
    ensures folded { IfOk result (λ _. IsFoldedOn machine.old machine.new) }
    ensures stands { IfOk result (λ _. Stands machine.new.rules machine.new.base machine.new.now) }
{
    let _ = machine.step(alloc, &Event::Plan { worker: 0 })?;
    let _ = machine.step(alloc, &Event::Commit { worker: 0 })?;
    Ok(())
}

/// Folds until nothing is to be folded any more.
pub fn settle(alloc: Global, machine: &mut Machine) -> Mem<()>
    requires worker { HasWorker machine.old }
    requires stands { Stands machine.old.rules machine.old.base machine.old.now }
    ensures { IfOk result (λ _. IsSettledOn machine.old machine.new) }
{
    while !machine.set().shape_is_settled() {
        fold_once(alloc, machine)?;
    }
    Ok(())
}
