//! Folds that are planned over the files of a set.

ghost use Rattle.std.specs.Prelude.{◌≡◌, ◌≤◌, IfOk, MatchOption, length};
ghost use Rattle.std.specs.Option.{option_map};
ghost use Rattle.overlay_set.specs.Periods.{foldable, shrinkable};
ghost use Rattle.overlay_set.specs.Swaps.{Fits, plan_of};
ghost use Rattle.published_set.specs.Sets.{IsStanding};
ghost use Rattle.set_events.specs.Kept.{plan_for_room};

use crate::causes::is_full;
use fold_sets::fold_plan;
use live_model::Mem;
use published_set::{FoldPlan, FoldWork, OverlaySet};
use std::alloc::Global;

/// The plan of the first day or month that is to be folded, if there is one. `NoMemory` is the only error.
pub fn due_plan(alloc: Global, set: &OverlaySet) -> Mem<Option<FoldPlan>>
    requires { IsStanding set.now }
    ensures plan { IfOk result (λ plan. plan ≡ option_map (λ p. plan_of p set.now.state.files) (foldable set.now.state)) }
    ensures fits { IfOk result (λ plan. MatchOption plan (Unit {0}) (λ p. Fits p set.now.state)) }
{
    match set.foldable() {
        None => Ok(None),
        Some((from, to, level)) => {
            let plan = set.plan(alloc, from, to, level)?;
            Ok(Some(plan))
        }
    }
}

/// The plan of the first day or month that can be shrunk, if there is one, with its fold. `NoMemory` is the only error.
pub fn shrunk(alloc: Global, set: &OverlaySet) -> Mem<Option<FoldWork>>
    requires { IsStanding set.now }
    ensures plan { IfOk result (λ work. work ≡ option_map (λ p. plan_of p set.now.state.files) (shrinkable set.now.state)) }
    ensures fits { IfOk result (λ work. MatchOption work (Unit {0}) (λ p. Fits p set.now.state)) }
{
    match set.shrinkable() {
        None => Ok(None),
        Some((from, to, level)) => {
            let plan = set.plan(alloc, from, to, level)?;
            let image = fold_plan(alloc, &plan)?;
            Ok(Some(plan.finish(image)))
        }
    }
}

/// Where a set has no room for a file, the plan of what can be shrunk, with its fold, whose files are all there. `NoMemory` is the only error.
pub fn room_for(alloc: Global, set: &OverlaySet) -> Mem<Option<FoldWork>>
    requires { IsStanding set.now }
    ensures work { IfOk result (λ work. work ≡ plan_for_room set.now) }
    ensures most { length set.now.state.files ≤ 1024 }
{
    if is_full(set) {
        shrunk(alloc, set)
    } else {
        Ok(None)
    }
}
