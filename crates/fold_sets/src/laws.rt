//! Laws of plans and folds, with nothing to run.

ghost use Rattle.fold_sets.specs.Folding.{AcceptedLaw, FinishedLaw};

/// That the images of a plan which fits a set whose hours rise can become one of the plan's level, so that `fold` refuses none of
/// them; and that a fold of them stands for the fold of what they stand for, which is what `FoldPlan::finish` asks.
pub fn folds_finish_plans()
    ensures accepted { AcceptedLaw }
    ensures finished { FinishedLaw }
{}
