//! Folds of the images of a plan.
//!
//! The one idea: a set plans which of its files are to become one, and a fold of images makes one of several; what a plan asks of the
//! image that finishes it is just what a fold gives. So whoever stands on both can plan, fold, finish and bring the fold in, and checks
//! nothing else.
//!
//! The layer above may rely on this: of a plan that fits a set whose hours rise, `fold` refuses no image, and its image finishes the
//! plan; `fold_plan` does both.
#![tactic(auto)]

mod folding;
mod laws;

pub use folding::fold_plan;
pub use laws::folds_finish_plans;
