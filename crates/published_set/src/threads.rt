//! What threads may share.

use crate::entry::Published;
use crate::ops::SetOp;
use crate::plan::{FoldPlan, FoldWork};
use crate::set::OverlaySet;

/// That threads may share sets, publications, operations, plans and folds that were made, and hand them over. There is nothing to run.
pub fn threads_may_share(
    set: &OverlaySet,
    published: &Published,
    op: &SetOp,
    plan: &FoldPlan,
    work: &FoldWork,
) {
    shared(set);
    shared(published);
    shared(op);
    shared(plan);
    shared(work);
}

/// Takes a value that threads may share: a call of it is refused for any other.
fn shared<S: Send + Sync>(_: &S) {}
