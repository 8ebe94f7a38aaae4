//! Where folds are planned and committed.

ghost use Rattle.std.specs.Prelude.{IfOk};
ghost use Rattle.overlay_set.specs.Swaps.{Fits};
ghost use Rattle.published_set.specs.Sites.{CommitCounted, FoldedLaw, IsAnswered, IsMoved, IsPlanned, MovedLaw, PlanCounted, Site, SiteStands};

use crate::errors::CommitError;
use crate::plan::{FoldPlan, FoldWork};
use live_model::Mem;
use std::alloc::Global;

/// A place where folds are planned and committed, such as a set that others change too.
///
/// `site` is what is known of it: the rules and the base lines of its sets, the state that it saw last, and three counts: of the
/// calls of `plan` that were Ok, of the commits that were Ok, and of those that were overtaken. Each such call raises its own count
/// by one, up to 2^64 - 1, and no call changes another. Each call keeps rules and base lines, and leaves the state as it was or puts
/// one in its place that is reached from it by publications and folds that may come, each after the one before. After each call the
/// state stands over the base lines with the rules, and all lines are good.
pub trait FoldSite {
    ghost site: { Self → Site };

    /// A plan that fits the state that the site then saw last, or `None`, exactly where nothing is foldable in that state.
    /// `NoMemory` where memory was refused.
    fn plan(&mut self, alloc: Global) -> Mem<Option<FoldPlan>>
        ensures moved { IsMoved (site self.old) (site self.new) }
        ensures standing { SiteStands (site self.new) }
        ensures planned { IfOk result (IsPlanned (site self.new).state) }
        ensures counted { PlanCounted (site self.old) (site self.new) result };

    /// Commits a fold whose plan fits the state that the site saw last. After an Ok that state is the one directly after the
    /// fold had come in the place of its files, in a state that was reached from the one seen before. `Overtaken` comes only where
    /// the state that the site then saw last has not the file, which is the first number of the plan that this state has not.
    /// `NoMemory` where memory was refused.
    fn commit(&mut self, alloc: Global, work: FoldWork) -> Result<(), CommitError>
        requires fits { Fits work (site self.old).state }
        ensures moved { IsMoved (site self.old) (site self.new) }
        ensures standing { SiteStands (site self.new) }
        ensures answered { IsAnswered work (site self.old) (site self.new) result }
        ensures counted { CommitCounted (site self.old) (site self.new) result };
}

/// That the state which a site sees after a call is the one seen before or a later one, and that a commit which is Ok brings a fold
/// in: its greatest number is above all that the site had seen. There is nothing to run.
pub fn sites_go_on()
    ensures moved { MovedLaw }
    ensures folded { FoldedLaw }
{}
