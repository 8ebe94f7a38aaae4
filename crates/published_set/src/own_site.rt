//! A set that one owner has for itself, as a place where folds are planned and committed.

ghost use Rattle.std.specs.Prelude.{◌≡◌, IfOk, OnErr};
ghost use Rattle.overlay_set.specs.Swaps.{Fits};
ghost use Rattle.published_set.specs.Sets.{IsStanding, rules_of};
ghost use Rattle.published_set.specs.Sites.{CommitCounted, IsAnswered, IsCommitted, IsMoved, IsPlanned, PlanCounted, Site, SiteStands, first_plan};

use crate::errors::{CommitError, Missing};
use crate::plan::{FoldPlan, FoldWork};
use crate::set::OverlaySet;
use crate::site::FoldSite;
use live_model::Mem;
use std::alloc::Global;
use std::marker::Model;

/// A set that stands, with the counts of a site. A plan leaves the set as it is, and so does a commit that is not Ok.
#[derive(Drop)]
pub struct OwnSite {
    set: OverlaySet,
    plans: u64,
    folds: u64,
    overtaken: u64,
}

impl Model for OwnSite {
    ghost use Rattle.published_set.specs.Sets.{IsStanding, rules_of};
    ghost use Rattle.published_set.specs.Sites.{Site};

    ghost Value = { Site };

    ghost view = { λ s. record { rules = rules_of s.set; base = s.set.base; state = s.set.state; plans = s.plans; folds = s.folds; overtaken = s.overtaken } };

    ghost invariant = { λ s. IsStanding s.set };
}

impl OwnSite {
    /// The site of a set, with no call counted.
    pub fn new(set: OverlaySet) -> OwnSite
        requires { IsStanding set }
        ensures { result ≡ record { rules = rules_of set; base = set.base; state = set.state; plans = 0; folds = 0; overtaken = 0 } }
    {
        OwnSite {
            set,
            plans: 0,
            folds: 0,
            overtaken: 0,
        }
    }

    /// The set, which stands.
    pub fn into_set(self) -> OverlaySet
        ensures set { result ≡ record { base = self.base; state = self.state } }
        ensures rules { rules_of result ≡ self.rules }
        ensures standing { IsStanding result }
    {
        self.set
    }

    /// The plan of the first period that is foldable, if there is one.
    fn planned(&self, alloc: Global) -> Mem<Option<FoldPlan>>
        ensures fits { IfOk result (IsPlanned self.now.state) }
        ensures first { IfOk result (λ plan. plan ≡ first_plan self.now.state) }
    {
        match self.set.foldable() {
            None => Ok(None),
            Some((from, to, level)) => {
                let plan = self.set.plan(alloc, from, to, level)?;
                Ok(Some(plan))
            }
        }
    }
}

impl FoldSite for OwnSite {
    ghost site = { λ s. s };

    /// The plan of the first day or month that is to be folded, or `None` exactly where there is none. The set stays as it is.
    /// `NoMemory` where memory was refused; the counts stay too.
    fn plan(&mut self, alloc: Global) -> Mem<Option<FoldPlan>>
        ensures moved { IsMoved self.old self.new }
        ensures standing { SiteStands self.new }
        ensures planned { IfOk result (IsPlanned self.new.state) }
        ensures counted { PlanCounted self.old self.new result }
        ensures first { IfOk result (λ plan. plan ≡ first_plan self.old.state) }
        ensures state { self.new.state ≡ self.old.state }
        ensures stays { OnErr result (self.new ≡ self.old) }
    {
        let plan = self.planned(alloc)?;
        self.plans = self.plans.saturating_add(1);
        Ok(plan)
    }

    /// Puts a fold in the place of the files of its plan, which has to fit the set. `Overtaken` exactly where a file of the plan is not
    /// in the set, with the first such number; the set stays as it was. It takes no memory, and `NoMemory` never comes.
    fn commit(&mut self, _alloc: Global, work: FoldWork) -> Result<(), CommitError>
        requires fits { Fits work self.old.state }
        ensures moved { IsMoved self.old self.new }
        ensures standing { SiteStands self.new }
        ensures answered { IsAnswered work self.old self.new result }
        ensures counted { CommitCounted self.old self.new result }
        ensures committed { IsCommitted work self.old self.new result }
    {
        match self.set.replace(work) {
            Ok(()) => {
                self.folds = self.folds.saturating_add(1);
                Ok(())
            }
            Err(Missing { file }) => {
                self.overtaken = self.overtaken.saturating_add(1);
                Err(CommitError::Overtaken { file })
            }
        }
    }
}
