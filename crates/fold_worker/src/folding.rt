//! Folds that are planned, made and committed, one after another.

ghost use Rattle.std.specs.Prelude.{◌≡◌, IfOk, MatchBool, None};
ghost use Rattle.overlay_set.specs.Periods.{foldable};
ghost use Rattle.overlay_set.specs.Swaps.{Fits};
ghost use Rattle.published_set.specs.Sites.{SiteStands};
ghost use Rattle.fold_worker.specs.Work.{IsCommit, IsWork};

use crate::report::WorkReport;
use fold_sets::fold_plan;
use live_model::{Mem, NoMemory};
use published_set::{CommitError, FoldSite, FoldWork};
use std::alloc::Global;
use std::sync::Wait;

/// Plans, folds and commits until nothing is foldable in the state that the site saw last. It may go on as long as others publish.
/// `NoMemory` where memory was refused; what was committed before is in the report.
pub fn fold_all<S: FoldSite, R: Wait>(
    rt: &R,
    alloc: Global,
    site: &mut S,
    report: &mut WorkReport,
) -> Mem<()>
    ensures standing { SiteStands (S.site site.new) }
    ensures work { IsWork 0 (S.site site.old) (S.site site.new) report.old report.new }
    ensures last { IfOk result (λ _. IsWork 1 (S.site site.old) (S.site site.new) report.old report.new) }
    ensures settled { IfOk result (λ _. foldable (S.site site.new).state ≡ None) }
{
    for _ in rt.forever() {
        if !fold_next(alloc, site, report)? {
            return Ok(());
        }
    }
    unreachable!()
}

/// Plans one fold, makes it and commits it; whether there was one. `NoMemory` where memory was refused.
fn fold_next<S: FoldSite>(alloc: Global, site: &mut S, report: &mut WorkReport) -> Mem<bool>
    ensures standing { SiteStands (S.site site.new) }
    ensures work { IsWork 0 (S.site site.old) (S.site site.new) report.old report.new }
    ensures last { IfOk result (λ more. MatchBool more (Unit {0}) (IsWork 1 (S.site site.old) (S.site site.new) report.old report.new)) }
    ensures settled { IfOk result (λ more. MatchBool more (Unit {0}) (foldable (S.site site.new).state ≡ None)) }
{
    match site.plan(alloc)? {
        None => Ok(false),
        Some(plan) => {
            let image = fold_plan(alloc, &plan)?;
            commit(alloc, site, plan.finish(image), report)?;
            Ok(true)
        }
    }
}

/// Commits a fold whose plan fits the state that the site saw last, and counts what became of it. `NoMemory` where memory was
/// refused; nothing is counted then.
fn commit<S: FoldSite>(
    alloc: Global,
    site: &mut S,
    work: FoldWork,
    report: &mut WorkReport,
) -> Mem<()>
    requires fits { Fits work (S.site site.old).state }
    ensures standing { SiteStands (S.site site.new) }
    ensures done { IsCommit (S.site site.old) (S.site site.new) report.old report.new }
{
    match site.commit(alloc, work) {
        Ok(()) => {
            report.folds = report.folds.saturating_add(1);
            Ok(())
        }
        Err(CommitError::Overtaken { file: _ }) => {
            report.overtaken = report.overtaken.saturating_add(1);
            Ok(())
        }
        Err(CommitError::NoMemory) => Err(NoMemory),
    }
}
