//! Wakes, and the work that is done at each.

ghost use Rattle.std.specs.Prelude.{◌≡◌, IfOk, None};
ghost use Rattle.overlay_set.specs.Periods.{foldable};
ghost use Rattle.published_set.specs.Sites.{IsMoved, SiteStands};
ghost use Rattle.fold_worker.specs.Work.{IsWork, WorkCounted};

use crate::folding::fold_all;
use crate::report::WorkReport;
use crossbeam_channel::Receiver;
use live_model::Mem;
use outside::Gate;
use published_set::FoldSite;
use std::alloc::Global;
use std::sync::Wait;

/// Folds at a site: at each wake until nothing is foldable in the state that the site saw last, and once more where all senders of
/// wakes are gone and no wake is left. Each fold that it commits is of a plan which fits the state that the site saw last.
///
/// The gate is told of each wake before and after its folds, with this lane and the number of the wake, from 1; the number stays at
/// 2^32 - 1 once it is reached. The last folding, without a wake, is not told.
///
/// After an Ok the report is by how much the site's counts of commits rose, up to 2^64 - 1; each commit had a plan of its own, and
/// the last plan found nothing foldable. `NoMemory` where memory was refused: then the worker ends at once and gives no report, the
/// gate is not told the end of the wake, what was committed stays in the site and in its counts, and wakes that are left are dropped.
pub fn work<S: FoldSite, G: Gate, R: Wait>(
    rt: &R,
    alloc: Global,
    site: &mut S,
    wakes: Receiver<(), Global>,
    gate: &G,
    lane: u8,
) -> Mem<WorkReport>
    ensures moved { IsMoved (S.site site.old) (S.site site.new) }
    ensures standing { SiteStands (S.site site.new) }
    ensures settled { IfOk result (λ _. foldable (S.site site.new).state ≡ None) }
    ensures counted { WorkCounted (S.site site.old) (S.site site.new) result }
{
    let mut report = WorkReport {
        folds: 0,
        overtaken: 0,
    };
    fold_at_wakes(rt, alloc, site, &wakes, gate, lane, &mut report)?;
    Ok(report)
}

/// Folds at each wake, and once more where the channel of wakes is closed and empty, each time until nothing is foldable in the state
/// that the site saw last. `NoMemory` where memory was refused; what was committed before is in the report.
fn fold_at_wakes<S: FoldSite, G: Gate, R: Wait>(
    rt: &R,
    alloc: Global,
    site: &mut S,
    wakes: &Receiver<(), Global>,
    gate: &G,
    lane: u8,
    report: &mut WorkReport,
) -> Mem<()>
    ensures standing { SiteStands (S.site site.new) }
    ensures work { IsWork 0 (S.site site.old) (S.site site.new) report.old report.new }
    ensures last { IfOk result (λ _. IsWork 1 (S.site site.old) (S.site site.new) report.old report.new) }
    ensures settled { IfOk result (λ _. foldable (S.site site.new).state ≡ None) }
{
    let mut number: u32 = 0;
    for _ in wakes.iter(rt) {
        number = number.saturating_add(1);
        gate.before(lane, number);
        fold_all(rt, alloc, site, report)?;
        gate.after(lane, number);
    }
    fold_all(rt, alloc, site, report)?;
    Ok(())
}
