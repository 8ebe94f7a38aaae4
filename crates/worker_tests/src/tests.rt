//! What workers report, what their sets are then, and in which order they plan, commit and tell their gate.

use crate::places::{Diary, WatchedSite};
use crate::towns::{MonthDayHour, has_levels, set_of};
use crossbeam_channel::unbounded;
use fold_worker::{WorkReport, work};
use live_model::Level;
use published_set::OverlaySet;
use std::alloc::Global;
use std::sync::Wait;
use std::test::Fail;

/// The number of the first worker's lane.
const LANE: u8 = 8;

/// Lets a worker work at the set of these hours, after so many wakes.
fn worked<R: Wait>(
    rt: &R,
    alloc: Global,
    hours: &[MonthDayHour],
    wakes: u32,
    diary: &Diary,
) -> Result<(WorkReport, OverlaySet), Fail> {
    let (wake, woken) = unbounded(alloc)?;
    for _ in 0..wakes {
        let _ = wake.send(rt, ());
    }
    drop(wake);
    let mut site = WatchedSite::new(set_of(alloc, hours)?, diary);
    let report = work(rt, alloc, &mut site, woken, diary, LANE)?;
    Ok((report, site.into_set()))
}

#[test]
fn all_is_folded_at_the_first_wake(rt: HostRuntime) -> Result<(), Fail> {
    let hours = [(1, 1, 0), (1, 1, 5), (1, 2, 0), (1, 2, 1), (1, 3, 0)];
    let diary = Diary::new();
    let (report, set) = worked(&rt, rt.alloc(), &hours, 2, &diary)?;
    assert!(rt;
        report
            == WorkReport {
                folds: 2,
                overtaken: 0
            }
    );
    assert!(rt; has_levels(&set, &[Level::Base, Level::Day, Level::Day, Level::Hour]));
    assert!(rt; diary.steps() == 12_323_241_242);
    assert!(rt; diary.told() == 32_006);
    Ok(())
}

#[test]
fn all_is_folded_without_a_wake_once_the_wakes_have_ended(rt: HostRuntime) -> Result<(), Fail> {
    let hours = [(1, 1, 0), (2, 1, 0), (2, 1, 1), (3, 1, 0)];
    let diary = Diary::new();
    let (report, set) = worked(&rt, rt.alloc(), &hours, 0, &diary)?;
    assert!(rt;
        report
            == WorkReport {
                folds: 2,
                overtaken: 0
            }
    );
    assert!(rt;
        has_levels(
            &set,
            &[Level::Base, Level::Month, Level::Month, Level::Hour]
        )
    );
    assert!(rt; diary.steps() == 23_232);
    assert!(rt; diary.told() == 0);
    Ok(())
}

#[test]
fn nothing_is_foldable_but_each_wake_has_its_plan(rt: HostRuntime) -> Result<(), Fail> {
    let hours = [(1, 1, 0), (1, 1, 5)];
    let diary = Diary::new();
    let (report, set) = worked(&rt, rt.alloc(), &hours, 3, &diary)?;
    assert!(rt;
        report
            == WorkReport {
                folds: 0,
                overtaken: 0
            }
    );
    assert!(rt; has_levels(&set, &[Level::Base, Level::Hour, Level::Hour]));
    assert!(rt; diary.steps() == 1_241_241_242);
    assert!(rt; diary.told() == 48_012);
    Ok(())
}
