//! A gate and a site that write down what they are told.

ghost use Rattle.overlay_set.specs.Swaps.{Fits};
ghost use Rattle.published_set.specs.Sets.{IsStanding};

use live_model::Mem;
use outside::Gate;
use published_set::{CommitError, FoldPlan, FoldSite, FoldWork, OverlaySet, OwnSite};
use std::alloc::Global;
use std::sync::atomic::{AtomicU64, Ordering};

/// Before a wake.
pub const BEFORE: u64 = 1;
/// A plan.
pub const PLAN: u64 = 2;
/// A commit.
pub const COMMIT: u64 = 3;
/// After a wake.
pub const AFTER: u64 = 4;

/// What happened, a digit each in order, and the sum of what the gate was told: a thousand for each lane, and one for each line.
#[derive(Drop)]
pub struct Diary {
    steps: AtomicU64,
    told: AtomicU64,
}

impl Diary {
    /// An empty diary.
    pub fn new() -> Diary {
        Diary {
            steps: AtomicU64::new(0),
            told: AtomicU64::new(0),
        }
    }

    /// What happened, a digit each.
    pub fn steps(&self) -> u64 {
        self.steps.load(Ordering::SeqCst)
    }

    /// The sum of the lanes, a thousand each, and the lines that the gate was told.
    pub fn told(&self) -> u64 {
        self.told.load(Ordering::SeqCst)
    }

    /// Writes down a step.
    fn note(&self, step: u64) {
        let steps = self.steps().wrapping_mul(10).wrapping_add(step);
        self.steps.store(steps, Ordering::SeqCst);
    }

    /// Adds what the gate was told.
    fn add(&self, lane: u8, line: u32) {
        let told = u64::from(lane) * 1000 + u64::from(line);
        self.told.fetch_add(told, Ordering::SeqCst);
    }
}

impl Gate for Diary {
    fn before(&self, lane: u8, line: u32) {
        self.note(BEFORE);
        self.add(lane, line);
    }

    fn after(&self, lane: u8, line: u32) {
        self.note(AFTER);
        self.add(lane, line);
    }

    fn inside(&self, _line: u32) {}
}

/// A site whose calls stand in a diary.
#[derive(Drop)]
pub struct WatchedSite<'a> {
    site: OwnSite,
    diary: &'a Diary,
}

impl<'a> WatchedSite<'a> {
    /// The site of a set that stands.
    pub fn new(set: OverlaySet, diary: &'a Diary) -> WatchedSite<'a>
        requires { IsStanding set }
    {
        WatchedSite {
            site: OwnSite::new(set),
            diary,
        }
    }

    /// The set.
    pub fn into_set(self) -> OverlaySet {
        self.site.into_set()
    }
}

impl FoldSite for WatchedSite<'_> {
    ghost site = { λ s. s.site };

    fn plan(&mut self, alloc: Global) -> Mem<Option<FoldPlan>> {
        self.diary.note(PLAN);
        self.site.plan(alloc)
    }

    fn commit(&mut self, alloc: Global, work: FoldWork) -> Result<(), CommitError> {
        self.diary.note(COMMIT);
        self.site.commit(alloc, work)
    }
}
