//! The records of a section that pass a filter, one after another.

ghost use Rattle.std.specs.Prelude.{◌≡◌, ◌∷◌, ◌+◌, [], MatchOption};
ghost use Rattle.std.specs.Prelude.{filter as kept_by, length};
ghost use Rattle.boxed_read.specs.Filters.{no_hits};
ghost use Rattle.boxed_read.specs.Steps.{Coming, nothing_left, still_left};

use crate::class::ReadClass;
use crate::filter::SpatialFilter;
use crate::meeting::MeetingCursor;
use crate::view::View;
use live_model::Steps;
use std::marker::Model;
use std::sync::ledger::Ledger;

/// The records of a section that pass a filter, seen as those that are still to come, and how many blocks may still have to be read for them. It takes
/// no memory.
#[derive(Drop)]
pub struct HitCursor<'a, C: ReadClass, F: SpatialFilter<C>> {
    met: MeetingCursor<'a, C>,
    filter: F,
}

impl<'a, C: ReadClass, F: SpatialFilter<C>> Model for HitCursor<'a, C, F> {
    ghost use Rattle.std.specs.Prelude.{filter as kept_by, length};
    ghost use Rattle.boxed_read.specs.Filters.{Hits};
    ghost use Rattle.boxed_read.specs.Steps.{still_left};

    ghost Value = { Hits C.Record };

    ghost view = { λ c. record { records = kept_by (F.passing c.filter) (still_left c.met); blocks = length c.met.blocks } };
}

impl<'a, C: ReadClass, F: SpatialFilter<C>> HitCursor<'a, C, F> {
    /// Those among the records of a cursor that pass.
    pub(crate) fn new(met: MeetingCursor<'a, C>, filter: F) -> HitCursor<'a, C, F>
        ensures { result ≡ record { records = kept_by (F.passing filter) (still_left met.entry); blocks = length met.entry.blocks } }
    {
        HitCursor { met, filter }
    }

    /// The next record that passes, or `None` where none is left, and then none is left from there on. A step is counted for each block that is read for it,
    /// and no block is read twice.
    pub fn next<L: Ledger>(&mut self, steps: &mut Steps<L>) -> Option<View<'a, C>>
        ensures first { MatchOption result ((self.old.records ≡ []) × (self.new ≡ no_hits)) (λ view. self.old.records ≡ view ∷ self.new.records) }
        ensures steps { steps.new + self.new.blocks ≡ steps.old + self.old.blocks }
    {
        next_passing(&mut self.met, &self.filter, steps)
    }
}

/// The next record of a cursor that passes.
fn next_passing<'a, C: ReadClass, F: SpatialFilter<C>, L: Ledger>(
    met: &mut MeetingCursor<'a, C>,
    filter: &F,
    steps: &mut Steps<L>,
) -> Option<View<'a, C>>
    ensures first { MatchOption result ((kept_by (F.passing filter.now) (still_left met.old) ≡ []) × (met.new ≡ nothing_left)) (λ view. kept_by (F.passing filter.now) (still_left met.old) ≡ view ∷ kept_by (F.passing filter.now) (still_left met.new)) }
    ensures steps { steps.new + length met.new.blocks ≡ steps.old + length met.old.blocks }
{
    while let Some(view) = met.next(steps) {
        if view.passes(filter) {
            return Some(view);
        }
    }
    None
}
