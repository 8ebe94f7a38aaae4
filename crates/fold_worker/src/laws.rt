//! Laws of reports, with nothing to run.

ghost use Rattle.fold_worker.specs.Work.{RisenLaw};

/// That the counts of a site rose by what a worker reported, while they are below 2^64 - 1, and the count of its plans by more than
/// the commits together. There is nothing to run.
pub fn reports_tell_the_rise()
    ensures { RisenLaw }
{}
