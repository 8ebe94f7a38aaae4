//! What outcomes are: a law, with nothing to run.

ghost use Rattle.run_model.specs.Jobs.{OneOutcomeLaw};

/// That a verb that writes a file has one outcome for given texts: one answer, and one file.
pub fn outcomes_are_one()
    ensures { OneOutcomeLaw }
{}
