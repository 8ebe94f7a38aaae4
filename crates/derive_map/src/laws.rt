//! What map records owe their writer beyond one store: a law, with nothing to run.

ghost use Rattle.derive_map.specs.MapRecords.{DrawnFitLaw};

/// That the map records of a good store whose texts are UTF-8 fit the rules that drew them.
pub fn drawn_records_fit()
    ensures { DrawnFitLaw }
{}
