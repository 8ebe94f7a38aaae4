//! Laws of questions.

ghost use Rattle.query_merge.specs.Laws.{GatheredLaw, HistoryAnswerLaw};

/// That what a question finds in each of several maps, without the records on whose objects a later map decides, has to be sorted but once:
/// it then answers as the maps laid one after another. There is nothing to run.
pub fn hits_are_sorted_once()
    ensures { GatheredLaw }
{}

/// That the map of a base under the overlays of a history answers as the map made anew of both. There is nothing to run.
pub fn histories_answer_as_the_map_made_anew()
    ensures { HistoryAnswerLaw }
{}
