//! What folds owe those who ask: laws, with nothing to run.

ghost use Rattle.fold_merge.specs.Cuts.{CutsLaw, FoldLaw, OneLaw};

/// That the files of the changes of a base, in whatever way they are cut into folds and folds of folds, show the map that is made anew of
/// the base and its changes: the image of a change stands for it, a fold for all that its files stand for, and files that stand for
/// all changes answer each question alike.
pub fn cuts_answer_alike()
    ensures one { OneLaw }
    ensures fold { FoldLaw }
    ensures cuts { CutsLaw }
{}
