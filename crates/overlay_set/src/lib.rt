//! What a published set of map files stands for, and why swaps of it change no answer.
//!
//! A history of publications, and over one base the files that stand for it: an hour file for a publication, a day or a month
//! file for all of a closed day or month.
//!
//! ```text
//! history   h1   h2   h3 | h4   h5 | h6        publications, their hours rising; the bars end days
//! files     base     day | h4   h5 | h6        the first day was folded, under a new number
//! ```
//!
//! The one idea: a file is seen as its head, rules, marks and records, and a set as its history and its numbered files; each
//! change of the set is a swap, which adds an hour or puts a fold in the place of a run of files. The layer above may rely on
//! this: a set that stands goes on to stand after each swap that may come, whatever it is asked has the answer of the map made
//! anew of base and history, and a plan to fold fits every later set. This crate has definitions, laws, and the types of events
//! and replies.
#![tactic(auto)]

mod events;

ghost use Rattle.overlay_set.specs.SetLaws.{AnswerLaw, FitsLaterLaw, FullLaw, JournalLaw, JournalStandsLaw, LaterChainLaw, LaterSelfLaw, NumberLaw, OpeningLaw, PlanLaw, ReachedChainLaw, ReachedLaterLaw, ReachedStandsLaw, SameAgeLaw, SettledLaw, ShapedLaw, ShownLaw, ShrinkLaw, SwapLaw};
ghost use Rattle.overlay_set.specs.Loose.{HeadsLaw};
ghost use Rattle.overlay_set.specs.MachineLaws.{AskLaw, EventsLaw, OpenedLaw, SeenLaw, StayLaw, StepLaw};

pub use events::{Event, Reply};

/// That later is an order on sets: each is the later of itself, and what is later than a later one is later. The set after
/// more of a journal is later, and of two sets of one age the later is the same.
pub fn later_is_an_order()
    ensures itself { LaterSelfLaw }
    ensures chain { LaterChainLaw }
    ensures journal { JournalLaw }
    ensures age { SameAgeLaw }
{}

/// That a set which swaps with good lines lead to from another, each of which may come, is later than it, and that what is
/// reached from such a set is reached from the first; and that such a set stands, where the first does and its lines are good.
pub fn sets_are_reached()
    ensures later { ReachedLaterLaw }
    ensures chain { ReachedChainLaw }
    ensures stands { ReachedStandsLaw }
{}

/// That a set stands from the beginning, after each swap that may come, and after a journal; and that no number of a file of
/// it is above 262,144.
pub fn sets_stand()
    ensures opening { OpeningLaw }
    ensures swap { SwapLaw }
    ensures journal { JournalStandsLaw }
    ensures numbers { NumberLaw }
{}

/// That a set which stands shows the map made anew of its base and history, and answers as that map does.
pub fn sets_answer_as_the_map_made_anew()
    ensures shown { ShownLaw }
    ensures answer { AnswerLaw }
{}

/// That the plan of what is foldable or can be shrunk fits, and goes on to fit every later set.
pub fn plans_fit()
    ensures foldable { PlanLaw }
    ensures shrinkable { ShrinkLaw }
    ensures later { FitsLaterLaw }
{}

/// That nothing is foldable exactly where the files have the settled shape, and that where nothing can be shrunk there are as
/// many.
pub fn folded_sets_are_settled()
    ensures settled { SettledLaw }
    ensures shaped { ShapedLaw }
    ensures full { FullLaw }
{}

/// That the machine stands from the beginning, after each good event, and after every list of them.
pub fn machines_stand()
    ensures opened { OpenedLaw }
    ensures step { StepLaw }
    ensures events { EventsLaw }
{}

/// That a machine which stands answers a question as the map made anew of its base and the history that the pass holds, with which
/// the present history begins, as it does with all that passes have seen; and that what publishes nothing leaves the history and
/// every answer over the present set.
pub fn machines_answer_as_the_map_made_anew()
    ensures seen { SeenLaw }
    ensures asked { AskLaw }
    ensures stays { StayLaw }
{}

/// That the heads of the files and the last hour tell which period is first to be folded or shrunk, and where its files stand.
/// There is nothing to run.
pub fn heads_tell_what_is_loose()
    ensures { HeadsLaw }
{}
