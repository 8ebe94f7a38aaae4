//! A base and its changes, whose map files were folded.
//!
//! The one idea: a fold lays over a map what the files that it was made of lay over it, and covers the hours that they cover. So
//! wherever the hours of a history are cut, into days, into months, or into months of days, what is left follows one another and shows the
//! same map.
//!
//! The layer above may rely on this: images of a base and of the roots of any trees of folds over its hours follow one another, and a
//! question over them has the rows of the map made anew from the lines of the base and of all changes; and a fold that was written as a file is
//! read as that fold. There is nothing to run here.
#![tactic(auto)]

mod cuts;
mod files;

pub use cuts::cuts_of_a_history_answer_as_the_map_made_anew;
pub use files::written_folds_are_read_as_folds;
