//! What runs print of map files that runs wrote.
//!
//! The one idea: a run reads texts, and the images of these texts hold all that a question finds in them. So what is proved of images that
//! were written, folded and read holds of the words in which runs are told.
//!
//! The layer above may rely on this: where `build` wrote the file of a base and `change` those of its changes, a run of `ask` over them, or over
//! any folds of them, prints the rows of the map made anew from the texts that were given. There is nothing to run here.
#![tactic(auto)]

mod shown;

pub use shown::{runs_show_the_map_made_anew, texts_are_told_by_their_images};
