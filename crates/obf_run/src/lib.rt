//! The top call: a run of the program over files and sinks that its caller hands in.
//!
//! The one idea: every verb reads its files in order, each judged whole before the next, makes its whole outcome, writes the
//! file where there is one, and puts the answer last. So a run that ends early has put nothing, and a written file is tried
//! once.
//!
//! The layer above may rely on this: `run` ends as `specs/Runs.antt` of `run_model` says of every run, over whatever files and
//! sinks; `run_arguments` answers the code of that ending; `start` only makes the real files and sinks for it.
#![tactic(auto)]

mod asking;
mod changing;
mod file_line;
mod folding;
mod images;
mod inputs;
mod jobs;
mod packing;
mod replaying;
mod runs;
mod starting;

pub use runs::{run, run_arguments, run_plain};
pub use starting::{read_arguments, start};
