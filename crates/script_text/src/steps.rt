//! The steps of a script.

use live_model::Query;
use owned_data::Text;
use stamp_core::Stamp;

/// What a lane does.
#[derive(Debug, Drop)]
pub enum What {
    /// It publishes the change in the file of this name, under an hour.
    Publish { stamp: Stamp, file: Text },
    /// It asks a question.
    Ask(Query),
}

/// A line of a script: a lane, from 0 to 7, and what it does.
#[derive(Debug, Drop)]
pub struct Step {
    pub lane: u8,
    pub what: What,
}
