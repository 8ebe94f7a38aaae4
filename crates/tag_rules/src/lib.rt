//! Tables of rules: which objects become records, and of what kind.
//!
//! A table is seen as the list of its rules, and a rule is named by its place in that list. What a text of
//! rules spells, how it breaks, its canonical text and what a rule matches are stated in `live_model`'s
//! `specs/Rules.antt`; this crate reads exactly that, keeps the canonical text beside the rules, and finds
//! the first rule at or after a place that matches a shape and tags. The one idea: beside the rules stand
//! their places, in the order of shape, key, value and place, so that a question about a tag is two binary
//! searches and never a walk over the table. The layer above may rely on: every rule of a table is one that
//! a rule line can spell, there are at most 100,000, and the canonical text is that of these rules.
#![tactic(auto)]

mod errors;
mod laws;
mod places;
mod reading;
mod rows;
mod table;
mod values;
mod writing;

pub use errors::RuleError;
pub use laws::{readings_are_exact, tables_read_back};
pub use live_model::{Class, Rule, RuleBreak, RuleKind, Shape};
pub use table::Rules;
pub use values::{read_category, read_zoom};
