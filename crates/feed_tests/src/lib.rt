//! Tests of texts that come in pieces, with lines and breaks worked out by hand.
#![tactic(auto)]

mod readers;
#[cfg(test)]
mod rows;
#[cfg(test)]
mod tests;

pub use readers::read_in_pieces;
