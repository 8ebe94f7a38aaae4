//! Lists that rise by a key, and lists that are sorted: definitions and lemmas, over any items and any order.
//!
//! The one idea: a list into which items are put one by one, each in place of the one with its key or between its neighbours,
//! rises strictly and holds the last item of each key. The layer above may rely on this: that list is the stable sort of the
//! items, of which the last of each key is kept. This crate has no code.
#![tactic(auto)]
