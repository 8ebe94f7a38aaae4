//! The keys by which names are found, whatever their case is.
//!
//! Two names are one where Unicode's canonical caseless matching says so (The Unicode Standard, section 3.13,
//! definition 145): the key of a name is what it becomes when it is decomposed, folded and decomposed again, and two
//! names match exactly where their keys are equal. The one idea: the key of a text of ASCII is its lower case, which
//! takes no table. The layer above may rely on this: a key is the key of `specs/Keys.antt`.
#![tactic(auto)]

mod keys;

pub use keys::{is_key_of, is_prefix, key};
