//! The texts of a block, each once.
//!
//! The one idea: records name a text by its place in a table, and the table rises strictly by bytes, so that the same
//! texts make the same bytes, in whatever order they come. A `TextTable` is seen as the list of its texts, `Texts` as
//! the bytes of a table that was checked. `specs/Tables.antt` says what bytes are which texts.
//!
//! The layer above may rely on this: `write` appends exactly the spelling of the table, or nothing, bytes are one
//! table at most, and what `find` gives as a text's place is where `get` finds it in the bytes written.
#![tactic(auto)]

mod laws;
mod reading;
mod table;

pub use laws::one_table;
pub use reading::Texts;
pub use table::TextTable;
