//! The arguments of the program.

use live_model::Text;

/// The arguments after the program's name, as far as they could be had.
#[derive(Drop)]
pub enum Arguments {
    /// All of them.
    Words(Vec<Text>),
    /// One of them is no text.
    NotText,
    /// Memory for a copy of them was refused.
    NoMemory,
}
