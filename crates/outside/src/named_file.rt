//! A file by its name and bytes.

use owned_data::{List, Text};

/// A file in memory.
#[derive(Debug, Drop)]
pub struct NamedFile {
    /// The name by which it is read and written.
    pub name: Text,
    /// Its bytes, from its start on.
    pub bytes: List<u8>,
}
