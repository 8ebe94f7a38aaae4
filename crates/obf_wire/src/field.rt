//! A field of a message.

/// A field: its key, and where its parts lie among the bytes.
#[derive(Clone, Copy, Debug, PartialEq, Eq)]
pub struct Field {
    /// Eight times the field's number, plus its wire type.
    pub key: u64,
    /// The offset of the key's first byte.
    pub at: usize,
    /// The number of a field of wire type 0, else the length of the payload.
    pub value: u64,
    /// The offset of the payload. A field of wire type 0 has an empty one, behind its number.
    pub from: usize,
    /// The offset behind the payload, where the next field may come.
    pub to: usize,
}
