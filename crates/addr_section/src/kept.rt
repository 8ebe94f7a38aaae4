//! What a check leaves of addresses.

ghost use Rattle.std.specs.Prelude.{◌≡◌};

use boxed_exact::{Number, Payload};

/// An entry of a list: the offset of its field, where the first and the last key of its block stand, and how many bytes after
/// the first block that block stands.
#[derive(Clone, Copy, Debug)]
pub struct EntryKept {
    pub at: usize,
    pub first: Payload,
    pub last: Payload,
    pub place: Number,
}

/// What a check leaves of a list: its entries, and where the messages of its blocks stand, one for each entry.
#[derive(Debug, Drop)]
pub struct ListKept {
    pub(crate) entries: Vec<EntryKept>,
    pub(crate) blocks: Vec<Payload>,
}

impl ListKept {
    /// The entries, in the order of their keys.
    pub fn entries(&self) -> &[EntryKept]
        ensures { result.now ≡ self.now.entries.items }
    {
        self.entries.as_slice()
    }

    /// Where the messages of the blocks stand, in the order of the entries.
    pub fn blocks(&self) -> &[Payload]
        ensures { result.now ≡ self.now.blocks.items }
    {
        self.blocks.as_slice()
    }
}

/// What a check leaves of good addresses: the list of places and streets, that of houses, and how many records there are in
/// both.
#[derive(Debug, Drop)]
pub struct AddressesKept {
    pub(crate) names: ListKept,
    pub(crate) houses: ListKept,
    pub(crate) records: usize,
}

impl AddressesKept {
    /// The list of places and streets.
    pub fn names(&self) -> &ListKept
        ensures { result.now ≡ self.now.names }
    {
        &self.names
    }

    /// The list of houses.
    pub fn houses(&self) -> &ListKept
        ensures { result.now ≡ self.now.houses }
    {
        &self.houses
    }

    /// How many records there are in all.
    pub fn records(&self) -> usize
        ensures { result ≡ self.now.records }
    {
        self.records
    }
}
