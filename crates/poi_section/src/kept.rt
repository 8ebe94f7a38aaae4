//! What a check leaves of groups.

ghost use Rattle.std.specs.Prelude.{◌≡◌};

use boxed_check::Kept;
use boxed_exact::Payload;

/// What a check leaves of a good group: where its category and the section of its records stand, and what there is of that
/// section.
#[derive(Debug, Drop)]
pub struct GroupKept {
    pub(crate) category: Payload,
    pub(crate) records: Payload,
    pub(crate) kept: Kept,
}

impl GroupKept {
    /// Where the category stands.
    pub fn category(&self) -> Payload
        ensures { result ≡ self.now.category }
    {
        self.category
    }

    /// Where the section of the records stands.
    pub fn records(&self) -> Payload
        ensures { result ≡ self.now.records }
    {
        self.records
    }

    /// What there is of the section.
    pub fn kept(&self) -> &Kept
        ensures { result.now ≡ self.now.kept }
    {
        &self.kept
    }
}

/// What a check leaves of good groups: each of them, in order, and how many records they have in all.
#[derive(Debug, Drop)]
pub struct PoisKept {
    pub(crate) groups: Vec<GroupKept>,
    pub(crate) records: usize,
}

impl PoisKept {
    /// The groups, in the order of their categories.
    pub fn groups(&self) -> &[GroupKept]
        ensures { result.now ≡ self.now.groups.items }
    {
        self.groups.as_slice()
    }

    /// How many records there are in all.
    pub fn records(&self) -> usize
        ensures { result ≡ self.now.records }
    {
        self.records
    }
}
