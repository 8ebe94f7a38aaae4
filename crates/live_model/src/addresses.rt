//! Addresses.

ghost use Rattle.std.specs.Prelude.{◌≡◌, IfOk};
ghost use Rattle.std.specs.Ordering.{nat_cmp};
ghost use Rattle.live_model.specs.Records.{address_cmp, address_rank, naming_cmp};

use crate::ids::ObjId;
use crate::points::Point;
use owned_data::{Mem, Text};
use std::alloc::Global;
use std::cmp::Ordering;

/// What an address names.
#[derive(Clone, Copy, PartialEq, Eq, PartialOrd, Ord, Debug)]
pub enum AddrKind {
    Place,
    Street,
    House,
}

/// An address: a place or a street with its name in a language, or a house with the name of its street and
/// its number. The plain name has the empty language, and so has a house; places and streets have the empty number.
#[derive(Debug, Drop)]
pub struct AddrRec {
    pub id: ObjId,
    pub kind: AddrKind,
    pub lang: Text,
    pub name: Text,
    pub number: Text,
    pub point: Point,
}

impl AddrRec {
    /// A second owner of the same address.
    pub fn copy(&self, alloc: Global) -> Mem<AddrRec>
        ensures { IfOk result (λ copied. copied ≡ self.now) }
    {
        let lang = self.lang.copy(alloc)?;
        let name = self.name.copy(alloc)?;
        let number = self.number.copy(alloc)?;
        Ok(AddrRec {
            id: self.id,
            kind: self.kind,
            lang,
            name,
            number,
            point: self.point,
        })
    }

    /// By object and kind, then by language, name, number and point.
    pub fn compare(&self, other: &AddrRec) -> Ordering
        ensures { result ≡ address_cmp self.now other.now }
    {
        self.id
            .ordinal()
            .cmp(&other.id.ordinal())
            .then(self.compare_names(other))
    }

    /// By kind, language, name, number and point.
    fn compare_names(&self, other: &AddrRec) -> Ordering
        ensures { result ≡ naming_cmp self.now other.now }
    {
        self.compare_kinds(other)
            .then(self.lang.as_bytes().cmp(other.lang.as_bytes()))
            .then(self.name.as_bytes().cmp(other.name.as_bytes()))
            .then(self.number.as_bytes().cmp(other.number.as_bytes()))
            .then(self.point.cmp(&other.point))
    }

    fn compare_kinds(&self, other: &AddrRec) -> Ordering
        ensures { result ≡ nat_cmp (address_rank self.now.kind) (address_rank other.now.kind) }
    {
        self.kind.cmp(&other.kind)
    }
}
