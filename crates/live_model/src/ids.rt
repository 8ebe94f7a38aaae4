//! Ids of objects.

ghost use Rattle.std.specs.Prelude.{◌≡◌, ◌≢◌, ◌+◌, ◌*◌, ◌^◌, ◌<◌, ◌≤◌, MatchOption, IfSome, unsigned_abs};
ghost use Rattle.live_model.specs.Ids.{Id, IsId, ordinal, lifted_by};

use std::marker::Model;

/// What an object is: a place, a list of nodes, or a list of objects with roles.
#[derive(Clone, Copy, PartialEq, Eq, PartialOrd, Ord, Debug)]
pub enum Kind {
    Node,
    Way,
    Relation,
}

/// The id of an object: its kind and a number of magnitude at most 2^48. Ids are ordered by kind, then
/// by number.
#[derive(Clone, Copy, PartialEq, Eq, PartialOrd, Ord, Debug)]
pub struct ObjId {
    kind: Kind,
    number: i64,
}

impl Model for ObjId {
    ghost use Rattle.live_model.specs.Ids.{Id, IsId};

    ghost Value = { Id };

    ghost view = { λ o. record { kind = o.kind; number = o.number } };

    ghost invariant = { λ o. IsId (record { kind = o.kind; number = o.number }) };

    ghost inverse = { λ o. record { kind = o.kind; number = o.number } };
}

impl ObjId {
    /// The id of this kind and number. `None` exactly where the magnitude of the number is over 2^48.
    pub fn new(kind: Kind, number: i64) -> Option<ObjId>
        ensures id { MatchOption result (2 ^ 48 < unsigned_abs number) (λ o. o ≡ record { kind = kind; number = number }) }
        ensures good { IfSome result IsId }
    {
        if number.unsigned_abs() <= MOST {
            Some(ObjId { kind, number })
        } else {
            None
        }
    }

    /// The kind of the object.
    pub fn kind(&self) -> Kind
        ensures { result ≡ self.now.kind }
    {
        self.kind
    }

    /// The number of the object, of magnitude at most 2^48.
    pub fn number(&self) -> i64
        ensures number { result ≡ self.now.number }
        ensures good { IsId self.now }
    {
        self.number
    }

    /// The place of the id in the order of ids: 2^50 times 0, 1 or 2 for the kind, plus the number moved
    /// up by 2^48.
    pub fn ordinal(&self) -> u64
        ensures ordinal { result ≡ ordinal self.now }
        ensures good { IsId self.now }
    {
        let step = match self.kind {
            Kind::Node => 0,
            Kind::Way => STEP,
            Kind::Relation => 2 * STEP,
        };
        step + lifted(self.number)
    }

    /// The id with this ordinal. `None` exactly where `n` is the ordinal of no id.
    pub fn from_ordinal(n: u64) -> Option<ObjId>
        ensures { MatchOption result ((o : Id) → IsId o → ordinal o ≢ n) (λ o. IsId o × (ordinal o ≡ n)) }
    {
        let low = n & (STEP - 1);
        let kind = match n >> 50 {
            0 => Kind::Node,
            1 => Kind::Way,
            2 => Kind::Relation,
            _ => return None,
        };
        if low <= 2 * MOST {
            Some(ObjId {
                kind,
                number: low as i64 - MOST as i64,
            })
        } else {
            None
        }
    }
}

/// How far the ordinals of two kinds stand apart.
const STEP: u64 = 1 << 50;

/// The greatest magnitude of an id's number.
const MOST: u64 = 1 << 48;

fn lifted(number: i64) -> u64
    requires { unsigned_abs number ≤ 2 ^ 48 }
    ensures { result ≡ lifted_by (2 ^ 48) number }
{
    if number < 0 {
        MOST - number.unsigned_abs()
    } else {
        MOST + number.unsigned_abs()
    }
}
