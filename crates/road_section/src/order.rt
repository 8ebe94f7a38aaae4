//! What the rules of roads and of restrictions share: the order of records in a block, and numbers of objects.

ghost use Rattle.std.specs.Prelude.{◌≡◌};
ghost use Rattle.obf_wire.specs.Zigzag.{unzigzag};
ghost use Rattle.file_grammar.specs.RecordRules.{is_object_number};
ghost use Rattle.road_section.specs.SeenFacts.{may_follow, rises};

use boxed_exact::is_ordinal;
use obf_wire::unzigzag;

/// The greatest magnitude of the number of an object.
pub(crate) const MAGNITUDE: u64 = 281_474_976_710_656;

/// No ordinal of an object lies farther above another one.
pub(crate) const FARTHEST: u64 = 3_377_699_720_527_872;

/// No ordinal of an object is greater.
pub(crate) const LAST: u64 = 4_503_599_627_370_496;

/// Whether the record of an ordinal may stand after the one before it.
pub(crate) fn may_follow(before: Option<u128>, ordinal: u128) -> bool
    ensures { result ≡ may_follow before ordinal }
{
    match before {
        None => true,
        Some(before) => rises(before, ordinal),
    }
}

/// Whether one ordinal may stand after another: rising, where both are of objects.
fn rises(before: u128, ordinal: u128) -> bool
    ensures { result ≡ rises before ordinal }
{
    before <= ordinal || !(is_ordinal(before) && is_ordinal(ordinal))
}

/// Whether an object may have the number that a field holds.
pub(crate) fn is_number(value: u64) -> bool
    ensures { result ≡ is_object_number (unzigzag value) }
{
    unzigzag(value).unsigned_abs() <= MAGNITUDE
}
