//! Ordinals of objects, whatever their numbers are.

ghost use Rattle.std.specs.Prelude.{◌≡◌};
ghost use Rattle.file_grammar.specs.BoxRules.{is_node, is_ordinal, is_way};
ghost use Rattle.file_grammar.specs.RecordRules.{is_relation};

/// How far the ordinals of one kind of object lie from those of the next.
const ORDINALS: u128 = 1_125_899_906_842_624;

/// The greatest number of an object, as it stands in its ordinal.
const LAST_NUMBER: u128 = 562_949_953_421_312;

/// Whether the number is that of an object.
pub fn is_ordinal(n: u128) -> bool
    ensures { result ≡ is_ordinal n }
{
    n / ORDINALS <= 2 && n % ORDINALS <= LAST_NUMBER
}

/// Whether the number would be that of a node.
pub fn is_node(n: u128) -> bool
    ensures { result ≡ is_node n }
{
    n / ORDINALS == 0
}

/// Whether the number would be that of a way.
pub fn is_way(n: u128) -> bool
    ensures { result ≡ is_way n }
{
    n / ORDINALS == 1
}

/// Whether the number would be that of a relation.
pub fn is_relation(n: u128) -> bool
    ensures { result ≡ is_relation n }
{
    n / ORDINALS == 2
}
