//! Whether a record may have its ordinal.

ghost use Rattle.std.specs.Prelude.{◌≡◌, ◌==◌, ◌<◌, true};
ghost use Rattle.std.specs.List.{list_any};
ghost use Rattle.std.specs.Ordering.{nat_cmp};
ghost use Rattle.ordered_lists.specs.Ordered.{IsRisingBy};
ghost use Rattle.file_grammar.specs.BoxRules.{is_marked};
ghost use Rattle.boxed_exact.specs.Sides.{AreRising, ordinals_of};

use crate::ordinals::is_ordinal;
use obf_wire::Marks;

/// Whether the ordinal is a mark. It holds of a number that is no ordinal, of which another rule speaks.
pub fn is_marked(marks: Marks<'_>, n: u128) -> bool
    requires { AreRising marks }
    ensures { result ≡ is_marked (ordinals_of marks.entry) n }
{
    match marks {
        Marks::Any => true,
        Marks::Only(ordinals) => is_among(ordinals, n) || !is_ordinal(n),
    }
}

/// Whether the ordinal is sure to be a mark.
pub fn has_mark(marks: Marks<'_>, n: u64) -> bool
    requires { AreRising marks }
    ensures { result ≡ true → is_marked (ordinals_of marks.entry) n ≡ true }
{
    match marks {
        Marks::Any => true,
        Marks::Only(ordinals) => find(ordinals, n),
    }
}

/// Whether the number is one of these, which rise.
fn is_among(ordinals: &[u64], n: u128) -> bool
    requires { IsRisingBy nat_cmp (λ n. n) ordinals.now }
    ensures { result ≡ list_any (λ mark. mark == n) ordinals.now }
{
    if n > 18_446_744_073_709_551_615 {
        return false;
    }
    find(ordinals, n as u64)
}

/// The same of a number of 64 bits.
fn find(ordinals: &[u64], n: u64) -> bool
    requires { IsRisingBy nat_cmp (λ n. n) ordinals.now }
    ensures { result ≡ list_any (λ mark. mark == n) ordinals.now }
{
    match ordinals.binary_search(&n) {
        Ok(_) => true,
        Err(_) => false,
    }
}
