//! What the writers write, the readers read back: laws over all values, with nothing to run.

ghost use Rattle.std.specs.Prelude.{◌≡◌, ◌≤◌, ◌<◌, ◌^◌, ℕ, ℤ, List, Some, decimal, unsigned_abs};
ghost use Rattle.std.specs.Fmt.{signed_decimal};
ghost use Rattle.text_pieces.specs.Numbers.{number_of, id_of};
ghost use Rattle.text_pieces.specs.Coordinates.{degrees_of, degrees_text};
ghost use Rattle.text_pieces.specs.Escapes.{escaped, text_of};

/// The canonical spelling of a text spells that text.
pub fn escaped_texts_read_back()
    ensures { (text : List ℕ) → text_of (escaped text) ≡ Some text }
{}

/// The decimal digits of a number spell it, within any limits that it meets.
pub fn numbers_read_back()
    ensures { (most top n : ℕ) → 0 < most → n < 10 ^ most → n < 2 ^ 64 → n ≤ top → number_of most top (decimal n) ≡ Some n }
{}

/// The decimal digits of an id, behind its minus, spell it.
pub fn ids_read_back()
    ensures { (z : ℤ) → unsigned_abs z ≤ 281474976710656 → id_of (signed_decimal z) ≡ Some z }
{}

/// The canonical spelling of a coordinate spells it, within any limit that it meets.
pub fn degrees_read_back()
    ensures { (most : ℕ) (z : ℤ) → unsigned_abs z ≤ most → unsigned_abs z ≤ 1800000000 → degrees_of most (degrees_text z) ≡ Some z }
{}
