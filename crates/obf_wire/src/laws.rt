//! Laws of the wire form. Each is the contract of a function that does nothing.

ghost use Rattle.std.specs.Prelude.{◌≡◌, ◌≢◌, ◌↔◌, ◌⊎◌, ◌+◌, ◌*◌, ◌^◌, ◌<◌, ◌≤◌, ℕ, ℤ, ◌++◌, List, [], length, slice_range, Ok, true};
ghost use Rattle.std.specs.List.{AllByRecursion};
ghost use Rattle.obf_wire.specs.declared.field.Field.{Field};
ghost use Rattle.obf_wire.specs.Varint.{varint, varint_in, IsVarint, IsSpelled, IsCut, IsOverlong, IsOneOfThree, IsTop, IsGroups, number_of};
ghost use Rattle.obf_wire.specs.Zigzag.{zigzag, unzigzag};
ghost use Rattle.obf_wire.specs.Fields.{Window, IsWindow, IsNextField, is_among, payload_len, field_spelling, field_of, left_of, section};

use crate::varint::LONGEST_VARINT;

/// Of bytes up to an end exactly one of three holds: they begin with a spelling, they are the front of one, or
/// neither, whatever follows them.
pub fn one_of_three()
    ensures { (bytes : List ℕ) → IsOneOfThree (IsSpelled bytes) (IsCut bytes) (IsOverlong bytes) }
{}

/// Up to a byte without the top bit, bytes are overlong exactly where they spell a number that has more than 64
/// bits, or spell it longer than needed. Where each byte has the top bit, they are the front of a spelling exactly
/// where they are fewer than ten.
pub fn overlong_spellings()
    ensures ended { (front rest : List ℕ) → IsGroups front
        → IsOverlong (front ++ rest) ↔ ((2 ^ 64 ≤ number_of front) ⊎ (front ≢ varint (number_of front))) }
    ensures unended { (bytes : List ℕ) → AllByRecursion IsTop bytes → IsCut bytes ↔ (length bytes < LONGEST_VARINT) }
{}

/// Each number of 64 bits has one spelling, of at most ten bytes, and it is the one that is written. No spelling
/// begins another.
pub fn one_spelling()
    ensures spelled { (n : ℕ) → n < 2 ^ 64 → IsVarint (varint n) n }
    ensures only { (bytes : List ℕ) (n : ℕ) → n < 2 ^ 64 → IsVarint bytes n → bytes ≡ varint n }
    ensures len { (n : ℕ) → length (varint n) ≤ LONGEST_VARINT }
    ensures begins_no_other { (front rest : List ℕ) (m n : ℕ) → IsVarint front m → IsVarint (front ++ rest) n → (rest ≡ []) × (m ≡ n) }
{}

/// What was written is read again, whatever follows it.
pub fn read_again()
    ensures { (n : ℕ) (rest : List ℕ) → n < 2 ^ 64 → varint_in (varint n ++ rest) ≡ Ok (n, length (varint n)) }
{}

/// Each signed number has its own number, and each number its signed one.
pub fn zigzag_both_ways()
    ensures there { (v : ℤ) → unzigzag (zigzag v) ≡ v }
    ensures back { (n : ℕ) → zigzag (unzigzag n) ≡ n }
{}

/// A field that is spelled at a place is the next one there, and the next one is spelled there: its key, its
/// number or length, and its payload. A section is such a field.
pub fn fields_are_spelled()
    ensures next { (w : Window) (allowed : List ℕ) (key value : ℕ) (payload rest : List ℕ) → IsWindow w
        → is_among allowed key ≡ true → key < 2 ^ 64 → value < 2 ^ 64 → length payload ≡ payload_len key value
        → left_of w ≡ field_spelling key value payload ++ rest → IsNextField w allowed (field_of w.place key value) }
    ensures spelled { (w : Window) (allowed : List ℕ) (f : Field) → IsWindow w → IsNextField w allowed f
        → left_of w ≡ field_spelling f.key f.value (slice_range w.bytes f.from f.to) ++ slice_range w.bytes f.to w.end }
    ensures section { (number : ℕ) (payload : List ℕ) → section number payload ≡ field_spelling (number * 8 + 6) (length payload) payload }
{}
