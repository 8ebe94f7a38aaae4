//! The texts of a table in bytes.

ghost use Rattle.std.specs.Prelude.{◌≡◌, ◌≤◌, ℕ, List, [], length, slice_get, slice_range, Some, MatchOption};
ghost use Rattle.text_table.specs.Tables.{AreTexts, IsTexts, IsFront};

use obf_wire::{Cursor, Window};
use std::marker::Model;

/// The key of the field that a text is: number 1, wire type 2.
const KEY: u64 = 10;

/// A table in bytes that were checked, seen as these bytes.
#[derive(Drop)]
pub struct Texts<'a> {
    bytes: &'a [u8],
}

impl<'a> Model for Texts<'a> {
    ghost use Rattle.std.specs.Prelude.{ℕ, List};
    ghost use Rattle.text_table.specs.Tables.{IsTexts};

    ghost Value = { List ℕ };

    ghost view = { λ t. t.bytes.now };

    ghost invariant = { λ t. IsTexts t.bytes.now };
}

impl<'a> Texts<'a> {
    /// The table in the bytes from `from` up to `to`.
    pub fn new(bytes: &'a [u8], from: usize, to: usize) -> Texts<'a>
        requires ordered { from ≤ to }
        requires within { to ≤ length bytes.now }
        requires table { IsTexts (slice_range bytes.now from to) }
        ensures { result ≡ slice_range bytes.now from to }
    {
        Texts {
            bytes: &bytes[from..to],
        }
    }

    /// The text at a place, counted from 0. `None` exactly where the place is not below the count.
    ///
    /// It goes over the fields of the texts before it, which for the texts of a block are at most as many as records,
    /// and takes no memory.
    pub fn get(&self, index: u64) -> Option<&'a str>
        ensures { (texts : List (List ℕ)) → AreTexts self.now texts → MatchOption result (length texts ≤ index) (λ text. slice_get texts index ≡ Some text.now) }
    {
        let mut rest = self.bytes;
        for _ in 0..index {
            let (_, behind) = first_text(rest)?;
            rest = behind;
        }
        let (text, _) = first_text(rest)?;
        Some(text)
    }
}

/// The first text of a table, and the bytes of the others. `None` exactly where there is none.
fn first_text(bytes: &[u8]) -> Option<(&str, &[u8])>
    requires { IsTexts bytes.now }
    ensures { (texts : List (List ℕ)) → AreTexts bytes.now texts → MatchOption result (texts ≡ []) (λ found. IsFront texts found.0.now found.1.now) }
{
    let mut cursor = Cursor::new(Window::whole(bytes));
    let Ok(found) = cursor.next_field(&[KEY], true) else {
        return None;
    };
    let field = found?;
    let Ok(text) = str::from_utf8(&bytes[field.from..field.to]) else {
        return None;
    };
    Some((text, &bytes[field.to..]))
}
