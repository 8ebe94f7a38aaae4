//! The fields of a message of good form.

ghost use Rattle.std.specs.Prelude.{◌≡◌, ◌<◌, ◌≤◌, None, Some, Ok, length, IfSome, MatchOption};
ghost use Rattle.obf_wire.specs.Fields.{IsWindow};
ghost use Rattle.obf_wire.specs.Windows.{range_of};
ghost use Rattle.file_grammar.specs.Messages.{Fields, ends};
ghost use Rattle.file_grammar.specs.Walks.{IsInside, IsNext, Standing, left_in};

use crate::parts::Part;
use crate::walk::next_field;
use obf_wire::{Cursor, Field, Window};
use std::marker::Model;

/// Goes over the fields of a message whose form was found good. It stands at the message's beginning, or
/// behind a field.
#[derive(Drop)]
pub struct FieldWalk<'a> {
    cursor: Cursor<'a>,
    part: Part,
    last: Option<u64>,
}

impl<'a> Model for FieldWalk<'a> {
    ghost use Rattle.file_grammar.specs.Walks.{Standing};
    ghost use Rattle.obf_wire.specs.Fields.{IsWindow};

    ghost Value = { Standing };

    ghost view = { λ w. record { part = w.part; last = w.last; window = w.cursor } };

    ghost invariant = { λ w. IsWindow w.cursor };
}

impl<'a> FieldWalk<'a> {
    /// At the beginning of the message in a window.
    pub fn new(part: Part, window: Window<'a>) -> FieldWalk<'a>
        ensures { result ≡ record { part = part; last = None; window = range_of window.entry } }
    {
        FieldWalk {
            cursor: Cursor::new(window),
            part,
            last: None,
        }
    }

    /// The next field. Of a message of good form, `None` exactly where no field is left.
    pub fn next(&mut self) -> Option<Field>
        ensures fields { (fields : Fields) → left_in self.old ≡ Ok fields → MatchOption result (fields ≡ ends) (λ f. IsNext self.old self.new f fields) }
        ensures inside { IfSome result (λ f. IsInside self.old.window f × (self.new.window.place ≡ f.to)) }
        ensures same { (self.new.window.bytes ≡ self.old.window.bytes) × (self.new.window.end ≡ self.old.window.end) }
        ensures part { self.new.part ≡ self.old.part }
        ensures window { IsWindow self.new.window }
        ensures stays { MatchOption result (self.new ≡ self.old) (λ f. self.new.last ≡ Some f.key) }
    {
        match next_field(&mut self.cursor, self.part, self.last) {
            Ok(Some(field)) => {
                self.last = Some(field.key);
                Some(field)
            }
            Ok(None) => None,
            Err(_) => None,
        }
    }
}
