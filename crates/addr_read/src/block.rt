//! The addresses of a block, one after another.

ghost use Rattle.std.specs.Prelude.{◌≡◌, ◌≢◌, ◌∷◌, [], MatchOption};
ghost use Rattle.obf_wire.specs.Windows.{range_of};
ghost use Rattle.addr_read.specs.Records.{records_at};
ghost use Rattle.addr_read.specs.Sound.{HoldsBlock};

use crate::view::View;
use file_grammar::{FieldWalk, Part, Version};
use obf_wire::Window;
use std::marker::Model;

/// The addresses of a block, seen as those that are still to come. It takes no memory.
#[derive(Drop)]
pub struct Addresses<'a> {
    version: Version,
    window: Window<'a>,
    walk: FieldWalk<'a>,
}

impl<'a> Model for Addresses<'a> {
    ghost use Rattle.std.specs.Prelude.{◌≡◌, List};
    ghost use Rattle.live_model.specs.declared.addresses.AddrRec.{AddrRec};
    ghost use Rattle.addr_read.specs.Records.{records_left};
    ghost use Rattle.addr_read.specs.Sound.{AreSoundLeft};

    ghost Value = { List AddrRec };

    ghost view = { λ a. records_left a.walk };

    ghost invariant = { λ a. (a.walk.window.bytes ≡ a.window.bytes.now) × AreSoundLeft a.version a.walk };
}

impl<'a> Addresses<'a> {
    /// The addresses of the block in a window, of which every rule holds.
    pub(crate) fn of_block(version: Version, window: Window<'a>) -> Addresses<'a>
        requires { HoldsBlock version (range_of window) }
        ensures are { result ≡ records_at version (range_of window.entry) }
        ensures some { result ≢ [] }
    {
        Addresses {
            version,
            window,
            walk: FieldWalk::new(Part::KeyedBlock(version), window),
        }
    }

    /// The next address, or `None` where none is left.
    pub fn next(&mut self) -> Option<View<'a>>
        ensures { MatchOption result (self.old ≡ []) (λ view. self.old ≡ view ∷ self.new) }
    {
        let Some(field) = self.walk.next() else {
            return None;
        };
        let window = self.window.part(field.from, field.to);
        Some(View::at(self.version, window))
    }
}
