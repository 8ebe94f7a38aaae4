//! Addresses that were checked.

ghost use Rattle.std.specs.Prelude.{◌≡◌, [], Ok, false, filter, length, map, true};
ghost use Rattle.obf_wire.specs.Windows.{range_of};
ghost use Rattle.file_grammar.specs.declared.parts.Part.TheVariants.{Addresses as AddressesPart};
ghost use Rattle.file_grammar.specs.AddressRules.{address_records_in, addresses_of};
ghost use Rattle.file_grammar.specs.Messages.{Fields};
ghost use Rattle.file_grammar.specs.Readings.{message_at};
ghost use Rattle.boxed_read.specs.Steps.{joined, still_left};
ghost use Rattle.addr_read.specs.Finding.{due_blocks, has_prefix, has_street};
ghost use Rattle.addr_read.specs.Records.{address_blocks};
ghost use Rattle.addr_read.specs.Sound.{AreChecked};

use crate::cursor::AllCursor;
use crate::finding::due_spans;
use crate::found::FoundCursor;
use addr_section::AddressesKept;
use file_grammar::Version;
use obf_wire::Window;
use std::marker::Model;

/// Addresses of which every rule holds, seen as those of each block, in the order of the file: of names, then of houses. It
/// borrows the bytes and what the check left of them.
#[derive(Drop)]
pub struct Section<'a> {
    version: Version,
    window: Window<'a>,
    kept: &'a AddressesKept,
}

impl<'a> Model for Section<'a> {
    ghost use Rattle.std.specs.Prelude.{List, ◌++◌};
    ghost use Rattle.obf_wire.specs.Windows.{range_of};
    ghost use Rattle.live_model.specs.declared.addresses.AddrRec.{AddrRec};
    ghost use Rattle.addr_read.specs.Records.{records_of};
    ghost use Rattle.addr_read.specs.Sound.{AreChecked};

    ghost Value = { List (List AddrRec) };

    ghost view = { λ s. records_of s.version s.window.bytes.now s.kept.now.names.blocks.items ++ records_of s.version s.window.bytes.now s.kept.now.houses.blocks.items };

    ghost invariant = { λ s. AreChecked s.version (range_of s.window) s.kept.now };
}

impl<'a> Section<'a> {
    /// The addresses of a file of this version in a window of which a check left this.
    pub fn new(version: Version, window: Window<'a>, kept: &'a AddressesKept) -> Section<'a>
        requires { AreChecked version (range_of window) kept.now }
        ensures blocks { (fields : Fields) → message_at (AddressesPart version) (range_of window.entry) ≡ Ok fields → result ≡ address_blocks (addresses_of fields) }
        ensures records { (fields : Fields) → message_at (AddressesPart version) (range_of window.entry) ≡ Ok fields → joined result ≡ address_records_in (addresses_of fields) }
    {
        Section {
            version,
            window,
            kept,
        }
    }

    /// How many addresses there are.
    pub fn len(&self) -> usize
        ensures { result ≡ length (joined self.now) }
    {
        self.kept.records()
    }

    /// All addresses, in the order of the file.
    pub fn all(&self) -> AllCursor<'a>
        ensures { result ≡ record { here = []; blocks = self.now } }
    {
        AllCursor::new(
            self.version,
            self.window,
            self.kept.names().blocks(),
            self.kept.houses().blocks(),
        )
    }

    /// The places and streets whose key begins with this one, byte by byte, in the order of the file. A block is read only where its first
    /// and its last key allow one. It takes no memory.
    pub fn by_prefix<'k>(&self, key: &'k str) -> FoundCursor<'a, 'k>
        ensures due { result ≡ record { here = []; blocks = map (filter (has_prefix key.now)) (due_blocks false key.now self.now) } }
        ensures found { still_left result ≡ filter (has_prefix key.now) (joined self.now) }
    {
        let spans = due_spans(self.window, self.kept.names(), false, key);
        FoundCursor::new(self.version, self.window, spans, false, key)
    }

    /// The houses of the street with this key, in the order of the file. A block is read only where its first and its last key allow one.
    /// It takes no memory.
    pub fn by_street<'k>(&self, key: &'k str) -> FoundCursor<'a, 'k>
        ensures due { result ≡ record { here = []; blocks = map (filter (has_street key.now)) (due_blocks true key.now self.now) } }
        ensures found { still_left result ≡ filter (has_street key.now) (joined self.now) }
    {
        let spans = due_spans(self.window, self.kept.houses(), true, key);
        FoundCursor::new(self.version, self.window, spans, true, key)
    }
}
