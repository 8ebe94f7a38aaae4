//! All addresses of a section, one after another.

ghost use Rattle.std.specs.Prelude.{◌≡◌, ◌≢◌, ◌∷◌, ◌++◌, ◌+◌, [], drop, IfSome, MatchOption, None};
ghost use Rattle.boxed_read.specs.Steps.{Coming, nothing_left, still_left, to_read};
ghost use Rattle.obf_wire.specs.Fields.{part_of};
ghost use Rattle.addr_read.specs.Records.{records_at, records_of};
ghost use Rattle.addr_read.specs.Sound.{HoldBlocks, HoldsBlock};

use crate::block::Addresses;
use crate::view::View;
use boxed_exact::Payload;
use file_grammar::Version;
use live_model::Steps;
use obf_wire::Window;
use std::marker::Model;
use std::sync::ledger::Ledger;

/// All addresses of a section, seen as those that are still to come: of the block that is being read, and of each after it, those
/// of names before those of houses. It takes no memory.
#[derive(Drop)]
pub struct AllCursor<'a> {
    version: Version,
    window: Window<'a>,
    names: &'a [Payload],
    houses: &'a [Payload],
    here: Option<Addresses<'a>>,
}

impl<'a> Model for AllCursor<'a> {
    ghost use Rattle.std.specs.Prelude.{[], ◌++◌};
    ghost use Rattle.std.specs.Option.{option_map_or};
    ghost use Rattle.live_model.specs.declared.addresses.AddrRec.{AddrRec};
    ghost use Rattle.boxed_read.specs.Steps.{Coming};
    ghost use Rattle.addr_read.specs.Records.{records_of};
    ghost use Rattle.addr_read.specs.Sound.{HoldBlocks};

    ghost Value = { Coming AddrRec };

    ghost view = { λ c. record { here = option_map_or (λ here. here) c.here []; blocks = records_of c.version c.window.bytes.now c.names.now ++ records_of c.version c.window.bytes.now c.houses.now } };

    ghost invariant = { λ c. HoldBlocks c.version c.window.bytes.now c.names.now × HoldBlocks c.version c.window.bytes.now c.houses.now };
}

impl<'a> AllCursor<'a> {
    /// The addresses of the blocks that stand there, of which every rule holds.
    pub(crate) fn new(
        version: Version,
        window: Window<'a>,
        names: &'a [Payload],
        houses: &'a [Payload],
    ) -> AllCursor<'a>
        requires names { HoldBlocks version window.bytes.now names.now }
        requires houses { HoldBlocks version window.bytes.now houses.now }
        ensures { result ≡ record { here = []; blocks = records_of version window.entry.bytes.now names.entry.now ++ records_of version window.entry.bytes.now houses.entry.now } }
    {
        AllCursor {
            version,
            window,
            names,
            houses,
            here: None,
        }
    }

    /// The next address, or `None` where none is left, and then none is left from there on. A step is counted where a block is read for it.
    pub fn next<L: Ledger>(&mut self, steps: &mut Steps<L>) -> Option<View<'a>>
        ensures first { MatchOption result ((still_left self.old ≡ []) × (self.new ≡ nothing_left)) (λ view. still_left self.old ≡ view ∷ still_left self.new) }
        ensures blocks { self.new.blocks ≡ drop (to_read self.old.here self.old.blocks) self.old.blocks }
        ensures steps { steps.new ≡ steps.old + to_read self.old.here self.old.blocks }
    {
        if let Some(view) = self.next_here() {
            return Some(view);
        }
        let Some(mut here) = self.next_block() else {
            self.here = None;
            return None;
        };
        steps.tick();
        let view = here.next();
        self.here = Some(here);
        view
    }

    /// The next address of the block that is being read.
    fn next_here(&mut self) -> Option<View<'a>>
        ensures first { MatchOption result (self.old.here ≡ []) (λ view. self.old.here ≡ view ∷ self.new.here) }
        ensures blocks { self.new.blocks ≡ self.old.blocks }
    {
        match &mut self.here {
            Some(here) => here.next(),
            None => None,
        }
    }

    /// The addresses of the next block, which are then no longer among those of the blocks to come.
    fn next_block(&mut self) -> Option<Addresses<'a>>
        ensures first { MatchOption result (self.old.blocks ≡ []) (λ here. self.old.blocks ≡ here ∷ self.new.blocks) }
        ensures none { result ≡ None → self.new.blocks ≡ [] }
        ensures here { self.new.here ≡ self.old.here }
        ensures some { IfSome result (λ here. here ≢ []) }
    {
        if let Some((span, after)) = self.names.split_first() {
            self.names = after;
            return Some(block_at(self.version, self.window, *span));
        }
        let Some((span, after)) = self.houses.split_first() else {
            return None;
        };
        self.houses = after;
        Some(block_at(self.version, self.window, *span))
    }
}

/// The addresses of the block that stands there.
fn block_at(version: Version, window: Window<'_>, span: Payload) -> Addresses<'_>
    requires { HoldsBlock version (part_of window.bytes.now span.from span.to) }
    ensures are { result ≡ records_at version (part_of window.entry.bytes.now span.from span.to) }
    ensures some { result ≢ [] }
{
    Addresses::of_block(version, window.part(span.from, span.to))
}
