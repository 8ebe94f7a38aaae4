//! The addresses that a key finds, one after another.

ghost use Rattle.std.specs.Prelude.{◌≡◌, ◌∷◌, ◌+◌, [], drop, false, filter, map, MatchBool, MatchOption};
ghost use Rattle.boxed_read.specs.Steps.{Coming, nothing_left, still_left};
ghost use Rattle.addr_read.specs.Finding.{is_wanted, to_search};
ghost use Rattle.addr_read.specs.Records.{records_of};
ghost use Rattle.addr_read.specs.Sound.{HoldBlocks};

use crate::block::Addresses;
use crate::view::View;
use boxed_exact::Payload;
use file_grammar::Version;
use live_model::Steps;
use obf_wire::Window;
use std::marker::Model;
use std::sync::ledger::Ledger;

/// The addresses of some blocks that a key finds, seen as those that are still to come: of the block that is being read, and of each
/// after it. It takes no memory.
#[derive(Drop)]
pub struct FoundCursor<'a, 'k> {
    version: Version,
    window: Window<'a>,
    spans: &'a [Payload],
    here: Option<Addresses<'a>>,
    houses: bool,
    key: &'k str,
}

impl<'a, 'k> Model for FoundCursor<'a, 'k> {
    ghost use Rattle.std.specs.Prelude.{[], filter, map};
    ghost use Rattle.std.specs.Option.{option_map_or};
    ghost use Rattle.live_model.specs.declared.addresses.AddrRec.{AddrRec};
    ghost use Rattle.boxed_read.specs.Steps.{Coming};
    ghost use Rattle.addr_read.specs.Finding.{is_wanted};
    ghost use Rattle.addr_read.specs.Records.{records_of};
    ghost use Rattle.addr_read.specs.Sound.{HoldBlocks};

    ghost Value = { Coming AddrRec };

    ghost view = { λ c. record {
      here = filter (is_wanted c.houses c.key.now) (option_map_or (λ here. here) c.here []);
      blocks = map (filter (is_wanted c.houses c.key.now)) (records_of c.version c.window.bytes.now c.spans.now);
    } };

    ghost invariant = { λ c. HoldBlocks c.version c.window.bytes.now c.spans.now };
}

impl<'a, 'k> FoundCursor<'a, 'k> {
    /// Of the blocks that stand there, of which every rule holds, the houses of the street with this key, or else the places and streets
    /// whose key begins with it.
    pub(crate) fn new(
        version: Version,
        window: Window<'a>,
        spans: &'a [Payload],
        houses: bool,
        key: &'k str,
    ) -> FoundCursor<'a, 'k>
        requires { HoldBlocks version window.bytes.now spans.now }
        ensures { result ≡ record { here = []; blocks = map (filter (is_wanted houses key.entry.now)) (records_of version window.entry.bytes.now spans.entry.now) } }
    {
        FoundCursor {
            version,
            window,
            spans,
            here: None,
            houses,
            key,
        }
    }

    /// The next address that is found, or `None` where none is left, and then none is left from there on. A step is counted for each block that is read for it.
    pub fn next<L: Ledger>(&mut self, steps: &mut Steps<L>) -> Option<View<'a>>
        ensures first { MatchOption result ((still_left self.old ≡ []) × (self.new ≡ nothing_left)) (λ view. still_left self.old ≡ view ∷ still_left self.new) }
        ensures blocks { self.new.blocks ≡ drop (to_search self.old.here self.old.blocks) self.old.blocks }
        ensures steps { steps.new ≡ steps.old + to_search self.old.here self.old.blocks }
    {
        loop {
            if let Some(view) = self.next_here() {
                return Some(view);
            }
            if !self.begin_block() {
                self.here = None;
                return None;
            }
            steps.tick();
        }
    }

    /// The next address that is found in the block that is being read.
    fn next_here(&mut self) -> Option<View<'a>>
        ensures first { MatchOption result (self.old.here ≡ []) (λ view. self.old.here ≡ view ∷ self.new.here) }
        ensures blocks { self.new.blocks ≡ self.old.blocks }
    {
        match &mut self.here {
            Some(here) => next_wanted(here, self.houses, self.key),
            None => None,
        }
    }

    /// Whether there is a next block, which is then the one that is being read.
    fn begin_block(&mut self) -> bool
        ensures next { MatchBool result (self.old.blocks ≡ self.new.here ∷ self.new.blocks) (self.old.blocks ≡ []) }
        ensures none { result ≡ false → self.new.blocks ≡ [] }
    {
        let Some((span, after)) = self.spans.split_first() else {
            return false;
        };
        let window = self.window.part(span.from, span.to);
        self.here = Some(Addresses::of_block(self.version, window));
        self.spans = after;
        true
    }
}

/// The next address of a block that is wanted.
fn next_wanted<'a>(here: &mut Addresses<'a>, houses: bool, key: &str) -> Option<View<'a>>
    ensures { MatchOption result (filter (is_wanted houses key.now) here.old ≡ []) (λ view. filter (is_wanted houses key.now) here.old ≡ view ∷ filter (is_wanted houses key.now) here.new) }
{
    while let Some(view) = here.next() {
        if view.is_wanted(houses, key) {
            return Some(view);
        }
    }
    None
}
