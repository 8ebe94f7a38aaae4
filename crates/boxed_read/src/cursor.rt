//! All records of a section, one after another.

ghost use Rattle.std.specs.Prelude.{◌≡◌, ◌∷◌, ◌+◌, [], drop, MatchOption};
ghost use Rattle.obf_wire.specs.Windows.{range_of};
ghost use Rattle.boxed_read.specs.Records.{records_of};
ghost use Rattle.boxed_read.specs.Sound.{HoldBlocks};
ghost use Rattle.boxed_read.specs.Steps.{Coming, nothing_left, still_left, to_read};

use crate::class::ReadClass;
use crate::entries::Entries;
use crate::view::View;
use boxed_exact::Payload;
use live_model::Steps;
use obf_wire::Window;
use std::marker::Model;
use std::sync::ledger::Ledger;

/// All records of a section, seen as those that are still to come: of the block that is being read, and of each after it. It
/// takes no memory.
#[derive(Drop)]
pub struct AllCursor<'a, C: ReadClass> {
    window: Window<'a>,
    spans: &'a [Payload],
    here: Option<Entries<'a, C>>,
    group: &'a str,
}

impl<'a, C: ReadClass> Model for AllCursor<'a, C> {
    ghost use Rattle.std.specs.Prelude.{[]};
    ghost use Rattle.std.specs.Option.{option_map_or};
    ghost use Rattle.boxed_read.specs.Records.{records_of};
    ghost use Rattle.boxed_read.specs.Sound.{HoldBlocks};
    ghost use Rattle.boxed_read.specs.Steps.{Coming};

    ghost Value = { Coming C.Record };

    ghost view = { λ c. record { here = option_map_or (λ here. here) c.here []; blocks = records_of C.class (C.reads c.group.now) c.window.bytes.now c.spans.now } };

    ghost invariant = { λ c. HoldBlocks C.class C.boxing c.window.bytes.now c.spans.now };
}

impl<'a, C: ReadClass> AllCursor<'a, C> {
    /// The records of the blocks that stand there, of which every rule holds.
    pub(crate) fn new(window: Window<'a>, spans: &'a [Payload], group: &'a str) -> AllCursor<'a, C>
        requires { HoldBlocks C.class C.boxing window.bytes.now spans.now }
        ensures { result ≡ record { here = []; blocks = records_of C.class (C.reads group.entry.now) window.entry.bytes.now spans.entry.now } }
    {
        AllCursor {
            window,
            spans,
            here: None,
            group,
        }
    }

    /// The next record, or `None` where none is left, and then none is left from there on. A step is counted where a block is read for it.
    pub fn next<L: Ledger>(&mut self, steps: &mut Steps<L>) -> Option<View<'a, C>>
        ensures first { MatchOption result ((still_left self.old ≡ []) × (self.new ≡ nothing_left)) (λ view. still_left self.old ≡ view ∷ still_left self.new) }
        ensures blocks { self.new.blocks ≡ drop (to_read self.old.here self.old.blocks) self.old.blocks }
        ensures steps { steps.new ≡ steps.old + to_read self.old.here self.old.blocks }
    {
        if let Some(view) = self.next_here() {
            return Some(view);
        }
        let Some((span, after)) = self.spans.split_first() else {
            self.here = None;
            return None;
        };
        steps.tick();
        let mut here = Entries::of_block(self.window.part(span.from, span.to), self.group);
        let view = here.next();
        self.here = Some(here);
        self.spans = after;
        view
    }

    /// The next record of the block that is being read.
    fn next_here(&mut self) -> Option<View<'a, C>>
        ensures first { MatchOption result (self.old.here ≡ []) (λ view. self.old.here ≡ view ∷ self.new.here) }
        ensures blocks { self.new.blocks ≡ self.old.blocks }
    {
        match &mut self.here {
            Some(here) => here.next(),
            None => None,
        }
    }
}
