//! The records of the blocks that a rectangle meets, one after another.

ghost use Rattle.std.specs.Prelude.{◌≡◌, ◌∷◌, ◌+◌, ◌<◌, ◌^◌, [], drop, slice_get, IfSome, MatchOption};
ghost use Rattle.box_tree.specs.Search.{first_meeting};
ghost use Rattle.boxed_read.specs.Meeting.{met};
ghost use Rattle.boxed_read.specs.Records.{records_of};
ghost use Rattle.boxed_read.specs.Sound.{HoldBlocks};
ghost use Rattle.boxed_read.specs.Steps.{Coming, nothing_left, still_left, to_read};

use crate::class::ReadClass;
use crate::entries::Entries;
use crate::view::View;
use box_tree::Tree;
use boxed_check::Kept;
use boxed_exact::Payload;
use live_model::{Rect, Steps};
use obf_wire::Window;
use std::marker::{Brand, Model};
use std::sync::ledger::{Blank, Ledger};

/// The records of those blocks of a section whose leaf has a box that meets a rectangle, seen as those that are still to come: of the block that
/// is being read, and of each after it. It takes no memory.
#[derive(Drop)]
pub struct MeetingCursor<'a, C: ReadClass> {
    window: Window<'a>,
    kept: &'a Kept,
    rect: Rect,
    from: usize,
    here: Option<Entries<'a, C>>,
    group: &'a str,
}

impl<'a, C: ReadClass> Model for MeetingCursor<'a, C> {
    ghost use Rattle.std.specs.Prelude.{[]};
    ghost use Rattle.std.specs.Option.{option_map_or};
    ghost use Rattle.boxed_read.specs.Meeting.{met};
    ghost use Rattle.boxed_read.specs.Records.{records_of};
    ghost use Rattle.boxed_read.specs.Sound.{HoldBlocks};
    ghost use Rattle.boxed_read.specs.Steps.{Coming};

    ghost Value = { Coming C.Record };

    ghost view = { λ c. record {
      here = option_map_or (λ here. here) c.here [];
      blocks = records_of C.class (C.reads c.group.now) c.window.bytes.now (met c.rect c.kept.now c.from);
    } };

    ghost invariant = { λ c. HoldBlocks C.class C.boxing c.window.bytes.now (met c.rect c.kept.now c.from) };
}

impl<'a, C: ReadClass> MeetingCursor<'a, C> {
    /// The records of the blocks that stand there and that the rectangle meets, of which every rule holds.
    pub(crate) fn new(
        window: Window<'a>,
        kept: &'a Kept,
        group: &'a str,
        rect: Rect,
    ) -> MeetingCursor<'a, C>
        requires { HoldBlocks C.class C.boxing window.bytes.now (met rect kept.now 0) }
        ensures { result ≡ record { here = []; blocks = records_of C.class (C.reads group.entry.now) window.entry.bytes.now (met rect kept.entry.now 0) } }
    {
        MeetingCursor {
            window,
            kept,
            rect,
            from: 0,
            here: None,
            group,
        }
    }

    /// The next record, or `None` where none is left, and then none is left from there on. A step is counted where a block is read for it.
    pub fn next<L: Ledger>(&mut self, steps: &mut Steps<L>) -> Option<View<'a, C>>
        ensures first { MatchOption result ((still_left self.old ≡ []) × (self.new ≡ nothing_left)) (λ view. still_left self.old ≡ view ∷ still_left self.new) }
        ensures blocks { self.new.blocks ≡ drop (to_read self.old.here self.old.blocks) self.old.blocks }
        ensures steps { steps.new ≡ steps.old + to_read self.old.here self.old.blocks }
    {
        if let Some(view) = self.next_here() {
            return Some(view);
        }
        let Some((span, after)) = next_meeting(self.kept, &self.rect, self.from) else {
            self.here = None;
            return None;
        };
        steps.tick();
        let mut here = Entries::of_block(self.window.part(span.from, span.to), self.group);
        let view = here.next();
        self.here = Some(here);
        self.from = after;
        view
    }

    /// The next record of the block that is being read.
    fn next_here(&mut self) -> Option<View<'a, C>>
        ensures first { MatchOption result (self.old.here ≡ []) (λ view. self.old.here ≡ view ∷ self.new.here) }
        ensures blocks { self.new.blocks ≡ self.old.blocks }
    {
        match &mut self.here {
            Some(here) => here.next(),
            None => None,
        }
    }
}

/// Where the first block from a leaf on stands that the rectangle meets, and the leaf after its own.
fn next_meeting(kept: &Kept, rect: &Rect, from: usize) -> Option<(Payload, usize)>
    ensures { MatchOption result (met rect.now kept.now from ≡ []) (λ r. met rect.now kept.now from ≡ r.0 ∷ met rect.now kept.now r.1) }
{
    let Some(leaf) = leaf_meeting(kept.tree(), rect, from) else {
        return None;
    };
    let Some(span) = block_at(kept.blocks(), leaf) else {
        return None;
    };
    Some((span, leaf + 1))
}

/// The first leaf from this one on whose box the rectangle meets. Blocks are counted here, and no nodes.
fn leaf_meeting(tree: &Tree, rect: &Rect, from: usize) -> Option<usize>
    ensures { result ≡ first_meeting tree.now rect.now from }
{
    leaf_counted::<Brand>(tree, rect, from, Blank::new(1))
}

/// The same with a counter of nodes, which is dropped.
fn leaf_counted<L: Ledger>(tree: &Tree, rect: &Rect, from: usize, blank: Blank) -> Option<usize>
    requires name { blank.name ≡ L.name }
    requires parts { blank.parts ≡ L.parts }
    requires some { 0 < blank.parts }
    ensures { result ≡ first_meeting tree.now rect.now from }
{
    let mut nodes = Steps::<L>::new(blank);
    tree.next_leaf(rect, from, &mut nodes)
}

/// Where the block of an index stands, if there is one.
fn block_at(blocks: &[Payload], index: usize) -> Option<Payload>
    ensures found { result ≡ slice_get blocks.now index }
    ensures small { IfSome result (λ _. index < 2 ^ 63) }
{
    match blocks.get(index) {
        Some(span) => Some(*span),
        None => None,
    }
}
