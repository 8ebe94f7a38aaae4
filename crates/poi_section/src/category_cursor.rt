//! The points of interest of a category in a rectangle, one after another.

ghost use Rattle.std.specs.Prelude.{◌≡◌, ◌∷◌, ◌+◌, [], bytes_eq, map, IfSome, MatchOption};
ghost use Rattle.boxed_read.specs.Filters.{no_hits};
ghost use Rattle.poi_section.specs.CategoryHits.{all_hits, category_hits, of_category};
ghost use Rattle.poi_section.specs.PoiSections.{HoldGroups, HoldsGroup, category_in, group_kept};

use crate::class::PoiClass;
use crate::kept::GroupKept;
use crate::placed::PlacedIn;
use crate::sections::{category_of, section_of};
use boxed_read::{HitCursor, View};
use live_model::{Rect, Steps};
use obf_wire::Window;
use std::marker::Model;
use std::sync::ledger::Ledger;

/// The points of interest of a category in a rectangle, seen as those that are still to come, and how many blocks may still have to be read for them. It
/// takes no memory.
#[derive(Drop)]
pub struct CategoryCursor<'a> {
    here: Option<HitCursor<'a, PoiClass, PlacedIn>>,
    groups: CategoryGroups<'a>,
}

impl<'a> Model for CategoryCursor<'a> {
    ghost use Rattle.live_model.specs.declared.records.PoiRec.{PoiRec};
    ghost use Rattle.boxed_read.specs.Filters.{Hits};
    ghost use Rattle.poi_section.specs.CategoryHits.{all_hits};

    ghost Value = { Hits PoiRec };

    ghost view = { λ c. all_hits c.here c.groups };
}

impl<'a> CategoryCursor<'a> {
    /// Those of these groups, of each of which every rule holds.
    pub(crate) fn new(
        window: Window<'a>,
        groups: &'a [GroupKept],
        category: &'a str,
        rect: Rect,
    ) -> CategoryCursor<'a>
        requires { HoldGroups window.bytes.now groups.now }
        ensures { result ≡ category_hits category.entry.now rect (map (group_kept window.entry.bytes.now) groups.entry.now) }
    {
        CategoryCursor {
            here: None,
            groups: CategoryGroups {
                window,
                groups,
                category,
                rect,
            },
        }
    }

    /// The next point of interest, or `None` where none is left, and then none is left from there on. A step is counted for each block that is read for it,
    /// and no block is read twice.
    pub fn next<L: Ledger>(&mut self, steps: &mut Steps<L>) -> Option<View<'a, PoiClass>>
        ensures first { MatchOption result ((self.old.records ≡ []) × (self.new ≡ no_hits)) (λ view. self.old.records ≡ view ∷ self.new.records) }
        ensures steps { steps.new + self.new.blocks ≡ steps.old + self.old.blocks }
    {
        next_hit(&mut self.here, &mut self.groups, steps)
    }
}

/// The groups of a category that are still to come, seen as what is in a rectangle of each.
#[derive(Drop)]
struct CategoryGroups<'a> {
    window: Window<'a>,
    groups: &'a [GroupKept],
    category: &'a str,
    rect: Rect,
}

impl<'a> Model for CategoryGroups<'a> {
    ghost use Rattle.std.specs.Prelude.{List, map};
    ghost use Rattle.live_model.specs.declared.records.PoiRec.{PoiRec};
    ghost use Rattle.boxed_read.specs.Filters.{Hits};
    ghost use Rattle.poi_section.specs.CategoryHits.{group_hits, of_category};
    ghost use Rattle.poi_section.specs.PoiSections.{HoldGroups, group_kept};

    ghost Value = { List (Hits PoiRec) };

    ghost view = { λ c. map (group_hits c.rect) (of_category c.category.now (map (group_kept c.window.bytes.now) c.groups.now)) };

    ghost invariant = { λ c. HoldGroups c.window.bytes.now c.groups.now };
}

impl<'a> CategoryGroups<'a> {
    /// What is in the rectangle of the next group; `None` where none is left.
    fn next(&mut self) -> Option<HitCursor<'a, PoiClass, PlacedIn>>
        ensures { MatchOption result ((self.old ≡ []) × (self.new ≡ [])) (λ found. self.old ≡ found ∷ self.new) }
    {
        let Some((group, after)) = first_of(self.window, self.groups, self.category) else {
            return None;
        };
        self.groups = after;
        Some(section_of(self.window, group).hits(PlacedIn { rect: self.rect }))
    }
}

/// The first of these groups that has a category, and those after it.
#[tactic(auto, using(crate::proofs::CategoryWalk::of_it, crate::proofs::CategoryWalk::of_another))]
fn first_of<'a>(
    window: Window<'a>,
    groups: &'a [GroupKept],
    category: &str,
) -> Option<(&'a GroupKept, &'a [GroupKept])>
    requires { HoldGroups window.bytes.now groups.now }
    ensures first { MatchOption result (of_category category.now (map (group_kept window.entry.bytes.now) groups.entry.now) ≡ []) (λ r. of_category category.now (map (group_kept window.entry.bytes.now) groups.entry.now) ≡ group_kept window.entry.bytes.now r.0.now ∷ of_category category.now (map (group_kept window.entry.bytes.now) r.1.now)) }
    ensures hold { IfSome result (λ r. HoldsGroup window.entry.bytes.now r.0.now × HoldGroups window.entry.bytes.now r.1.now) }
{
    let mut rest = groups;
    while let [group, after @ ..] = rest {
        if is_of(window, group, category) {
            return Some((group, after));
        }
        rest = after;
    }
    None
}

/// Whether a group has a category.
fn is_of(window: Window<'_>, group: &GroupKept, category: &str) -> bool
    requires { HoldsGroup window.bytes.now group.now }
    ensures { result ≡ bytes_eq (category_in window.entry.bytes.now group.now) category.now }
{
    category_of(window, group).as_bytes() == category.as_bytes()
}

/// The next of what was found of one group, if there is one, or of the groups after it.
#[tactic(auto, using(crate::proofs::CategoryWalk::first_of_all, crate::proofs::CategoryWalk::none_of_it, crate::proofs::CategoryWalk::first_of_next, crate::proofs::CategoryWalk::none_of_next, crate::proofs::CategoryWalk::blocks_of_next, crate::proofs::CategoryWalk::blocks_of_all, crate::proofs::CategoryWalk::done_of_all))]
fn next_hit<'a, L: Ledger>(
    here: &mut Option<HitCursor<'a, PoiClass, PlacedIn>>,
    groups: &mut CategoryGroups<'a>,
    steps: &mut Steps<L>,
) -> Option<View<'a, PoiClass>>
    ensures first { MatchOption result (((all_hits here.old groups.old).records ≡ []) × (all_hits here.new groups.new ≡ no_hits)) (λ view. (all_hits here.old groups.old).records ≡ view ∷ (all_hits here.new groups.new).records) }
    ensures steps { steps.new + (all_hits here.new groups.new).blocks ≡ steps.old + (all_hits here.old groups.old).blocks }
{
    if let Some(view) = next_of(here, steps) {
        return Some(view);
    }
    *here = None;
    while let Some(mut next) = groups.next() {
        if let Some(view) = next.next(steps) {
            *here = Some(next);
            return Some(view);
        }
    }
    None
}

/// The next of what was found of a group, if there is one.
fn next_of<'a, L: Ledger>(
    here: &mut Option<HitCursor<'a, PoiClass, PlacedIn>>,
    steps: &mut Steps<L>,
) -> Option<View<'a, PoiClass>>
    ensures first { MatchOption result (((all_hits here.old []).records ≡ []) × (all_hits here.new [] ≡ no_hits)) (λ view. (all_hits here.old []).records ≡ view ∷ (all_hits here.new []).records) }
    ensures steps { steps.new + (all_hits here.new []).blocks ≡ steps.old + (all_hits here.old []).blocks }
{
    match here {
        Some(here) => here.next(steps),
        None => None,
    }
}
