//! Stores, and what is staged for them.

ghost use Rattle.std.specs.Prelude.{◌≡◌, ◌==◌, ◌≤◌, ◌+◌, [], List, find, IfOk, OnOk, IfSome};
ghost use Rattle.std.specs.List.{AllByRecursion};
ghost use Rattle.std.specs.Option.{option_copied, option_map};
ghost use Rattle.std.specs.Ordering.{nat_cmp};
ghost use Rattle.layer_table.specs.Layers.{IsMap, change_seen, pair_at};
ghost use Rattle.live_model.specs.declared.objects.Entity.{Entity};
ghost use Rattle.live_model.specs.Ids.{IsId, ordinal};
ghost use Rattle.live_model.specs.Objects.{IsGoodLine};
ghost use Rattle.live_model.specs.Stores.{key, apply, IsStore, IsRising};
ghost use Rattle.entity_store.specs.Changes.{AreKeyed, after_changes};
ghost use Rattle.entity_store.specs.Lookups.{first_above, next_of};

use crate::changes::{copied, layer_of};
use layer_table::{Layer, Layered, Values};
use live_model::{Entity, Line, Mem, ObjId};
use std::alloc::Global;
use std::marker::Model;

/// How many layers a store has at most after a change was staged.
const MOST_LAYERS: usize = 32;

/// The live objects of a map, seen as the list of its entities, whose ids rise strictly, and as the number of its layers
/// and for how many more there is room.
#[derive(Drop)]
pub struct Store {
    table: Layered<u64, Entity>,
}

impl Model for Store {
    ghost use Rattle.std.specs.Ordering.{nat_cmp};
    ghost use Rattle.layer_table.specs.Layers.{IsMap};
    ghost use Rattle.entity_store.specs.Changes.{Stored, AreTagged, entities_of};

    ghost Value = { Stored };

    ghost view = { λ s. record { entities = entities_of s.table.map; spare = s.table.spare; depth = s.table.depth } };

    ghost invariant = { λ s. AreTagged s.table.map × IsMap nat_cmp s.table.map };
}

/// What lines change in a store. It is seen as its changes.
#[derive(Drop)]
pub struct Staged {
    layer: Layer<u64, Entity>,
}

impl Model for Staged {
    ghost use Rattle.std.specs.Prelude.{ℕ, List, Option};
    ghost use Rattle.live_model.specs.declared.objects.Entity.{Entity};
    ghost use Rattle.entity_store.specs.Changes.{AreKeyed};

    ghost Value = { List (ℕ × Option Entity) };

    ghost view = { λ s. s.layer };

    ghost invariant = { λ s. AreKeyed s.layer };
}

impl Store {
    /// The store of no entities. It takes no memory.
    pub fn empty(alloc: Global) -> Store
        ensures { result.entities ≡ [] }
    {
        Store {
            table: Layered::new(alloc),
        }
    }

    /// What the lines leave, applied in turn to no entities: of the lines of one id the last decides. The
    /// entities are moved out of the lines, and after want of memory they are gone. The time is n log n
    /// at most, and linear where no id is below the one before it.
    pub fn from_lines(alloc: Global, lines: Vec<Line>) -> Mem<Store>
        ensures store { IfOk result (λ s. s.entities ≡ apply [] lines.items) }
        ensures good { AllByRecursion IsGoodLine lines.items → IfOk result (λ s. IsStore s.entities) }
    {
        let mut store = Store::empty(alloc);
        let staged = store.stage_lines(alloc, lines)?;
        store.commit(staged);
        Ok(store)
    }

    /// What the lines leave, applied in turn to no entities, as `from_lines` says. The lines are copied.
    pub fn build(alloc: Global, lines: &[Line]) -> Mem<Store>
        ensures store { IfOk result (λ s. s.entities ≡ apply [] lines.now) }
        ensures good { AllByRecursion IsGoodLine lines.now → IfOk result (λ s. IsStore s.entities) }
    {
        Store::from_lines(alloc, copied(alloc, lines)?)
    }

    /// Stages lines: what they leave, applied in turn to the entities, stands beside the store until the store is
    /// changed. The entities stay, there is no less room and there are no more layers than before, and after out of
    /// memory nothing is staged. The lines may come in any order, and are copied. It costs what the lines are, and now
    /// and then some layers of changes are merged.
    pub fn stage(&mut self, alloc: Global, lines: &[Line]) -> Mem<Staged>
        ensures entities { self.new.entities ≡ self.old.entities }
        ensures staged { IfOk result (λ s. after_changes self.old.entities s ≡ apply self.old.entities lines.now) }
        ensures kept { self.old.spare ≤ self.new.spare }
        ensures fewer { self.new.depth ≤ self.old.depth }
        ensures room { OnOk result (1 ≤ self.new.spare) }
        ensures depth { OnOk result (self.new.depth ≤ 32) }
    {
        self.stage_lines(alloc, copied(alloc, lines)?)
    }

    /// The same of lines that are given away.
    fn stage_lines(&mut self, alloc: Global, lines: Vec<Line>) -> Mem<Staged>
        ensures entities { self.new.entities ≡ self.old.entities }
        ensures staged { IfOk result (λ s. after_changes self.old.entities s ≡ apply self.old.entities lines.items) }
        ensures kept { self.old.spare ≤ self.new.spare }
        ensures fewer { self.new.depth ≤ self.old.depth }
        ensures room { OnOk result (1 ≤ self.new.spare) }
        ensures depth { OnOk result (self.new.depth ≤ 32) }
    {
        let _depth = self.depth();
        let staged = Staged::of_lines(alloc, lines)?;
        self.make_room(alloc)?;
        Ok(staged)
    }

    /// Makes room for a layer, with few layers below it.
    fn make_room(&mut self, alloc: Global) -> Mem<()>
        ensures entities { self.new.entities ≡ self.old.entities }
        ensures kept { self.old.spare ≤ self.new.spare }
        ensures fewer { self.new.depth ≤ self.old.depth }
        ensures room { OnOk result (1 ≤ self.new.spare) }
        ensures depth { OnOk result (self.new.depth ≤ 32) }
    {
        self.table.settle(alloc)?;
        if self.table.depth() >= MOST_LAYERS {
            self.table.compact(alloc)?;
        }
        self.table.reserve_layer()
    }

    /// Makes what is staged the store: its entities are those after the lines that were staged, where they were staged
    /// for these entities. It takes no memory.
    pub fn commit(&mut self, staged: Staged)
        requires { 1 ≤ self.old.spare }
        ensures entities { self.new.entities ≡ after_changes self.old.entities staged }
        ensures spare { self.new.spare + 1 ≡ self.old.spare }
        ensures depth { self.new.depth ≡ self.old.depth + 1 }
    {
        let Staged { layer } = staged;
        self.table.push_layer(layer);
    }

    /// How many layers there are.
    pub fn depth(&self) -> usize
        ensures depth { result ≡ self.now.depth }
        ensures rising { IsRising self.now.entities }
    {
        self.table.depth()
    }

    /// The entities in the order of their ids. Where there is one layer, going over them takes a step for each.
    pub fn entities(&self) -> Values<'_, u64, Entity>
        ensures list { result ≡ self.now.entities }
        ensures rising { IsRising self.now.entities }
    {
        self.table.values()
    }

    /// The entity with this id. `None` exactly where there is none. It takes a binary search in each layer, and no memory.
    pub fn get(&self, id: &ObjId) -> Option<&Entity>
        ensures found { option_copied result ≡ find (λ e. key e == ordinal id.now) self.now.entities }
        ensures same { IfSome result (λ e. e.now.id ≡ id.now) }
    {
        self.at(id.ordinal())
    }

    /// The entity whose id has this ordinal.
    pub(crate) fn at(&self, wanted: u64) -> Option<&Entity>
        ensures found { option_copied result ≡ find (λ e. key e == wanted) self.now.entities }
        ensures same { IfSome result (λ e. key e.now ≡ wanted) }
        ensures good { IfSome result (λ e. IsId e.now.id) }
    {
        let Some(entity) = self.table.get(&wanted) else {
            return None;
        };
        let _ordinal = entity.id.ordinal();
        Some(entity)
    }

    /// The entity with the least id above this one, or the first entity where no id is given. `None`
    /// exactly where there is none. It takes a binary search in each layer, and no memory.
    pub fn next_after(&self, id: Option<&ObjId>) -> Option<&Entity>
        ensures { option_copied result ≡ next_of (option_copied id.entry) self.now.entities }
    {
        match id {
            None => self.above(None),
            Some(last) => self.above(Some(&last.ordinal())),
        }
    }

    /// The entity of the least ordinal above this one, or the first.
    fn above(&self, last: Option<&u64>) -> Option<&Entity>
        ensures { option_copied result ≡ first_above (option_copied last.entry) self.now.entities }
    {
        match self.table.next_after(last) {
            Some((_, entity)) => Some(entity),
            None => None,
        }
    }
}

impl Staged {
    /// What the lines leave at their ids.
    fn of_lines(alloc: Global, lines: Vec<Line>) -> Mem<Staged>
        ensures { IfOk result (λ s. (es : List Entity) → IsRising es → after_changes es s ≡ apply es lines.items) }
    {
        let layer = layer_of(alloc, lines)?;
        Ok(Staged { layer })
    }

    /// What the lines leave at an ordinal: `None` where they are about no object there.
    pub(crate) fn at(&self, place: u64) -> Option<(&u64, Option<&Entity>)>
        ensures found { option_map change_seen result ≡ pair_at nat_cmp place self.now }
        ensures rising { IsMap nat_cmp self.now }
        ensures keyed { AreKeyed self.now }
    {
        self.layer.pair(&place)
    }
}
