//! Look-ups in the objects of a store.

ghost use Rattle.std.specs.Prelude.{◌≡◌, ◌==◌, find, IfSome};
ghost use Rattle.std.specs.Option.{option_copied};
ghost use Rattle.live_model.specs.Ids.{IsId, ordinal};
ghost use Rattle.live_model.specs.Stores.{key};
ghost use Rattle.live_model.specs.Closures.{entity_at, node_id};
ghost use Rattle.entity_store.specs.Changes.{after_changes};

use crate::store::{Staged, Store};
use live_model::{Entity, ObjId};
use std::marker::Model;

/// How far the numbers of ids are moved up to make their places.
const LIFT: u64 = 1 << 48;

/// The objects of a store as they are, or as they are after what is staged. It is seen as the list of its entities.
#[derive(Drop)]
pub struct Look<'a> {
    store: &'a Store,
    staged: Option<&'a Staged>,
}

impl<'a> Model for Look<'a> {
    ghost use Rattle.std.specs.Prelude.{List};
    ghost use Rattle.std.specs.Option.{option_copied};
    ghost use Rattle.live_model.specs.declared.objects.Entity.{Entity};
    ghost use Rattle.entity_store.specs.Changes.{looked_at};

    ghost Value = { List Entity };

    ghost view = { λ l. looked_at l.store.now.entities (option_copied l.staged) };
}

impl<'a> Look<'a> {
    /// The objects that are in the store now. It takes no memory.
    pub fn now(store: &'a Store) -> Look<'a>
        ensures { result ≡ store.now.entities }
    {
        Look {
            store,
            staged: None,
        }
    }

    /// The objects that are in the store after what is staged. It takes no memory.
    pub fn then(store: &'a Store, staged: &'a Staged) -> Look<'a>
        ensures { result ≡ after_changes store.now.entities staged.now }
    {
        Look {
            store,
            staged: Some(staged),
        }
    }

    /// The entity with this id. `None` exactly where there is none. It takes a binary search in each layer, and no memory.
    pub fn get(&self, id: &ObjId) -> Option<&Entity>
        ensures found { option_copied result ≡ entity_at self.now id.now }
        ensures same { IfSome result (λ e. e.now.id ≡ id.now) }
    {
        self.at(id.ordinal())
    }

    /// The node with this number. `None` exactly where there is none. It takes a binary search in each layer, and no memory.
    ///
    /// The references of a good way are of magnitude at most 2^48. Another number is looked for at the
    /// place that it would have in the order of ids.
    pub fn node(&self, number: i64) -> Option<&Entity>
        ensures { option_copied result ≡ entity_at self.now (node_id number) }
    {
        self.at(place_of_node(number))
    }

    /// The entity whose id has this place in the order of ids.
    fn at(&self, place: u64) -> Option<&Entity>
        ensures found { option_copied result ≡ find (λ e. key e == place) self.now }
        ensures same { IfSome result (λ e. key e.now ≡ place) }
        ensures good { IfSome result (λ e. IsId e.now.id) }
    {
        let Some(entity) = self.found_at(place) else {
            return None;
        };
        let _ordinal = entity.id.ordinal();
        Some(entity)
    }

    /// The same, where the staged lines are asked first.
    fn found_at(&self, place: u64) -> Option<&Entity>
        ensures { option_copied result ≡ find (λ e. key e == place) self.now }
    {
        match self.staged {
            Some(staged) => at_after(self.store, staged, place),
            None => self.store.at(place),
        }
    }
}

/// The entity whose id has this place after what is staged.
fn at_after<'a>(store: &'a Store, staged: &'a Staged, place: u64) -> Option<&'a Entity>
    ensures { option_copied result ≡ find (λ e. key e == place) (after_changes store.now.entities staged.now) }
{
    match staged.at(place) {
        Some((_, value)) => value,
        None => store.at(place),
    }
}

/// The place of a node of this number in the order of ids; numbers under -2^48 have the least one.
pub fn place_of_node(number: i64) -> u64
    ensures { result ≡ ordinal (node_id number) }
{
    if number < 0 {
        LIFT.saturating_sub(number.unsigned_abs())
    } else {
        LIFT + number.unsigned_abs()
    }
}
