//! Layers in the making.

ghost use Rattle.std.specs.Prelude.{◌≡◌, ◌≤◌, ◌+◌, ◌++◌, ◌∷◌, [], length, reverse, zip, IfOk, IfNone};
ghost use Rattle.std.specs.Option.{option_map, option_copied, option_to_list};
ghost use Rattle.layer_table.specs.Layers.{IsMap, key_of, last_of};

use crate::layer::Layer;
use owned_data::Mem;
use std::alloc::Global;
use std::marker::Model;

/// Changes, and room for more of them. It is seen as both.
#[derive(Drop)]
pub struct Pile<K, V> {
    keys: Vec<K>,
    values: Vec<Option<V>>,
    room: usize,
}

impl<K, V> Model for Pile<K, V> {
    ghost use Rattle.std.specs.Prelude.{◌≡◌, ◌≤◌, ◌+◌, zip};
    ghost use Rattle.std.specs.Vec.{vec_len, vec_capacity};
    ghost use Rattle.layer_table.specs.Layers.{Piled};

    ghost Value = { Piled K V };

    ghost view = { λ p. record { changes = zip p.keys.items p.values.items; room = p.room } };

    ghost invariant = { λ p. (vec_len p.keys ≡ vec_len p.values) × ((vec_len p.keys + p.room ≤ vec_capacity p.keys) × (vec_len p.values + p.room ≤ vec_capacity p.values)) };
}

impl<K: Drop, V: Drop> Pile<K, V> {
    /// No changes, and room for so many.
    pub fn with_room(alloc: Global, room: usize) -> Mem<Pile<K, V>>
        ensures changes { IfOk result (λ p. p.changes ≡ []) }
        ensures room { IfOk result (λ p. p.room ≡ room) }
    {
        Ok(Pile {
            keys: Vec::with_capacity(alloc, room)?,
            values: Vec::with_capacity(alloc, room)?,
            room,
        })
    }

    /// The key of the last change.
    pub fn last_key(&self) -> Option<&K>
        ensures { option_copied result ≡ option_map key_of (last_of self.now.changes) }
    {
        self.keys.last()
    }

    /// Takes the last change away, if there is one.
    pub fn pop(&mut self) -> Option<(K, Option<V>)>
        ensures changes { self.old.changes ≡ self.new.changes ++ option_to_list result }
        ensures none { IfNone result (self.old.changes ≡ []) }
        ensures room { self.new.room ≡ self.old.room + length (option_to_list result) }
    {
        let Some(key) = self.keys.pop() else {
            return None;
        };
        let Some(value) = self.values.pop() else {
            return None;
        };
        self.room += 1;
        Some((key, value))
    }

    /// Turns the changes round.
    pub fn reverse(&mut self)
        ensures changes { self.new.changes ≡ reverse self.old.changes }
        ensures room { self.new.room ≡ self.old.room }
    {
        self.keys.reverse();
        self.values.reverse();
    }

    /// Puts a change at the end. It takes no memory.
    pub fn push(&mut self, key: K, value: Option<V>)
        requires { 1 ≤ self.old.room }
        ensures changes { self.new.changes ≡ self.old.changes ++ (key, value) ∷ [] }
        ensures room { self.new.room + 1 ≡ self.old.room }
    {
        self.room -= 1;
        let _ = self.keys.push(key);
        let _ = self.values.push(value);
    }
}

impl<K: Ord, V> Pile<K, V> {
    /// The changes of a layer. There is no room for more.
    pub fn from_layer(layer: Layer<K, V>) -> Pile<K, V>
        ensures changes { result.changes ≡ layer }
        ensures room { result.room ≡ 0 }
        ensures rising { IsMap K.cmp layer }
    {
        let (keys, values) = layer.into_parts();
        Pile {
            keys,
            values,
            room: 0,
        }
    }

    /// The layer of these changes. It takes no memory.
    pub fn into_layer(self) -> Layer<K, V>
        requires { IsMap K.cmp self.changes }
        ensures { result ≡ self.changes }
    {
        let Pile { keys, values, .. } = self;
        Layer::from_parts(keys, values)
    }
}
