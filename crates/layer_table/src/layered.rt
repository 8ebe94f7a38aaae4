//! Layers over one another.

ghost use Rattle.std.specs.Prelude.{◌≡◌, ◌≤◌, ◌<◌, ◌+◌, [], length, map, IfOk, OnErr, OnOk};
ghost use Rattle.std.specs.Option.{option_copied, option_map};
ghost use Rattle.layer_table.specs.Layers as Layers;
ghost use Rattle.layer_table.specs.Layers.{laid, under, pair_at, value_at, both_seen, changed_to, next_of, least_in, value_of, IsMap};
ghost use Rattle.std.specs.List.{AllByRecursion};

use crate::layer::Layer;
use crate::merging::{count_changes, merged};
use crate::pile::Pile;
use crate::values::Values;
use owned_data::{Mem, NoMemory};
use std::alloc::Global;
use std::cmp::Ordering;
use std::marker::Model;

/// A finite map in layers, the newest last. It is seen as the map, how many layers it has room for and how many it has.
#[derive(Drop)]
pub struct Layered<K: Ord, V> {
    layers: Vec<Layer<K, V>>,
    spare: usize,
}

impl<K: Ord, V> Model for Layered<K, V> {
    ghost use Rattle.std.specs.Prelude.{◌≡◌, ◌+◌, ◌≤◌, List, []};
    ghost use Rattle.std.specs.List.{AllByRecursion};
    ghost use Rattle.std.specs.Vec.{vec_capacity, vec_len};
    ghost use Rattle.layer_table.specs.Layers.{Table, IsMap, under};

    ghost Value = { Table K V };

    ghost view = { λ t. record { map = under K.cmp [] t.layers.items; spare = t.spare; depth = vec_len t.layers } };

    ghost invariant = { λ t. (vec_len t.layers + t.spare ≤ vec_capacity t.layers) × AllByRecursion (IsMap K.cmp) t.layers.items };
}

impl<K: Ord, V> Layered<K, V> {
    /// The empty map. It takes no memory.
    pub fn new(alloc: Global) -> Self
        ensures map { result.map ≡ [] }
        ensures spare { result.spare ≡ 0 }
        ensures depth { result.depth ≡ 0 }
    {
        Layered {
            layers: Vec::new(alloc),
            spare: 0,
        }
    }

    /// How many layers there are.
    pub fn depth(&self) -> usize
        ensures { result ≡ self.now.depth }
    {
        self.layers.len()
    }

    /// For how many more layers there is room.
    pub fn spare(&self) -> usize
        ensures { result ≡ self.now.spare }
    {
        self.spare
    }

    /// Makes room for a layer. The map stays, and after out of memory the table is as it was.
    pub fn reserve_layer(&mut self) -> Mem<()>
        ensures map { self.new.map ≡ self.old.map }
        ensures depth { self.new.depth ≡ self.old.depth }
        ensures kept { self.old.spare ≤ self.new.spare }
        ensures spare { OnOk result (1 ≤ self.new.spare) }
        ensures refused { OnErr result (self.new ≡ self.old) }
    {
        if self.spare == 0 {
            self.layers.reserve(1)?;
            self.spare = 1;
        }
        Ok(())
    }
}

impl<K: Ord, V> Layered<K, V> {
    /// The value at a key. `None` exactly where the map has none.
    pub fn get(&self, key: &K) -> Option<&V>
        ensures { option_copied result ≡ value_at K.cmp key.now self.now.map }
    {
        match seek(&self.layers, key) {
            Some((_, value)) => Some(value),
            None => None,
        }
    }
}

impl<K: Ord, V> Layered<K, V> {
    /// The values in the order of their keys.
    pub fn values(&self) -> Values<'_, K, V>
        ensures { result ≡ map value_of self.now.map }
    {
        match self.layers.as_slice() {
            [layer] => Values::alone(layer.values()),
            _ => Values::among(self),
        }
    }

    /// The pair of the least key above this one, or the first pair. `None` exactly where there is none.
    pub fn next_after(&self, key: Option<&K>) -> Option<(&K, &V)>
        ensures pair { option_map both_seen result ≡ next_of K.cmp (option_copied key.entry) self.now.map }
        ensures rising { IsMap K.cmp self.now.map }
    {
        next_in(&self.layers, key)
    }
}

impl<K: Ord + Drop, V: Drop> Layered<K, V> {
    /// Lays a layer over the map. It takes no memory.
    pub fn push_layer(&mut self, layer: Layer<K, V>)
        requires { 1 ≤ self.old.spare }
        ensures map { self.new.map ≡ laid K.cmp self.old.map layer }
        ensures spare { self.new.spare + 1 ≡ self.old.spare }
        ensures depth { self.new.depth ≡ self.old.depth + 1 }
    {
        let _len = layer.len();
        self.spare -= 1;
        let _ = self.layers.push(layer);
    }
}

impl<K: Ord + Drop, V: Drop> Layered<K, V> {
    /// Merges all layers into one. The map stays, and after out of memory the table is as it was. All memory is taken
    /// before a change is moved: room for the changes of all layers, twice.
    pub fn compact(&mut self, alloc: Global) -> Mem<()>
        ensures map { self.new.map ≡ self.old.map }
        ensures spare { self.old.spare ≤ self.new.spare }
        ensures fewer { self.new.depth ≤ self.old.depth }
        ensures depth { OnOk result (self.new.depth ≤ 1) }
        ensures refused { OnErr result (self.new ≡ self.old) }
    {
        self.merge_above(alloc, 0)
    }

    /// Merges the newest layers down to the first that has more than twice as many changes as all above it: half of
    /// its number, rounded down, is more than theirs. The map stays, and after out of memory the table is as it was.
    /// Where this comes before each push, a key is moved as often as the logarithm of the number of changes tells, and
    /// there are no more layers than that, whatever the map's size.
    pub fn settle(&mut self, alloc: Global) -> Mem<()>
        ensures map { self.new.map ≡ self.old.map }
        ensures spare { self.old.spare ≤ self.new.spare }
        ensures fewer { self.new.depth ≤ self.old.depth }
        ensures refused { OnErr result (self.new ≡ self.old) }
    {
        let kept = settled(&self.layers);
        self.merge_above(alloc, kept)
    }

    /// Merges the layers above the lowest ones, of which so many stay, into one.
    fn merge_above(&mut self, alloc: Global, kept: usize) -> Mem<()>
        ensures map { self.new.map ≡ self.old.map }
        ensures spare { self.new.spare ≡ self.old.spare }
        ensures fewer { self.new.depth ≤ self.old.depth }
        ensures depth { OnOk result (kept ≤ self.old.depth → self.new.depth ≤ kept + 1) }
        ensures refused { OnErr result (self.new ≡ self.old) }
    {
        if self.layers.len() <= kept || self.layers.len() - kept == 1 {
            return Ok(());
        }
        let Some(room) = count_changes(&self.layers[kept..]) else {
            return Err(NoMemory);
        };
        let upper = Pile::with_room(alloc, room)?;
        let out = Pile::with_room(alloc, room)?;
        let above = self.layers.split_off(kept)?;
        let one = merged(above, upper, out, kept > 0).into_layer();
        let _ = self.layers.push(one);
        Ok(())
    }
}

/// How many of the lowest layers stay where the newest ones are merged.
fn settled<K: Ord, V>(layers: &[Layer<K, V>]) -> usize
    ensures { result ≤ length layers.now }
{
    let mut rest = layers;
    let mut above: usize = 0;
    while let [lower @ .., layer] = rest {
        if above > 0 && layer.len() / 2 > above {
            break;
        }
        above = above.saturating_add(layer.len());
        rest = lower;
    }
    rest.len()
}

/// The pair at a key of the map under these layers: the newest layer that has the key decides.
fn seek<'a, K: Ord, V>(layers: &'a [Layer<K, V>], key: &K) -> Option<(&'a K, &'a V)>
    ensures { option_map both_seen result ≡ pair_at K.cmp key.now (under K.cmp [] layers.now) }
{
    let mut rest = layers;
    while let [before @ .., layer] = rest {
        if let Some((key, value)) = layer.pair(key) {
            return with_value(key, value);
        }
        rest = before;
    }
    None
}

/// A key with its value, if there is one.
fn with_value<'a, K, V>(key: &'a K, value: Option<&'a V>) -> Option<(&'a K, &'a V)>
    ensures { option_map both_seen result ≡ changed_to key.now (option_copied value.entry) }
{
    match value {
        Some(value) => Some((key, value)),
        None => None,
    }
}

/// The lesser of two keys, if there is one.
fn lesser<'a, K: Ord>(a: Option<&'a K>, b: Option<&'a K>) -> Option<&'a K>
    ensures { option_copied result ≡ Layers.lesser K.cmp (option_copied a.entry) (option_copied b.entry) }
{
    match (a, b) {
        (None, b) => b,
        (Some(a), None) => Some(a),
        (Some(a), Some(b)) => {
            if b.cmp(a) == Ordering::Less {
                Some(b)
            } else {
                Some(a)
            }
        }
    }
}

/// The least key above this one in any layer.
fn least_above<'a, K: Ord, V>(layers: &'a [Layer<K, V>], last: Option<&K>) -> Option<&'a K>
    ensures { option_copied result ≡ least_in K.cmp (option_copied last.entry) layers.now }
{
    match layers {
        [] => None,
        [layer, after @ ..] => lesser(layer.first_above(last), least_above(after, last)),
    }
}

/// The next pair of the map under these layers.
fn next_in<'a, K: Ord, V>(layers: &'a [Layer<K, V>], key: Option<&K>) -> Option<(&'a K, &'a V)>
    requires { AllByRecursion (IsMap K.cmp) layers.now }
    ensures { option_map both_seen result ≡ next_of K.cmp (option_copied key.entry) (under K.cmp [] layers.now) }
{
    let mut last = key;
    while let Some(next) = least_above(layers, last) {
        if let Some(pair) = seek(layers, next) {
            return Some(pair);
        }
        last = Some(next);
    }
    None
}
