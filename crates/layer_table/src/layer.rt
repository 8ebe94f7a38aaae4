//! One layer of changes.

ghost use Rattle.std.specs.Prelude.{◌≡◌, ◌↔◌, [], ◌<◌, ◌≤◌, Option, Some, None, length, map, zip, IfOk, IfSome, IfNone, IsTrue, IsSome};
ghost use Rattle.std.specs.Option.{option_map, option_copied};
ghost use Rattle.std.specs.List.{slice_get};
ghost use Rattle.std.specs.Vec.{vec_len};
ghost use Rattle.ordered_lists.specs.Ordered.{put_all};
ghost use Rattle.layer_table.specs.Layers.{IsMap, is_first, pair_at, change_seen, key_of, next_of, value_of};

use crate::pile::Pile;
use owned_data::Mem;
use std::alloc::Global;
use std::cmp::Ordering;
use std::marker::Model;

/// Changes of a map: a key with a value is set, one without is removed. It is seen as its pairs, whose keys rise.
/// The keys stand in an array of their own, so that a search walks keys alone.
#[derive(Drop)]
pub struct Layer<K: Ord, V> {
    keys: Vec<K>,
    values: Vec<Option<V>>,
}

impl<K: Ord, V> Model for Layer<K, V> {
    ghost use Rattle.std.specs.Prelude.{◌≡◌, List, Option, zip, length};
    ghost use Rattle.layer_table.specs.Layers.{IsMap};

    ghost Value = { List (K × Option V) };

    ghost view = { λ l. zip l.keys.items l.values.items };

    ghost invariant = { λ l. (length l.keys.items ≡ length l.values.items) × IsMap K.cmp (zip l.keys.items l.values.items) };
}

impl<K: Ord + Drop, V: Drop> Layer<K, V> {
    /// The layer of these pairs. `None` exactly where their keys do not rise strictly.
    pub fn from_rising(alloc: Global, pairs: Vec<(K, Option<V>)>) -> Mem<Option<Layer<K, V>>>
        ensures layer { IfOk result (λ found. IfSome found (λ l. l ≡ pairs.items)) }
        ensures exact { IfOk result (λ found. IsSome found ↔ IsMap K.cmp pairs.items) }
    {
        if is_rising(&pairs) {
            Ok(Some(split(alloc, pairs)?))
        } else {
            Ok(None)
        }
    }

    /// The layer that these changes make in turn: of those with one key the last stands. The time is n log n at most,
    /// and linear where their keys rise.
    pub fn from_changes(alloc: Global, changes: Vec<(K, Option<V>)>) -> Mem<Layer<K, V>>
        ensures { IfOk result (λ l. l ≡ put_all K.cmp key_of [] changes.items) }
    {
        if is_rising(&changes) {
            return split(alloc, changes);
        }
        split(alloc, in_order(changes)?)
    }
}

impl<K: Ord, V> Layer<K, V> {
    /// The layer of these keys, which rise, each with the value beside it. It takes no memory.
    pub fn from_parts(keys: Vec<K>, values: Vec<Option<V>>) -> Layer<K, V>
        requires beside { length keys.items ≡ length values.items }
        requires rising { IsMap K.cmp (zip keys.items values.items) }
        ensures { result ≡ zip keys.items values.items }
    {
        Layer { keys, values }
    }

    /// Its keys, and the values beside them. It takes no memory.
    pub fn into_parts(self) -> (Vec<K>, Vec<Option<V>>)
        ensures pairs { zip result.0.items result.1.items ≡ self }
        ensures beside { vec_len result.0 ≡ vec_len result.1 }
        ensures rising { IsMap K.cmp self }
    {
        let Layer { keys, values } = self;
        (keys, values)
    }

    /// How many keys there are.
    pub fn len(&self) -> usize
        ensures len { result ≡ length self.now }
        ensures rising { IsMap K.cmp self.now }
    {
        self.keys.len()
    }

    /// What stands beside the keys.
    pub fn values(&self) -> &[Option<V>]
        ensures values { result.now ≡ map value_of self.now }
        ensures rising { IsMap K.cmp self.now }
    {
        self.values.as_slice()
    }

    /// Where a key stands.
    fn place(&self, key: &K) -> Option<usize>
        ensures found { IfSome result (λ i. slice_get self.now i ≡ pair_at K.cmp key.now self.now) }
        ensures some { IfSome result (λ i. i < length self.now) }
        ensures none { IfNone result (pair_at K.cmp key.now self.now ≡ None) }
    {
        match self.keys.binary_search(key) {
            Ok(at) => Some(at),
            Err(_) => None,
        }
    }

    /// The pair at a key. `None` exactly where the layer has none.
    pub fn pair(&self, key: &K) -> Option<(&K, Option<&V>)>
        ensures pair { option_map change_seen result ≡ pair_at K.cmp key.now self.now }
        ensures rising { IsMap K.cmp self.now }
    {
        match self.place(key) {
            Some(at) => Some((&self.keys[at], self.values[at].as_ref())),
            None => None,
        }
    }

    /// The least key above this one, or the first of all.
    pub fn first_above(&self, last: Option<&K>) -> Option<&K>
        ensures { option_copied result ≡ option_map key_of (next_of K.cmp (option_copied last.entry) self.now) }
    {
        match last {
            Some(key) => self.key_at(self.place_above(key)),
            None => self.key_at(0),
        }
    }

    /// The key at a place.
    fn key_at(&self, place: usize) -> Option<&K>
        ensures { option_copied result ≡ option_map key_of (slice_get self.now place) }
    {
        self.keys.get(place)
    }

    /// Where the first key above this one stands, or would stand.
    fn place_above(&self, key: &K) -> usize
        ensures { slice_get self.now result ≡ next_of K.cmp (Some key.now) self.now }
    {
        match self.keys.binary_search(key) {
            Ok(at) => at + 1,
            Err(at) => at,
        }
    }
}

/// Whether each key comes before the next one.
fn is_rising<K: Ord, W>(pairs: &[(K, W)]) -> bool
    ensures { IsTrue result ↔ IsMap K.cmp pairs.now }
{
    let mut rest = pairs;
    while let Some((first, after)) = rest.split_first() {
        if !comes_first(&first.0, after) {
            return false;
        }
        rest = after;
    }
    true
}

/// Whether a key comes before the first of these, if there is one.
fn comes_first<K: Ord, W>(key: &K, pairs: &[(K, W)]) -> bool
    ensures { result ≡ is_first K.cmp key.now pairs.now }
{
    match pairs {
        [next, ..] => key.cmp(&next.0) == Ordering::Less,
        [] => true,
    }
}

/// The changes in the order of their keys, and of those with one key the last alone.
fn in_order<K: Ord + Drop, W: Drop>(changes: Vec<(K, W)>) -> Mem<Vec<(K, W)>>
    ensures { IfOk result (λ kept. kept.items ≡ put_all K.cmp key_of [] changes.items) }
{
    let mut changes = changes;
    // What came last now stands first of its key, and a stable sort leaves it there.
    changes.reverse();
    changes.sort_by(|a, b| a.0.cmp(&b.0))?;
    changes.dedup_by(|a, b| a.0.cmp(&b.0) == Ordering::Equal);
    Ok(changes)
}

/// The layer of pairs whose keys rise.
fn split<K: Ord + Drop, V: Drop>(alloc: Global, pairs: Vec<(K, Option<V>)>) -> Mem<Layer<K, V>>
    requires { IsMap K.cmp pairs.items }
    ensures { IfOk result (λ l. l ≡ pairs.items) }
{
    let mut pile = Pile::with_room(alloc, pairs.len())?;
    for (key, value) in pairs {
        pile.push(key, value);
    }
    Ok(pile.into_layer())
}
