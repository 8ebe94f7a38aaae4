//! Layers as one layer.

ghost use Rattle.std.specs.Prelude.{◌≡◌, ◌≤◌, ◌+◌, ◌++◌, [], List, false, length, IfNone, IfSome};
ghost use Rattle.std.specs.Option.{option_to_list, option_copied};
ghost use Rattle.ordered_lists.specs.Ordered.{put_all};
ghost use Rattle.layer_table.specs.Layers.{IsMap, changes_in, compared_keys, kept, key_of, laid, under};

use crate::layer::Layer;
use crate::pile::Pile;
use std::cmp::Ordering;
use std::mem;

/// How many changes the layers have. `None` only where no number tells it.
pub fn count_changes<K: Ord, V>(layers: &[Layer<K, V>]) -> Option<usize>
    ensures { IfSome result (λ count. count ≡ changes_in layers.now) }
{
    match layers {
        [] => Some(0),
        [layer, after @ ..] => match count_changes(after) {
            Some(count) => count.checked_add(layer.len()),
            None => None,
        },
    }
}

/// The layers as one pile that rises, by way of two empty piles with room for all of their changes: over any map it is what they are.
/// Without `removals` the removals are left out, and it is what the layers are over the empty map. It takes no memory.
pub fn merged<K: Ord + Drop, V: Drop>(
    layers: Vec<Layer<K, V>>,
    mut upper: Pile<K, V>,
    mut out: Pile<K, V>,
    removals: bool,
) -> Pile<K, V>
    requires upper { upper.changes ≡ [] }
    requires upper_room { changes_in layers.items ≤ upper.room }
    requires out { out.changes ≡ [] }
    requires out_room { changes_in layers.items ≤ out.room }
    ensures rising { IsMap K.cmp result.changes }
    ensures same { (map : List (K × V)) → IsMap K.cmp map → (removals ≡ false → map ≡ []) → laid K.cmp map result.changes ≡ under K.cmp map layers.items }
{
    let mut rest = layers;
    while let Some(layer) = rest.pop() {
        let bottom = rest.is_empty();
        merge(
            &mut Pile::from_layer(layer),
            &mut upper,
            &mut out,
            removals || !bottom,
        );
        mem::swap(&mut upper, &mut out);
    }
    upper
}

/// Moves the changes of an older and a newer pile into an empty one that rises as they do: of two with one key the newer stands.
/// Without `removals` the removals are left out. It takes no memory.
fn merge<K: Ord + Drop, V: Drop>(
    older: &mut Pile<K, V>,
    newer: &mut Pile<K, V>,
    out: &mut Pile<K, V>,
    removals: bool,
)
    requires older { IsMap K.cmp older.old.changes }
    requires newer { IsMap K.cmp newer.old.changes }
    requires empty { out.old.changes ≡ [] }
    requires room { length older.old.changes + length newer.old.changes ≤ out.old.room }
    ensures changes { out.new.changes ≡ kept removals (put_all K.cmp key_of older.old.changes newer.old.changes) }
    ensures room { out.new.room + length out.new.changes ≡ out.old.room }
    ensures emptied { newer.new.changes ≡ [] }
    ensures regained { newer.new.room ≡ newer.old.room + length newer.old.changes }
{
    while let Some((key, value)) = take_last(older, newer) {
        if removals || value.is_some() {
            out.push(key, value);
        }
    }
    out.reverse();
}

/// Takes the last of the changes that an older and a newer pile make together. `None` exactly where both are empty.
fn take_last<K: Ord + Drop, V: Drop>(
    older: &mut Pile<K, V>,
    newer: &mut Pile<K, V>,
) -> Option<(K, Option<V>)>
    requires older { IsMap K.cmp older.old.changes }
    requires newer { IsMap K.cmp newer.old.changes }
    ensures last { put_all K.cmp key_of older.old.changes newer.old.changes ≡ put_all K.cmp key_of older.new.changes newer.new.changes ++ option_to_list result }
    ensures older { IsMap K.cmp older.new.changes }
    ensures newer { IsMap K.cmp newer.new.changes }
    ensures older_none { IfNone result (older.new.changes ≡ []) }
    ensures newer_none { IfNone result (newer.new.changes ≡ []) }
    ensures fewer { length older.new.changes + length newer.new.changes + length (option_to_list result) ≤ length older.old.changes + length newer.old.changes }
    ensures room { newer.new.room + length newer.new.changes ≡ newer.old.room + length newer.old.changes }
{
    match compare(older.last_key(), newer.last_key()) {
        Ordering::Less => newer.pop(),
        Ordering::Equal => {
            let _ = older.pop();
            newer.pop()
        }
        Ordering::Greater => older.pop(),
    }
}

/// How two keys compare, where one that is missing is less than any.
fn compare<K: Ord>(a: Option<&K>, b: Option<&K>) -> Ordering
    ensures { result ≡ compared_keys K.cmp (option_copied a.entry) (option_copied b.entry) }
{
    match (a, b) {
        (None, _) => Ordering::Less,
        (Some(_), None) => Ordering::Greater,
        (Some(a), Some(b)) => a.cmp(b),
    }
}
