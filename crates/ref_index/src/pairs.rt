//! What refers to what, as pairs.

ghost use Rattle.std.specs.Prelude.{◌≡◌, ◌==◌, ◌≤◌, ◌-◌, ◌++◌, ℕ, length, take, drop, map, filter, flat_map, IfOk, OnOk};
ghost use Rattle.std.specs.List.Sorted.{IsNonDecreasingBy};
ghost use Rattle.std.specs.Option.{option_copied};
ghost use Rattle.layer_table.specs.Layers.{key_of, value_of};
ghost use Rattle.live_model.specs.Ids.{ordinal};
ghost use Rattle.live_model.specs.Closures.{node_id, referred, refers_to};
ghost use Rattle.ref_index.specs.Pairs.{pairs_for, pairs_in, rising_numbers, users_at};
ghost use Rattle.ref_index.specs.Indexes.{lists_for};

use crate::index::unless_empty;
use crate::sorting::rising;
use entity_store::{Store, place_of_node};
use live_model::{Entity, List, Mem, Member, ObjId};
use std::alloc::Global;
use std::marker::Model;

/// Ids with keys, sorted by their keys, so that the ids of one key are a part of one array. It is seen as the pairs.
#[derive(Drop)]
pub struct Pairs {
    targets: Vec<u64>,
    users: Vec<ObjId>,
}

impl Model for Pairs {
    ghost use Rattle.std.specs.Prelude.{◌≡◌, ℕ, List, zip};
    ghost use Rattle.std.specs.Vec.{vec_len};
    ghost use Rattle.std.specs.List.Sorted.{IsNonDecreasingBy};
    ghost use Rattle.live_model.specs.Ids.{Id};

    ghost Value = { List (ℕ × Id) };

    ghost view = { λ i. zip i.targets.items i.users.items };

    ghost invariant = { λ i. (vec_len i.targets ≡ vec_len i.users) × IsNonDecreasingBy (λ n. n) i.targets.items };
}

impl Pairs {
    /// The same pairs, sorted: those of one key keep their turns. The time is n log n.
    pub fn sorted(alloc: Global, pairs: Vec<(u64, ObjId)>) -> Mem<Pairs>
        ensures { IfOk result (λ sorted. (k : ℕ) → users_at k sorted ≡ users_at k pairs.items) }
    {
        let mut pairs = pairs;
        sort(&mut pairs)?;
        let (targets, users) = parted(alloc, pairs)?;
        Ok(Pairs { targets, users })
    }

    /// The ids with this key. It takes two binary searches and no memory.
    pub fn users(&self, target: u64) -> &[ObjId]
        ensures { result.now ≡ users_at target self.now }
    {
        let from = self.targets.partition_point(|other| *other < target);
        let to = self.targets.partition_point(|other| *other <= target);
        between(&self.users, from, to)
    }

    /// The ids of each key, as lists.
    pub fn lists(&self, alloc: Global) -> Mem<Vec<(u64, Option<List<ObjId>>)>>
        ensures { IfOk result (λ lists. lists.items ≡ lists_for (λ k. users_at k self.now) (rising_numbers (map key_of self.now))) }
    {
        let keys = rising(self.keys().to_vec(alloc)?)?;
        self.lists_at(alloc, keys)
    }

    /// The keys.
    fn keys(&self) -> &[u64]
        ensures { result.now ≡ map key_of self.now }
    {
        &self.targets
    }

    /// The ids of these keys, as lists.
    fn lists_at(&self, alloc: Global, keys: Vec<u64>) -> Mem<Vec<(u64, Option<List<ObjId>>)>>
        ensures { IfOk result (λ lists. lists.items ≡ lists_for (λ k. users_at k self.now) keys.items) }
    {
        let mut lists = Vec::with_capacity(alloc, keys.len())?;
        for key in keys {
            let users = self.users(key).to_vec(alloc)?;
            lists.push((key, unless_empty(users)))?;
        }
        Ok(lists)
    }
}

/// The part from one index to another.
fn between(users: &[ObjId], from: usize, to: usize) -> &[ObjId]
    requires rising { from ≤ to }
    requires inside { to ≤ length users.now }
    ensures { result.now ≡ take (to - from) (drop from users.now) }
{
    &users[from..to]
}

/// Of each object of the store in turn what it refers to, each once, and the object.
pub fn pairs_of(alloc: Global, store: &Store) -> Mem<Vec<(u64, ObjId)>>
    ensures { IfOk result (λ pairs. pairs.items ≡ flat_map pairs_in store.now.entities) }
{
    let mut pairs = Vec::new(alloc);
    for entity in store.entities() {
        put_pairs(alloc, Some(entity), entity.id, &mut pairs)?;
    }
    Ok(pairs)
}

/// The pairs in the order of their first parts; those of one first part keep their turns.
fn sort(pairs: &mut Vec<(u64, ObjId)>) -> Mem<()>
    ensures rising { IfOk result (λ _. IsNonDecreasingBy key_of pairs.new.items) }
    ensures turns { IfOk result (λ _. (k : ℕ) → filter (λ p. key_of p == k) pairs.new.items ≡ filter (λ p. key_of p == k) pairs.old.items) }
{
    pairs.sort_by_key(|pair| pair.0)?;
    Ok(())
}

/// The first parts and the second parts of pairs.
fn parted(alloc: Global, pairs: Vec<(u64, ObjId)>) -> Mem<(Vec<u64>, Vec<ObjId>)>
    ensures first { IfOk result (λ parts. parts.0.items ≡ map key_of pairs.items) }
    ensures second { IfOk result (λ parts. parts.1.items ≡ map value_of pairs.items) }
{
    let mut first = Vec::with_capacity(alloc, pairs.len())?;
    let mut second = Vec::with_capacity(alloc, pairs.len())?;
    for (target, user) in pairs {
        first.push(target)?;
        second.push(user)?;
    }
    Ok((first, second))
}

/// Puts the pairs of what an object refers to, each once, and of a user at the end.
pub fn put_pairs(
    alloc: Global,
    entity: Option<&Entity>,
    user: ObjId,
    pairs: &mut Vec<(u64, ObjId)>,
) -> Mem<()>
    ensures { OnOk result (pairs.new.items ≡ pairs.old.items ++ pairs_for user (referred (option_copied entity.entry))) }
{
    let mut places = Vec::new(alloc);
    put_places(entity, &mut places)?;
    put_each(rising(places)?, user, pairs)
}

/// Puts pairs of these targets and one user at the end.
fn put_each(targets: Vec<u64>, user: ObjId, pairs: &mut Vec<(u64, ObjId)>) -> Mem<()>
    ensures { OnOk result (pairs.new.items ≡ pairs.old.items ++ map (λ t. (t, user)) targets.items) }
{
    for target in targets {
        pairs.push((target, user))?;
    }
    Ok(())
}

/// Puts the places, in the order of ids, of what an object refers to at the end, as often as it is named.
pub fn put_places(entity: Option<&Entity>, places: &mut Vec<u64>) -> Mem<()>
    ensures { OnOk result (places.new.items ≡ places.old.items ++ map ordinal (referred (option_copied entity.entry))) }
{
    match entity {
        Some(entity) => put_referred(entity, places),
        None => Ok(()),
    }
}

/// The same of an object that is there.
fn put_referred(entity: &Entity, places: &mut Vec<u64>) -> Mem<()>
    ensures { OnOk result (places.new.items ≡ places.old.items ++ map ordinal (refers_to entity.now)) }
{
    put_nodes(entity.refs.as_slice(), places)?;
    put_members(entity.members.as_slice(), places)?;
    Ok(())
}

/// Puts the places of nodes at the end.
fn put_nodes(numbers: &[i64], places: &mut Vec<u64>) -> Mem<()>
    ensures { OnOk result (places.new.items ≡ places.old.items ++ map (λ n. ordinal (node_id n)) numbers.now) }
{
    for number in numbers {
        places.push(place_of_node(*number))?;
    }
    Ok(())
}

/// Puts the places of what members name at the end.
fn put_members(members: &[Member], places: &mut Vec<u64>) -> Mem<()>
    ensures { OnOk result (places.new.items ≡ places.old.items ++ map (λ m. ordinal m.target) members.now) }
{
    for member in members {
        places.push(member.target.ordinal())?;
    }
    Ok(())
}
