//! The places of rules, in the order of what the rules want of an object.
//!
//! Places of rules that want the same stand side by side, rising. So the first of them from a place on is
//! found by one binary search.

ghost use Rattle.std.specs.Prelude.{◌≡◌, ◌≤◌, true, false, length, IfOk};
ghost use Rattle.std.specs.List.{range_with_len};
ghost use Rattle.std.specs.List.Sorted.{IsPartitionPoint, IsPermutation, IsSortedBy};
ghost use Rattle.std.specs.Ordering.{ordering_then, nat_cmp, is_lt};
ghost use Rattle.std.specs.Cmp.Lexicographic.{slice_cmp};
ghost use Rattle.live_model.specs.Rules.{shape_rank};
ghost use Rattle.tag_rules.specs.Matching.{first_from};
ghost use Rattle.tag_rules.specs.Order.{IsOrder, bytes_or_none, place_cmp, seen_want, stand_cmp, want, want_at, want_cmp, wants};

use live_model::{Mem, Rule, Shape, Text};
use std::alloc::Global;
use std::cmp::Ordering;

/// What a rule wants of an object: its shape, and a tag of it by key and value. A value without a byte
/// stands for the star, which every value meets: the value of a rule has a byte.
#[derive(Clone, Copy)]
pub(crate) struct Wanted<'a> {
    pub(crate) shape: Shape,
    pub(crate) key: &'a [u8],
    pub(crate) value: &'a [u8],
}

/// The places of all rules in their order.
pub(crate) fn in_order(alloc: Global, rules: &[Rule]) -> Mem<Vec<u32>>
    requires { length rules.now ≤ 100000 }
    ensures { IfOk result (λ order. IsOrder rules.now order.items) }
{
    let mut order = places(alloc, rules.len() as u32)?;
    sort(rules, &mut order)?;
    Ok(order)
}

// The places below a count.
fn places(alloc: Global, count: u32) -> Mem<Vec<u32>>
    ensures { IfOk result (λ places. places.items ≡ range_with_len 0 count) }
{
    let mut places = Vec::new(alloc);
    for place in 0..count {
        places.push(place)?;
    }
    Ok(places)
}

fn sort(rules: &[Rule], order: &mut Vec<u32>) -> Mem<()>
    ensures all { IfOk result (λ _. IsPermutation order.old.items order.new.items) }
    ensures sorted { IfOk result (λ _. IsSortedBy (λ a b. is_lt (place_cmp rules.now a b)) order.new.items) }
{
    order.sort_by(|a, b| compare_places(rules, *a, *b))?;
    Ok(())
}

/// The place of the first rule at or after `from` that wants just this, out of the places in their order.
pub(crate) fn first_place(
    rules: &[Rule],
    order: &[u32],
    wanted: &Wanted<'_>,
    from: u32,
) -> Option<u32>
    requires { IsOrder rules.now order.now }
    ensures { result ≡ first_from (wants (seen_want wanted.now)) rules.now from }
{
    let Some(place) = order.get(count_before(rules, order, wanted, from)) else {
        return None;
    };
    match compare(&wanted_at(rules, *place), wanted) {
        Ordering::Equal => Some(*place),
        _ => None,
    }
}

// How many places stand before this want and this place.
fn count_before(rules: &[Rule], order: &[u32], wanted: &Wanted<'_>, from: u32) -> usize
    requires { IsOrder rules.now order.now }
    ensures { IsPartitionPoint (λ p. is_lt (stand_cmp rules.now p (seen_want wanted.now) from) ≡ true) (λ p. is_lt (stand_cmp rules.now p (seen_want wanted.now) from) ≡ false) order.now result }
{
    order.partition_point(|place| stands_before(rules, *place, wanted, from))
}

fn stands_before(rules: &[Rule], place: u32, wanted: &Wanted<'_>, from: u32) -> bool
    ensures { result ≡ is_lt (stand_cmp rules.now place (seen_want wanted.now) from) }
{
    compare_place(rules, place, wanted, from) == Ordering::Less
}

fn compare_places(rules: &[Rule], a: u32, b: u32) -> Ordering
    ensures { result ≡ place_cmp rules.now a b }
{
    compare_place(rules, a, &wanted_at(rules, b), b)
}

// By what the rule at a place wants, and then by the place.
fn compare_place(rules: &[Rule], place: u32, wanted: &Wanted<'_>, from: u32) -> Ordering
    ensures { result ≡ stand_cmp rules.now place (seen_want wanted.now) from }
{
    match compare(&wanted_at(rules, place), wanted) {
        Ordering::Equal => place.cmp(&from),
        unequal => unequal,
    }
}

// By shape, then by key, then by value.
fn compare(a: &Wanted<'_>, b: &Wanted<'_>) -> Ordering
    ensures { result ≡ want_cmp (seen_want a.now) (seen_want b.now) }
{
    match rank(a.shape).cmp(&rank(b.shape)) {
        Ordering::Equal => compare_tags(a, b),
        unequal => unequal,
    }
}

fn compare_tags(a: &Wanted<'_>, b: &Wanted<'_>) -> Ordering
    ensures { result ≡ ordering_then (slice_cmp nat_cmp a.now.key.now b.now.key.now) (slice_cmp nat_cmp a.now.value.now b.now.value.now) }
{
    match a.key.cmp(b.key) {
        Ordering::Equal => a.value.cmp(b.value),
        unequal => unequal,
    }
}

fn rank(shape: Shape) -> u8
    ensures { result ≡ shape_rank shape }
{
    match shape {
        Shape::Point => 0,
        Shape::Line => 1,
        Shape::Area => 2,
    }
}

// What the rule at a place wants; there is always one.
fn wanted_at(rules: &[Rule], place: u32) -> Wanted<'_>
    ensures { seen_want result ≡ want_at rules.now place }
{
    match rules.get(place as usize) {
        Some(rule) => want_of(rule),
        None => Wanted {
            shape: Shape::Point,
            key: &[],
            value: &[],
        },
    }
}

fn want_of(rule: &Rule) -> Wanted<'_>
    ensures { seen_want result ≡ want rule.now }
{
    Wanted {
        shape: rule.shape,
        key: rule.key.as_bytes(),
        value: bytes_or_none(&rule.value),
    }
}

fn bytes_or_none(text: &Option<Text>) -> &[u8]
    ensures { result.now ≡ bytes_or_none text.now }
{
    match text {
        Some(text) => text.as_bytes(),
        None => &[],
    }
}
