//! What has to hold of a map record, rule by rule, in its block.

ghost use Rattle.std.specs.Prelude.{◌≡◌, ◌≤◌, ◌&&◌, slice_get, true, false};
ghost use Rattle.std.specs.Option.{option_map_or};
ghost use Rattle.live_model.specs.Records.{is_map};
ghost use Rattle.live_model.specs.Rules.{shape_rank};
ghost use Rattle.file_grammar.specs.BoxRules.{is_ordinal};
ghost use Rattle.file_grammar.specs.MapRules.{draws, is_count_for, is_drawn_of};
ghost use Rattle.map_section.specs.EntryFacts.{IsGoodMap, may_follow, rises, seen_facts};
ghost use Rattle.file_grammar.specs.Facts.{earlier, first_failing};
ghost use Rattle.boxed_exact.specs.Sides.{AreRising, beside};

use crate::entries::EntryFields;
use boxed_exact::{Around, PointsSeen, has_mark, is_marked, is_node, is_ordinal, is_way};
use file_grammar::FirstBreak;
use live_model::{Class, Rule, Shape};
use obf_wire::FileKind;
use tag_rules::Rules;

/// What the order of records goes by.
#[derive(Clone, Copy, Debug)]
pub struct Key {
    pub ordinal: u128,
    pub rule: u64,
}

/// A record of a block as it was seen: the place of its message, its ordinal, its fields and its points.
#[derive(Clone, Copy, Debug)]
pub(crate) struct EntrySeen {
    pub(crate) at: usize,
    pub(crate) ordinal: u128,
    pub(crate) fields: EntryFields,
    pub(crate) points: PointsSeen,
}

/// Checks every rule of a record after another one, in a block of so many texts.
pub(crate) fn check_entry(
    entry: &EntrySeen,
    before: Option<Key>,
    texts: usize,
    around: &Around<'_>,
    first: &mut FirstBreak,
)
    requires { AreRising around.now.marks }
    ensures { first.new ≡ earlier first.old (first_failing (seen_facts (beside around.now) texts before entry.now)) }
{
    let fields = &entry.fields;
    let shape = fields.shape.value;
    let key = Key {
        ordinal: entry.ordinal,
        rule: fields.rule.value,
    };
    first.ask(entry.at, FileKind::BadOrder, may_follow(before, key));
    first.ask(fields.step.at, FileKind::BadId, is_id(shape, entry.ordinal));
    first.ask(
        fields.step.at,
        FileKind::BadMark,
        is_marked(around.marks, entry.ordinal),
    );
    first.ask(
        fields.rule.at,
        FileKind::BadRef,
        is_drawn_by(around.rules, fields.rule.value, shape),
    );
    first.ask(fields.shape.at, FileKind::BadRef, shape <= 2);
    first.ask(
        fields.name.at,
        FileKind::BadRef,
        fields.name.value <= texts as u64,
    );
    first.ask(
        fields.points.at,
        FileKind::BadPoint,
        are_points(shape, entry.points),
    );
}

/// Whether every rule of a record is sure to hold, but that its points are on the grid.
pub(crate) fn is_good(
    around: &Around<'_>,
    texts: usize,
    before: Option<Key>,
    key: Key,
    shape: u64,
    name: u64,
    count: usize,
) -> bool
    requires marks { AreRising around.now.marks }
    requires few { key.ordinal ≤ 18446744073709551615 }
    ensures { result ≡ true → IsGoodMap (beside around.now) texts before key shape name count }
{
    may_follow(before, key)
        && is_id(shape, key.ordinal)
        && has_mark(around.marks, key.ordinal as u64)
        && is_drawn_by(around.rules, key.rule, shape)
        && shape <= 2
        && name <= texts as u64
        && is_count_for(shape, count)
}

/// Whether the ordinal is one of an object that may have this shape.
fn is_id(shape: u64, ordinal: u128) -> bool
    ensures { result ≡ (is_ordinal ordinal && is_drawn_of shape ordinal) }
{
    is_ordinal(ordinal) && is_drawn_of(shape, ordinal)
}

/// Whether these may be the points of this shape.
fn are_points(shape: u64, points: PointsSeen) -> bool
    ensures { result ≡ (points.on_grid && is_count_for shape points.count) }
{
    points.on_grid && is_count_for(shape, points.count)
}

/// Whether the record may stand after the one before it.
fn may_follow(before: Option<Key>, key: Key) -> bool
    ensures { result ≡ may_follow before key }
{
    match before {
        None => true,
        Some(before) => rises(before, key),
    }
}

/// Whether one record may stand behind another: rising by ordinal and rule, where both are of objects.
fn rises(before: Key, key: Key) -> bool
    ensures { result ≡ rises before key }
{
    before.ordinal < key.ordinal
        || before.ordinal == key.ordinal && before.rule <= key.rule
        || !(is_ordinal(before.ordinal) && is_ordinal(key.ordinal))
}

/// Whether an object of this ordinal may have this shape.
fn is_drawn_of(shape: u64, ordinal: u128) -> bool
    ensures { result ≡ is_drawn_of shape ordinal }
{
    match shape {
        0 => is_node(ordinal),
        1 | 2 => is_way(ordinal),
        _ => is_node(ordinal) || is_way(ordinal),
    }
}

/// Whether this shape may have so many points.
fn is_count_for(shape: u64, count: usize) -> bool
    ensures { result ≡ is_count_for shape count }
{
    match shape {
        0 => count == 1,
        1 | 2 => 2 <= count,
        _ => true,
    }
}

/// Whether the rule of this number is one of the map, and of this shape.
fn is_drawn_by(rules: &Rules, number: u64, shape: u64) -> bool
    ensures { result ≡ option_map_or (draws shape) (slice_get rules.now number) false }
{
    match rules.as_slice().get(number as usize) {
        None => false,
        Some(rule) => draws(shape, rule),
    }
}

fn draws(shape: u64, rule: &Rule) -> bool
    ensures { result ≡ draws shape rule.now }
{
    shape_rank(rule.shape) == shape && is_map(&rule.class)
}

fn shape_rank(shape: Shape) -> u64
    ensures { result ≡ shape_rank shape }
{
    match shape {
        Shape::Point => 0,
        Shape::Line => 1,
        Shape::Area => 2,
    }
}

fn is_map(class: &Class) -> bool
    ensures { result ≡ is_map class.now }
{
    match class {
        Class::Map => true,
        Class::Poi(_) => false,
        Class::Road => false,
        Class::Place => false,
    }
}
